// The entities that a session holds.
ghost use Rattle.std.specs.Prelude.{◌≡◌, false};
ghost use Rattle.std.specs.FinMap as finite;
ghost use Rattle.cedar_restricted.specs.Views.{borrowed_tree};
ghost use Rattle.cedar_grammar.specs.UnknownCalls.{holds_call};
ghost use Rattle.cedar_world.specs.Setting.{Setting};
ghost use Rattle.cedar_extensions.specs.Table.{as_table};
ghost use Rattle.cedar_entities.specs.Store.{held_at, is_partial_store, IsClosed};
ghost use Rattle.cedar_held.specs.Shown.{Shows};
ghost use Rattle.cedar_held.specs.Built.{HoldBuilt};
ghost use Rattle.cedar_held.specs.Fields.{Serves};
ghost use Rattle.cedar_held.specs.EntityEdits.{PutsBody, AddsBody, RemovesBody};
ghost use Rattle.cedar_held.specs.HoldingEntities.{IsShown, IsWhole, ShowsBuilt, shown_prop};

use crate::stores::{add_to, put_into, remove_from};
use crate::{listed_entities, set_of, uids_of};
use cedar_entities::store::Entities;
use cedar_extensions::extensions::Extensions;
use cedar_extensions::objects::ExtensionFunctionObject;
use cedar_replies::Refusal;
use cedar_restricted::borrowed::BorrowedRestrictedExpr;
use std::alloc::Global;
use std::marker::Model;

/// The entities that a session holds, whose attributes and tags are values that their trees make again.
/// Contracts see them as the world does: with their direct parents alone, which never make a cycle.
#[derive(Drop)]
pub struct HeldEntities {
    store: Entities,
    ghost shown: { IsShown store } by { shown_prop store },
}

impl Model for HeldEntities {
    ghost use Rattle.cedar_world.specs.World as world;
    ghost use Rattle.cedar_held.specs.HoldingEntities.{IsBuiltStore, entities_code};

    ghost Value = { world.Entities };

    ghost coded = { entities_code };

    ghost view = { λ held. held.shown.entities };

    ghost invariant = { λ held. IsBuiltStore held.store };
}

impl HeldEntities {
    /// No entities: nothing is held at any uid. Takes no memory. A session begins with these, and `add` and
    /// `put` bring others.
    pub fn new(alloc: Global) -> HeldEntities
        ensures { result ≡ finite.empty }
    {
        HeldEntities::from_store(Entities::new(alloc))
    }

    // The entities that a store shows.
    fn from_store(store: Entities) -> HeldEntities
        requires shown { IsShown store }
        requires whole { IsWhole store }
        requires built { ShowsBuilt store }
        ensures { Shows (held_at store) result }
    {
        HeldEntities { store }
    }

    /// The store of these entities, with all ancestors that their parents reach.
    pub fn store(&self) -> &Entities
        ensures shows { Shows (held_at result.now) self.now }
        ensures closed { IsClosed result.now }
        ensures whole { is_partial_store result.now ≡ false }
        ensures built { HoldBuilt self.now }
    {
        &self.store
    }

    /// Puts the entities that a body lists over those that are held: the last version of a uid stays.
    ///
    /// It is refused as [`listed_entities`] refuses the body, and `Cycle` where the parents would lead
    /// back to some entity. A refused put changes nothing.
    pub fn put<F: ExtensionFunctionObject>(
        &mut self,
        alloc: Global,
        body: BorrowedRestrictedExpr<'_>,
        extensions: &Extensions<'_, F>,
        depth: u32,
    ) -> Result<(), Refusal>
        ensures { (by : Setting) → Serves (as_table F.answers extensions.now) by (holds_call (borrowed_tree body.entry)) → PutsBody by depth (borrowed_tree body.entry) self.old result self.new }
    {
        let versions = listed_entities(alloc, body, extensions, depth)?;
        put_into(alloc, &mut self.store, versions)
    }

    /// Adds the entities that a body lists. One that is held stays as it is.
    ///
    /// It is refused as [`listed_entities`] refuses the body; `Duplicate` where a listed version isn't
    /// the one held, which has all its ancestors listed, or of a new entity isn't the first one listed;
    /// and `Cycle` where the parents would lead back to some entity. A refused call changes nothing.
    pub fn add<F: ExtensionFunctionObject>(
        &mut self,
        alloc: Global,
        body: BorrowedRestrictedExpr<'_>,
        extensions: &Extensions<'_, F>,
        depth: u32,
    ) -> Result<(), Refusal>
        ensures { (by : Setting) → Serves (as_table F.answers extensions.now) by (holds_call (borrowed_tree body.entry)) → AddsBody by depth (borrowed_tree body.entry) self.old result self.new }
    {
        let versions = listed_entities(alloc, body, extensions, depth)?;
        add_to(alloc, &mut self.store, versions)
    }

    /// Takes the entities away whose uids a body lists, with all edges from and to them.
    ///
    /// It is refused `Shape` where the body is no list of uids, and `Memory` where there was none. A
    /// refused removal changes nothing.
    pub fn remove(&mut self, alloc: Global, body: BorrowedRestrictedExpr<'_>) -> Result<(), Refusal>
        ensures { RemovesBody (borrowed_tree body.entry) self.old result self.new }
    {
        let Some(uids) = uids_of(alloc, body.as_expr())? else {
            return Err(Refusal::Shape);
        };
        let uids = set_of(alloc, &uids)?;
        remove_from(alloc, &mut self.store, &uids)
    }
}
