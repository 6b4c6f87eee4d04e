// The actions that references stand for.
ghost use Rattle.std.specs.Prelude.{◌≡◌, [], ◌∷◌, ◌++◌, Some, None, codes, cond, map, IfOk, OnOk, option_and_then, option_to_list};
ghost use Rattle.std.specs.BTreeMap.{get, is_at};
ghost use Rattle.std.specs.Rc.{rc_str_bytes};
ghost use Rattle.cedar_language.specs.Uid as language;
ghost use Rattle.cedar_language.specs.Order.{same_uid, text_cmp, name_cmp};
ghost use Rattle.cedar_schema_grammar.specs.Declared.{Declared, action_uid, first_of, places};
ghost use Rattle.cedar_schema_grammar.specs.Faults.{found_groups};
ghost use Rattle.cedar_schema_syntax.specs.View.{path_view, ref_view};
ghost use Rattle.cedar_schema_resolution.specs.Declarations.{action_view};
ghost use Rattle.cedar_validator_schema.specs.ActionNames.{uid_at, HaveUids, AreUidsOf, first_referred, all_referred};

use cedar_names::texts::SharedText;
use cedar_schema::{Places, TypeName};
use cedar_schema_resolution::{DeclaredAction, Uid, action_path};
use cedar_schema_syntax::{ActionRef, Path};
use std::alloc::{AllocError, Global};
use std::collections::BTreeMap;
use std::rc::RcStr;

/// The uids of the actions that are declared, by their ids, and then by their types.
#[derive(Drop)]
pub(crate) struct ActionNames {
    by_id: BTreeMap<SharedText, BTreeMap<TypeName, Uid>>,
}

impl ActionNames {
    /// The uids of these. Refused for memory alone.
    pub(crate) fn of(
        alloc: Global,
        actions: &[DeclaredAction<'_>],
    ) -> Result<ActionNames, AllocError>
        ensures { IfOk result (HaveUids (map action_view actions.now)) }
    {
        let mut names = ActionNames::new(alloc);
        for action in actions {
            let uid = Uid::of(alloc, action)?;
            names.put(alloc, uid)?;
        }
        Ok(names)
    }

    // No uids.
    fn new(alloc: Global) -> ActionNames
        ensures { (u : language.Uid) → uid_at result u ≡ None }
    {
        ActionNames {
            by_id: BTreeMap::new(alloc),
        }
    }

    // Takes out the uids of an id.
    fn take_types(&mut self, alloc: Global, id: &SharedText) -> BTreeMap<TypeName, Uid>
        ensures types { (n : language.Name) → get name_cmp result n ≡ option_and_then (λ m. get name_cmp m n) (get text_cmp self.old.by_id id.now) }
        ensures taken { (s : language.Text) → get text_cmp self.new.by_id s ≡ cond (is_at (text_cmp id.now) s) None (get text_cmp self.old.by_id s) }
    {
        match self.by_id.remove(id) {
            Some(types) => types,
            None => BTreeMap::new(alloc),
        }
    }

    // Puts a uid.
    fn put(&mut self, alloc: Global, uid: Uid) -> Result<(), AllocError>
        ensures { OnOk result ((u : language.Uid) → uid_at self.new u ≡ cond (same_uid uid u) (Some uid) (uid_at self.old u)) }
    {
        let id = uid.id().clone()?;
        let type_name = uid.type_name().clone()?;
        let mut types = self.take_types(alloc, &id);
        types.insert(type_name, uid)?;
        self.by_id.insert(id, types)?;
        Ok(())
    }

    // The action of this id whose type a path stands for in a namespace.
    fn find(
        &self,
        alloc: Global,
        namespace: &[SharedText],
        path: &Path,
        id: &RcStr,
    ) -> Result<Option<Uid>, AllocError>
        ensures { IfOk result (λ uid. uid ≡ first_of
            (λ m. uid_at self.now (record { type_name = m; id = rc_str_bytes id.now })) (places namespace.now (path_view path.now))) }
    {
        let places = Places::of(alloc, namespace, path)?;
        let id = SharedText::new(id.clone()?);
        let Some(types) = self.by_id.get(&id) else {
            return Ok(None);
        };
        match places.find(types) {
            Some(uid) => Ok(Some(uid.clone()?)),
            None => Ok(None),
        }
    }

    /// The action that is referred to in a namespace, if it is declared; one without the path of its type is of the type
    /// `Action`. Refused for memory alone.
    pub(crate) fn named(
        &self,
        alloc: Global,
        namespace: &[SharedText],
        written: &ActionRef,
    ) -> Result<Option<Uid>, AllocError>
        ensures { IfOk result (λ uid. uid ≡ first_referred self.now namespace.now (ref_view written.now)) }
    {
        match &written.type_name {
            Some(path) => self.find(alloc, namespace, path, &written.name),
            None => {
                let path = action_path(alloc)?;
                self.find(alloc, namespace, &path, &written.name)
            }
        }
    }

    // Puts the action that is referred to, if it is declared.
    fn add_named(
        &self,
        alloc: Global,
        namespace: &[SharedText],
        written: &ActionRef,
        found: &mut Vec<Uid>,
    ) -> Result<(), AllocError>
        ensures { OnOk result (found.new.items
            ≡ found.old.items ++ option_to_list (first_referred self.now namespace.now (ref_view written.now))) }
    {
        if let Some(uid) = self.named(alloc, namespace, written)? {
            found.push(uid)?;
        }
        Ok(())
    }

    // The actions that are referred to, so far as they are declared.
    fn all_named(
        &self,
        alloc: Global,
        namespace: &[SharedText],
        written: &[ActionRef],
    ) -> Result<Vec<Uid>, AllocError>
        ensures { IfOk result (λ found. found.items ≡ all_referred self.now namespace.now (map ref_view written.now)) }
    {
        let mut found = Vec::new(alloc);
        for one in written {
            self.add_named(alloc, namespace, one, &mut found)?;
        }
        Ok(found)
    }

    /// The groups that an action is in, so far as they are declared. Refused for memory alone.
    pub(crate) fn groups_of(
        &self,
        alloc: Global,
        action: &DeclaredAction<'_>,
    ) -> Result<Vec<Uid>, AllocError>
        ensures { IfOk result (λ groups. (d : Declared) → AreUidsOf d self.now
            → groups.items ≡ found_groups d (action_view action.now).namespace (action_view action.now).written.groups) }
    {
        self.all_named(alloc, action.namespace.words(), &action.written.groups)
    }
}
