// Entities that bodies list.
ghost use Rattle.std.specs.Prelude.{◌≡◌, IfOk, false, map};
ghost use Rattle.cedar_extensions.specs.Table.{as_table};
ghost use Rattle.cedar_restricted.specs.Views.{borrowed_tree};
ghost use Rattle.cedar_grammar.specs.UnknownCalls.{holds_call};
ghost use Rattle.cedar_world.specs.Setting.{Setting};
ghost use Rattle.cedar_world.specs.Values.{some_entry};
ghost use Rattle.cedar_held.specs.Entities.{written_of};
ghost use Rattle.cedar_held.specs.Fields.{unrestricted, Serves};
ghost use Rattle.cedar_held.specs.Listing.{ShowVersions, AreMade, AreListed};

use crate::making::entity_of;
use crate::{EntityBody, entity_bodies};
use cedar_entities::entity::Entity;
use cedar_extensions::extensions::Extensions;
use cedar_extensions::objects::ExtensionFunctionObject;
use cedar_replies::Refusal;
use cedar_restricted::borrowed::BorrowedRestrictedExpr;
use std::alloc::Global;

// The entities of bodies, or none where some attribute or tag holds an unknown.
fn entities_of<F: ExtensionFunctionObject>(
    alloc: Global,
    bodies: &[EntityBody<'_>],
    extensions: &Extensions<'_, F>,
    depth: u32,
) -> Result<Option<Vec<Entity>>, Refusal>
    requires { some_entry unrestricted (map written_of bodies.now) ≡ false }
    ensures { AreMade (as_table F.answers extensions.now) depth (map written_of bodies.now) result }
{
    let mut entities = Vec::new(alloc);
    let mut holds_unknown = false;
    for body in bodies {
        match entity_of(alloc, body, extensions, depth)? {
            None => holds_unknown = true,
            Some(entity) => entities.push(entity)?,
        }
    }
    if holds_unknown {
        Ok(None)
    } else {
        Ok(Some(entities))
    }
}

/// The entities that a body lists, in its order: each with its attributes and tags evaluated within
/// the limit `depth`, and with its parents, beside which it keeps no ancestors.
///
/// It is refused `Shape` where the body is no such list. Else it is refused `Evaluation` where some part
/// of an attribute or tag errs that holds no unknown, and `NotAValue` where none does and one of these
/// holds an unknown. `Depth` stands only where the body is higher than the limit, and `Memory` where
/// there was none. The table of functions is the one that the body was read with.
pub fn listed_entities<F: ExtensionFunctionObject>(
    alloc: Global,
    body: BorrowedRestrictedExpr<'_>,
    extensions: &Extensions<'_, F>,
    depth: u32,
) -> Result<Vec<Entity>, Refusal>
    ensures listed { (by : Setting) → Serves (as_table F.answers extensions.now) by (holds_call (borrowed_tree body.entry)) → AreListed by depth (borrowed_tree body.entry) result }
    ensures versions { IfOk result (λ entities. ShowVersions entities.items) }
{
    let Some(bodies) = entity_bodies(alloc, body.as_expr())? else {
        return Err(Refusal::Shape);
    };
    match entities_of(alloc, &bodies, extensions, depth)? {
        None => Err(Refusal::NotAValue),
        Some(entities) => Ok(entities),
    }
}
