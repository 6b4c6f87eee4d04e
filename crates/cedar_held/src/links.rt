// The body of a link.
ghost use Rattle.std.specs.Prelude.{◌≡◌, option_map};
ghost use Rattle.cedar_trees.specs.Bare.{bare};
ghost use Rattle.cedar_world.specs.Bodies as world;
ghost use Rattle.cedar_held.specs.Lent.{fields_in};
ghost use Rattle.cedar_held.specs.LinkBodies.{link_of};

use crate::fields::{has_only, optional_entity, required_string};
use crate::literals::entries_of;
use cedar_literals::uids::EntityUID;
use cedar_trees::expr::Expr;
use std::collections::BTreeMap;
use std::rc::RcStr;

/// A link to be made: the ids of the template and of the link, and the entities for its slots.
#[derive(Drop)]
pub struct LinkBody<'e> {
    pub template: &'e RcStr,
    pub id: &'e RcStr,
    pub principal: Option<&'e EntityUID>,
    pub resource: Option<&'e EntityUID>,
}

fn link_fields(entries: &BTreeMap<RcStr, Expr>) -> Option<LinkBody<'_>>
    ensures { option_map link_of result ≡ world.link_fields (fields_in entries.now) }
{
    Some(LinkBody {
        template: required_string(entries, "template")?,
        id: required_string(entries, "id")?,
        principal: optional_entity(entries, "principal")?,
        resource: optional_entity(entries, "resource")?,
    })
}

/// The link that a body states: a record of the strings `template` and `id`, of the entities
/// `principal` and `resource` as far as they are bound, and of nothing else. Takes no memory.
pub fn link_body(expr: &Expr) -> Option<LinkBody<'_>>
    ensures { option_map link_of result ≡ world.link_body (bare expr.now) }
{
    let entries = entries_of(expr)?;
    if has_only(entries, &["template", "id", "principal", "resource"]) {
        link_fields(entries)
    } else {
        None
    }
}
