// Literals, lists and records, as they are written.
ghost use Rattle.std.specs.Prelude.{◌≡◌, IfSome, map, option_map};
ghost use Rattle.std.specs.Rc.{rc_str_bytes};
ghost use Rattle.cedar_grammar.specs.Build.{trees};
ghost use Rattle.cedar_trees.specs.Bare.{bare, record_tree};
ghost use Rattle.cedar_world.specs.Bodies as world;
ghost use Rattle.cedar_held.specs.Lent.{fields_in};

use cedar_literals::literals::Literal;
use cedar_literals::uids::EntityUID;
use cedar_trees::expr::{Expr, ExprKind};
use std::collections::BTreeMap;
use std::rc::{Rc, RcStr};

/// The text of a string.
pub fn string_of(expr: &Expr) -> Option<&RcStr>
    ensures { option_map (λ text. rc_str_bytes text.now) result ≡ world.string_of (bare expr.now) }
{
    match &expr.expr_kind {
        ExprKind::Lit(Literal::String(text)) => Some(text),
        _ => None,
    }
}

/// The uid of an entity.
pub fn entity_of(expr: &Expr) -> Option<&EntityUID>
    ensures { option_map (λ uid. uid.now) result ≡ world.entity_of (bare expr.now) }
{
    let uid = shared_entity_of(expr)?;
    Some(uid)
}

/// The uid of an entity, as the expression shares it.
pub fn shared_entity_of(expr: &Expr) -> Option<&Rc<EntityUID>>
    ensures { option_map (λ uid. uid.now.value) result ≡ world.entity_of (bare expr.now) }
{
    match &expr.expr_kind {
        ExprKind::Lit(Literal::EntityUID(uid)) => Some(uid),
        _ => None,
    }
}

/// The items of a list, in their order.
pub fn items_of(expr: &Expr) -> Option<&[Expr]>
    ensures { option_map (λ items. trees (map bare items.now)) result ≡ world.trees_of (bare expr.now) }
{
    match &expr.expr_kind {
        ExprKind::Set(items) => Some(items),
        _ => None,
    }
}

/// The entries of a record, by their keys.
pub fn entries_of(expr: &Expr) -> Option<&BTreeMap<RcStr, Expr>>
    ensures fields { option_map (λ entries. fields_in entries.now) result ≡ world.fields_of (bare expr.now) }
    ensures tree { IfSome result (λ entries. bare expr.now ≡ record_tree (fields_in entries.now)) }
{
    match &expr.expr_kind {
        ExprKind::Record(entries) => Some(entries),
        _ => None,
    }
}
