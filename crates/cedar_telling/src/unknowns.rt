// Names of unknowns in contexts.
ghost use Rattle.std.specs.Prelude.{◌≡◌, map, option_map};
ghost use Rattle.std.specs.Rc.{rc_str_bytes};
ghost use Rattle.cedar_grammar.specs.Build.{trees};
ghost use Rattle.cedar_trees.specs.Bare.{bare, bare_entries};
ghost use Rattle.cedar_world.specs.Bodies.{is_one_of};
ghost use Rattle.cedar_grammar.specs.Functions.{is_the_unknown};
ghost use Rattle.cedar_world.specs.Orders.{text_eq};
ghost use Rattle.cedar_world.specs.Values.{variable_names};
ghost use Rattle.cedar_telling.specs.Unknowns.{badly_named, call_badly_named, some_badly_named, name_given};

use cedar_held::string_of;
use cedar_names::names::Name;
use cedar_trees::expr::{Expr, ExprKind};
use std::collections::BTreeMap;
use std::rc::RcStr;

pub(crate) fn is_same(text: &str, other: &str) -> bool
    ensures { result ≡ text_eq text.now other.now }
{
    text == other
}

// Whether an unknown of this name is one for a variable.
fn is_variable_name(name: &str) -> bool
    ensures { result ≡ is_one_of variable_names name.now }
{
    is_same("principal", name)
        || is_same("action", name)
        || is_same("resource", name)
        || is_same("context", name)
}

// Whether calls of this function name unknowns.
pub(crate) fn is_unknown(name: &Name) -> bool
    ensures { result ≡ is_the_unknown name.now }
{
    name.is_unqualified() && name.basename_as_ref().as_str() == "unknown"
}

// The name that a call of `unknown` gives: its one argument, where that is a text.
#[tactic(auto, using(crate::proofs::Named::none_given, crate::proofs::Named::one_given))]
pub(crate) fn name_of(args: &[Expr]) -> Option<&RcStr>
    ensures { option_map (λ text. rc_str_bytes text.now) result ≡ name_given (trees (map bare args.now)) }
{
    if args.len() != 1 {
        return None;
    }
    string_of(&args[0])
}

/// Whether a restricted expression calls `unknown` on what is no text, or holds an unknown with the name
/// of a variable. It recurs on items, arguments and entries alone, and takes no memory.
#[cycle(is_badly_named)]
#[tactic(auto, using(crate::proofs::Named::below))]
pub(crate) fn is_badly_named(expr: &Expr) -> bool
    ensures { result ≡ badly_named (bare expr.now) }
{
    match &expr.expr_kind {
        ExprKind::Unknown(unknown) => is_variable_name(&unknown.name),
        ExprKind::ExtensionFunctionApp { fn_name, args } => call_is_badly_named(fn_name, args),
        ExprKind::Set(items) => some_is_badly_named(items),
        ExprKind::Record(entries) => some_entry_is_badly_named(entries),
        ExprKind::Lit(_) | ExprKind::Var(_) | ExprKind::Slot(_) => false,
        ExprKind::If { .. } | ExprKind::And { .. } | ExprKind::Or { .. } => false,
        ExprKind::UnaryApp { .. } | ExprKind::BinaryApp { .. } => false,
        ExprKind::GetAttr { .. } | ExprKind::HasAttr { .. } | ExprKind::ExtHasAttr { .. } => false,
        ExprKind::Like { .. } | ExprKind::Is { .. } => false,
    }
}

#[cycle(is_badly_named)]
fn call_is_badly_named(name: &Name, args: &[Expr]) -> bool
    ensures { result ≡ call_badly_named name.now (trees (map bare args.now)) }
{
    if is_unknown(name) {
        match name_of(args) {
            None => true,
            Some(text) => is_variable_name(text),
        }
    } else {
        some_is_badly_named(args)
    }
}

#[cycle(is_badly_named)]
fn some_is_badly_named(items: &[Expr]) -> bool
    ensures { result ≡ some_badly_named (trees (map bare items.now)) }
{
    for item in items {
        if is_badly_named(item) {
            return true;
        }
    }
    false
}

#[cycle(is_badly_named)]
fn some_entry_is_badly_named(entries: &BTreeMap<RcStr, Expr>) -> bool
    ensures { result ≡ some_badly_named (trees (map (λ e. e.1) (bare_entries entries.now.entries))) }
{
    for (_key, expr) in entries {
        if is_badly_named(expr) {
            return true;
        }
    }
    false
}
