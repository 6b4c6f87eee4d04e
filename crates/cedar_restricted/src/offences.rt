// The part of an expression that keeps it from being restricted.
ghost use Rattle.std.specs.Prelude.{◌≡◌, Some, map, option_map};
ghost use Rattle.cedar_literals.specs.Operators.{unary_operator_of, binary_operator_of};
ghost use Rattle.cedar_grammar.specs.Build.{trees};
ghost use Rattle.cedar_trees.specs.Bare.{bare, bare_entries};
ghost use Rattle.cedar_restricted.specs.Offences.{operator_feature, construct_feature, offence, offence_below, offence_among, seen_offence};

use cedar_literals::operators::{BinaryOp, UnaryOp};
use cedar_trees::expr::{Expr, ExprKind};
use std::collections::BTreeMap;
use std::rc::RcStr;

// A part that may not stand in a restricted expression, and what it is called.
#[derive(Clone, Copy)]
pub struct Offence<'a> {
    pub feature: &'static str,
    pub expr: &'a Expr,
}

// The leftmost outermost part that may not stand in a restricted expression. It recurs on items,
// arguments and entries alone, so its stack is as deep as sets, records and calls nest.
#[cycle(first_offence)]
#[tactic(auto, using(crate::proofs::Offending::offences))]
pub fn first_offence(expr: &Expr) -> Option<Offence<'_>>
    ensures { option_map seen_offence result ≡ offence (bare expr.now) }
{
    match feature(expr) {
        Some(feature) => Some(Offence { feature, expr }),
        None => first_offence_below(expr),
    }
}

#[cycle(first_offence)]
#[tactic(auto, using(crate::proofs::Offending::offences))]
fn first_offence_below(expr: &Expr) -> Option<Offence<'_>>
    ensures { option_map seen_offence result ≡ offence_below (bare expr.now) }
{
    match &expr.expr_kind {
        ExprKind::ExtensionFunctionApp { args, .. } => first_offence_among(args),
        ExprKind::Set(items) => first_offence_among(items),
        ExprKind::Record(entries) => first_offence_in(entries),
        _ => None,
    }
}

#[cycle(first_offence)]
fn first_offence_among(items: &[Expr]) -> Option<Offence<'_>>
    ensures { option_map seen_offence result ≡ offence_among (trees (map bare items.now)) }
{
    for item in items {
        let found = first_offence(item);
        if found.is_some() {
            return found;
        }
    }
    None
}

#[cycle(first_offence)]
fn first_offence_in(entries: &BTreeMap<RcStr, Expr>) -> Option<Offence<'_>>
    ensures { option_map seen_offence result ≡ offence_among (trees (map (λ e. e.1) (bare_entries entries.now.entries))) }
{
    for (_key, expr) in entries {
        let found = first_offence(expr);
        if found.is_some() {
            return found;
        }
    }
    None
}

// What a construct is called that may not stand in a restricted expression, whatever its parts are.
fn feature(expr: &Expr) -> Option<&'static str>
    ensures { option_map (λ text. text.now) result ≡ construct_feature (bare expr.now) }
{
    match &expr.expr_kind {
        ExprKind::Lit(_) => None,
        ExprKind::Unknown(_) => None,
        ExprKind::ExtensionFunctionApp { .. } => None,
        ExprKind::Set(_) => None,
        ExprKind::Record(_) => None,
        ExprKind::Var(_) => Some("variables"),
        ExprKind::Slot(_) => Some("template slots"),
        ExprKind::If { .. } => Some("if-then-else"),
        ExprKind::And { .. } => Some("&&"),
        ExprKind::Or { .. } => Some("||"),
        ExprKind::UnaryApp { op, .. } => Some(unary_feature(*op)),
        ExprKind::BinaryApp { op, .. } => Some(binary_feature(*op)),
        ExprKind::GetAttr { .. } => Some("attribute accesses"),
        ExprKind::HasAttr { .. } => Some("'has'"),
        ExprKind::ExtHasAttr { .. } => Some("'has'"),
        ExprKind::Like { .. } => Some("'like'"),
        ExprKind::Is { .. } => Some("'is'"),
    }
}

fn unary_feature(op: UnaryOp) -> &'static str
    ensures { Some result.now ≡ operator_feature (unary_operator_of op) }
{
    match op {
        UnaryOp::Not => "!",
        UnaryOp::Neg => "-",
        UnaryOp::IsEmpty => "isEmpty",
    }
}

fn binary_feature(op: BinaryOp) -> &'static str
    ensures { Some result.now ≡ operator_feature (binary_operator_of op) }
{
    match op {
        BinaryOp::Eq => "==",
        BinaryOp::Less => "<",
        BinaryOp::LessEq => "<=",
        BinaryOp::Add => "+",
        BinaryOp::Sub => "-",
        BinaryOp::Mul => "*",
        BinaryOp::In => "in",
        BinaryOp::Contains => "contains",
        BinaryOp::ContainsAll => "containsAll",
        BinaryOp::ContainsAny => "containsAny",
        BinaryOp::GetTag => "getTag",
        BinaryOp::HasTag => "hasTag",
    }
}
