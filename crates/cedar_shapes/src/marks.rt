// Which construct an expression is, and what it holds beside its parts.
ghost use Rattle.std.specs.Prelude.{◌≡◌, ◌∷◌, ◌++◌, map};
ghost use Rattle.std.specs.Cmp.Lexicographic.{slice_cmp};
ghost use Rattle.std.specs.List.{fold, flat_map};
ghost use Rattle.std.specs.Hash as fed;
ghost use Rattle.std.specs.Rc.{rc_str_bytes};
ghost use Rattle.cedar_language.specs.Order.{node_cmp, text_cmp};
ghost use Rattle.cedar_grammar.specs.Build.{keys};
ghost use Rattle.cedar_literals.specs.Operators.{unary_operator_of, binary_operator_of};
ghost use Rattle.cedar_literals.specs.Variables.{variable_of};
ghost use Rattle.cedar_trees.specs.Bare.{bare_kind, bare_entries};
ghost use Rattle.cedar_trees.specs.Unknowns.{unknown_name, unknown_type};
ghost use Rattle.cedar_shapes.specs.HeldNodes.{as_kind, unknown_node, held_node, held_sort, sort_of_kind};
ghost use Rattle.cedar_shapes.specs.ShapeHash.{mark_hash};
ghost use Rattle.cedar_shapes.specs.ShapeOrder.{mark, kind_number, numbered, operator_mark, operator_number, variable_number, slot_number as number_of_slot};

use cedar_literals::literals::Literal;
use cedar_literals::operators::{BinaryOp, UnaryOp};
use cedar_literals::patterns::Pattern;
use cedar_literals::slots::SlotId;
use cedar_literals::variables::Var;
use cedar_names::names::Name;
use cedar_trees::expr::{Expr, ExprKind};
use cedar_trees::unknowns::{NonEmpty, Unknown};
use std::cmp::Ordering;
use std::collections::BTreeMap;
use std::hash::{Hash, Hasher};
use std::rc::RcStr;

// The number of its kind.
fn rank<T>(kind: &ExprKind<T>) -> u8
    ensures { result ≡ kind_number (bare_kind kind.now) }
{
    match kind {
        ExprKind::Lit(_) => 0,
        ExprKind::Var(_) => 1,
        ExprKind::Slot(_) => 2,
        ExprKind::Unknown(_) => 3,
        ExprKind::If { .. } => 4,
        ExprKind::And { .. } => 5,
        ExprKind::Or { .. } => 6,
        ExprKind::UnaryApp { .. } => 7,
        ExprKind::BinaryApp { .. } => 8,
        ExprKind::ExtensionFunctionApp { .. } => 9,
        ExprKind::GetAttr { .. } => 10,
        ExprKind::HasAttr { .. } => 11,
        ExprKind::ExtHasAttr { .. } => 12,
        ExprKind::Like { .. } => 13,
        ExprKind::Is { .. } => 14,
        ExprKind::Set(_) => 15,
        ExprKind::Record(_) => 16,
    }
}

fn var_number(var: Var) -> u8
    ensures { result ≡ variable_number (variable_of var) }
{
    match var {
        Var::Principal => 0,
        Var::Action => 1,
        Var::Resource => 2,
        Var::Context => 3,
    }
}

fn slot_number(slot: SlotId) -> u8
    ensures { result ≡ number_of_slot slot }
{
    if slot.is_principal() { 0 } else { 1 }
}

fn unary_number(op: UnaryOp) -> u8
    ensures mark { operator_mark (unary_operator_of op) ≡ numbered 7 result }
    ensures number { result ≡ operator_number (unary_operator_of op) }
{
    match op {
        UnaryOp::Not => 0,
        UnaryOp::Neg => 1,
        UnaryOp::IsEmpty => 2,
    }
}

fn binary_number(op: BinaryOp) -> u8
    ensures mark { operator_mark (binary_operator_of op) ≡ numbered 8 result }
    ensures number { result ≡ operator_number (binary_operator_of op) }
{
    match op {
        BinaryOp::Eq => 0,
        BinaryOp::Less => 1,
        BinaryOp::LessEq => 2,
        BinaryOp::Add => 3,
        BinaryOp::Sub => 4,
        BinaryOp::Mul => 5,
        BinaryOp::In => 6,
        BinaryOp::Contains => 7,
        BinaryOp::ContainsAll => 8,
        BinaryOp::ContainsAny => 9,
        BinaryOp::GetTag => 10,
        BinaryOp::HasTag => 11,
    }
}

fn cmp_unknowns(a: &Unknown, b: &Unknown) -> Ordering
    ensures { result ≡ node_cmp (unknown_node (unknown_name a.now) (unknown_type a.now)) (unknown_node (unknown_name b.now) (unknown_type b.now)) }
{
    a.name
        .cmp(&b.name)
        .then(a.type_annotation.cmp(&b.type_annotation))
}

fn cmp_paths(a: &NonEmpty<RcStr>, b: &NonEmpty<RcStr>) -> Ordering
    ensures { result ≡ slice_cmp text_cmp (rc_str_bytes a.now.head ∷ map rc_str_bytes a.now.tail.items) (rc_str_bytes b.now.head ∷ map rc_str_bytes b.now.tail.items) }
{
    a.head.cmp(&b.head).then(a.tail.cmp(&b.tail))
}

fn cmp_keys<T, U>(a: &BTreeMap<RcStr, Expr<T>>, b: &BTreeMap<RcStr, Expr<U>>) -> Ordering
    ensures { result ≡ slice_cmp text_cmp (keys (bare_entries a.now.entries)) (keys (bare_entries b.now.entries)) }
{
    let mut others = b.keys();
    for key in a.keys() {
        match others.next() {
            None => return Ordering::Greater,
            Some(other) => {
                let order = key.cmp(other);
                if order != Ordering::Equal {
                    return order;
                }
            }
        }
    }
    match others.next() {
        None => Ordering::Equal,
        Some(_) => Ordering::Less,
    }
}

// What a construct holds beside its parts.
#[derive(Drop)]
enum Held<'a, T> {
    Nothing,
    Literal(&'a Literal),
    Number(u8),
    Unknown(&'a Unknown),
    Name(&'a Name),
    Text(&'a RcStr),
    Path(&'a NonEmpty<RcStr>),
    Pattern(&'a Pattern),
    Keys(&'a BTreeMap<RcStr, Expr<T>>),
}

fn held_by<T>(kind: &ExprKind<T>) -> Held<'_, T>
    ensures node { as_kind (kind_number (bare_kind kind.now)) (held_node result) ≡ mark (bare_kind kind.now) }
    ensures sort { held_sort result ≡ sort_of_kind (kind_number (bare_kind kind.now)) }
{
    match kind {
        ExprKind::Lit(literal) => Held::Literal(literal),
        ExprKind::Var(var) => Held::Number(var_number(*var)),
        ExprKind::Slot(slot) => Held::Number(slot_number(*slot)),
        ExprKind::Unknown(unknown) => Held::Unknown(unknown),
        ExprKind::UnaryApp { op, .. } => Held::Number(unary_number(*op)),
        ExprKind::BinaryApp { op, .. } => Held::Number(binary_number(*op)),
        ExprKind::ExtensionFunctionApp { fn_name, .. } => Held::Name(fn_name),
        ExprKind::GetAttr { attr, .. } | ExprKind::HasAttr { attr, .. } => Held::Text(attr),
        ExprKind::ExtHasAttr { attrs, .. } => Held::Path(attrs),
        ExprKind::Like { pattern, .. } => Held::Pattern(pattern),
        ExprKind::Is { entity_type, .. } => Held::Name(entity_type.name()),
        ExprKind::Record(entries) => Held::Keys(entries),
        ExprKind::If { .. } | ExprKind::And { .. } | ExprKind::Or { .. } | ExprKind::Set(_) => {
            Held::Nothing
        }
    }
}

// The order of what two constructs of one kind hold.
fn cmp_held<T, U>(a: Held<'_, T>, b: Held<'_, U>) -> Ordering
    requires { held_sort a ≡ held_sort b }
    ensures { result ≡ node_cmp (held_node a.entry) (held_node b.entry) }
{
    match (a, b) {
        (Held::Literal(a), Held::Literal(b)) => a.cmp(b),
        (Held::Number(a), Held::Number(b)) => a.cmp(&b),
        (Held::Unknown(a), Held::Unknown(b)) => cmp_unknowns(a, b),
        (Held::Name(a), Held::Name(b)) => a.cmp(b),
        (Held::Text(a), Held::Text(b)) => a.cmp(b),
        (Held::Path(a), Held::Path(b)) => cmp_paths(a, b),
        (Held::Pattern(a), Held::Pattern(b)) => a.cmp(b),
        (Held::Keys(a), Held::Keys(b)) => cmp_keys(a, b),
        _ => Ordering::Equal,
    }
}

/// The order of what stands at one level: which construct it is, and what it holds beside its parts.
pub(crate) fn cmp_marks<T, U>(a: &ExprKind<T>, b: &ExprKind<U>) -> Ordering
    ensures { result ≡ node_cmp (mark (bare_kind a.now)) (mark (bare_kind b.now)) }
{
    match rank(a).cmp(&rank(b)) {
        Ordering::Less => Ordering::Less,
        Ordering::Equal => cmp_held(held_by(a), held_by(b)),
        Ordering::Greater => Ordering::Greater,
    }
}

fn feed_path<H: Hasher>(path: &NonEmpty<RcStr>, state: &mut H)
    ensures { state.new ≡ fold H.write state.old (fed.str (rc_str_bytes path.now.head) ++ fed.slice fed.str (map rc_str_bytes path.now.tail.items)) }
{
    path.head.hash(state);
    path.tail.hash(state);
}

fn feed_keys<T, H: Hasher>(entries: &BTreeMap<RcStr, Expr<T>>, state: &mut H)
    ensures { state.new ≡ fold H.write state.old (flat_map fed.str (keys (bare_entries entries.now.entries))) }
{
    for key in entries.keys() {
        key.hash(state);
    }
}

/// Feeds a hasher what stands at one level: which construct it is, and what it holds beside its parts.
pub(crate) fn feed_mark<T, H: Hasher>(kind: &ExprKind<T>, state: &mut H)
    ensures { state.new ≡ fold H.write state.old (mark_hash (bare_kind kind.now)) }
{
    state.write_u8(rank(kind));
    match kind {
        ExprKind::Lit(literal) => literal.hash(state),
        ExprKind::Var(var) => state.write_u8(var_number(*var)),
        ExprKind::Slot(slot) => state.write_u8(slot_number(*slot)),
        ExprKind::Unknown(unknown) => {
            unknown.name.hash(state);
            unknown.type_annotation.hash(state);
        }
        ExprKind::UnaryApp { op, .. } => state.write_u8(unary_number(*op)),
        ExprKind::BinaryApp { op, .. } => state.write_u8(binary_number(*op)),
        ExprKind::ExtensionFunctionApp { fn_name, .. } => fn_name.hash(state),
        ExprKind::GetAttr { attr, .. } | ExprKind::HasAttr { attr, .. } => attr.hash(state),
        ExprKind::ExtHasAttr { attrs, .. } => feed_path(attrs, state),
        ExprKind::Like { pattern, .. } => pattern.hash(state),
        ExprKind::Is { entity_type, .. } => entity_type.hash(state),
        ExprKind::Record(entries) => feed_keys(entries, state),
        ExprKind::If { .. } | ExprKind::And { .. } | ExprKind::Or { .. } | ExprKind::Set(_) => {}
    }
}
