// The faults of what stands in a scope where an entity should.
ghost use Rattle.std.specs.Prelude.{◌≡◌, is_none};
ghost use Rattle.cedar_cst.specs.View.{shown_expr, shown_relation, shown_add, shown_primary};
ghost use Rattle.cedar_faults.specs.Reasons.{IsFault};
ghost use Rattle.cedar_faults.specs.Telling.{TellsOnly};
ghost use Rattle.cedar_policy_conversion.specs.PartsShow.{is_empty_expr, is_empty_add, IsWrongNode, IsWrongArgument, misfit_shows, no_entity_shows};
ghost use Rattle.cedar_policy_conversion.specs.PartsShow as shows;

use cedar_conversion::{
    only_add, only_and, only_mult, only_or, only_relation, only_unary, unsigned,
};
use cedar_cst::cst::{Add, Expr, NegOp, Primary, Relation, Unary};
use cedar_cst::node::Node;
use cedar_faults::{ConversionError, ToASTErrorKind};
use cedar_names::places::Loc;
use cedar_policy_parts::{Ref, WrongEntityArgument};
use either::Either;
use std::alloc::{AllocError, Global};
use std::fmt;
use std::rc::RcStr;

/// What should stand where one entity may.
pub(crate) const ENTITY: &str = "an entity uid";
/// What should stand where an entity or a slot may.
pub(crate) const ENTITY_OR_SLOT: &str = "an entity uid or matching template slot";
/// What should stand where an entity or a list of them may.
pub(crate) const ENTITY_OR_SET: &str = "an entity uid or set of entity uids";

// What stands somewhere, and where; nothing where a node is missing.
#[derive(Clone, Copy)]
struct Misfit<'a> {
    got: Option<&'static str>,
    loc: Option<&'a Loc>,
}

fn seen<'a, T>(node: &'a Node<Option<T>>, got: &'static str) -> Misfit<'a>
    ensures { is_none result.got ≡ is_none node.now.node }
{
    let got = if node.node.is_some() { Some(got) } else { None };
    Misfit {
        got,
        loc: node.loc(),
    }
}

// What keeps a primary from standing alone.
fn beside_primary(node: &Node<Option<Expr>>) -> Misfit<'_>
    ensures { is_none result.got ≡ is_empty_expr (shown_expr node.now) }
{
    let Some(or) = only_or(node) else {
        return seen(node, "an `if` expression");
    };
    let Some(and) = only_and(or) else {
        return seen(or, "a `||` expression");
    };
    let Some(relation) = only_relation(and) else {
        return seen(and, "a `&&` expression");
    };
    match only_add(relation) {
        Some(add) => inside_sum(add),
        None => seen(relation, relation_name(relation)),
    }
}

fn relation_name(relation: &Node<Option<Relation>>) -> &'static str {
    match &relation.node {
        Some(Relation::Has { .. }) => "a `has` expression",
        Some(Relation::Like { .. }) => "a `like` expression",
        Some(Relation::IsIn { .. }) => "an `is` expression",
        _ => "a binary operator",
    }
}

fn inside_sum(node: &Node<Option<Add>>) -> Misfit<'_>
    ensures { is_none result.got ≡ is_empty_add (shown_add node.now) }
{
    let Some(mult) = only_mult(node) else {
        return seen(node, "a `+/-` expression");
    };
    let Some(unary) = only_unary(mult) else {
        return seen(mult, "a `*` expression");
    };
    match unsigned(unary) {
        Some(member) => seen(member, "a `.` expression"),
        None => seen(unary, sign_name(unary)),
    }
}

fn sign_name(unary: &Node<Option<Unary>>) -> &'static str {
    match &unary.node {
        Some(unary) => match unary.op {
            Some(NegOp::Dash(_)) => "a `-` expression",
            Some(NegOp::OverDash) => "a `-` expression",
            _ => "a `!` expression",
        },
        None => "an empty node",
    }
}

/// The fault of an expression that is no lone primary.
pub(crate) fn no_primary<E: Drop>(
    alloc: Global,
    node: &Node<Option<Expr>>,
    expected: &'static str,
) -> ConversionError<E>
    ensures fault { IsFault result }
    ensures shown { TellsOnly result (misfit_shows (is_empty_expr (shown_expr node.now))) }
{
    let misfit = beside_primary(node);
    match misfit.got {
        Some(got) => wrong_node(alloc, expected, RcStr::from_str(alloc, got), misfit.loc),
        None => ConversionError::missing(alloc, misfit.loc),
    }
}

/// The fault of a primary that is neither an entity nor a list.
pub(crate) fn no_entity<E: Drop>(
    alloc: Global,
    node: &Node<Option<Primary>>,
    expected: &'static str,
) -> ConversionError<E>
    ensures fault { IsFault result }
    ensures shown { TellsOnly result (no_entity_shows (shown_primary node.now)) }
{
    match &node.node {
        Some(primary) => wrong_node(alloc, expected, described(alloc, primary), node.loc()),
        None => ConversionError::missing(alloc, node.loc()),
    }
}

fn described(alloc: Global, primary: &Primary) -> Result<RcStr, AllocError> {
    match primary {
        Primary::Literal(literal) => match &literal.node {
            Some(literal) => RcStr::from_string(format!(in alloc; "literal `{literal}`")?),
            None => RcStr::from_str(alloc, "empty node"),
        },
        Primary::Name(name) => match &name.node {
            Some(name) => RcStr::from_string(format!(in alloc; "name `{name}`")?),
            None => RcStr::from_str(alloc, "name"),
        },
        Primary::RInits(_) => RcStr::from_str(alloc, "record initializer"),
        _ => RcStr::from_str(alloc, "another expression"),
    }
}

/// The fault of a slot that stands where none may, or another one may.
pub(crate) fn other_slot<S: fmt::Display, V: fmt::Display, E: Drop>(
    alloc: Global,
    slot: &S,
    var: &V,
    expected: &'static str,
    loc: Option<&Loc>,
) -> ConversionError<E>
    ensures fault { IsFault result }
    ensures kind { TellsOnly result IsWrongNode }
{
    wrong_node(alloc, expected, instead(alloc, slot, var), loc)
}

fn instead<S: fmt::Display, V: fmt::Display>(
    alloc: Global,
    slot: &S,
    var: &V,
) -> Result<RcStr, AllocError> {
    RcStr::from_string(format!(in alloc; "{slot} instead of ?{var}")?)
}

fn wrong_node<E: Drop>(
    alloc: Global,
    expected: &'static str,
    got: Result<RcStr, AllocError>,
    loc: Option<&Loc>,
) -> ConversionError<E>
    ensures fault { IsFault result }
    ensures kind { TellsOnly result IsWrongNode }
{
    match got {
        Ok(got) => ConversionError::fault(alloc, ToASTErrorKind::WrongNode { expected, got }, loc),
        Err(_) => ConversionError::Memory,
    }
}

/// The fault of a list that stands where one of these should.
pub(crate) fn no_list<E: Drop>(
    alloc: Global,
    expected: Either<Ref, (Ref, Ref)>,
    loc: Option<&Loc>,
) -> ConversionError<E>
    ensures fault { IsFault result }
    ensures kind { TellsOnly result (IsWrongArgument expected) }
{
    let got = Ref::Set;
    let argument = WrongEntityArgument { expected, got };
    ConversionError::fault(alloc, ToASTErrorKind::WrongEntityArgument(argument), loc)
}

/// Whether an expression is a test of a type, without a further test.
#[tactic(auto, using(crate::proofs::Emptiness::test_at))]
pub(crate) fn is_type_test(node: &Node<Option<Expr>>) -> bool
    ensures { result ≡ shows.is_type_test (shown_expr node.now) }
{
    let Some(or) = only_or(node) else {
        return false;
    };
    let Some(and) = only_and(or) else {
        return false;
    };
    match only_relation(and) {
        Some(relation) => is_type_relation(relation),
        None => false,
    }
}

fn is_type_relation(node: &Node<Option<Relation>>) -> bool
    ensures { result ≡ shows.is_type_relation (shown_relation node.now) }
{
    match &node.node {
        None => false,
        Some(relation) => match relation {
            Relation::Common { .. } => false,
            Relation::Has { .. } => false,
            Relation::Like { .. } => false,
            Relation::IsIn { in_entity, .. } => match in_entity {
                None => true,
                Some(_) => false,
            },
        },
    }
}
