// The operands of constructs that evaluate all their parts.
use cedar_literals::operators::{BinaryOp, UnaryOp};
use cedar_literals::patterns::Pattern;
use cedar_literals::uids::EntityType;
use cedar_trees::expr::Expr;
use cedar_trees::unknowns::NonEmpty;
use std::rc::RcStr;

/// An operator of one operand, with what it names besides.
#[derive(Drop)]
pub(crate) enum UnaryOperator<'a> {
    /// `!`, `-` or `isEmpty`.
    Applied(UnaryOp),
    /// `has` of an attribute.
    Has(&'a RcStr),
    /// `has` of a chain of attributes.
    HasPath(&'a NonEmpty<RcStr>),
    /// `like`.
    Like(&'a Pattern),
    /// `is`.
    Is(&'a EntityType),
}

/// The parts of a construct, from the left.
#[derive(Drop)]
pub(crate) enum Operands<'a> {
    /// That of an operator of one.
    One(UnaryOperator<'a>, &'a Expr),
    /// Those of an operator of two.
    Two(BinaryOp, &'a Expr, &'a Expr),
    /// The arguments of a call, the items of a set, or the entries of a record.
    List,
}
