// The operands of operators that evaluate all of them.
use cedar_literals::operators::UnaryOp;
use cedar_literals::patterns::Pattern;
use cedar_literals::uids::EntityType;
use cedar_names::names::Name;
use cedar_trees::expr::Expr;
use cedar_trees::unknowns::NonEmpty;
use std::collections::BTreeMap;
use std::rc::RcStr;

/// An operator of one operand, with what it names besides.
#[derive(Drop)]
pub(crate) enum UnaryOperator<'a> {
    Applied(UnaryOp),
    Get(&'a RcStr),
    Has(&'a RcStr),
    HasPath(&'a NonEmpty<RcStr>),
    Like(&'a Pattern),
    Is(&'a EntityType),
}

/// What is made of any number of parts, with these.
#[derive(Drop)]
pub(crate) enum ListOperator<'a> {
    Set(&'a [Expr]),
    Record(&'a BTreeMap<RcStr, Expr>),
    Call(&'a Name, &'a [Expr]),
}
