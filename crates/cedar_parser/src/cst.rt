//! The trees of the loose syntax, which `text_to_cst` reads and `cst_to_ast` converts. Begin with `Policies` or
//! `Expr`; each part of a tree stands in a `Node`, which has its place, and in which it may be missing.

pub use cedar_cst::cst::{
    Add, AddOp, And, Annotation, Cond, Expr, ExprData, ExprImpl, Ident, Literal, MemAccess, Member,
    Mult, MultOp, Name, NegOp, Or, Policies, Policy, PolicyImpl, Primary, RecInit, Ref, RefInit,
    RelOp, Relation, Slot, Str, Unary, VariableDef,
};
