// Restricted expressions that are lent.
ghost use Rattle.std.specs.Prelude.{◌≡◌, true, IfOk, option_map};
ghost use Rattle.std.specs.Rc.{rc_str_bytes};
ghost use Rattle.cedar_language.specs.Restricted.{is_restricted};
ghost use Rattle.cedar_literals.specs.Types.{value_type_of};
ghost use Rattle.cedar_shapes.specs.StaticTypes.{type_of};
ghost use Rattle.cedar_trees.specs.Bare.{bare};
ghost use Rattle.cedar_trees.specs.Unknowns.{unknown_name, unknown_type};
ghost use Rattle.cedar_restricted.specs.Readers.{literal_boolean, literal_long, literal_string, literal_entity, unknown_here, set_elements, record_pairs, called};

use crate::elements::{RestrictedElements, RestrictedPairs};
use crate::errors::{InvalidRestrictedExpressionError, RestrictedExpressionError};
use crate::offences::first_offence;
use crate::restricted::RestrictedExpr;
use crate::restricted_laws::offences_are_what_is_not_restricted;
use cedar_literals::literals::{Integer, Literal};
use cedar_literals::types::Type;
use cedar_literals::uids::EntityUID;
use cedar_names::names::Name;
use cedar_shapes::readers::ExprReaders;
use cedar_shapes::types::FunctionTypes;
use cedar_trees::expr::{Expr, ExprKind};
use cedar_trees::unknowns::Unknown;
use std::alloc::{AllocError, Global};
use std::fmt;
use std::rc::RcStr;

/// A restricted expression that is lent. Contracts see its tree by `borrowed_tree`.
#[derive(Clone, Copy, Debug)]
pub struct BorrowedRestrictedExpr<'a> {
    expr: &'a Expr,
    pub ghost restricted: { is_restricted (bare expr.now) ≡ true },
}

impl<'a> BorrowedRestrictedExpr<'a> {
    ghost use Rattle.cedar_restricted.specs.Left.{elements_left, pairs_left};
    ghost use Rattle.cedar_restricted.specs.Offences.{Restricts};
    ghost use Rattle.cedar_restricted.specs.Views.{restricted_tree, borrowed_tree};

    /// The expression, where it is restricted; else refused with its leftmost outermost part that may
    /// not stand there, or for want of memory. The test recurs on items, arguments and entries alone.
    pub fn new(
        alloc: Global,
        expr: &'a Expr,
    ) -> Result<BorrowedRestrictedExpr<'a>, RestrictedExpressionError>
        ensures { Restricts borrowed_tree (bare expr.now) result }
    {
        offences_are_what_is_not_restricted();
        match first_offence(expr) {
            None => Ok(BorrowedRestrictedExpr { expr }),
            Some(offence) => Err(RestrictedExpressionError::InvalidRestrictedExpression(
                InvalidRestrictedExpressionError {
                    feature: offence.feature,
                    expr: offence.expr.clone(alloc)?,
                },
            )),
        }
    }

    /// An expression that is restricted.
    pub fn new_unchecked(expr: &'a Expr) -> BorrowedRestrictedExpr<'a>
        requires { is_restricted (bare expr.now) ≡ true }
        ensures { borrowed_tree result ≡ bare expr.now }
    {
        BorrowedRestrictedExpr { expr }
    }

    /// A copy that shares the parts; refused for memory alone.
    pub fn to_owned(self, alloc: Global) -> Result<RestrictedExpr, AllocError>
        ensures { IfOk result (λ owned. restricted_tree owned ≡ borrowed_tree self.entry) }
    {
        Ok(RestrictedExpr::new_unchecked(self.expr.clone(alloc)?))
    }

    /// The Boolean that it is, if it is one.
    pub fn as_bool(&self) -> Option<bool>
        ensures { result ≡ literal_boolean (borrowed_tree self.now) }
    {
        match &self.expr.expr_kind {
            ExprKind::Lit(Literal::Bool(b)) => Some(*b),
            _ => None,
        }
    }

    /// The long that it is, if it is one.
    pub fn as_long(&self) -> Option<Integer>
        ensures { result ≡ literal_long (borrowed_tree self.now) }
    {
        match &self.expr.expr_kind {
            ExprKind::Lit(Literal::Long(n)) => Some(*n),
            _ => None,
        }
    }

    /// The text that it is, if it is one.
    pub fn as_string(&self) -> Option<&'a RcStr>
        ensures { option_map (λ text. rc_str_bytes text.now) result ≡ literal_string (borrowed_tree self.now) }
    {
        match &self.expr.expr_kind {
            ExprKind::Lit(Literal::String(text)) => Some(text),
            _ => None,
        }
    }

    /// The uid of the entity that it is, if it is one.
    pub fn as_euid(&self) -> Option<&'a EntityUID>
        ensures { option_map (λ uid. uid.now) result ≡ literal_entity (borrowed_tree self.now) }
    {
        match &self.expr.expr_kind {
            ExprKind::Lit(Literal::EntityUID(uid)) => Some(uid),
            _ => None,
        }
    }

    /// The unknown that it is, if it is one.
    pub fn as_unknown(&self) -> Option<&'a Unknown>
        ensures { option_map (λ unknown. (unknown_name unknown.now, unknown_type unknown.now)) result ≡ unknown_here (borrowed_tree self.now) }
    {
        match &self.expr.expr_kind {
            ExprKind::Unknown(unknown) => Some(unknown),
            _ => None,
        }
    }

    /// The elements of the set that it is, if it is one, in their order.
    pub fn as_set_elements(&self) -> Option<RestrictedElements<'a>>
        ensures { option_map elements_left result ≡ set_elements (borrowed_tree self.now) }
    {
        match &self.expr.expr_kind {
            ExprKind::Set(items) => Some(RestrictedElements::of(items)),
            _ => None,
        }
    }

    /// The keys and values of the record that it is, if it is one, in the order of its keys.
    pub fn as_record_pairs(&self) -> Option<RestrictedPairs<'a>>
        ensures { option_map pairs_left result ≡ record_pairs (borrowed_tree self.now) }
    {
        match &self.expr.expr_kind {
            ExprKind::Record(entries) => Some(RestrictedPairs::of(entries)),
            _ => None,
        }
    }

    /// The name of the function and the arguments, if it is a call.
    pub fn as_extn_fn_call(&self) -> Option<(&'a Name, RestrictedElements<'a>)>
        ensures { option_map (λ call. (call.0.now, elements_left call.1)) result ≡ called (borrowed_tree self.now) }
    {
        match &self.expr.expr_kind {
            ExprKind::ExtensionFunctionApp { fn_name, args } => {
                Some((fn_name, RestrictedElements::of(args)))
            }
            _ => None,
        }
    }

    /// The type of its value, as far as it shows without evaluating; refused for memory alone.
    pub fn try_type_of<F: FunctionTypes>(
        &self,
        alloc: Global,
        functions: &F,
    ) -> Result<Option<Type>, AllocError>
        ensures { IfOk result (λ ty. option_map value_type_of ty ≡ type_of (F.returns functions.now) (borrowed_tree self.now)) }
    {
        self.expr.try_type_of(alloc, functions)
    }

    /// The expression itself, for as long as it is lent.
    pub fn as_expr(&self) -> &'a Expr
        ensures tree { bare result.now ≡ borrowed_tree self.now }
        ensures restricted { is_restricted (bare result.now) ≡ true }
    {
        self.expr
    }
}

/// Its text in the language, as that of the expression.
impl fmt::Display for BorrowedRestrictedExpr<'_> {
    fn fmt<W: fmt::Write>(&self, f: &mut fmt::Formatter<W>) -> fmt::Result {
        fmt::Display::fmt(self.expr, f)
    }
}
