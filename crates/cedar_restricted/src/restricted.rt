// Restricted expressions.
ghost use Rattle.std.specs.Prelude.{◌≡◌, true, map, IfOk, option_map};
ghost use Rattle.std.specs.Rc.{rc_str_bytes};
ghost use Rattle.cedar_language.specs.Restricted.{is_restricted};
ghost use Rattle.cedar_language.specs.Tree as tree;
ghost use Rattle.cedar_grammar.specs.Build.{trees};
ghost use Rattle.cedar_literals.specs.Literals.{literal_of};
ghost use Rattle.cedar_trees.specs.Bare.{bare, bare_entries};
ghost use Rattle.cedar_trees.specs.Records.{MakesRecord};
ghost use Rattle.cedar_trees.specs.Unknowns.{unknown_name, unknown_type};
ghost use Rattle.cedar_restricted.specs.Readers.{literal_boolean, literal_long, literal_string, literal_entity, unknown_here, set_elements, record_pairs, called};

use crate::borrowed::BorrowedRestrictedExpr;
use crate::elements::{RestrictedElements, RestrictedPairs};
use crate::errors::RestrictedExpressionError;
use cedar_literals::literals::{Integer, Literal};
use cedar_literals::uids::EntityUID;
use cedar_names::names::Name;
use cedar_names::places::Loc;
use cedar_trees::errors::ExpressionConstructionError;
use cedar_trees::expr::Expr;
use cedar_trees::unknowns::Unknown;
use std::alloc::{AllocError, Global};
use std::fmt;
use std::rc::RcStr;

/// An expression of literals, unknowns, sets, records and calls of extension functions alone. Contracts
/// see its tree by `restricted_tree`.
#[derive(Debug, Drop)]
pub struct RestrictedExpr {
    expr: Expr,
    pub ghost restricted: { is_restricted (bare expr) ≡ true },
}

impl RestrictedExpr {
    ghost use Rattle.cedar_restricted.specs.Left.{elements_left, pairs_left};
    ghost use Rattle.cedar_restricted.specs.Offences.{Restricts};
    ghost use Rattle.cedar_restricted.specs.Views.{restricted_tree, borrowed_tree, restricted_entries};

    /// The expression, where it is restricted; else refused with its leftmost outermost part that may
    /// not stand there, or for want of memory. The test recurs on items, arguments and entries alone.
    pub fn new(alloc: Global, expr: Expr) -> Result<RestrictedExpr, RestrictedExpressionError>
        ensures { Restricts restricted_tree (bare expr) result }
    {
        BorrowedRestrictedExpr::new(alloc, &expr)?;
        Ok(RestrictedExpr { expr })
    }

    /// An expression that is restricted.
    pub fn new_unchecked(expr: Expr) -> RestrictedExpr
        requires { is_restricted (bare expr) ≡ true }
        ensures { restricted_tree result ≡ bare expr }
    {
        RestrictedExpr { expr }
    }

    /// The same expression at another place, or at none.
    pub fn with_maybe_source_loc(self, source_loc: Option<Loc>) -> RestrictedExpr
        ensures { restricted_tree result ≡ restricted_tree self }
    {
        RestrictedExpr {
            expr: self.expr.with_maybe_source_loc(source_loc),
        }
    }

    /// A literal.
    pub fn val(literal: Literal) -> RestrictedExpr
        ensures { restricted_tree result ≡ tree.Lit (literal_of literal) }
    {
        RestrictedExpr {
            expr: Expr::val(literal),
        }
    }

    /// A value that isn't known yet.
    pub fn unknown(unknown: Unknown) -> RestrictedExpr
        ensures { restricted_tree result ≡ tree.Unknown (unknown_name unknown) (unknown_type unknown) }
    {
        RestrictedExpr {
            expr: Expr::unknown(unknown),
        }
    }

    /// The set of these items; refused for memory alone.
    pub fn set(alloc: Global, items: Vec<RestrictedExpr>) -> Result<RestrictedExpr, AllocError>
        ensures { IfOk result (λ made. restricted_tree made ≡ tree.Apply tree.MakeSet (trees (map restricted_tree items.items))) }
    {
        let items = RestrictedExpr::into_exprs(alloc, items)?;
        Ok(RestrictedExpr {
            expr: Expr::set(alloc, items)?,
        })
    }

    /// The record of these pairs; refused for the first key that stands before it too, or for memory.
    pub fn record(
        alloc: Global,
        pairs: Vec<(RcStr, RestrictedExpr)>,
    ) -> Result<RestrictedExpr, ExpressionConstructionError>
        ensures { MakesRecord restricted_tree (restricted_entries pairs.items) result }
    {
        let pairs = RestrictedExpr::into_pairs(alloc, pairs)?;
        Ok(RestrictedExpr {
            expr: Expr::record(alloc, pairs)?,
        })
    }

    /// A call of an extension function; refused for memory alone.
    pub fn call_extension_fn(
        alloc: Global,
        function_name: Name,
        args: Vec<RestrictedExpr>,
    ) -> Result<RestrictedExpr, AllocError>
        ensures { IfOk result (λ made. restricted_tree made ≡ tree.Apply (tree.Call function_name) (trees (map restricted_tree args.items))) }
    {
        let args = RestrictedExpr::into_exprs(alloc, args)?;
        Ok(RestrictedExpr {
            expr: Expr::call_extension_fn(alloc, function_name, args)?,
        })
    }

    /// A copy that shares the parts; refused for memory alone.
    pub fn clone(&self, alloc: Global) -> Result<RestrictedExpr, AllocError>
        ensures { IfOk result (λ copy. restricted_tree copy ≡ restricted_tree self.now) }
    {
        Ok(RestrictedExpr {
            expr: self.expr.clone(alloc)?,
        })
    }

    /// The same expression, lent. Takes no memory, and tests nothing again.
    pub fn as_borrowed(&self) -> BorrowedRestrictedExpr<'_>
        ensures { borrowed_tree result ≡ restricted_tree self.now }
    {
        BorrowedRestrictedExpr::new_unchecked(&self.expr)
    }

    /// The Boolean that it is, if it is one.
    pub fn as_bool(&self) -> Option<bool>
        ensures { result ≡ literal_boolean (restricted_tree self.now) }
    {
        self.as_borrowed().as_bool()
    }

    /// The long that it is, if it is one.
    pub fn as_long(&self) -> Option<Integer>
        ensures { result ≡ literal_long (restricted_tree self.now) }
    {
        self.as_borrowed().as_long()
    }

    /// The text that it is, if it is one.
    pub fn as_string(&self) -> Option<&RcStr>
        ensures { option_map (λ text. rc_str_bytes text.now) result ≡ literal_string (restricted_tree self.now) }
    {
        self.as_borrowed().as_string()
    }

    /// The uid of the entity that it is, if it is one.
    pub fn as_euid(&self) -> Option<&EntityUID>
        ensures { option_map (λ uid. uid.now) result ≡ literal_entity (restricted_tree self.now) }
    {
        self.as_borrowed().as_euid()
    }

    /// The unknown that it is, if it is one.
    pub fn as_unknown(&self) -> Option<&Unknown>
        ensures { option_map (λ unknown. (unknown_name unknown.now, unknown_type unknown.now)) result ≡ unknown_here (restricted_tree self.now) }
    {
        self.as_borrowed().as_unknown()
    }

    /// The elements of the set that it is, if it is one, in their order.
    pub fn as_set_elements(&self) -> Option<RestrictedElements<'_>>
        ensures { option_map elements_left result ≡ set_elements (restricted_tree self.now) }
    {
        self.as_borrowed().as_set_elements()
    }

    /// The keys and values of the record that it is, if it is one, in the order of its keys.
    pub fn as_record_pairs(&self) -> Option<RestrictedPairs<'_>>
        ensures { option_map pairs_left result ≡ record_pairs (restricted_tree self.now) }
    {
        self.as_borrowed().as_record_pairs()
    }

    /// The name of the function and the arguments, if it is a call.
    pub fn as_extn_fn_call(&self) -> Option<(&Name, RestrictedElements<'_>)>
        ensures { option_map (λ call. (call.0.now, elements_left call.1)) result ≡ called (restricted_tree self.now) }
    {
        self.as_borrowed().as_extn_fn_call()
    }

    /// The expression itself, as any other; its parts, its place and its tree stay.
    pub fn into_expr(self) -> Expr
        ensures tree { bare result ≡ restricted_tree self }
        ensures restricted { is_restricted (bare result) ≡ true }
    {
        self.expr
    }
}

impl RestrictedExpr {
    ghost use Rattle.cedar_restricted.specs.Views.{restricted_tree, restricted_entries};

    fn into_exprs(alloc: Global, items: Vec<RestrictedExpr>) -> Result<Vec<Expr>, AllocError>
        ensures { IfOk result (λ exprs. map bare exprs.items ≡ map restricted_tree items.items) }
    {
        let mut exprs = Vec::new(alloc);
        for item in items {
            exprs.push(item.into_expr())?;
        }
        Ok(exprs)
    }

    fn into_pairs(
        alloc: Global,
        pairs: Vec<(RcStr, RestrictedExpr)>,
    ) -> Result<Vec<(RcStr, Expr)>, AllocError>
        ensures { IfOk result (λ exprs. bare_entries exprs.items ≡ restricted_entries pairs.items) }
    {
        let mut exprs = Vec::new(alloc);
        for (key, item) in pairs {
            exprs.push((key, item.into_expr()))?;
        }
        Ok(exprs)
    }
}

/// Its text in the language, as that of the expression.
impl fmt::Display for RestrictedExpr {
    fn fmt<W: fmt::Write>(&self, f: &mut fmt::Formatter<W>) -> fmt::Result {
        fmt::Display::fmt(&self.expr, f)
    }
}
