// Expressions with values in the places of their unknowns.
ghost use Rattle.std.specs.Prelude.{◌≡◌, IfOk, IfErr, None};
ghost use Rattle.std.specs.Option.{option_map, option_copied};
ghost use Rattle.cedar_trees.specs.Bare.{bare};
ghost use Rattle.cedar_trees.specs.Unknowns.{unknown_name, unknown_type};
ghost use Rattle.cedar_substitution.specs.Told.{told_tree};
ghost use Rattle.cedar_substitution.specs.Typed.{Tells, types_apart as types_of, mistyped as mistyped_value, mistyped_in};

use crate::errors::SubstitutionError;
use crate::finding::find_told;
use crate::substitution::SubstituteExprs;
use cedar_builders::expr_builder::ExprBuilder;
use cedar_literals::types::{StaticallyTyped, Type};
use cedar_restricted::to_expr::ToExpr;
use cedar_shapes::iteration::Unknowns;
use cedar_trees::expr::Expr;
use cedar_trees::unknowns::Unknown;
use cedar_values::values::Value;
use std::alloc::{AllocError, Global};
use std::collections::BTreeMap;
use std::rc::RcStr;

/// Expressions whose unknowns can be told, as values.
pub trait Substitute {
    ghost use Rattle.std.specs.Prelude.{◌≡◌, IfOk, IfErr, None};
    ghost use Rattle.cedar_language.specs.Tree.{Tree};
    ghost use Rattle.cedar_trees.specs.Bare.{bare};
    ghost use Rattle.cedar_substitution.specs.Rising.{CallsAreTaken};
    ghost use Rattle.cedar_substitution.specs.Typed.{SubstitutesValues, SubstitutesTyped, GivesValues};

    ghost tree: { Self → Tree };

    /// The expression with what writes the value told for a name in the place of each unknown of that
    /// name, whatever type is stated of it, and without data; refused for memory alone.
    fn substitute(&self, alloc: Global, told: &BTreeMap<RcStr, Value>) -> Result<Expr, AllocError>
        ensures { IfOk result (λ expr. SubstitutesValues told.now.entries (tree self.now) (bare expr)) };

    /// The same; refused with TypeError where some unknown whose type is stated is told a value of
    /// another type, with these types at the leftmost one, records in the order of their keys, and for
    /// want of memory.
    fn substitute_typed(
        &self,
        alloc: Global,
        told: &BTreeMap<RcStr, Value>,
    ) -> Result<Expr, SubstitutionError>
        ensures { SubstitutesTyped told.now.entries (tree self.now) result };

    /// The expression, built again by `B` with what writes the value told for a name in the place of
    /// each unknown of that name. Refused where `B` refuses a construct, with that error, and for want
    /// of memory; for want of memory alone where `B` takes every call.
    fn substitute_into_expr<B: ExprBuilder>(
        &self,
        alloc: Global,
        told: &BTreeMap<RcStr, Value>,
    ) -> Result<B::Expr, B::BuildError>
        ensures built { GivesValues B.operations B.meaning B.refusal told.now.entries (tree self.now) result }
        ensures memory { IfErr result (λ error. CallsAreTaken B.operations → B.refusal error ≡ None) };
}

impl<T> Substitute for Expr<T> {
    ghost use Rattle.cedar_trees.specs.Bare.{bare};

    ghost tree = { bare };

    fn substitute(&self, alloc: Global, told: &BTreeMap<RcStr, Value>) -> Result<Expr, AllocError> {
        let exprs = expressed(alloc, told)?;
        self.substitute_exprs(alloc, &exprs)
    }

    fn substitute_typed(
        &self,
        alloc: Global,
        told: &BTreeMap<RcStr, Value>,
    ) -> Result<Expr, SubstitutionError> {
        match mistyped(alloc, self, told)? {
            None => Ok(self.substitute(alloc, told)?),
            Some((expected, actual)) => Err(SubstitutionError::TypeError { expected, actual }),
        }
    }

    fn substitute_into_expr<B: ExprBuilder>(
        &self,
        alloc: Global,
        told: &BTreeMap<RcStr, Value>,
    ) -> Result<B::Expr, B::BuildError> {
        let exprs = expressed(alloc, told)?;
        self.substitute_exprs_into_expr::<B>(alloc, &exprs)
    }
}

// What writes the values, under the same names.
fn expressed(
    alloc: Global,
    told: &BTreeMap<RcStr, Value>,
) -> Result<BTreeMap<RcStr, Expr>, AllocError>
    ensures { IfOk result (λ exprs. Tells told.now.entries (told_tree exprs.entries)) }
{
    let mut exprs = BTreeMap::new(alloc);
    for (name, value) in told {
        let expr = value.to_expr(alloc)?;
        exprs.insert(name.clone()?, expr)?;
    }
    Ok(exprs)
}

// The types at the leftmost unknown that is told a value of another type than its own. The unknowns
// come from the last to the first.
fn mistyped<T>(
    alloc: Global,
    expr: &Expr<T>,
    told: &BTreeMap<RcStr, Value>,
) -> Result<Option<(Type, Type)>, AllocError>
    ensures { IfOk result (λ types. option_map types_of types ≡ mistyped_in told.now.entries (bare expr.now)) }
{
    let mut leftmost = None;
    for unknown in Unknowns::new(alloc, expr)? {
        let types = types_apart(alloc, unknown, find_told(told, unknown.name.as_str()))?;
        leftmost = types.or(leftmost);
    }
    Ok(leftmost)
}

// The type that is stated and that of the value told, where they differ.
pub(crate) fn types_apart(
    alloc: Global,
    unknown: &Unknown,
    told: Option<&Value>,
) -> Result<Option<(Type, Type)>, AllocError>
    ensures { IfOk result (λ types. option_map types_of types ≡ mistyped_value (unknown_type unknown.now) (option_copied told.entry)) }
{
    let Some(expected) = &unknown.type_annotation else {
        return Ok(None);
    };
    let Some(value) = told else {
        return Ok(None);
    };
    let actual = value.type_of(alloc)?;
    if *expected == actual {
        return Ok(None);
    }
    Ok(Some((expected.clone()?, actual)))
}
