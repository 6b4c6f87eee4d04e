// Expressions built again by any builder.
ghost use Rattle.std.specs.Prelude.{◌≡◌, ◌<◌, Option, Result, IfOk, Ok, None, map, true};
ghost use Rattle.std.specs.Option.{option_map, is_some, IfSome};
ghost use Rattle.std.specs.Rc.{rc_str_bytes};
ghost use Rattle.std.specs.List.Sorted.{IsStrictlySortedBy};
ghost use Rattle.cedar_language.specs.Order.{text_cmp};
ghost use Rattle.cedar_language.specs.Uid.{Text};
ghost use Rattle.cedar_language.specs.Tree.{Tree, ValueType};
ghost use Rattle.cedar_grammar.specs.Build.{trees, keys};
ghost use Rattle.cedar_trees.specs.Bare.{bare, bare_entries};
ghost use Rattle.cedar_trees.specs.Unknowns.{unknown_name, unknown_type};
ghost use Rattle.cedar_trees.specs.declared.expr.Expr.{size-Expr};
ghost use Rattle.cedar_builders.specs.Operations.{Gives, built, made, made_all};
ghost use Rattle.cedar_substitution.specs.Chains.{first_of, with_built, refilled as refilled_by};
ghost use Rattle.cedar_substitution.specs.Rising.{RecordsRise, RecordsRiseWith, AllRiseWith, RestRisesWith, BuildsRising};

use crate::access;
use cedar_builders::expr_builder::ExprBuilder;
use cedar_trees::expr::{Expr, ExprKind};
use cedar_trees::unknowns::Unknown;
use std::alloc::{AllocError, Global};
use std::collections::BTreeMap;
use std::rc::RcStr;

/// What stands for the unknowns of an expression that is built again.
pub trait Replacement {
    ghost replaced: { Self → Text → Option ValueType → Tree };

    /// What stands for this unknown, built by `B` as though it stood at this place.
    fn build_unknown<B: ExprBuilder>(
        &self,
        alloc: Global,
        unknown: &Unknown,
        builder: B,
    ) -> Result<B::Expr, B::BuildError>
        ensures built { Gives B.meaning B.refusal result (built B.operations (replaced self.now (unknown_name unknown.now) (unknown_type unknown.now))) }
        ensures rising { BuildsRising B.operations B.refusal (RecordsRise (replaced self.now (unknown_name unknown.now) (unknown_type unknown.now))) result };
}

/// The expression built again by `B`, with what `unknowns` makes of its unknowns. A loop goes down the
/// first parts, so that a chain takes no stack.
#[cycle(rebuilt)]
pub fn rebuilt<T, B: ExprBuilder, U: Replacement>(
    alloc: Global,
    unknowns: &U,
    expr: &Expr<T>,
) -> Result<B::Expr, B::BuildError>
    ensures built { Gives B.meaning B.refusal result (made B.operations (with_built B.operations (U.replaced unknowns.now)) (bare expr.now)) }
    ensures rising { BuildsRising B.operations B.refusal (RecordsRiseWith (U.replaced unknowns.now) (bare expr.now)) result }
{
    let mut chain = Vec::new(alloc);
    let mut current = expr;
    while let Some(first) = first_part(current) {
        chain.push(current).map_err(AllocError::from)?;
        current = first;
    }
    let mut built = rebuilt_end::<T, B, U>(alloc, unknowns, current)?;
    while let Some(node) = chain.pop() {
        built = refilled::<T, B, U>(alloc, unknowns, node, built)?;
    }
    Ok(built)
}

// The part along which a chain goes down.
fn first_part<T>(expr: &Expr<T>) -> Option<&Expr<T>>
    ensures part { option_map (λ part. bare part.now) result ≡ first_of (bare expr.now) }
    ensures smaller { IfSome result (λ part. size-Expr T part.now < size-Expr T expr.now) }
{
    match &expr.expr_kind {
        ExprKind::Lit(_) => None,
        ExprKind::Var(_) => None,
        ExprKind::Slot(_) => None,
        ExprKind::Unknown(_) => None,
        ExprKind::If { test_expr, .. } => Some(test_expr),
        ExprKind::And { left, .. } => Some(left),
        ExprKind::Or { left, .. } => Some(left),
        ExprKind::UnaryApp { arg, .. } => Some(arg),
        ExprKind::BinaryApp { arg1, .. } => Some(arg1),
        ExprKind::ExtensionFunctionApp { .. } => None,
        ExprKind::GetAttr { expr, .. } => Some(expr),
        ExprKind::HasAttr { expr, .. } => Some(expr),
        ExprKind::ExtHasAttr { expr, .. } => Some(expr),
        ExprKind::Like { expr, .. } => Some(expr),
        ExprKind::Is { expr, .. } => Some(expr),
        ExprKind::Set(_) => None,
        ExprKind::Record(_) => None,
    }
}

// A builder at the place of an expression.
fn builder_at<T, B: ExprBuilder>(alloc: Global, expr: &Expr<T>) -> Result<B, AllocError> {
    let source_loc = match &expr.source_loc {
        None => None,
        Some(loc) => Some(loc.clone(alloc)?),
    };
    Ok(B::new(alloc).with_maybe_source_loc(source_loc))
}

// The same of an expression at which a chain ends.
#[cycle(rebuilt)]
fn rebuilt_end<T, B: ExprBuilder, U: Replacement>(
    alloc: Global,
    unknowns: &U,
    expr: &Expr<T>,
) -> Result<B::Expr, B::BuildError>
    requires { first_of (bare expr.now) ≡ None }
    ensures built { Gives B.meaning B.refusal result (made B.operations (with_built B.operations (U.replaced unknowns.now)) (bare expr.now)) }
    ensures rising { BuildsRising B.operations B.refusal (RecordsRiseWith (U.replaced unknowns.now) (bare expr.now)) result }
{
    let builder = builder_at::<T, B>(alloc, expr)?;
    match &expr.expr_kind {
        ExprKind::Lit(literal) => builder.val(literal.clone()?),
        ExprKind::Var(var) => builder.var(*var),
        ExprKind::Slot(slot) => builder.slot(*slot),
        ExprKind::Unknown(unknown) => unknowns.build_unknown(alloc, unknown, builder),
        ExprKind::ExtensionFunctionApp { fn_name, args } => {
            let args = rebuilt_items::<T, B, U>(alloc, unknowns, args)?;
            builder.call_extension_fn(fn_name.clone(alloc)?, args)
        }
        ExprKind::Set(items) => {
            let items = rebuilt_items::<T, B, U>(alloc, unknowns, items)?;
            builder.set(items)
        }
        ExprKind::Record(entries) => {
            let pairs = rebuilt_entries::<T, B, U>(alloc, unknowns, entries)?;
            builder.record(pairs)
        }
        _ => unreachable!(),
    }
}

// The same of an expression whose first part is built already.
#[cycle(rebuilt)]
fn refilled<T, B: ExprBuilder, U: Replacement>(
    alloc: Global,
    unknowns: &U,
    expr: &Expr<T>,
    first: B::Expr,
) -> Result<B::Expr, B::BuildError>
    requires { is_some (first_of (bare expr.now)) ≡ true }
    ensures built { Gives B.meaning B.refusal result (refilled_by B.operations (with_built B.operations (U.replaced unknowns.now)) (bare expr.now) (B.meaning first)) }
    ensures rising { BuildsRising B.operations B.refusal (RestRisesWith (U.replaced unknowns.now) (bare expr.now)) result }
{
    let builder = builder_at::<T, B>(alloc, expr)?;
    match &expr.expr_kind {
        ExprKind::If {
            then_expr,
            else_expr,
            ..
        } => {
            let then_expr = rebuilt::<T, B, U>(alloc, unknowns, then_expr)?;
            let else_expr = rebuilt::<T, B, U>(alloc, unknowns, else_expr)?;
            builder.ite(first, then_expr, else_expr)
        }
        ExprKind::And { right, .. } => {
            let right = rebuilt::<T, B, U>(alloc, unknowns, right)?;
            builder.and(first, right)
        }
        ExprKind::Or { right, .. } => {
            let right = rebuilt::<T, B, U>(alloc, unknowns, right)?;
            builder.or(first, right)
        }
        ExprKind::UnaryApp { op, .. } => builder.unary_app(*op, first),
        ExprKind::BinaryApp { op, arg2, .. } => {
            let arg2 = rebuilt::<T, B, U>(alloc, unknowns, arg2)?;
            builder.binary_app(*op, first, arg2)
        }
        ExprKind::GetAttr { attr, .. } => access::get_attr(builder, first, attr),
        ExprKind::HasAttr { attr, .. } => access::has_attr(builder, first, attr),
        ExprKind::ExtHasAttr { attrs, .. } => access::has_path(alloc, builder, first, attrs),
        ExprKind::Like { pattern, .. } => access::like(builder, first, pattern),
        ExprKind::Is { entity_type, .. } => access::is_of_type(alloc, builder, first, entity_type),
        ExprKind::Lit(_) => unreachable!(),
        ExprKind::Var(_) => unreachable!(),
        ExprKind::Slot(_) => unreachable!(),
        ExprKind::Unknown(_) => unreachable!(),
        ExprKind::ExtensionFunctionApp { .. } => unreachable!(),
        ExprKind::Set(_) => unreachable!(),
        ExprKind::Record(_) => unreachable!(),
    }
}

// Each of the expressions built again.
#[cycle(rebuilt)]
fn rebuilt_items<T, B: ExprBuilder, U: Replacement>(
    alloc: Global,
    unknowns: &U,
    items: &[Expr<T>],
) -> Result<Vec<B::Expr>, B::BuildError>
    ensures built { Gives (λ v. map B.meaning v.items) B.refusal result (made_all B.operations (with_built B.operations (U.replaced unknowns.now)) (trees (map bare items.now))) }
    ensures rising { BuildsRising B.operations B.refusal (AllRiseWith (U.replaced unknowns.now) (trees (map bare items.now))) result }
{
    let mut built = Vec::new(alloc);
    for item in items {
        let item = rebuilt::<T, B, U>(alloc, unknowns, item)?;
        built.push(item).map_err(AllocError::from)?;
    }
    Ok(built)
}

// The entries, the expression of each built again.
#[cycle(rebuilt)]
fn rebuilt_entries<T, B: ExprBuilder, U: Replacement>(
    alloc: Global,
    unknowns: &U,
    entries: &BTreeMap<RcStr, Expr<T>>,
) -> Result<Vec<(RcStr, B::Expr)>, B::BuildError>
    ensures built { Gives (λ v. map (λ p. B.meaning p.1) v.items) B.refusal result (made_all B.operations (with_built B.operations (U.replaced unknowns.now)) (trees (map (λ e. e.1) (bare_entries entries.now.entries)))) }
    ensures keys { IfOk result (λ v. map (λ p. rc_str_bytes p.0) v.items ≡ keys (bare_entries entries.now.entries)) }
    ensures in_order { IfOk result (λ v. IsStrictlySortedBy text_cmp (keys (bare_entries entries.now.entries))) }
    ensures rising { BuildsRising B.operations B.refusal (AllRiseWith (U.replaced unknowns.now) (trees (map (λ e. e.1) (bare_entries entries.now.entries)))) result }
{
    let mut built = Vec::new(alloc);
    for (key, item) in entries {
        let item = rebuilt::<T, B, U>(alloc, unknowns, item)?;
        built.push((key.clone()?, item)).map_err(AllocError::from)?;
    }
    Ok(built)
}
