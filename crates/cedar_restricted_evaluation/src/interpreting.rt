// The evaluation of restricted expressions.
ghost use Rattle.std.specs.Prelude.{◌≡◌, ◌<◌, ◌≤◌, IfOk, true, map};
ghost use Rattle.cedar_language.specs.Height.{height, heights};
ghost use Rattle.cedar_language.specs.Restricted.{is_restricted, are_restricted};
ghost use Rattle.cedar_language.specs.Tree.{Apply, MakeSet, MakeRecord, Call};
ghost use Rattle.cedar_grammar.specs.Build.{trees, keys};
ghost use Rattle.cedar_restricted.specs.PartialValues.{partial_of};
ghost use Rattle.cedar_restricted.specs.Views.{borrowed_tree};
ghost use Rattle.cedar_trees.specs.Bare.{bare, bare_entries};
ghost use Rattle.cedar_extensions.specs.Table.{as_table};
ghost use Rattle.cedar_restricted_evaluation.specs.Evaluations.{MeansKnown, Answers, IsLeft};
ghost use Rattle.cedar_restricted_evaluation.specs.Built.{IsBuiltPart};
ghost use Rattle.cedar_restricted_evaluation.specs.Findings.{Evaluates, EvaluateAll};

use crate::calls::call;
use crate::records::keyed;
use cedar_extensions::evaluation_error::EvaluationError;
use cedar_extensions::extensions::Extensions;
use cedar_extensions::objects::ExtensionFunctionObject;
use cedar_names::names::Name;
use cedar_names::places::Loc;
use cedar_partial_evaluation::known_is_meaning;
use cedar_restricted::borrowed::BorrowedRestrictedExpr;
use cedar_restricted::partial_values::PartialValue;
use cedar_restricted::split::split;
use cedar_trees::expr::{Expr, ExprKind};
use cedar_values::values::{Value, ValueKind};
use either::Either;
use std::alloc::{AllocError, Global};
use std::collections::BTreeMap;
use std::rc::{Rc, RcStr};

/// The value of a restricted expression, or what is left of it where it waits for unknowns.
///
/// Items of sets and arguments of calls are evaluated in their order and the entries of records in the
/// order of their keys; the first error is the result, also behind an item that waits. What has such an
/// item waits as a whole, its other items written as expressions; so a call with such an argument is
/// not made. A call of `unknown` with a text gives the unknown of that name.
///
/// It errs with what the functions of the table err with, `FailedExtensionFunctionLookup` where the
/// table lacks a function, `RecursionLimit` where the evaluation nests deeper than `depth`, the
/// outermost expression being at 1, and `Memory`.
pub fn interpret_restricted<F: ExtensionFunctionObject>(
    alloc: Global,
    expr: BorrowedRestrictedExpr<'_>,
    extensions: &Extensions<'_, F>,
    depth: u32,
) -> Result<PartialValue, EvaluationError>
    ensures meaning { MeansKnown (as_table F.answers extensions.now) depth (borrowed_tree expr.entry) result }
    ensures answer { Answers (as_table F.answers extensions.now) depth (borrowed_tree expr.entry) result }
    ensures left { IfOk result (λ partial. IsLeft (partial_of partial)) }
    ensures built { IfOk result (λ partial. IsBuiltPart (partial_of partial)) }
    ensures limit { IfOk result (λ partial. height (borrowed_tree expr.entry) ≤ depth) }
{
    known_is_meaning();
    interpret(alloc, expr.as_expr(), extensions, depth)
}

#[cycle(interpret)]
fn interpret<F: ExtensionFunctionObject>(
    alloc: Global,
    expr: &Expr,
    extensions: &Extensions<'_, F>,
    depth: u32,
) -> Result<PartialValue, EvaluationError>
    requires { is_restricted (bare expr.now) ≡ true }
    ensures found { Evaluates (as_table F.answers extensions.now) (bare expr.now) (depth < height (bare expr.now)) result }
    ensures limit { IfOk result (λ found. height (bare expr.now) ≤ depth) }
{
    let place = place(alloc, expr)?;
    let Some(below) = depth.checked_sub(1) else {
        return Err(EvaluationError::recursion_limit(place));
    };
    match &expr.expr_kind {
        ExprKind::Lit(literal) => {
            let kind = ValueKind::Lit(literal.clone()?);
            Ok(PartialValue::from(Value::new(kind, place)))
        }
        ExprKind::Unknown(unknown) => {
            Ok(PartialValue::unknown(unknown.clone()?).with_maybe_source_loc(place))
        }
        ExprKind::Set(items) => interpret_set(alloc, items, place, extensions, below),
        ExprKind::Record(entries) => interpret_record(alloc, entries, place, extensions, below),
        ExprKind::ExtensionFunctionApp { fn_name, args } => {
            interpret_call(alloc, fn_name, args, place, extensions, below)
        }
        ExprKind::Var(_) => unreachable!(),
        ExprKind::Slot(_) => unreachable!(),
        ExprKind::If { .. } => unreachable!(),
        ExprKind::And { .. } => unreachable!(),
        ExprKind::Or { .. } => unreachable!(),
        ExprKind::UnaryApp { .. } => unreachable!(),
        ExprKind::BinaryApp { .. } => unreachable!(),
        ExprKind::GetAttr { .. } => unreachable!(),
        ExprKind::HasAttr { .. } => unreachable!(),
        ExprKind::ExtHasAttr { .. } => unreachable!(),
        ExprKind::Like { .. } => unreachable!(),
        ExprKind::Is { .. } => unreachable!(),
    }
}

#[cycle(interpret)]
fn interpret_set<F: ExtensionFunctionObject>(
    alloc: Global,
    items: &[Expr],
    place: Option<Loc>,
    extensions: &Extensions<'_, F>,
    depth: u32,
) -> Result<PartialValue, EvaluationError>
    requires { are_restricted (trees (map bare items.now)) ≡ true }
    ensures found { Evaluates (as_table F.answers extensions.now) (Apply MakeSet (trees (map bare items.now))) (depth < heights (trees (map bare items.now))) result }
    ensures limit { IfOk result (λ found. heights (trees (map bare items.now)) ≤ depth) }
{
    let items = interpret_items(alloc, items, extensions, depth)?;
    match split(alloc, items)? {
        Either::Left(values) => Ok(PartialValue::from(Value::set(alloc, values, place)?)),
        Either::Right(exprs) => {
            let set = Expr::set(alloc, exprs)?;
            Ok(PartialValue::from(set.with_maybe_source_loc(place)))
        }
    }
}

#[cycle(interpret)]
fn interpret_record<F: ExtensionFunctionObject>(
    alloc: Global,
    entries: &BTreeMap<RcStr, Expr>,
    place: Option<Loc>,
    extensions: &Extensions<'_, F>,
    depth: u32,
) -> Result<PartialValue, EvaluationError>
    requires { are_restricted (trees (map (λ e. e.1) (bare_entries entries.now.entries))) ≡ true }
    ensures found { Evaluates (as_table F.answers extensions.now) (Apply (MakeRecord (keys (bare_entries entries.now.entries))) (trees (map (λ e. e.1) (bare_entries entries.now.entries)))) (depth < heights (trees (map (λ e. e.1) (bare_entries entries.now.entries)))) result }
    ensures limit { IfOk result (λ found. heights (trees (map (λ e. e.1) (bare_entries entries.now.entries))) ≤ depth) }
{
    let items = interpret_entries(alloc, entries, extensions, depth)?;
    match split(alloc, items)? {
        Either::Left(values) => {
            let fields = Rc::new(alloc, keyed(alloc, entries, values)?)?;
            Ok(PartialValue::from(Value::record_arc(fields, place)))
        }
        Either::Right(exprs) => {
            let record = Expr::record_arc(Rc::new(alloc, keyed(alloc, entries, exprs)?)?);
            Ok(PartialValue::from(record.with_maybe_source_loc(place)))
        }
    }
}

#[cycle(interpret)]
fn interpret_call<F: ExtensionFunctionObject>(
    alloc: Global,
    name: &Name,
    args: &[Expr],
    place: Option<Loc>,
    extensions: &Extensions<'_, F>,
    depth: u32,
) -> Result<PartialValue, EvaluationError>
    requires { are_restricted (trees (map bare args.now)) ≡ true }
    ensures found { Evaluates (as_table F.answers extensions.now) (Apply (Call name.now) (trees (map bare args.now))) (depth < heights (trees (map bare args.now))) result }
    ensures limit { IfOk result (λ found. heights (trees (map bare args.now)) ≤ depth) }
{
    let args = interpret_items(alloc, args, extensions, depth)?;
    match split(alloc, args)? {
        Either::Left(values) => call(alloc, name, &values, place, extensions),
        Either::Right(exprs) => {
            let call = Expr::call_extension_fn(alloc, name.clone(alloc)?, exprs)?;
            Ok(PartialValue::from(call.with_maybe_source_loc(place)))
        }
    }
}

#[cycle(interpret)]
fn interpret_items<F: ExtensionFunctionObject>(
    alloc: Global,
    items: &[Expr],
    extensions: &Extensions<'_, F>,
    depth: u32,
) -> Result<Vec<PartialValue>, EvaluationError>
    requires { are_restricted (trees (map bare items.now)) ≡ true }
    ensures found { EvaluateAll (as_table F.answers extensions.now) (map bare items.now) (depth < heights (trees (map bare items.now))) result }
    ensures limit { IfOk result (λ found. heights (trees (map bare items.now)) ≤ depth) }
{
    let mut answers = Vec::new(alloc);
    for item in items {
        let answer = interpret(alloc, item, extensions, depth)?;
        answers.push(answer)?;
    }
    Ok(answers)
}

#[cycle(interpret)]
fn interpret_entries<F: ExtensionFunctionObject>(
    alloc: Global,
    entries: &BTreeMap<RcStr, Expr>,
    extensions: &Extensions<'_, F>,
    depth: u32,
) -> Result<Vec<PartialValue>, EvaluationError>
    requires { are_restricted (trees (map (λ e. e.1) (bare_entries entries.now.entries))) ≡ true }
    ensures found { EvaluateAll (as_table F.answers extensions.now) (map (λ e. e.1) (bare_entries entries.now.entries)) (depth < heights (trees (map (λ e. e.1) (bare_entries entries.now.entries)))) result }
    ensures limit { IfOk result (λ found. heights (trees (map (λ e. e.1) (bare_entries entries.now.entries))) ≤ depth) }
{
    let mut answers = Vec::new(alloc);
    for (_key, item) in entries {
        let answer = interpret(alloc, item, extensions, depth)?;
        answers.push(answer)?;
    }
    Ok(answers)
}

// A copy of the place of an expression.
fn place(alloc: Global, expr: &Expr) -> Result<Option<Loc>, AllocError> {
    match &expr.source_loc {
        None => Ok(None),
        Some(loc) => Ok(Some(loc.clone(alloc)?)),
    }
}
