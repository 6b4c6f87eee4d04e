// Attributes of what a part is found to be.
ghost use Rattle.std.specs.Prelude.{◌≡◌, IfOk};
ghost use Rattle.std.specs.Rc.{rc_str_bytes};
ghost use Rattle.cedar_language.specs.Facts.{Facts};
ghost use Rattle.cedar_language.specs.Tree as tree;
ghost use Rattle.cedar_language.specs.Tree.{Tree};
ghost use Rattle.cedar_language.specs.Operators.{applied};
ghost use Rattle.cedar_language.specs.Value as language;
ghost use Rattle.cedar_language.specs.Value.{no_values, RecordAttrDoesNotExist};
ghost use Rattle.cedar_partial_evaluation.specs.Partial.{Answer, AllEvaluated, LeafAnswers, answer_of, and_next, apply_answer};
ghost use Rattle.cedar_trees.specs.Bare.{bare};
ghost use Rattle.cedar_restricted.specs.PartialValues.{partial_of};
ghost use Rattle.cedar_extensions.specs.Failures.{OfKind, failure_of};
ghost use Rattle.either.specs.declared.Either.{Either};
ghost use Rattle.cedar_value_operators.specs.Operands.{one};
ghost use Rattle.cedar_operators.specs.Store.{HasFacts};
ghost use Rattle.cedar_interpreter.specs.Meeting.{MeetsAt, part_answer};
ghost use Rattle.cedar_interpreter.specs.Projecting.{ProjectsAt, ProjectsOf, TakesOf};

use crate::applying::known;
use crate::partial_stores::open_attribute;
use cedar_entities::store::Entities;
use cedar_extensions::evaluation_error::EvaluationError;
use cedar_names::places::Loc;
use cedar_operators::get_attr;
use cedar_partial_evaluation::projecting_is_evaluating;
use cedar_restricted::partial_values::PartialValue;
use cedar_shapes::readers::ExprReaders;
use cedar_trees::expr::{Expr, ExprKind};
use cedar_values::values::Value;
use std::alloc::{AllocError, Global};
use std::rc::RcStr;

/// What an attribute of a part is found to be.
#[derive(Drop)]
pub(crate) enum Projected {
    /// This.
    Done(PartialValue),
    /// What this is evaluated to: an entry of a residual record, or what is left of an attribute of an
    /// entity.
    Entry(Expr),
}

/// The attribute of what a part is found to be.
pub(crate) fn attribute(
    alloc: Global,
    part: PartialValue,
    attr: &RcStr,
    loc: Option<&Loc>,
    entities: &Entities,
) -> Result<Projected, EvaluationError>
    ensures { (facts : Facts) → HasFacts entities.now facts → (holds : LeafAnswers) →
        ProjectsAt facts holds (partial_of part) (apply_answer facts holds (tree.GetAttr (rc_str_bytes attr.now)) (and_next facts (part_answer (partial_of part)) (AllEvaluated no_values))) result }
{
    projecting_is_evaluating();
    match part {
        PartialValue::Value(value) => attribute_of_value(alloc, value, attr, loc, entities),
        PartialValue::Residual(rest) => project(alloc, rest, attr, loc),
    }
}

// The attribute of a value, or what is left of it where the store doesn't know what is looked up.
fn attribute_of_value(
    alloc: Global,
    value: Value,
    attr: &RcStr,
    loc: Option<&Loc>,
    entities: &Entities,
) -> Result<Projected, EvaluationError>
    ensures { (facts : Facts) → HasFacts entities.now facts → (holds : LeafAnswers) (part : Either language.Value Tree) →
        ProjectsAt facts holds part (answer_of (applied facts (tree.GetAttr (rc_str_bytes attr.now)) (one value))) result }
{
    let found = get_attr(alloc, entities, &value, attr, loc);
    match open_attribute(alloc, &found, entities, &value, attr)? {
        Some(left) => Ok(left),
        None => done(known(found)),
    }
}

fn done(answer: Result<PartialValue, EvaluationError>) -> Result<Projected, EvaluationError>
    ensures { (facts : Facts) (holds : LeafAnswers) (part : Either language.Value Tree) (c : Answer) → MeetsAt ⊥ c answer → ProjectsAt facts holds part c result }
{
    Ok(Projected::Done(answer?))
}

// The attribute of what is left of a part.
fn project(
    alloc: Global,
    rest: Expr,
    attr: &RcStr,
    loc: Option<&Loc>,
) -> Result<Projected, EvaluationError>
    ensures { (facts : Facts) (holds : LeafAnswers) → ProjectsOf facts holds (rc_str_bytes attr.now) (bare rest) result }
{
    match taken(alloc, &rest, attr, loc)? {
        Some(entry) => Ok(Projected::Entry(entry)),
        None => {
            let access = Expr::get_attr(alloc, rest, attr.clone()?)?;
            Ok(Projected::Done(PartialValue::from(access)))
        }
    }
}

// The entry of a record of which nothing can err, or none where the access waits. It errs where a record
// lacks the attribute.
fn taken(
    alloc: Global,
    rest: &Expr,
    attr: &RcStr,
    loc: Option<&Loc>,
) -> Result<Option<Expr>, EvaluationError>
    ensures { (facts : Facts) (holds : LeafAnswers) → TakesOf facts holds (rc_str_bytes attr.now) (bare rest.now) result }
{
    match &rest.expr_kind {
        ExprKind::Record(entries) => match entries.get(attr.as_str()) {
            None => Err(missing(alloc, attr, loc)?),
            Some(entry) => {
                if rest.is_projectable() {
                    Ok(Some(entry.clone(alloc)?))
                } else {
                    Ok(None)
                }
            }
        },
        _ => Ok(None),
    }
}

// The error of a record that lacks the attribute; refused for memory alone.
fn missing(alloc: Global, attr: &RcStr, loc: Option<&Loc>) -> Result<EvaluationError, AllocError>
    ensures { IfOk result (λ error. failure_of error ≡ OfKind RecordAttrDoesNotExist) }
{
    let loc = match loc {
        None => None,
        Some(loc) => Some(loc.clone(alloc)?),
    };
    Ok(EvaluationError::record_attr_does_not_exist(attr.clone()?, loc))
}
