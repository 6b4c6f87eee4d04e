// Values that are told for the unknowns of a question.
ghost use Rattle.std.specs.Prelude.{◌≡◌, Some, IfOk, OnOk, not, is_some};
ghost use Rattle.std.specs.FinMap as finite;
ghost use Rattle.std.specs.Rc.{rc_str_bytes};
ghost use Rattle.cedar_extensions.specs.Table.{as_table};
ghost use Rattle.cedar_held.specs.Fields.{Serves};
ghost use Rattle.cedar_held.specs.Lent.{fields_in};
ghost use Rattle.cedar_telling.specs.Questions.{question_of};
ghost use Rattle.cedar_entities.specs.Attributes.{seen_entries};
ghost use Rattle.cedar_restricted.specs.PartialValues.{partial_of};
ghost use Rattle.cedar_restricted.specs.Views.{restricted_tree};
ghost use Rattle.cedar_world.specs.Asking.{Question};
ghost use Rattle.cedar_world.specs.Bodies as world;
ghost use Rattle.cedar_grammar.specs.UnknownCalls.{holds_call};
ghost use Rattle.cedar_world.specs.Refusals.{some_key};
ghost use Rattle.cedar_world.specs.Setting.{Setting};
ghost use Rattle.cedar_telling.specs.AskedNames.{is_listed};
ghost use Rattle.cedar_telling.specs.Tells.{told_in, TellsBody};
ghost use Rattle.cedar_telling.specs.TellSteps.{IsGivenRestricted, fits_attribute, some_misfit, with_attribute, with_attributes};

use crate::asked_names::wanted_names;
use crate::questions::{AskBody, ask_body};
use crate::wanted::takes;
use cedar_extensions::extensions::Extensions;
use cedar_extensions::objects::ExtensionFunctionObject;
use cedar_held::{all_evaluated, entries_of};
use cedar_replies::Refusal;
use cedar_restricted::partial_values::PartialValue;
use cedar_restricted::restricted::RestrictedExpr;
use cedar_trees::expr::Expr;
use cedar_values::values::Value;
use std::alloc::{AllocError, Global};
use std::collections::{BTreeMap, BTreeSet};
use std::rc::RcStr;

fn is_listed<'n>(names: &BTreeSet<&'n str>, name: &'n str) -> bool
    ensures { result ≡ is_listed names.now name.now }
{
    names.contains(&name)
}

// Whether some key is none of these names.
fn names_another<'n>(names: &BTreeSet<&'n str>, entries: &'n BTreeMap<RcStr, Expr>) -> bool
    ensures { result ≡ some_key (λ n. not (is_listed names.now n)) (fields_in entries.now) }
{
    for (name, _expr) in entries {
        if !is_listed(names, name) {
            return true;
        }
    }
    false
}

pub(crate) fn is_told(told: &BTreeMap<RcStr, Value>, name: &str) -> bool
    ensures { result ≡ is_some (finite.get (told_in told.now.entries) name.now) }
{
    told.contains_key(name)
}

// Whether some key was told before.
fn names_told(told: &BTreeMap<RcStr, Value>, entries: &BTreeMap<RcStr, Expr>) -> bool
    ensures { result ≡ some_key (λ n. is_some (finite.get (told_in told.now.entries) n)) (fields_in entries.now) }
{
    for (name, _expr) in entries {
        if is_told(told, name) {
            return true;
        }
    }
    false
}

fn takes_part(asked: &AskBody<'_>, name: &str, value: &PartialValue) -> bool
    requires { IsGivenRestricted asked.now.context }
    ensures { result ≡ fits_attribute (question_of asked.now) name.now (partial_of value.now) }
{
    match value {
        PartialValue::Value(value) => takes(asked, name, value),
        PartialValue::Residual(_) => true,
    }
}

// Whether some value is of another kind than its unknown's.
fn holds_misfit(asked: &AskBody<'_>, values: &BTreeMap<RcStr, PartialValue>) -> bool
    requires { IsGivenRestricted asked.now.context }
    ensures { result ≡ some_misfit (question_of asked.now) (seen_entries values.now.entries) }
{
    for (name, value) in values {
        if !takes_part(asked, name, value) {
            return true;
        }
    }
    false
}

// A value stands at the name then; a residual isn't put there.
fn put(told: &mut BTreeMap<RcStr, Value>, name: RcStr, part: PartialValue) -> Result<(), AllocError>
    ensures { OnOk result (told_in told.new.entries ≡ with_attribute (told_in told.old.entries) (rc_str_bytes name) (partial_of part)) }
{
    if let PartialValue::Value(value) = part {
        told.insert(name, value)?;
    }
    Ok(())
}

// What is told, and these values besides.
fn with_values(
    told: &BTreeMap<RcStr, Value>,
    mut values: BTreeMap<RcStr, PartialValue>,
) -> Result<BTreeMap<RcStr, Value>, AllocError>
    ensures { IfOk result (λ all. told_in all.entries ≡ with_attributes (told_in told.now.entries) (seen_entries values.entries)) }
{
    let mut all = told.clone()?;
    // from the last one on, as the world lists them
    while let Some((name, value)) = values.pop_last() {
        put(&mut all, name, value)?;
    }
    Ok(all)
}

/// All that is told with the values that a body tells for the unknowns of a question: a copy of what was
/// told before, and the body's values. `question` is the body that states the question. (Cedar language
/// reference, "Partial evaluation".)
///
/// It is refused `Shape` where the body is no record; `Evaluation` where some part of a value errs that
/// holds no unknown; `NotAValue` where none does and a value holds an unknown; `NoSuchUnknown` where a key
/// is no unknown of the question; `AlreadyTold` where one was told before; `WrongKind` where the principal,
/// the action or the resource is told what is no entity, or one of another type than the question states,
/// or the context what is no record; `Depth` only where the body is higher than `depth`; and `Memory`.
pub fn told_by<F: ExtensionFunctionObject>(
    alloc: Global,
    body: &RestrictedExpr,
    question: &RestrictedExpr,
    told: &BTreeMap<RcStr, Value>,
    extensions: &Extensions<'_, F>,
    depth: u32,
) -> Result<BTreeMap<RcStr, Value>, Refusal>
    ensures { (by : Setting) (q : Question) → Serves (as_table F.answers extensions.now) by (holds_call (restricted_tree body.now)) → world.ask_body (restricted_tree question.now) ≡ Some q → TellsBody by q (told_in told.now.entries) depth (restricted_tree body.now) result }
{
    let Some(entries) = entries_of(body.as_ref()) else {
        return Err(Refusal::Shape);
    };
    let Some(values) = all_evaluated(alloc, entries, extensions, depth)? else {
        return Err(Refusal::NotAValue);
    };
    let Some(asked) = ask_body(alloc, question.as_ref())? else {
        return Err(Refusal::Shape);
    };
    let names = wanted_names(alloc, &asked)?;
    if names_another(&names, entries) {
        return Err(Refusal::NoSuchUnknown);
    }
    if names_told(told, entries) {
        return Err(Refusal::AlreadyTold);
    }
    if holds_misfit(&asked, &values) {
        return Err(Refusal::WrongKind);
    }
    Ok(with_values(told, values)?)
}
