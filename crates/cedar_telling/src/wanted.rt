// What a question asks for: the kinds of its unknowns' values.
ghost use Rattle.std.specs.Prelude.{◌≡◌, true, false, codes, IfSome, option_map, if◌then◌else◌};
ghost use Rattle.std.specs.Option.{option_copied};
ghost use Rattle.cedar_language.specs.Tree.{RecordType};
ghost use Rattle.cedar_partial_evaluation.specs.Unknowns.{is_of_type};
ghost use Rattle.cedar_world.specs.Asking.{Missing};
ghost use Rattle.cedar_world.specs.Orders.{text_eq};
ghost use Rattle.cedar_world.specs.Question as world;
ghost use Rattle.cedar_world.specs.Values.{some_field};
ghost use Rattle.cedar_held.specs.Fields.{unrestricted};
ghost use Rattle.cedar_held.specs.Lent.{fields_in};
ghost use Rattle.cedar_requests.specs.Parts.{part_of};
ghost use Rattle.cedar_telling.specs.Questions.{context_written, question_of};
ghost use Rattle.cedar_telling.specs.TellSteps.{IsGivenRestricted, entries_as};

use crate::questions::AskBody;
use crate::unknowns::is_same;
use cedar_held::entries_of;
use cedar_literals::literals::Literal;
use cedar_literals::uids::EntityType;
use cedar_requests::EntityUIDEntry;
use cedar_trees::expr::Expr;
use cedar_values::values::{Value, ValueKind};
use std::collections::BTreeMap;
use std::rc::RcStr;

// The entries of the record that is given for the context.
pub(crate) fn context_entries(context: Option<&Expr>) -> Option<&BTreeMap<RcStr, Expr>>
    requires { IsGivenRestricted context }
    ensures context { entries_as (option_map (λ entries. fields_in entries.now) result) ≡ context_written context.entry }
    ensures restricted { IfSome result (λ entries. some_field unrestricted (fields_in entries.now) ≡ false) }
{
    match context {
        None => None,
        Some(record) => entries_of(record),
    }
}

// Whether the value is an entity, of this type where one is stated.
fn is_entity(entity_type: Option<&EntityType>, value: &Value) -> bool
    ensures { result ≡ world.fits_part (Missing (option_copied entity_type.entry)) value.now }
{
    match value.value_kind() {
        ValueKind::Lit(Literal::EntityUID(uid)) => match entity_type {
            None => true,
            Some(entity_type) => uid.entity_type() == entity_type,
        },
        _ => false,
    }
}

fn is_record(value: &Value) -> bool
    ensures { result ≡ is_of_type RecordType value.now }
{
    match value.value_kind() {
        ValueKind::Record(_) => true,
        _ => false,
    }
}

// Whether a variable takes the value that is told for this name: an entity, of the stated type where one is
// stated, where it is its own name.
fn part_takes(part: &EntityUIDEntry, variable: &str, name: &str, value: &Value) -> bool
    ensures { result ≡ (if text_eq name.now variable.now then world.fits_part (part_of part.now) value.now else true) }
{
    match part {
        EntityUIDEntry::Known { euid: _, loc: _ } => true,
        EntityUIDEntry::Unknown { ty, loc: _ } => {
            !is_same(name, variable) || is_entity(ty.as_ref(), value)
        }
    }
}

// The same of a record for the context.
fn context_takes(context: Option<&Expr>, name: &str, value: &Value) -> bool
    requires { IsGivenRestricted context }
    ensures { result ≡ (if text_eq name.now (codes "context") then world.fits_context (context_written context.entry) value.now else true) }
{
    match context_entries(context) {
        None => !is_same(name, "context") || is_record(value),
        Some(_) => true,
    }
}

/// Whether the value is of the kind of the unknown that has this name.
pub(crate) fn takes(asked: &AskBody<'_>, name: &str, value: &Value) -> bool
    requires { IsGivenRestricted asked.now.context }
    ensures { result ≡ world.fits (question_of asked.now) name.now value.now }
{
    part_takes(&asked.principal, "principal", name, value)
        && part_takes(&asked.action, "action", name, value)
        && part_takes(&asked.resource, "resource", name, value)
        && context_takes(asked.context, name, value)
}
