// The names for which a question wants values.
ghost use Rattle.std.specs.Prelude.{◌≡◌, ◌&&◌, ◌||◌, ◌∷◌, [], ◌++◌, not, is_some, IfOk, OnOk, List, map};
ghost use Rattle.std.specs.FinMap as finite;
ghost use Rattle.std.specs.List.{filter};
ghost use Rattle.cedar_grammar.specs.Build.{trees};
ghost use Rattle.cedar_requests.specs.Parts.{part_of};
ghost use Rattle.cedar_telling.specs.Questions.{context_written, question_of};
ghost use Rattle.cedar_language.specs.Uid.{Text};
ghost use Rattle.cedar_restricted.specs.Views.{restricted_tree};
ghost use Rattle.cedar_trees.specs.Bare.{bare, bare_entries};
ghost use Rattle.cedar_world.specs.Orders.{text_eq};
ghost use Rattle.cedar_world.specs.Question as world;
ghost use Rattle.cedar_telling.specs.AskedNames.{has_name, names_it, is_listed, AddsNames, AreAskedBy, AreUntoldOf};
ghost use Rattle.cedar_telling.specs.TellSteps.{IsGivenRestricted};
ghost use Rattle.cedar_telling.specs.Tells.{told_in};
ghost use Rattle.cedar_telling.specs.UnknownNames.{stands_in, stands_in_call, stands_in_some};

use crate::questions::{AskBody, ask_body};
use crate::telling::is_told;
use crate::unknowns::{is_unknown, name_of};
use crate::wanted::context_entries;
use cedar_names::names::Name;
use cedar_requests::EntityUIDEntry;
use cedar_restricted::restricted::RestrictedExpr;
use cedar_trees::expr::{Expr, ExprKind};
use cedar_values::values::Value;
use std::alloc::{AllocError, Global};
use std::collections::{BTreeMap, BTreeSet};
use std::rc::RcStr;

fn push_name<'e>(names: &mut Vec<&'e str>, name: &'e str) -> Result<(), AllocError>
    ensures { OnOk result (AddsNames (λ test. test name.now) names.old names.new) }
{
    names.push(name)?;
    Ok(())
}

/// Appends the names of the unknowns of a restricted expression, and those that calls of `unknown` give there, one for
/// each place. It recurs on items, arguments and entries alone. Refused for memory alone.
#[cycle(push_names)]
#[tactic(auto, using(crate::proofs::WrittenNames::below))]
fn push_names<'e>(names: &mut Vec<&'e str>, expr: &'e Expr) -> Result<(), AllocError>
    ensures { OnOk result (AddsNames (λ test. stands_in test (bare expr.now)) names.old names.new) }
{
    match &expr.expr_kind {
        ExprKind::Unknown(unknown) => push_name(names, &unknown.name),
        ExprKind::ExtensionFunctionApp { fn_name, args } => push_call(names, fn_name, args),
        ExprKind::Set(items) => push_all(names, items),
        ExprKind::Record(entries) => push_entries(names, entries),
        ExprKind::Lit(_) | ExprKind::Var(_) | ExprKind::Slot(_) => Ok(()),
        ExprKind::If { .. } | ExprKind::And { .. } | ExprKind::Or { .. } => Ok(()),
        ExprKind::UnaryApp { .. } | ExprKind::BinaryApp { .. } => Ok(()),
        ExprKind::GetAttr { .. } | ExprKind::HasAttr { .. } | ExprKind::ExtHasAttr { .. } => Ok(()),
        ExprKind::Like { .. } | ExprKind::Is { .. } => Ok(()),
    }
}

#[cycle(push_names)]
fn push_call<'e>(
    names: &mut Vec<&'e str>,
    function: &Name,
    args: &'e [Expr],
) -> Result<(), AllocError>
    ensures { OnOk result (AddsNames (λ test. stands_in_call test function.now (trees (map bare args.now))) names.old names.new) }
{
    if is_unknown(function) {
        match name_of(args) {
            None => push_all(names, args),
            Some(name) => push_name(names, name),
        }
    } else {
        push_all(names, args)
    }
}

#[cycle(push_names)]
fn push_all<'e>(names: &mut Vec<&'e str>, items: &'e [Expr]) -> Result<(), AllocError>
    ensures { OnOk result (AddsNames (λ test. stands_in_some test (trees (map bare items.now))) names.old names.new) }
{
    for item in items {
        push_names(names, item)?;
    }
    Ok(())
}

#[cycle(push_names)]
fn push_entries<'e>(
    names: &mut Vec<&'e str>,
    entries: &'e BTreeMap<RcStr, Expr>,
) -> Result<(), AllocError>
    ensures { OnOk result (AddsNames (λ test. stands_in_some test (trees (map (λ e. e.1) (bare_entries entries.now.entries)))) names.old names.new) }
{
    for (_key, expr) in entries {
        push_names(names, expr)?;
    }
    Ok(())
}

// Appends the name of a variable for which nothing is given.
fn push_missing<'e>(
    names: &mut Vec<&'e str>,
    part: &EntityUIDEntry,
    variable: &'e str,
) -> Result<(), AllocError>
    ensures { OnOk result (AddsNames (λ test. world.is_missing (part_of part.now) && test variable.now) names.old names.new) }
{
    match part {
        EntityUIDEntry::Known { euid: _, loc: _ } => Ok(()),
        EntityUIDEntry::Unknown { ty: _, loc: _ } => push_name(names, variable),
    }
}

// Appends the names of the context's unknowns: itself, where none is given.
fn push_context<'e>(names: &mut Vec<&'e str>, context: Option<&'e Expr>) -> Result<(), AllocError>
    requires { IsGivenRestricted context }
    ensures { OnOk result ((n : Text) → names_it names.new n ≡ (names_it names.old n || world.has_name (context_written context.entry) n)) }
{
    match context_entries(context) {
        None => push_name(names, "context"),
        Some(entries) => push_entries(names, entries),
    }
}

// The names for which a question wants values.
fn names_of<'q>(alloc: Global, asked: &AskBody<'q>) -> Result<Vec<&'q str>, AllocError>
    requires { IsGivenRestricted asked.now.context }
    ensures { IfOk result (λ names. (n : Text) → names_it names n ≡ world.is_unknown (question_of asked.now) n) }
{
    let mut names = Vec::new(alloc);
    push_missing(&mut names, &asked.principal, "principal")?;
    push_missing(&mut names, &asked.action, "action")?;
    push_missing(&mut names, &asked.resource, "resource")?;
    push_context(&mut names, asked.context)?;
    Ok(names)
}

// The same of the question of a body.
fn names_asked(alloc: Global, body: &RestrictedExpr) -> Result<Vec<&str>, AllocError>
    ensures { IfOk result (λ names. AreAskedBy (restricted_tree body.now) (map (λ n. n.now) names.items)) }
{
    match ask_body(alloc, body.as_ref())? {
        Some(asked) => Ok(names_of(alloc, &asked)?),
        None => Ok(Vec::new(alloc)),
    }
}

fn list<'n>(set: &mut BTreeSet<&'n str>, name: &'n str) -> Result<(), AllocError>
    ensures { OnOk result ((n : Text) → is_listed set.new n ≡ (is_listed set.old n || text_eq n name.now)) }
{
    set.insert(name)?;
    Ok(())
}

// These names, as a set.
fn set_of<'n>(alloc: Global, names: &[&'n str]) -> Result<BTreeSet<&'n str>, AllocError>
    ensures { IfOk result (λ set. (n : Text) → is_listed set n ≡ has_name (map (λ n. n.now) names.now) n) }
{
    let mut set = BTreeSet::new(alloc);
    for name in names {
        list(&mut set, *name)?;
    }
    Ok(set)
}

/// The names for which a question wants values, as a set, so that many of them are looked for at little cost. Refused
/// for memory alone.
pub(crate) fn wanted_names<'q>(
    alloc: Global,
    asked: &AskBody<'q>,
) -> Result<BTreeSet<&'q str>, AllocError>
    requires { IsGivenRestricted asked.now.context }
    ensures { IfOk result (λ set. (n : Text) → is_listed set n ≡ world.is_unknown (question_of asked.now) n) }
{
    let names = names_of(alloc, asked)?;
    set_of(alloc, names.as_slice())
}

// Of these names those for which no value is told.
fn without_told<'n>(
    alloc: Global,
    names: &[&'n str],
    told: &BTreeMap<RcStr, Value>,
) -> Result<Vec<&'n str>, AllocError>
    ensures { IfOk result (λ left. map (λ n. n.now) left.items ≡ filter (λ n. not (is_some (finite.get (told_in told.now.entries) n))) (map (λ n. n.now) names.now)) }
{
    let mut left = Vec::new(alloc);
    for name in names {
        if !is_told(told, name) {
            left.push(*name)?;
        }
    }
    Ok(left)
}

/// The names for which the question that a body states wants values that aren't told, lent, each once at least and in no
/// order: those of its context's unknowns, and `principal`, `action`, `resource` and `context` where it leaves them out.
/// Refused for memory alone.
pub fn untold_names<'q>(
    alloc: Global,
    question: &'q RestrictedExpr,
    told: &BTreeMap<RcStr, Value>,
) -> Result<Vec<&'q str>, AllocError>
    ensures { IfOk result (λ names. AreUntoldOf (restricted_tree question.now) (told_in told.now.entries) (map (λ n. n.now) names.items)) }
{
    let names = names_asked(alloc, question)?;
    without_told(alloc, names.as_slice(), told)
}
