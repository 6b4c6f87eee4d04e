// What decides a question, policy by policy.
ghost use Rattle.std.specs.Prelude.{◌≡◌, ◌≢◌, ◌⊎◌, ◌++◌, string_bytes, option_map, map, IfOk, OnOk, ◌≤◌, length};
ghost use Rattle.cedar_frames.specs.Heads.{body_limit};
ghost use Rattle.cedar_policy_parts.specs.Decisions.{decision_of};
ghost use Rattle.cedar_replies.specs.Replies.{answer_of};
ghost use Rattle.cedar_replies.specs.declared.refusal.Refusal.TheVariants as refusals;
ghost use Rattle.cedar_session.specs.Sessions.{setting_of, world_of};
ghost use Rattle.cedar_session.specs.Settings.{setting_with};
ghost use Rattle.cedar_trees.specs.Bare.{bare};
ghost use Rattle.cedar_world.specs.Lines.{answer_line};
ghost use Rattle.cedar_messages.specs.Telling.{Adds};
ghost use Rattle.cedar_refusals.specs.Checks.{TellsFaults};
ghost use Rattle.cedar_refusals.specs.Titles.{titled_text};
ghost use Rattle.cedar_authoring.specs.Explaining.{status_of, TellsAnswered, TellsExplained, TellsPolicies, TellsUnexplained};
ghost use Rattle.cedar_authoring.specs.Names.{names_left, names_of, TellsNames, AwaitedNamesSuffice};
ghost use Rattle.cedar_authoring.specs.Titles.{titled};

use crate::awaiting::{awaited, push_standing};
use crate::held::Held;
use crate::past::Past;
use cedar_extensions::objects::ExtensionFunctionObject;
use cedar_parser::strict::parse_policyset;
use cedar_policy_parts::annotations::Annotations;
use cedar_policy_set::policy_map::PolicyMap;
use cedar_refusals::checking::{DEPTH, Report, refuse_unread};
use cedar_refusals::giving::{Refused, Source, read_source, tell_refusal};
use cedar_refusals::naming::{listed, once};
use cedar_session::{
    Answer, Decision, Extensions, PartialResponse, PolicyID, Refusal, Reply, Session, Verb,
    line_in_memory,
};
use cedar_trees::expr::Expr;
use std::alloc::{AllocError, Global};
use std::rc::Rc;

/// A text as it was read, and the name by which it is told of.
#[derive(Clone, Copy, Debug)]
pub struct Named<'t> {
    pub name: &'t str,
    pub bytes: &'t [u8],
}

/// Explains the question of a body, as `ask` takes it, by these policies and these entities, as `put` takes them, in a
/// session over this table, with the program's limit of depth.
///
/// Told is first the line that answers the question; then of each policy in force, in their order, where it stands, its
/// id, its effect, its annotation `@id`, and whether it is satisfied, isn't, errs, or is open; and of a template that it
/// is one, and how many links it has. Below a policy that errs stands why and where, and below one that is open what is
/// left of it, and the names for whose values that waits. Last come the names for which any of them waits.
///
/// The status is 0 where the question is answered `allow`, 2 where it is `deny`, and 3 where it is `open`. It is 1 where
/// one of the texts is refused, and then lines tell why. Refused for memory alone.
pub fn explained<F: ExtensionFunctionObject>(
    alloc: Global,
    extensions: &Extensions<'_, F>,
    policies: Named<'_>,
    entities: Named<'_>,
    question: Named<'_>,
) -> Result<Report, AllocError>
    ensures explained { IfOk result (λ report. (report.status ≡ 1 → ⊥)
        → TellsExplained (setting_with F.answers extensions.now DEPTH)
        policies.entry.name.now policies.entry.bytes.now entities.entry.bytes.now question.entry.bytes.now
        report.status (string_bytes report.text)) }
    ensures refused { IfOk result (λ report. report.status ≡ 1
        → TellsUnexplained (setting_with F.answers extensions.now DEPTH)
        (titled policies.entry) (titled entities.entry) (titled question.entry) (string_bytes report.text)) }
    ensures status { IfOk result (λ report. (report.status ≡ 0) ⊎ (report.status ≡ 1) ⊎ (report.status ≡ 2) ⊎ (report.status ≡ 3)) }
{
    let policies = match read_source(alloc, policies.name, policies.bytes)? {
        Ok(source) => source,
        Err(report) => return Ok(report),
    };
    let entities = match read_source(alloc, entities.name, entities.bytes)? {
        Ok(source) => source,
        Err(report) => return Ok(report),
    };
    match read_source(alloc, question.name, question.bytes)? {
        Ok(question) => explain_texts(alloc, extensions, policies, entities, question),
        Err(report) => Ok(report),
    }
}

fn explain_texts<F: ExtensionFunctionObject>(
    alloc: Global,
    extensions: &Extensions<'_, F>,
    policies: Source<'_>,
    entities: Source<'_>,
    question: Source<'_>,
) -> Result<Report, AllocError>
    requires policies { length policies.text.now ≤ body_limit }
    requires entities { length entities.text.now ≤ body_limit }
    requires question { length question.text.now ≤ body_limit }
    ensures explained { IfOk result (λ report. (report.status ≡ 1 → ⊥)
        → TellsExplained (setting_with F.answers extensions.now DEPTH)
        policies.entry.name.now policies.entry.text.now entities.entry.text.now question.entry.text.now
        report.status (string_bytes report.text)) }
    ensures refused { IfOk result (λ report. report.status ≡ 1
        → TellsUnexplained (setting_with F.answers extensions.now DEPTH)
        (titled_text policies.entry) (titled_text entities.entry) (titled_text question.entry) (string_bytes report.text)) }
    ensures status { IfOk result (λ report. (report.status ≡ 0) ⊎ (report.status ≡ 1) ⊎ (report.status ≡ 2) ⊎ (report.status ≡ 3)) }
{
    let Ok(mut session) = Session::new(alloc, extensions, DEPTH) else {
        return Err(AllocError);
    };
    let ids = match session.load(policies.text) {
        Ok(ids) => ids,
        Err(refusal) => {
            return refuse_load(alloc, extensions, policies, refusal);
        }
    };
    if let Err(refusal) = session.put(entities.text) {
        let command = Refused::of(Verb::Put, entities, refusal);
        return tell_refusal(alloc, extensions, &session, command);
    }
    match session.ask(question.text) {
        Ok(answer) => explain(alloc, &session, policies, ids.as_slice(), answer),
        Err(refusal) => {
            let command = Refused::of(Verb::Ask, question, refusal);
            tell_refusal(alloc, extensions, &session, command)
        }
    }
}

/// Tells why a session doesn't load a text, unless that is want of memory.
fn refuse_load<F: ExtensionFunctionObject>(
    alloc: Global,
    extensions: &Extensions<'_, F>,
    source: Source<'_>,
    refusal: Refusal,
) -> Result<Report, AllocError>
    ensures other { IfOk result (λ report. refusal ≢ refusals.Memory) }
    ensures told { IfOk result (λ report. TellsFaults (setting_with F.answers extensions.now DEPTH)
        source.entry.name.now source.entry.text.now (string_bytes report.text)) }
    ensures status { IfOk result (λ report. report.status ≡ 1) }
{
    if let Refusal::Memory = refusal {
        return Err(AllocError);
    }
    match parse_policyset(alloc, source.text, extensions, DEPTH) {
        Ok(_) => Err(AllocError),
        Err(errors) => refuse_unread(alloc, source.name, source.text, extensions, &errors),
    }
}

/// Tells what an open question is answered, and how each of these policies stands to it.
fn explain<F: ExtensionFunctionObject>(
    alloc: Global,
    session: &Session<'_, '_, F>,
    source: Source<'_>,
    ids: &[PolicyID],
    answer: Answer,
) -> Result<Report, AllocError>
    ensures told { IfOk result (λ report. TellsAnswered source.entry.name.now (setting_of session.now) (world_of session.now) ids.now (answer_of answer) (string_bytes report.text)) }
    ensures status { IfOk result (λ report. report.status ≡ status_of (answer_of answer).decision) }
{
    let status = status_of(answer.decision);
    let mut text = answer_line(alloc, answer)?;
    let Some(response) = session.response() else {
        return Err(AllocError);
    };
    tell_policies(alloc, &mut text, session, source, response, ids)?;
    tell_names(alloc, &mut text, session, response)?;
    Ok(Report { status, text })
}

/// The line that answers a question.
pub(crate) fn answer_line(alloc: Global, answer: Answer) -> Result<String, AllocError>
    ensures { IfOk result (λ line. string_bytes line ≡ answer_line (answer_of answer)) }
{
    let line = line_in_memory(alloc, &Ok(Reply::Answer(answer)))?;
    match str::from_utf8(line.as_slice()) {
        Ok(line) => String::from_str(alloc, line),
        Err(_) => Err(AllocError),
    }
}

/// The status for what is decided.
pub(crate) fn status_of(decision: Option<Decision>) -> u8
    ensures { result ≡ status_of (option_map decision_of decision) }
{
    match decision {
        Some(Decision::Allow) => 0,
        Some(Decision::Deny) => 2,
        None => 3,
    }
}

/// Tells how each policy in force stands, and of each template how many links it has.
fn tell_policies<F: ExtensionFunctionObject>(
    alloc: Global,
    told: &mut String,
    session: &Session<'_, '_, F>,
    source: Source<'_>,
    response: &PartialResponse,
    ids: &[PolicyID],
) -> Result<(), AllocError>
    ensures { OnOk result (Adds (TellsPolicies source.entry.name.now (world_of session.now).policies response.now ids.now) (string_bytes told.old) (string_bytes told.new)) }
{
    let past = Past::of_text(alloc, source.name, source.text)?;
    let held = Held::of(alloc, session, response)?;
    held.tell_each(alloc, told, &past, ids)
}

/// Until a name is told for which what is left of policies waits, none is told that stands there; and until then, a
/// [`tell`](Session::tell) answers what was answered.
pub fn awaited_names_suffice()
    ensures { AwaitedNamesSuffice }
{}

/// Tells the names for which what is left of the policies waits.
pub(crate) fn tell_names<F: ExtensionFunctionObject>(
    alloc: Global,
    told: &mut String,
    session: &Session<'_, '_, F>,
    response: &PartialResponse,
) -> Result<(), AllocError>
    ensures { OnOk result (Adds (TellsNames (world_of session.now).asked response.now) (string_bytes told.old) (string_bytes told.new)) }
{
    let untold = once(session.untold()?);
    let mut standing = Vec::new(alloc);
    push_all_standing(alloc, &mut standing, response)?;
    let names = awaited(alloc, untold.as_slice(), standing.as_slice())?;
    let names = listed(alloc, names.as_slice())?;
    told.push_str("tell ")?;
    told.push_str(names.as_str())?;
    told.push_str("\n")?;
    Ok(())
}

/// Appends the names that stand in what is left of policies.
fn push_all_standing<'r>(
    alloc: Global,
    names: &mut Vec<&'r str>,
    response: &'r PartialResponse,
) -> Result<(), AllocError>
    ensures { OnOk result (map (λ n. n.now) names.new.items ≡ map (λ n. n.now) names.old.items ++ names_left response.now) }
{
    push_group(alloc, names, &response.residual_permits)?;
    push_group(alloc, names, &response.residual_forbids)
}

fn push_group<'r>(
    alloc: Global,
    names: &mut Vec<&'r str>,
    group: &'r PolicyMap<(Rc<Expr>, Rc<Annotations>)>,
) -> Result<(), AllocError>
    ensures { OnOk result (map (λ n. n.now) names.new.items ≡ map (λ n. n.now) names.old.items ++ names_of (map (λ e. bare e.1.0.value) group.now)) }
{
    for (_id, kept) in group.iter() {
        push_standing(alloc, names, &kept.0)?;
    }
    Ok(())
}
