// The policies of a text that is fine, a line for each.
ghost use Rattle.std.specs.Prelude.{[], string_bytes, IfOk, OnOk};
ghost use Rattle.cedar_messages.specs.Telling.{Adds, IsLine, TellsEach};
ghost use Rattle.cedar_refusals.specs.Checks.{TellsPolicy, TellsPolicies};

use cedar_messages::places::{Places, Position};
use cedar_messages::telling::{on_one_line, tell_line};
use cedar_parser::PolicySet;
use cedar_policies::templates::Template;
use cedar_session::PolicyID;
use std::alloc::{AllocError, Global};

/// The policies of a text as they stand in a set, in the text's order.
#[derive(Clone, Copy)]
pub(crate) struct Listed<'l> {
    pub(crate) set: &'l PolicySet,
    pub(crate) ids: &'l [PolicyID],
}

impl<'l> Listed<'l> {
    /// The policy with this number in the text.
    fn policy(self, number: usize) -> Option<&'l Template> {
        self.set.get_template(self.ids.get(number)?)
    }
}

/// Tells of each of these ids, in their order, the policy of the text that is listed beside it; or that there is none.
pub(crate) fn tell_policies(
    alloc: Global,
    name: &str,
    text: &str,
    ids: &[PolicyID],
    listed: Listed<'_>,
) -> Result<String, AllocError>
    ensures { IfOk result (λ told. TellsPolicies name.now ids.now (string_bytes told)) }
{
    if ids.is_empty() {
        return tell_none(alloc, name);
    }
    tell_each(alloc, name, text, ids, listed)
}

fn tell_none(alloc: Global, name: &str) -> Result<String, AllocError>
    ensures { IfOk result (λ told. TellsPolicies name.now [] (string_bytes told)) }
{
    let mut told = String::new(alloc);
    tell_line(alloc, &mut told, name, None, "no policies", "")?;
    Ok(told)
}

fn tell_each(
    alloc: Global,
    name: &str,
    text: &str,
    ids: &[PolicyID],
    listed: Listed<'_>,
) -> Result<String, AllocError>
    ensures { IfOk result (λ told. TellsEach (TellsPolicy name.now) ids.now (string_bytes told)) }
{
    let places = Places::of(alloc, text)?;
    let mut told = String::new(alloc);
    let mut number = 0usize;
    for id in ids {
        let policy = listed.policy(number);
        tell_policy(alloc, &mut told, name, &places, id, policy)?;
        number = number.saturating_add(1);
    }
    Ok(told)
}

fn tell_policy(
    alloc: Global,
    told: &mut String,
    name: &str,
    places: &Places<'_>,
    id: &PolicyID,
    policy: Option<&Template>,
) -> Result<(), AllocError>
    ensures { OnOk result (Adds (TellsPolicy name.now id.now) (string_bytes told.old) (string_bytes told.new)) }
{
    let place = place_of(places, policy);
    let what = described(alloc, policy)?;
    let line = format!(in alloc; "{} {}", id.as_str(), what.as_str())?;
    tell_line(alloc, told, name, place, line.as_str(), "")?;
    Ok(())
}

/// Where a policy begins, if that is known.
fn place_of(places: &Places<'_>, policy: Option<&Template>) -> Option<Position> {
    match policy?.loc() {
        Some(loc) => Some(places.position(loc.start())),
        None => None,
    }
}

/// `template` where it has slots, else its effect; and behind it the annotation `@id`, if it has one. Refused for memory
/// alone.
pub fn described(alloc: Global, policy: Option<&Template>) -> Result<String, AllocError>
    ensures { IfOk result (λ what. IsLine (string_bytes what)) }
{
    let Some(policy) = policy else {
        return Ok(String::new(alloc));
    };
    let mut what = kind(alloc, policy)?;
    for (key, value) in policy.annotations().iter() {
        if key.as_str() == "id" {
            let annotation = format!(in alloc; " @id({value})")?;
            what.push_str(annotation.as_str())?;
        }
    }
    on_one_line(alloc, what.as_str())
}

fn kind(alloc: Global, policy: &Template) -> Result<String, AllocError> {
    if policy.is_static() {
        format!(in alloc; "{}", policy.effect())
    } else {
        String::from_str(alloc, "template")
    }
}
