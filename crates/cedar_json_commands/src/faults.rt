// Why a text of JSON says no body of a command, and where. What is told is only tested; by contract a fault is told
// just where nothing is said.
ghost use Rattle.std.specs.Prelude.{◌≡◌, not, is_some, IfOk};
ghost use Rattle.cedar_json_commands.specs.Links.{link_of};
ghost use Rattle.cedar_json_commands.specs.Others.{tell_of};
ghost use Rattle.cedar_json_commands.specs.PartialQuestions.{partial_question_of};
ghost use Rattle.cedar_json_commands.specs.Verbs.{says_body};

use crate::fault_walks::body_found;
use crate::verbs::{JsonVerb, body_text};
use cedar_json::{JsonFault, Unread, parse_loosely, placed_fault, syntax_fault};
use json::Scratch;
use std::alloc::{AllocError, Global};

fn first_fault(alloc: Global, verb: JsonVerb, json: &str) -> Result<JsonFault, AllocError> {
    let mut scratch = Scratch::new(alloc);
    let Some(value) = parse_loosely(alloc, json, &mut scratch)? else {
        return syntax_fault(alloc, json);
    };
    let found = body_found(alloc, verb, &value)?;
    placed_fault(alloc, json, found)
}

/// Why a text of JSON says no body of a command; nothing where it says one. It errs for want of memory alone.
pub fn json_fault(
    alloc: Global,
    verb: JsonVerb,
    json: &str,
) -> Result<Option<JsonFault>, AllocError>
    ensures { IfOk result (λ fault. is_some fault ≡ not (says_body verb json.now)) }
{
    match body_text(alloc, verb, json) {
        Ok(_) => Ok(None),
        Err(Unread::Memory) => Err(AllocError),
        Err(Unread::Unsaid) => {
            let fault = first_fault(alloc, verb, json)?;
            Ok(Some(fault))
        }
    }
}

/// Why a text of JSON says no link; nothing where it says one. It errs for want of memory alone.
pub fn link_fault(alloc: Global, json: &str) -> Result<Option<JsonFault>, AllocError>
    ensures { IfOk result (λ fault. is_some fault ≡ not (is_some (link_of json.now))) }
{
    json_fault(alloc, JsonVerb::Link, json)
}

/// Why a text of JSON tells no values; nothing where it tells some, or none by an empty object. It errs for want of memory
/// alone.
pub fn tell_fault(alloc: Global, json: &str) -> Result<Option<JsonFault>, AllocError>
    ensures { IfOk result (λ fault. is_some fault ≡ not (is_some (tell_of json.now))) }
{
    json_fault(alloc, JsonVerb::Tell, json)
}

/// Why a text of JSON asks no question, parts of which may be left open; nothing where it asks one. It errs for want of
/// memory alone.
pub fn partial_question_fault(alloc: Global, json: &str) -> Result<Option<JsonFault>, AllocError>
    ensures { IfOk result (λ fault. is_some fault ≡ not (is_some (partial_question_of json.now))) }
{
    json_fault(alloc, JsonVerb::AskPartial, json)
}
