// Words of commands of which JSON says the body, and why it says none.
ghost use Rattle.std.specs.Prelude.{◌≡◌, IfNone, IfSome, IfOk};
ghost use Rattle.cedar_json_commands.specs.declared.verbs.JsonVerb.{JsonVerb as Command};
ghost use Rattle.cedar_c.specs.Json.{json_word, IsJsonWord, IsBytesFault, TellsJsonWhy};

use cedar_calls::JsonVerb;
use cedar_json::{JsonFault, encoding_fault, faults_text};
use cedar_json_commands::json_fault;
use std::alloc::{AllocError, Global};

/// The command of JSON that is spelled so, or `None` where none is: as the verbs of frames are, and `ask-partial`.
pub(crate) fn json_verb_named(word: &[u8]) -> Option<JsonVerb>
    ensures found { IfSome result (λ verb. word.now ≡ json_word verb) }
    ensures none { IfNone result ((verb : Command) → word.now ≡ json_word verb → ⊥) }
{
    if word == b"ask".as_slice() {
        Some(JsonVerb::Ask)
    } else if word == b"ask-partial".as_slice() {
        Some(JsonVerb::AskPartial)
    } else if word == b"tell".as_slice() {
        Some(JsonVerb::Tell)
    } else if word == b"put".as_slice() {
        Some(JsonVerb::Put)
    } else if word == b"add".as_slice() {
        Some(JsonVerb::Add)
    } else if word == b"remove".as_slice() {
        Some(JsonVerb::Remove)
    } else if word == b"link".as_slice() {
        Some(JsonVerb::Link)
    } else if word == b"unlink".as_slice() {
        Some(JsonVerb::Unlink)
    } else if word == b"remove-static".as_slice() {
        Some(JsonVerb::RemoveStatic)
    } else if word == b"remove-template".as_slice() {
        Some(JsonVerb::RemoveTemplate)
    } else {
        None
    }
}

/// The fault of bytes that say no body of a command; nothing where they say one. It is refused for memory alone.
fn bytes_fault(alloc: Global, verb: JsonVerb, json: &[u8]) -> Result<Option<JsonFault>, AllocError>
    ensures { IfOk result (IsBytesFault verb json.now) }
{
    match str::from_utf8(json) {
        Ok(json) => json_fault(alloc, verb, json),
        Err(_) => {
            let fault = encoding_fault(alloc, json)?;
            Ok(Some(fault))
        }
    }
}

/// Why JSON says no body of the command that is spelled so, as a list; `None` where there is no such command. It is refused for memory
/// alone.
pub(crate) fn why_text(
    alloc: Global,
    word: &[u8],
    json: &[u8],
) -> Result<Option<Vec<u8>>, AllocError>
    ensures told { IfOk result (λ list. IfSome list (λ list. TellsJsonWhy word.now json.now list.items)) }
    ensures no_command { IfOk result (λ list. IfNone list (IsJsonWord word.now → ⊥)) }
{
    let Some(verb) = json_verb_named(word) else {
        return Ok(None);
    };
    let fault = bytes_fault(alloc, verb, json)?;
    let list = faults_text(alloc, fault.as_ref())?;
    Ok(Some(list))
}
