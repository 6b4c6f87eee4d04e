// Parts of bodies: strings, and entities under their keys.
ghost use Rattle.json.specs.Find.{as_str};
ghost use Rattle.json.specs.Value.{value_view, members_view};
ghost use Rattle.cedar_json.specs.Appended.{Appends};
ghost use Rattle.cedar_json.specs.Entities.{under, if_there};
ghost use Rattle.cedar_json.specs.Parts as parts;
ghost use Rattle.cedar_json.specs.Questions.{asked_in};
ghost use Rattle.cedar_json.specs.QuestionsWritten.{asked_written};
ghost use Rattle.cedar_json.specs.Said.{Tells};
ghost use Rattle.cedar_json_commands.specs.Others.{string_written};
ghost use Rattle.cedar_json_commands.specs.PartialQuestionsWritten.{given_written};

use cedar_json::{Members, Unread, find, write_asked, write_key, write_quoted};
use json::Value;
use std::alloc::Global;

/// Appends an id: a string.
pub fn write_id(out: &mut String, value: &Value<'_>) -> Result<(), Unread>
    ensures told { Tells result (as_str (value_view value.now)) }
    ensures written { Appends result out.old out.new (string_written (value_view value.now)) }
{
    let Some(id) = value.as_str() else {
        return Err(Unread::Unsaid);
    };
    write_quoted(out, id)?;
    Ok(())
}

/// Appends a key, an entity as a question has it, and a comma.
pub fn write_given(
    alloc: Global,
    out: &mut String,
    key: &str,
    value: &Value<'_>,
) -> Result<(), Unread>
    ensures told { Tells result (asked_in (value_view value.now)) }
    ensures written { Appends result out.old out.new (parts.part_written key.now (asked_written (value_view value.now))) }
{
    write_key(out, key)?;
    write_asked(alloc, out, value)?;
    out.push(',')?;
    Ok(())
}

/// Appends under `key` the entity that stands under `from`, if one does.
pub fn write_given_under(
    alloc: Global,
    out: &mut String,
    members: &Members<'_>,
    from: &str,
    key: &str,
) -> Result<(), Unread>
    ensures told { Tells result (if_there asked_in (under from.now (members_view members.now.items))) }
    ensures written { Appends result out.old out.new (given_written key.now (under from.now (members_view members.now.items))) }
{
    match find(members, from) {
        Some(value) => write_given(alloc, out, key, value),
        None => Ok(()),
    }
}
