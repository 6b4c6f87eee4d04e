// The links of a call's templates.
use crate::data::check_json;
use crate::detailed::Failure;
use crate::errors::{CallError, Source};
use crate::fields::Fields;
use crate::names::Names;
use crate::parts::Part;
use crate::policies::give_name;
use cedar_json::Unread;
use cedar_json_commands::read_link;
use cedar_policy_parts::PolicyID;
use cedar_replies::Refusal;
use cedar_session::{BODY_LIMIT, ExtensionFunctionObject, Session};
use std::alloc::{AllocError, Global};

/// The keys of a link: of its template's id, of its own, and of the entities of its slots.
type Spelling = [&'static str; 3];

/// As a call has them.
const OF_A_CALL: Spelling = ["templateId", "newId", "values"];

/// As a file of links has them.
const OF_A_FILE: Spelling = ["template_id", "link_id", "args"];

/// Links the templates that a text of JSON lists, by their names, and names the links. An item has the keys `template_id`, `link_id` and
/// `args`, or those of a call: `templateId`, `newId` and `values`. Where the text can't be read, or the session refuses a link, why that is,
/// and then those before it stand. Refused for memory alone.
pub fn link_listed<F: ExtensionFunctionObject>(
    alloc: Global,
    session: &mut Session<'_, '_, F>,
    names: &mut Names,
    json: &str,
) -> Result<Option<Failure>, AllocError> {
    let source = Source { alloc, json };
    match link_text(source, session, names) {
        Ok(()) => Ok(None),
        Err(CallError::Memory) => Err(AllocError),
        Err(CallError::Failed(failure)) => Ok(Some(failure)),
    }
}

fn link_text<F: ExtensionFunctionObject>(
    source: Source<'_>,
    session: &mut Session<'_, '_, F>,
    names: &mut Names,
) -> Result<(), CallError> {
    check_json(source)?;
    let part = Part::whole(source.json);
    if !part.is_list() {
        return Err(source.unread(part.start, "Kind", "the text is no list of links"));
    }
    let mut from = 0;
    for item in &part.items(source.alloc)? {
        let spelling = if is_of_a_file(source, item)? {
            OF_A_FILE
        } else {
            OF_A_CALL
        };
        link_template(source, session, names, item, spelling, &mut from)?;
    }
    Ok(())
}

/// Whether a link has a key as in a file of links.
fn is_of_a_file(source: Source<'_>, part: &Part<'_>) -> Result<bool, CallError> {
    let members = part.members(source.alloc)?;
    Ok(match members.first() {
        Some(member) => OF_A_FILE.iter().any(|key| *key == member.key.as_str()),
        None => false,
    })
}

/// Links the templates of a call.
pub(crate) fn link_templates<'j, F: ExtensionFunctionObject>(
    source: Source<'j>,
    session: &mut Session<'_, '_, F>,
    names: &mut Names,
    part: &Part<'j>,
) -> Result<(), CallError> {
    if !part.is_list() {
        return Err(source.unread(part.start, "Kind", "templateLinks is no list"));
    }
    let mut from = 0;
    for item in &part.items(source.alloc)? {
        link_template(source, session, names, item, OF_A_CALL, &mut from)?;
    }
    Ok(())
}

fn link_template<'j, F: ExtensionFunctionObject>(
    source: Source<'j>,
    session: &mut Session<'_, '_, F>,
    names: &mut Names,
    part: &Part<'j>,
    spelling: Spelling,
    from: &mut u64,
) -> Result<(), CallError> {
    let [template_key, link_key, values_key] = spelling;
    let mut fields = Fields::of(source, part, "a link", &spelling)?;
    let template = string(source, fields.require(source, template_key)?, template_key)?;
    let link = string(source, fields.require(source, link_key)?, link_key)?;
    let values = fields.require(source, values_key)?;
    let Some(held) = names.id_of(template.as_str()) else {
        return Err(refuse(
            source,
            template.as_str(),
            link.as_str(),
            Refusal::NoSuchTemplate,
        ));
    };
    let held = held.clone()?;
    let id = free_id(source, session, from)?;
    let body = body(source, &held, &id, &values)?;
    if body.len() > BODY_LIMIT {
        return Err(source.unread(
            values.start,
            "Long",
            "a link takes more than 1,048,576 bytes",
        ));
    }
    match session.link(body.as_str()) {
        Ok(()) => give_name(source, names, &id, link.as_str()),
        Err(Refusal::Memory) => Err(CallError::Memory),
        Err(refusal) => Err(refuse(source, template.as_str(), link.as_str(), refusal)),
    }
}

/// What a part says that has to be a string.
fn string(source: Source<'_>, part: Part<'_>, key: &str) -> Result<String, CallError> {
    match part.string {
        Some(string) => Ok(string),
        None => {
            let words = format!(in source.alloc; "{key} is no string")?;
            Err(source.unread(part.start, "Kind", words.as_str()))
        }
    }
}

/// An id `policyN` that nothing has in the session, the first from this number on, which is then the next one.
fn free_id<F: ExtensionFunctionObject>(
    source: Source<'_>,
    session: &Session<'_, '_, F>,
    from: &mut u64,
) -> Result<PolicyID, CallError> {
    match session.policies().next_unbound(source.alloc, *from)? {
        Some((number, id)) => {
            *from = number.saturating_add(1);
            Ok(id)
        }
        None => Err(CallError::Memory),
    }
}

/// The body of a link under the session's ids.
fn body(
    source: Source<'_>,
    template: &PolicyID,
    id: &PolicyID,
    values: &Part<'_>,
) -> Result<String, CallError> {
    let json = format!(in source.alloc;
        "{{\"templateId\":\"{}\",\"newId\":\"{}\",\"values\":{}}}",
        template.as_str(),
        id.as_str(),
        values.text
    )?;
    match read_link(source.alloc, json.as_str()) {
        Ok(body) => Ok(body),
        Err(Unread::Memory) => Err(CallError::Memory),
        Err(Unread::Unsaid) => {
            let words = "expected an object of entities under ?principal and ?resource";
            Err(source.unread(values.start, "Uid", words))
        }
    }
}

/// That a template isn't linked.
fn refuse(source: Source<'_>, template: &str, link: &str, refusal: Refusal) -> CallError {
    source.failed(
        refusal.name(),
        format!(in source.alloc; "failed to link template `{template}` as `{link}`: {refusal}"),
    )
}
