// The policies of a call, loaded under their names.
use crate::detailed::unread;
use crate::errors::{CallError, Source};
use crate::fields::Fields;
use crate::links::link_templates;
use crate::names::Names;
use crate::parts::Part;
use cedar_parser::strict::parse_policyset;
use cedar_policy_parts::PolicyID;
use cedar_replies::Refusal;
use cedar_session::{BODY_LIMIT, ExtensionFunctionObject, Extensions, Session};

/// A session that takes the policies of a call, and their names.
pub(crate) struct Loading<'l, 'e, 'f, F: ExtensionFunctionObject> {
    pub(crate) extensions: &'e Extensions<'f, F>,
    pub(crate) depth: u32,
    pub(crate) session: &'l mut Session<'e, 'f, F>,
    pub(crate) names: &'l mut Names,
}

impl<F: ExtensionFunctionObject> Drop for Loading<'_, '_, '_, F> {
    fn drop(self) {
        let Loading {
            extensions: _,
            depth: _,
            session: _,
            names: _,
        } = self;
    }
}

/// What a text has to have.
#[derive(Clone, Copy, PartialEq, Eq)]
enum Wanted {
    StaticPolicy,
    Template,
}

/// Loads the policies of a call, and links its templates.
pub(crate) fn load_policies<'j, F: ExtensionFunctionObject>(
    source: Source<'j>,
    loading: &mut Loading<'_, '_, '_, F>,
    policies: &Part<'j>,
) -> Result<(), CallError> {
    let keys = ["staticPolicies", "templates", "templateLinks"];
    let mut fields = Fields::of(source, policies, "policies", &keys)?;
    if let Some(part) = fields.take("staticPolicies") {
        load_static(source, loading, &part)?;
    }
    if let Some(part) = fields.take("templates") {
        load_named(source, loading, &part, Wanted::Template)?;
    }
    if let Some(part) = fields.take("templateLinks") {
        link_templates(source, loading.session, loading.names, &part)?;
    }
    Ok(())
}

/// Loads the static policies of a text, of a list of texts, or of an object of texts by their names.
fn load_static<'j, F: ExtensionFunctionObject>(
    source: Source<'j>,
    loading: &mut Loading<'_, '_, '_, F>,
    part: &Part<'j>,
) -> Result<(), CallError> {
    if let Some(text) = &part.string {
        return load_text(source, loading, text.as_str());
    }
    if part.is_list() {
        return load_list(source, loading, part);
    }
    load_named(source, loading, part, Wanted::StaticPolicy)
}

/// Loads the policies of one text, each named by its place.
fn load_text<F: ExtensionFunctionObject>(
    source: Source<'_>,
    loading: &mut Loading<'_, '_, '_, F>,
    text: &str,
) -> Result<(), CallError> {
    let ids = load(
        source,
        loading,
        "failed to parse policies from string",
        text,
    )?;
    for (number, id) in ids.iter().enumerate() {
        if !is_static(loading, id) {
            let words = String::from_str(source.alloc, "static policy set includes a template");
            return Err(source.failed("ExpectedStaticPolicy", words));
        }
        let name = format!(in source.alloc; "policy{number}")?;
        give_name(source, loading.names, id, name.as_str())?;
    }
    Ok(())
}

/// Loads the policies of a list, each named by its place.
fn load_list<'j, F: ExtensionFunctionObject>(
    source: Source<'j>,
    loading: &mut Loading<'_, '_, '_, F>,
    part: &Part<'j>,
) -> Result<(), CallError> {
    for (number, item) in part.items(source.alloc)?.iter().enumerate() {
        let name = format!(in source.alloc; "policy{number}")?;
        load_one(source, loading, name.as_str(), item, Wanted::StaticPolicy)?;
    }
    Ok(())
}

/// Loads the policies of an object, by their names.
fn load_named<'j, F: ExtensionFunctionObject>(
    source: Source<'j>,
    loading: &mut Loading<'_, '_, '_, F>,
    part: &Part<'j>,
    wanted: Wanted,
) -> Result<(), CallError> {
    if !part.is_object() {
        let words = match wanted {
            Wanted::StaticPolicy => "staticPolicies is no text, no list and no object",
            Wanted::Template => "templates is no object",
        };
        return Err(source.unread(part.start, "Kind", words));
    }
    for member in &part.members(source.alloc)? {
        load_one(source, loading, member.key.as_str(), &member.value, wanted)?;
    }
    Ok(())
}

/// Loads the one policy, or the one template, of a text.
fn load_one<'j, F: ExtensionFunctionObject>(
    source: Source<'j>,
    loading: &mut Loading<'_, '_, '_, F>,
    name: &str,
    part: &Part<'j>,
    wanted: Wanted,
) -> Result<(), CallError> {
    let Some(text) = &part.string else {
        return Err(source.unread(part.start, "Kind", no_text(part)));
    };
    let kind = match wanted {
        Wanted::StaticPolicy => "policy",
        Wanted::Template => "template",
    };
    let what = format!(in source.alloc; "failed to parse {kind} with id `{name}` from string")?;
    let ids = load(source, loading, what.as_str(), text.as_str())?;
    let [id] = ids.as_slice() else {
        let words = format!(in source.alloc;
            "{}: expected one {kind}, got {}",
            what.as_str(),
            ids.len()
        );
        return Err(source.failed("Kind", words));
    };
    check_kind(source, is_static(loading, id), what.as_str(), wanted)?;
    give_name(source, loading.names, id, name)
}

/// Why something is no text of a policy.
fn no_text(part: &Part<'_>) -> &'static str {
    if part.is_object() {
        "policies as JSON aren't read: expected a string of Cedar's text"
    } else {
        "expected a string of Cedar's text"
    }
}

fn check_kind(
    source: Source<'_>,
    is_static: bool,
    what: &str,
    wanted: Wanted,
) -> Result<(), CallError> {
    match wanted {
        Wanted::StaticPolicy if !is_static => Err(source.failed(
            "ExpectedStaticPolicy",
            format!(in source.alloc; "{what}: expected a static policy, got a template"),
        )),
        Wanted::Template if is_static => Err(source.failed(
            "ExpectedTemplate",
            format!(in source.alloc; "{what}: expected a template, got a static policy"),
        )),
        _ => Ok(()),
    }
}

fn is_static<F: ExtensionFunctionObject>(loading: &Loading<'_, '_, '_, F>, id: &PolicyID) -> bool {
    match loading.session.policies().get_template(id) {
        Some(policy) => policy.is_static(),
        None => false,
    }
}

/// Loads a text, and gives the ids of its policies, in its order.
fn load<F: ExtensionFunctionObject>(
    source: Source<'_>,
    loading: &mut Loading<'_, '_, '_, F>,
    what: &str,
    text: &str,
) -> Result<Vec<PolicyID>, CallError> {
    if text.len() > BODY_LIMIT {
        return Err(source.failed(
            "Long",
            format!(in source.alloc; "{what}: the text is longer than 1,048,576 bytes"),
        ));
    }
    match loading.session.load(text) {
        Ok(ids) => Ok(ids),
        Err(Refusal::Memory) => Err(CallError::Memory),
        Err(_) => why_unread(source, loading, what, text),
    }
}

fn why_unread<F: ExtensionFunctionObject>(
    source: Source<'_>,
    loading: &Loading<'_, '_, '_, F>,
    what: &str,
    text: &str,
) -> Result<Vec<PolicyID>, CallError> {
    match parse_policyset(source.alloc, text, loading.extensions, loading.depth) {
        Ok(_) => Err(CallError::Memory),
        Err(errors) => Err(CallError::Failed(unread(source.alloc, what, text, &errors)?)),
    }
}

/// Gives an id a name, unless something has it.
pub(crate) fn give_name(
    source: Source<'_>,
    names: &mut Names,
    id: &PolicyID,
    name: &str,
) -> Result<(), CallError> {
    if names.id_of(name).is_some() {
        return Err(source.failed(
            "IdConflict",
            format!(in source.alloc; "duplicate template or policy id `{name}`"),
        ));
    }
    names.add(source.alloc, id, name)?;
    Ok(())
}
