// Schemas of texts, and what they say.

use crate::{Uid, ValidatorSchema};
use cedar_names::texts::SharedText;
use cedar_schema::TypeName;
use cedar_schema_resolution::{Declarations, ExtensionType};
use cedar_schema_text::parse_schema;
use std::alloc::{AllocError, Global};
use std::rc::RcStr;
use std::test::Fail;

/// Names of types are written with `::`, actions as the name of their type, `::` and the id.
#[derive(Clone, Copy)]
enum Question<'t> {
    HasShape(&'t str),
    HasAttribute(&'t str, &'t str),
    HasTags(&'t str),
    MayName(&'t str, &'t str),
    MayReach(&'t str, &'t str),
    IsAction(&'t str, &'t str),
    ActionReaches(&'t str, &'t str),
    Applies(&'t str, &'t str, &'t str),
    ContextHas(&'t str, &'t str),
}

const PHOTOS: &str = r#"
entity User, Robot in [Team] { name: String, "age"?: Long };
entity Team in [Team, Org];
entity Org enum ["acme", "umbrella"];
entity Photo in Album { place: Place } tags Long;
entity Album;
type Place = { where: String };
type Seen = { ip: ipaddr };
action all;
action write in all;
action edit in [write] appliesTo { principal: [User, Robot], resource: [Photo], context: Seen };
action view appliesTo { principal: User, resource: [Photo, Album] };
namespace N {
    entity User in [Album, Team];
    action read in [Action::"all", Other::Action::"gone"] appliesTo { principal: [User, Team], resource: User, context: { at: Long } };
    action write;
    action near in [write, read];
}
"#;

fn shared(alloc: Global, text: &str) -> Result<SharedText, AllocError> {
    Ok(SharedText::new(RcStr::from_str(alloc, text)?))
}

fn name_of(alloc: Global, text: &str) -> Result<TypeName, AllocError> {
    let mut words = Vec::new(alloc);
    for word in text.split("::") {
        words.push(shared(alloc, word)?)?;
    }
    TypeName::new(alloc, words)
}

fn uid_of(alloc: Global, type_name: &str, id: &str) -> Result<Uid, AllocError> {
    Ok(Uid::new(name_of(alloc, type_name)?, shared(alloc, id)?))
}

/// The action of this id, of `Action`, or behind `N::` of `N::Action`.
fn action_of(alloc: Global, text: &str) -> Result<Uid, AllocError> {
    match text.strip_prefix("N::") {
        Some(id) => uid_of(alloc, "N::Action", id),
        None => uid_of(alloc, "Action", text),
    }
}

fn extensions(alloc: Global) -> Result<Vec<ExtensionType>, AllocError> {
    let mut extensions = Vec::new(alloc);
    extensions.push(ExtensionType {
        name: shared(alloc, "ipaddr")?,
        is_ordered: false,
    })?;
    Ok(extensions)
}

fn schema_of(alloc: Global, text: &str) -> Result<Option<ValidatorSchema>, AllocError> {
    let Ok(syntax) = parse_schema(alloc, text, 16) else {
        return Ok(None);
    };
    let declared = Declarations::from_syntax(alloc, &syntax)?;
    Ok(ValidatorSchema::from_declarations(alloc, &declared, &extensions(alloc)?).ok())
}

fn answer(
    alloc: Global,
    schema: &ValidatorSchema,
    question: Question<'_>,
) -> Result<bool, AllocError> {
    Ok(match question {
        Question::HasShape(name) => schema.entity_type(&name_of(alloc, name)?).is_some(),
        Question::HasAttribute(name, attribute) => {
            match schema.entity_type(&name_of(alloc, name)?) {
                Some(shape) => shape.attributes.contains_key(&shared(alloc, attribute)?),
                None => false,
            }
        }
        Question::HasTags(name) => match schema.entity_type(&name_of(alloc, name)?) {
            Some(shape) => shape.tags.is_some(),
            None => false,
        },
        Question::MayName(name, id) => schema.may_name(&uid_of(alloc, name, id)?),
        Question::MayReach(from, to) => {
            schema.may_reach(alloc, &name_of(alloc, from)?, &name_of(alloc, to)?)?
        }
        Question::IsAction(name, id) => schema.is_action(&uid_of(alloc, name, id)?),
        Question::ActionReaches(action, group) => {
            schema.action_reaches(alloc, &action_of(alloc, action)?, &action_of(alloc, group)?)?
        }
        Question::Applies(action, principal, resource) => schema.applies(
            &action_of(alloc, action)?,
            &name_of(alloc, principal)?,
            &name_of(alloc, resource)?,
        ),
        Question::ContextHas(action, attribute) => {
            match schema.context(&action_of(alloc, action)?) {
                Some(context) => context.contains_key(&shared(alloc, attribute)?),
                None => false,
            }
        }
    })
}

/// The answer of the schema that a text is, if it is one.
fn answer_by(
    alloc: Global,
    text: &str,
    question: Question<'_>,
) -> Result<Option<bool>, AllocError> {
    match schema_of(alloc, text)? {
        Some(schema) => Ok(Some(answer(alloc, &schema, question)?)),
        None => Ok(None),
    }
}

#[test]
fn types_are_as_they_are_written(rt: HostRuntime) -> Result<(), Fail> {
    let cases = [
        ("a declared type", Question::HasShape("User"), true),
        ("one that isn't", Question::HasShape("Users"), false),
        (
            "not of that namespace",
            Question::HasShape("N::Photo"),
            false,
        ),
        ("of its namespace", Question::HasShape("N::User"), true),
        ("an enumeration", Question::HasShape("Org"), true),
        ("the type of actions", Question::HasShape("Action"), true),
        ("of a namespace", Question::HasShape("N::Action"), true),
        ("an attribute", Question::HasAttribute("Robot", "age"), true),
        (
            "of another type",
            Question::HasAttribute("N::User", "age"),
            false,
        ),
        (
            "a common type",
            Question::HasAttribute("Photo", "place"),
            true,
        ),
        ("tags", Question::HasTags("Photo"), true),
        ("no tags", Question::HasTags("User"), false),
        ("any id", Question::MayName("User", "x"), true),
        (
            "an id that is listed",
            Question::MayName("Org", "umbrella"),
            true,
        ),
        ("one that isn't", Question::MayName("Org", "x"), false),
        ("an action's uid", Question::MayName("Action", "view"), true),
        ("no action's", Question::MayName("Action", "x"), false),
        ("of no declared type", Question::MayName("X", "x"), false),
        ("a parent", Question::MayReach("User", "Team"), true),
        ("a parent's parent", Question::MayReach("User", "Org"), true),
        ("in a circle", Question::MayReach("Team", "Team"), true),
        ("in none", Question::MayReach("User", "User"), false),
        ("not back", Question::MayReach("Org", "User"), false),
        (
            "outside its namespace",
            Question::MayReach("N::User", "Org"),
            true,
        ),
        (
            "types of groups",
            Question::MayReach("N::Action", "Action"),
            true,
        ),
        (
            "not back from groups",
            Question::MayReach("Action", "N::Action"),
            false,
        ),
    ];
    for (shows, question, wanted) in cases {
        assert_eq!(rt;
            answer_by(rt.alloc(), PHOTOS, question)?,
            Some(wanted),
            "{shows}"
        );
    }
    Ok(())
}

#[test]
fn actions_are_as_they_are_written(rt: HostRuntime) -> Result<(), Fail> {
    let cases = [
        (
            "of a namespace",
            Question::IsAction("N::Action", "read"),
            true,
        ),
        ("of that alone", Question::IsAction("Action", "read"), false),
        ("a group", Question::ActionReaches("edit", "write"), true),
        (
            "a group's group",
            Question::ActionReaches("edit", "all"),
            true,
        ),
        ("not back", Question::ActionReaches("all", "edit"), false),
        ("not itself", Question::ActionReaches("edit", "edit"), false),
        (
            "across namespaces",
            Question::ActionReaches("N::near", "all"),
            true,
        ),
        (
            "the namespace's own",
            Question::ActionReaches("N::near", "N::write"),
            true,
        ),
        (
            "and no other",
            Question::ActionReaches("N::near", "write"),
            false,
        ),
        (
            "what it applies to",
            Question::Applies("edit", "Robot", "Photo"),
            true,
        ),
        (
            "no other principal",
            Question::Applies("view", "Robot", "Photo"),
            false,
        ),
        (
            "no other resource",
            Question::Applies("edit", "User", "Album"),
            false,
        ),
        (
            "a group alone",
            Question::Applies("all", "User", "Photo"),
            false,
        ),
        (
            "in its namespace",
            Question::Applies("N::read", "N::User", "N::User"),
            true,
        ),
        (
            "outside it",
            Question::Applies("N::read", "Team", "N::User"),
            true,
        ),
        (
            "not declared",
            Question::Applies("read", "User", "User"),
            false,
        ),
        ("a named context", Question::ContextHas("edit", "ip"), true),
        ("a written one", Question::ContextHas("N::read", "at"), true),
        ("no context", Question::ContextHas("view", "ip"), false),
    ];
    for (shows, question, wanted) in cases {
        assert_eq!(rt;
            answer_by(rt.alloc(), PHOTOS, question)?,
            Some(wanted),
            "{shows}"
        );
    }
    Ok(())
}

#[test]
fn actions_are_listed(rt: HostRuntime) -> Result<(), Fail> {
    let count = match schema_of(rt.alloc(), PHOTOS)? {
        Some(schema) => schema.actions(rt.alloc())?.len(),
        None => 0,
    };
    assert_eq!(rt; count, 7);
    Ok(())
}

/// The names of a schema's entity types, each behind a space.
fn type_names_of(alloc: Global, schema: &ValidatorSchema) -> Result<String, AllocError> {
    let mut names = String::new(alloc);
    for name in schema.entity_type_names(alloc)? {
        names.push_str(&format!(in alloc; " {name}")?)?;
    }
    Ok(names)
}

#[test]
fn entity_types_are_listed(rt: HostRuntime) -> Result<(), Fail> {
    let names = match schema_of(rt.alloc(), PHOTOS)? {
        Some(schema) => type_names_of(rt.alloc(), &schema)?,
        None => String::new(rt.alloc()),
    };
    assert_eq!(rt;
        names.as_str(),
        " Album N::User Org Photo Robot Team User Action N::Action"
    );
    Ok(())
}

#[test]
fn cycles_of_common_types_are_no_schema(rt: HostRuntime) -> Result<(), Fail> {
    let text = "entity A; type B = Set<C>; type C = { b?: B };";
    assert_eq!(rt; answer_by(rt.alloc(), text, Question::HasShape("A"))?, None);
    Ok(())
}
