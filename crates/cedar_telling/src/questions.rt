// The body of a question.
ghost use Rattle.std.specs.Prelude.{◌≡◌, ◌≢◌, IfOk, IfSome, IfNone, Some, None, is_some, option_map, codes};
ghost use Rattle.cedar_partial_evaluation.specs.Question.{Given, Missing};
ghost use Rattle.cedar_requests.specs.Parts as requests;
ghost use Rattle.cedar_trees.specs.Bare.{bare};
ghost use Rattle.cedar_world.specs.Bodies as world;
ghost use Rattle.cedar_world.specs.Bodies.{Fields};
ghost use Rattle.cedar_held.specs.Lent.{fields_in, tree_in};
ghost use Rattle.cedar_telling.specs.declared.questions.QuestionKey.{QuestionKey};
ghost use Rattle.cedar_telling.specs.Questions.{key_spelled, question_of, given_context, LendsEach, IsRecordOf, LendsFrom, LendsContext};

use crate::stated_types::type_if_given;
use cedar_held::{entity_if_given, entries_of};
use cedar_literals::uids::{EntityType, EntityUID};
use cedar_names::comparing::is_same;
use cedar_requests::EntityUIDEntry;
use cedar_trees::expr::Expr;
use std::alloc::{AllocError, Global};
use std::collections::BTreeMap;
use std::rc::{Rc, RcStr};

/// What is asked: who asks, what is to be done and to what, each given or unknown, and the record that is written for
/// the context where one is given.
#[derive(Drop)]
pub(crate) struct AskBody<'e> {
    pub(crate) principal: EntityUIDEntry,
    pub(crate) action: EntityUIDEntry,
    pub(crate) resource: EntityUIDEntry,
    pub(crate) context: Option<&'e Expr>,
}

// What stands beside each key that a question may have.
#[derive(Clone, Copy)]
struct QuestionFields<'e> {
    principal: Option<&'e Expr>,
    principal_type: Option<&'e Expr>,
    action: Option<&'e Expr>,
    resource: Option<&'e Expr>,
    resource_type: Option<&'e Expr>,
    context: Option<&'e Expr>,
}

// A key that a question may have.
#[derive(Clone, Copy)]
enum QuestionKey {
    Principal,
    PrincipalType,
    Action,
    Resource,
    ResourceType,
    Context,
}

// The key that is so spelled; none where no question has it. These calls are quicker than a `match` on the text, which
// compares by std's `==`.
fn question_key(text: &str) -> Option<QuestionKey>
    ensures spelled { IfSome result (λ key. text.now ≡ key_spelled key) }
    ensures other { IfNone result ((key : QuestionKey) → text.now ≢ key_spelled key) }
{
    if is_same(text, "principal") {
        Some(QuestionKey::Principal)
    } else if is_same(text, "action") {
        Some(QuestionKey::Action)
    } else if is_same(text, "resource") {
        Some(QuestionKey::Resource)
    } else if is_same(text, "context") {
        Some(QuestionKey::Context)
    } else if is_same(text, "principal_type") {
        Some(QuestionKey::PrincipalType)
    } else if is_same(text, "resource_type") {
        Some(QuestionKey::ResourceType)
    } else {
        None
    }
}

// The fields, in one walk over the entries; none where a key stands there that no question has. The first
// value of a key stays, as where one is looked for.
fn find_fields(entries: &BTreeMap<RcStr, Expr>) -> Option<QuestionFields<'_>>
    ensures keys { is_some result ≡ world.are_among world.question_keys (fields_in entries.now) }
    ensures fields { IfSome result (LendsEach (fields_in entries.now)) }
{
    let mut fields = QuestionFields {
        principal: None,
        principal_type: None,
        action: None,
        resource: None,
        resource_type: None,
        context: None,
    };
    for (key, value) in entries {
        match question_key(key.as_str()) {
            Some(QuestionKey::Principal) => fields.principal = fields.principal.or(Some(value)),
            Some(QuestionKey::PrincipalType) => {
                fields.principal_type = fields.principal_type.or(Some(value))
            }
            Some(QuestionKey::Action) => fields.action = fields.action.or(Some(value)),
            Some(QuestionKey::Resource) => fields.resource = fields.resource.or(Some(value)),
            Some(QuestionKey::ResourceType) => {
                fields.resource_type = fields.resource_type.or(Some(value))
            }
            Some(QuestionKey::Context) => fields.context = fields.context.or(Some(value)),
            None => return None,
        }
    }
    Some(fields)
}

// The expression, where it is a record.
fn record_in(expr: &Expr) -> Option<&Expr>
    ensures entries { option_map given_context result ≡ world.entries_of (bare expr.now) }
    ensures record { IfSome result (λ found. IsRecordOf (bare expr.now) (bare found.now)) }
{
    entries_of(expr)?;
    Some(expr)
}

// The context, where one is given; none where what is given can't be one.
fn context_if_given(value: Option<&Expr>) -> Option<Option<&Expr>>
    ensures context { option_map (option_map given_context) result ≡ world.if_there world.entries_of (tree_in value.entry) }
    ensures lent { (fs : Fields) → tree_in value.entry ≡ world.found (codes "context") fs → IfSome result (λ context. LendsFrom fs context) }
{
    match value {
        None => Some(None),
        Some(value) => Some(Some(record_in(value)?)),
    }
}

/// The entity, given. Refused for memory alone.
pub fn entity_given(uid: &Rc<EntityUID>) -> Result<EntityUIDEntry, AllocError>
    ensures { IfOk result (λ entry. requests.part_of entry ≡ Given uid.now.value) }
{
    Ok(EntityUIDEntry::Known {
        euid: uid.clone()?,
        loc: None,
    })
}

// An entity that isn't given, of this type where one is stated.
fn entity_unknown(entity_type: Option<EntityType>) -> EntityUIDEntry
    ensures { requests.part_of result ≡ Missing entity_type }
{
    match entity_type {
        None => EntityUIDEntry::unknown(),
        Some(entity_type) => EntityUIDEntry::unknown_with_type(entity_type, None),
    }
}

// What is given, or unknown; none where a type is stated of what is given.
fn entity_asked(
    uid: Option<&Rc<EntityUID>>,
    entity_type: Option<EntityType>,
) -> Result<Option<EntityUIDEntry>, AllocError>
    ensures { IfOk result (λ entry. option_map requests.part_of entry ≡ world.part_of (option_map (λ uid. uid.now.value) uid.entry) entity_type) }
{
    match uid {
        None => Ok(Some(entity_unknown(entity_type))),
        Some(uid) => match entity_type {
            None => Ok(Some(entity_given(uid)?)),
            Some(_) => Ok(None),
        },
    }
}

// The principal or the resource, by what stands beside its own key and beside that of its type.
fn typed_entity(
    alloc: Global,
    uid: Option<&Expr>,
    entity_type: Option<&Expr>,
) -> Result<Option<EntityUIDEntry>, AllocError>
    ensures { IfOk result (λ entry. option_map requests.part_of entry ≡
        world.part_with (world.if_there world.entity_of (tree_in uid.entry)) (world.if_there world.type_named (tree_in entity_type.entry))) }
{
    let Some(uid) = entity_if_given(uid) else {
        return Ok(None);
    };
    let Some(entity_type) = type_if_given(alloc, entity_type)? else {
        return Ok(None);
    };
    entity_asked(uid, entity_type)
}

// The action, of which no type is stated.
fn untyped_entity(uid: Option<&Expr>) -> Result<Option<EntityUIDEntry>, AllocError>
    ensures { IfOk result (λ entry. option_map requests.part_of entry ≡ world.part_with (world.if_there world.entity_of (tree_in uid.entry)) (Some None)) }
{
    let Some(uid) = entity_if_given(uid) else {
        return Ok(None);
    };
    entity_asked(uid, None)
}

fn ask_fields<'e>(
    alloc: Global,
    fields: QuestionFields<'e>,
) -> Result<Option<AskBody<'e>>, AllocError>
    ensures question { (fs : Fields) → LendsEach fs fields.entry → IfOk result (λ body. option_map question_of body ≡ world.question_fields fs) }
    ensures lent { (fs : Fields) → LendsEach fs fields.entry → IfOk result (λ body. IfSome body (λ body. LendsFrom fs body.context)) }
{
    let Some(principal) = typed_entity(alloc, fields.principal, fields.principal_type)? else {
        return Ok(None);
    };
    let Some(action) = untyped_entity(fields.action)? else {
        return Ok(None);
    };
    let Some(resource) = typed_entity(alloc, fields.resource, fields.resource_type)? else {
        return Ok(None);
    };
    let Some(context) = context_if_given(fields.context) else {
        return Ok(None);
    };
    Ok(Some(AskBody {
        principal,
        action,
        resource,
        context,
    }))
}

/// The question that a body states: a record with entities for some of `principal`, `action` and
/// `resource`, with a record for `context` or none, with names of types for some of `principal_type` and
/// `resource_type`, each where the entity itself isn't given, and with nothing else. Refused for memory
/// alone.
pub(crate) fn ask_body(alloc: Global, expr: &Expr) -> Result<Option<AskBody<'_>>, AllocError>
    ensures question { IfOk result (λ body. option_map question_of body ≡ world.ask_body (bare expr.now)) }
    ensures lent { IfOk result (λ body. IfSome body (λ body. LendsContext (bare expr.now) body.context)) }
{
    let Some(entries) = entries_of(expr) else {
        return Ok(None);
    };
    let Some(fields) = find_fields(entries) else {
        return Ok(None);
    };
    ask_fields(alloc, fields)
}
