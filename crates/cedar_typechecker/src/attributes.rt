// The types of `.a` and `has a`.
ghost use Rattle.std.specs.Prelude.{◌≡◌, [], ◌∷◌};
ghost use Rattle.std.specs.Option.{option_map};
ghost use Rattle.std.specs.Rc.{rc_str_bytes};
ghost use Rattle.cedar_trees.specs.Bare.{bare};
ghost use Rattle.cedar_typing.specs.Attributes as typing;
ghost use Rattle.cedar_typing.specs.Capabilities.{an_attribute, is_among};
ghost use Rattle.cedar_typing.specs.Types.{field_at as declared_field};
ghost use Rattle.cedar_typechecker.specs.Attributes.{attributes_view, field_part};
ghost use Rattle.cedar_typechecker.specs.Capabilities.{capabilities_view};
ghost use Rattle.cedar_typechecker.specs.Results.{Finds, FindsType};
ghost use Rattle.cedar_typechecker.specs.Types.{bool_type_view, type_view, fields_view};

use crate::capabilities::{Capability, has_attribute};
use crate::environment::RequestEnv;
use crate::faults::{TypingError, TypingFault};
use crate::results::Typed;
use crate::types::{BoolType, ExprType, Field};
use cedar_schema_syntax::Presence;
use cedar_trees::expr::Expr;
use std::alloc::Global;
use std::rc::{Rc, RcStr};

/// The fields of a type that has attributes.
#[derive(Drop)]
pub(crate) enum Attributes<'a> {
    OfRecord(&'a [Field]),
    OfEntity(&'a [Field]),
    OfNone(TypingFault),
}

#[tactic(auto, using(crate::proofs::Fields::by_shape))]
pub(crate) fn attributes_of<'a, E: RequestEnv>(env: &'a E, ty: &'a ExprType) -> Attributes<'a>
    ensures { attributes_view result ≡ typing.attributes_of (E.environment env.now).schema (type_view ty.now) }
{
    match ty {
        ExprType::Record(fields) => Attributes::OfRecord(fields.as_slice()),
        ExprType::Entity(name) => match env.entity(name) {
            Some(shape) => Attributes::OfEntity(shape.attributes.as_slice()),
            None => Attributes::OfNone(TypingFault::UnrecognizedEntityType),
        },
        ExprType::Boolean(_)
        | ExprType::Long
        | ExprType::String
        | ExprType::Set(_)
        | ExprType::Extension(_, _) => Attributes::OfNone(TypingFault::UnexpectedType),
    }
}

#[tactic(auto, using(crate::proofs::Fields::field_step))]
fn field_at<'a>(fields: &'a [Field], attr: &RcStr) -> Option<&'a Field>
    ensures { option_map (λ field. field_part field.now) result ≡ declared_field (fields_view fields.now) (rc_str_bytes attr.now) }
{
    for field in fields {
        if field.name == *attr {
            return Some(field);
        }
    }
    None
}

// The type of an attribute that the fields declare; an optional one must be guarded by a test.
fn field_type(
    alloc: Global,
    fields: &[Field],
    attr: &RcStr,
    is_guarded: bool,
) -> Result<ExprType, TypingError>
    ensures { FindsType (typing.field_type is_guarded (declared_field (fields_view fields.now) (rc_str_bytes attr.now))) result }
{
    let Some(field) = field_at(fields, attr) else {
        return Err(TypingError::Faulty(TypingFault::UnsafeAttributeAccess));
    };
    match field.presence {
        Presence::Required => Ok(field.expr_type.share(alloc)?),
        Presence::Optional => {
            if !is_guarded {
                return Err(TypingError::Faulty(TypingFault::UnsafeOptionalAttributeAccess));
            }
            Ok(field.expr_type.share(alloc)?)
        }
    }
}

/// The type of `of.attr`, by that of `of`, which is a record or an entity, and whether a test says that it is there.
pub(crate) fn get_type<E: RequestEnv>(
    env: &E,
    alloc: Global,
    of_type: &ExprType,
    attr: &RcStr,
    is_guarded: bool,
) -> Result<ExprType, TypingError>
    ensures { FindsType (typing.get_type is_guarded (rc_str_bytes attr.now) (typing.attributes_of (E.environment env.now).schema (type_view of_type.now))) result }
{
    match attributes_of(env, of_type) {
        Attributes::OfRecord(fields) => field_type(alloc, fields, attr, is_guarded),
        Attributes::OfEntity(fields) => field_type(alloc, fields, attr, is_guarded),
        Attributes::OfNone(fault) => Err(TypingError::Faulty(fault)),
    }
}

/// The type of `of.attr`, by that of `of` and what tests say.
pub(crate) fn attribute_type<E: RequestEnv>(
    env: &E,
    alloc: Global,
    of: &Expr,
    of_type: &ExprType,
    attr: &RcStr,
    held: &[Capability],
) -> Result<ExprType, TypingError>
    ensures { FindsType (typing.get_type (is_among (an_attribute (bare of.now) (rc_str_bytes attr.now)) (capabilities_view held.now)) (rc_str_bytes attr.now) (typing.attributes_of (E.environment env.now).schema (type_view of_type.now))) result }
{
    get_type(env, alloc, of_type, attr, has_attribute(held, of, attr))
}

fn has_in_record(fields: &[Field], attr: &RcStr, is_guarded: bool) -> BoolType
    ensures { bool_type_view result ≡ typing.has_in_record is_guarded (declared_field (fields_view fields.now) (rc_str_bytes attr.now)) }
{
    match field_at(fields, attr) {
        None => BoolType::AlwaysFalse,
        Some(field) => match field.presence {
            Presence::Required => BoolType::AlwaysTrue,
            Presence::Optional => {
                if is_guarded {
                    return BoolType::AlwaysTrue;
                }
                BoolType::Unsure
            }
        },
    }
}

fn has_in_entity(fields: &[Field], attr: &RcStr, is_guarded: bool) -> BoolType
    ensures { bool_type_view result ≡ typing.has_in_entity is_guarded (declared_field (fields_view fields.now) (rc_str_bytes attr.now)) }
{
    match field_at(fields, attr) {
        None => BoolType::AlwaysFalse,
        Some(_) => {
            if is_guarded {
                return BoolType::AlwaysTrue;
            }
            BoolType::Unsure
        }
    }
}

// The type of a test for an attribute, of which this is known: where it may be true it gives that the attribute is there.
fn has_by(
    alloc: Global,
    of: &Rc<Expr>,
    attr: &RcStr,
    bool_type: BoolType,
) -> Result<Typed, TypingError>
    ensures { Finds ⊥ (typing.has_by (bare of.now.value) (rc_str_bytes attr.now) (bool_type_view bool_type)) result }
{
    let mut capabilities = Vec::new(alloc);
    match bool_type {
        BoolType::AlwaysFalse => {}
        BoolType::AlwaysTrue => capabilities.push(Capability::Attribute(
            of.clone()?,
            attr.clone()?,
        ))?,
        BoolType::Unsure => capabilities.push(Capability::Attribute(of.clone()?, attr.clone()?))?,
    }
    Ok(Typed {
        expr_type: ExprType::Boolean(bool_type),
        capabilities,
    })
}

/// The type of `of has attr`, by that of `of` and what tests say.
pub(crate) fn has_attribute_type<E: RequestEnv>(
    env: &E,
    alloc: Global,
    of: &Rc<Expr>,
    of_type: &ExprType,
    attr: &RcStr,
    held: &[Capability],
) -> Result<Typed, TypingError>
    ensures { Finds ⊥ (typing.has_type (is_among (an_attribute (bare of.now.value) (rc_str_bytes attr.now)) (capabilities_view held.now)) (bare of.now.value) (rc_str_bytes attr.now) (typing.attributes_of (E.environment env.now).schema (type_view of_type.now))) result }
{
    let is_guarded = has_attribute(held, of, attr);
    match attributes_of(env, of_type) {
        Attributes::OfRecord(fields) => {
            has_by(alloc, of, attr, has_in_record(fields, attr, is_guarded))
        }
        Attributes::OfEntity(fields) => {
            has_by(alloc, of, attr, has_in_entity(fields, attr, is_guarded))
        }
        Attributes::OfNone(fault) => Err(TypingError::Faulty(fault)),
    }
}
