// The least type above two.
ghost use Rattle.std.specs.Prelude.{◌≡◌, IfOk};
ghost use Rattle.std.specs.Option.{option_map};
ghost use Rattle.cedar_typing.specs.Types.{lub_bool, lub as least, lub_fields as least_fields};
ghost use Rattle.cedar_typechecker.specs.Types.{bool_type_view, type_view, field_view, fields_view};
ghost use Rattle.cedar_typechecker.specs.Lub.{least_field};

use crate::types::{BoolType, ExprType, Field};
use std::alloc::{AllocError, Global};
use std::rc::Rc;

impl BoolType {
    /// What is known of both alike.
    pub fn lub(self, other: BoolType) -> BoolType
        ensures { bool_type_view result ≡ lub_bool (bool_type_view self) (bool_type_view other) }
    {
        match self {
            BoolType::AlwaysTrue => match other {
                BoolType::AlwaysTrue => BoolType::AlwaysTrue,
                BoolType::AlwaysFalse | BoolType::Unsure => BoolType::Unsure,
            },
            BoolType::AlwaysFalse => match other {
                BoolType::AlwaysFalse => BoolType::AlwaysFalse,
                BoolType::AlwaysTrue | BoolType::Unsure => BoolType::Unsure,
            },
            BoolType::Unsure => BoolType::Unsure,
        }
    }
}

impl ExprType {
    /// The least type above two, if there is one: they are equal, but for what is known of Booleans. Refused for memory alone.
    #[cycle(lub)]
    pub fn lub(&self, alloc: Global, other: &ExprType) -> Result<Option<ExprType>, AllocError>
        ensures { IfOk result (λ found. option_map type_view found ≡ least (type_view self.now) (type_view other.now)) }
    {
        match self {
            ExprType::Boolean(bool_type) => match other.as_boolean() {
                Some(other) => Ok(Some(ExprType::Boolean(bool_type.lub(other)))),
                None => Ok(None),
            },
            ExprType::Long => {
                if other.is_long() {
                    return Ok(Some(ExprType::Long));
                }
                Ok(None)
            }
            ExprType::String => {
                if other.is_string() {
                    return Ok(Some(ExprType::String));
                }
                Ok(None)
            }
            ExprType::Entity(name) => match other.as_entity() {
                Some(other) => {
                    if name == other {
                        return Ok(Some(ExprType::Entity(name.clone(alloc)?)));
                    }
                    Ok(None)
                }
                None => Ok(None),
            },
            ExprType::Set(element) => match other.as_element() {
                Some(other) => match element.lub(alloc, other)? {
                    Some(least) => Ok(Some(ExprType::Set(Rc::new(alloc, least)?))),
                    None => Ok(None),
                },
                None => Ok(None),
            },
            ExprType::Record(fields) => match other.as_fields() {
                Some(others) => match lub_fields(alloc, fields, others)? {
                    Some(least) => Ok(Some(ExprType::Record(Rc::new(alloc, least)?))),
                    None => Ok(None),
                },
                None => Ok(None),
            },
            ExprType::Extension(name, is_ordered) => match other.as_extension() {
                Some((other, other_is_ordered)) => {
                    if name == other && *is_ordered == other_is_ordered {
                        return Ok(Some(ExprType::Extension(name.clone(alloc)?, *is_ordered)));
                    }
                    Ok(None)
                }
                None => Ok(None),
            },
        }
    }
}

// The least fields above two lists of them, if there are any.
#[cycle(lub)]
#[tactic(auto, using(crate::proofs::Above::least_more, crate::proofs::Above::least_none, crate::proofs::Above::least_end))]
fn lub_fields(
    alloc: Global,
    fields: &[Field],
    others: &[Field],
) -> Result<Option<Vec<Field>>, AllocError>
    ensures { IfOk result (λ found. option_map (λ least. fields_view least.items) found ≡ least_fields (fields_view fields.now) (fields_view others.now)) }
{
    if fields.len() != others.len() {
        return Ok(None);
    }
    let mut least = Vec::with_capacity(alloc, fields.len())?;
    for index in 0..fields.len() {
        match lub_field(alloc, &fields[index], &others[index])? {
            Some(field) => least.push(field)?,
            None => return Ok(None),
        }
    }
    Ok(Some(least))
}

// The least field above two, if there is one.
#[cycle(lub)]
fn lub_field(alloc: Global, field: &Field, other: &Field) -> Result<Option<Field>, AllocError>
    ensures { IfOk result (λ found. option_map field_view found ≡ least_field (field_view field.now) (field_view other.now)) }
{
    if field.name != other.name || field.presence != other.presence {
        return Ok(None);
    }
    match field.expr_type.lub(alloc, &other.expr_type)? {
        Some(expr_type) => Ok(Some(Field {
            name: field.name.clone()?,
            presence: field.presence,
            expr_type,
        })),
        None => Ok(None),
    }
}
