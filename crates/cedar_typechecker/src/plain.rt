// The types of operators that look at values alone.
ghost use Rattle.std.specs.Prelude.{◌≡◌, [], ◌∷◌};
ghost use Rattle.cedar_typing.specs.Lazies.{and_bool};
ghost use Rattle.cedar_typing.specs.Plain as typing;
ghost use Rattle.cedar_typing.specs.Plain.{not_bool};
ghost use Rattle.cedar_typing.specs.Results.{bool_type_of};
ghost use Rattle.cedar_typing.specs.Types.{lub as least};
ghost use Rattle.cedar_typechecker.specs.Types.{bool_type_view, type_view, ordered_in};
ghost use Rattle.cedar_typechecker.specs.Plain.{are_longs, are_ordered, are_less_comparable};
ghost use Rattle.cedar_typechecker.specs.Results.{FindsType};

use crate::environment::RequestEnv;
use crate::faults::{TypingError, TypingFault};
use crate::types::{BoolType, ExprType};
use cedar_literals::uids::EntityType;
use std::alloc::Global;

impl BoolType {
    /// What is known of a Boolean that is known.
    pub fn known(value: bool) -> BoolType
        ensures { bool_type_view result ≡ bool_type_of value }
    {
        if value {
            BoolType::AlwaysTrue
        } else {
            BoolType::AlwaysFalse
        }
    }

    /// What is known of its negation.
    pub fn not(self) -> BoolType
        ensures { bool_type_view result ≡ not_bool (bool_type_view self) }
    {
        match self {
            BoolType::AlwaysTrue => BoolType::AlwaysFalse,
            BoolType::AlwaysFalse => BoolType::AlwaysTrue,
            BoolType::Unsure => BoolType::Unsure,
        }
    }

    /// What is known of both together.
    pub fn and(self, other: BoolType) -> BoolType
        ensures { bool_type_view result ≡ and_bool (bool_type_view self) (bool_type_view other) }
    {
        match self {
            BoolType::AlwaysTrue => other,
            BoolType::AlwaysFalse => BoolType::AlwaysFalse,
            BoolType::Unsure => match other {
                BoolType::AlwaysFalse => BoolType::AlwaysFalse,
                BoolType::AlwaysTrue | BoolType::Unsure => BoolType::Unsure,
            },
        }
    }
}

/// The type of `!`: of a Boolean, the turned one.
#[tactic(auto, using(crate::proofs::ByOperands::not_of, crate::proofs::ByOperands::not_of_none))]
pub(crate) fn not_type(operand: &ExprType) -> Result<ExprType, TypingError>
    ensures { FindsType (typing.not_type (type_view operand.now ∷ [])) result }
{
    match operand.as_boolean() {
        Some(bool_type) => Ok(ExprType::Boolean(bool_type.not())),
        None => Err(TypingError::Faulty(TypingFault::UnexpectedType)),
    }
}

/// The type of `-` of one operand, which must be a long.
#[tactic(auto, using(crate::proofs::ByOperands::neg_by_kind))]
pub(crate) fn neg_type(operand: &ExprType) -> Result<ExprType, TypingError>
    ensures { FindsType (typing.neg_type (type_view operand.now ∷ [])) result }
{
    if !operand.is_long() {
        return Err(TypingError::Faulty(TypingFault::UnexpectedType));
    }
    Ok(ExprType::Long)
}

/// The type of `isEmpty`, whose operand must be a set.
#[tactic(auto, using(crate::proofs::ByOperands::is_empty_of, crate::proofs::ByOperands::is_empty_of_none))]
pub(crate) fn is_empty_type(operand: &ExprType) -> Result<ExprType, TypingError>
    ensures { FindsType (typing.is_empty_type (type_view operand.now ∷ [])) result }
{
    match operand.as_element() {
        Some(_) => Ok(ExprType::Boolean(BoolType::Unsure)),
        None => Err(TypingError::Faulty(TypingFault::UnexpectedType)),
    }
}

/// The type of `like`, whose operand must be a string.
#[tactic(auto, using(crate::proofs::ByOperands::like_by_kind))]
pub(crate) fn like_type(operand: &ExprType) -> Result<ExprType, TypingError>
    ensures { FindsType (typing.like_type (type_view operand.now ∷ [])) result }
{
    if !operand.is_string() {
        return Err(TypingError::Faulty(TypingFault::UnexpectedType));
    }
    Ok(ExprType::Boolean(BoolType::Unsure))
}

/// The type of `is`: of an entity, and of a declared type.
#[tactic(auto, using(crate::proofs::ByOperands::is_of, crate::proofs::ByOperands::is_of_none))]
pub(crate) fn is_type<E: RequestEnv>(
    env: &E,
    name: &EntityType,
    operand: &ExprType,
) -> Result<ExprType, TypingError>
    ensures { FindsType (typing.is_type (E.environment env.now).schema name.now (type_view operand.now ∷ [])) result }
{
    let Some(entity_type) = operand.as_entity() else {
        return Err(TypingError::Faulty(TypingFault::UnexpectedType));
    };
    if env.entity(name).is_none() {
        return Err(TypingError::Faulty(TypingFault::UnrecognizedEntityType));
    }
    Ok(ExprType::Boolean(BoolType::known(entity_type == name)))
}

// Whether both are one extension type that has an order.
fn are_ordered(left: &ExprType, right: &ExprType) -> bool
    ensures { result ≡ are_ordered (ordered_in (type_view left.now)) (ordered_in (type_view right.now)) }
{
    match left.as_ordered() {
        Some(left) => match right.as_ordered() {
            Some(right) => left == right,
            None => false,
        },
        None => false,
    }
}

fn are_longs(left: &ExprType, right: &ExprType) -> bool
    ensures { result ≡ are_longs (type_view left.now) (type_view right.now) }
{
    left.is_long() && right.is_long()
}

fn are_less_comparable(left: &ExprType, right: &ExprType) -> bool
    ensures { result ≡ are_less_comparable (type_view left.now) (type_view right.now) }
{
    are_longs(left, right) || are_ordered(left, right)
}

/// The type of `<` and `<=`: of two longs, or of two values of one extension type that has an order.
#[tactic(auto, using(crate::proofs::ByOperands::less_by_kind))]
pub(crate) fn less_type(left: &ExprType, right: &ExprType) -> Result<ExprType, TypingError>
    ensures { FindsType (typing.less_type (type_view left.now ∷ type_view right.now ∷ [])) result }
{
    if !are_less_comparable(left, right) {
        return Err(TypingError::Faulty(TypingFault::UnexpectedType));
    }
    Ok(ExprType::Boolean(BoolType::Unsure))
}

/// The type of `+`, `-` and `*`: of two longs.
#[tactic(auto, using(crate::proofs::ByOperands::arithmetic_by_kind))]
pub(crate) fn arithmetic_type(left: &ExprType, right: &ExprType) -> Result<ExprType, TypingError>
    ensures { FindsType (typing.arithmetic_type (type_view left.now ∷ type_view right.now ∷ [])) result }
{
    if !are_longs(left, right) {
        return Err(TypingError::Faulty(TypingFault::UnexpectedType));
    }
    Ok(ExprType::Long)
}

// The type of a test that compares elements of two types.
fn comparison_type(
    alloc: Global,
    left: &ExprType,
    right: &ExprType,
) -> Result<ExprType, TypingError>
    ensures { FindsType (typing.where_comparable (least (type_view left.now) (type_view right.now))) result }
{
    match left.lub(alloc, right)? {
        Some(_) => Ok(ExprType::Boolean(BoolType::Unsure)),
        None => Err(TypingError::Faulty(TypingFault::IncompatibleTypes)),
    }
}

/// The type of `contains`: of a set, and a value that its elements may be compared with.
#[tactic(auto, using(crate::proofs::ByOperands::contains_of, crate::proofs::ByOperands::contains_of_none))]
pub(crate) fn contains_type(
    alloc: Global,
    set: &ExprType,
    item: &ExprType,
) -> Result<ExprType, TypingError>
    ensures { FindsType (typing.contains_type (type_view set.now ∷ type_view item.now ∷ [])) result }
{
    match set.as_element() {
        Some(element) => comparison_type(alloc, element, item),
        None => Err(TypingError::Faulty(TypingFault::UnexpectedType)),
    }
}

/// The type of `containsAll` and `containsAny`: of two sets, whose elements may be compared.
#[tactic(auto, using(crate::proofs::ByOperands::two_sets_of, crate::proofs::ByOperands::two_sets_of_none, crate::proofs::ByOperands::two_sets_of_one))]
pub(crate) fn two_sets_type(
    alloc: Global,
    left: &ExprType,
    right: &ExprType,
) -> Result<ExprType, TypingError>
    ensures { FindsType (typing.two_sets_type (type_view left.now ∷ type_view right.now ∷ [])) result }
{
    let Some(left) = left.as_element() else {
        return Err(TypingError::Faulty(TypingFault::UnexpectedType));
    };
    let Some(right) = right.as_element() else {
        return Err(TypingError::Faulty(TypingFault::UnexpectedType));
    };
    comparison_type(alloc, left, right)
}
