// The types of tags.
ghost use Rattle.std.specs.Prelude.{◌≡◌, [], ◌∷◌};
ghost use Rattle.std.specs.Option.{option_map, option_copied};
ghost use Rattle.cedar_language.specs.Tree.{no_trees, a_tree};
ghost use Rattle.cedar_trees.specs.Bare.{bare};
ghost use Rattle.cedar_typing.specs.Attributes as typing;
ghost use Rattle.cedar_typechecker.specs.Capabilities.{capabilities_view};
ghost use Rattle.cedar_typechecker.specs.Results.{Finds, FindsType};
ghost use Rattle.cedar_typechecker.specs.Tags.{tagged_in};
ghost use Rattle.cedar_typechecker.specs.Types.{type_view};

use crate::capabilities::{Capability, has_tag};
use crate::environment::RequestEnv;
use crate::faults::{TypingError, TypingFault};
use crate::results::Typed;
use crate::types::{BoolType, ExprType};
use cedar_literals::uids::EntityType;
use cedar_trees::expr::Expr;
use std::alloc::Global;
use std::rc::Rc;

// The type of entities whose tags are read: of an entity, by a string.
fn tagged_type<'a>(of_type: &'a ExprType, key_type: &ExprType) -> Option<&'a EntityType>
    ensures { option_copied result ≡ tagged_in (type_view of_type.now) (type_view key_type.now) }
{
    if !key_type.is_string() {
        return None;
    }
    of_type.as_entity()
}

/// The type of `of.getTag(key)`, by those of both: only where a test by the same key says that the tag is there.
#[tactic(auto, using(crate::proofs::Tagged::get_of, crate::proofs::Tagged::get_of_none, crate::proofs::Tagged::no_tags))]
pub(crate) fn get_tag_type<E: RequestEnv>(
    env: &E,
    alloc: Global,
    of: &Expr,
    key: &Expr,
    of_type: &ExprType,
    key_type: &ExprType,
    held: &[Capability],
) -> Result<ExprType, TypingError>
    ensures { FindsType (typing.get_tag_type (E.environment env.now) (a_tree (bare of.now) (a_tree (bare key.now) no_trees)) (type_view of_type.now ∷ type_view key_type.now ∷ []) (capabilities_view held.now)) result }
{
    let Some(name) = tagged_type(of_type, key_type) else {
        return Err(TypingError::Faulty(TypingFault::UnexpectedType));
    };
    let Some(shape) = env.entity(name) else {
        return Err(TypingError::Faulty(TypingFault::NoTagsAllowed));
    };
    let Some(tags) = &shape.tags else {
        return Err(TypingError::Faulty(TypingFault::NoTagsAllowed));
    };
    if !has_tag(held, of, key) {
        return Err(TypingError::Faulty(TypingFault::UnsafeTagAccess));
    }
    Ok(tags.share(alloc)?)
}

/// The type of `of.hasTag(key)`, by those of both: never of a type that declares no tags. It gives that the tag is there.
#[tactic(auto, using(crate::proofs::Tagged::has_of, crate::proofs::Tagged::has_of_none, crate::proofs::Tagged::undeclared))]
pub(crate) fn has_tag_type<E: RequestEnv>(
    env: &E,
    alloc: Global,
    of: &Rc<Expr>,
    key: &Rc<Expr>,
    of_type: &ExprType,
    key_type: &ExprType,
    held: &[Capability],
) -> Result<Typed, TypingError>
    ensures { Finds ⊥ (typing.has_tag_type (E.environment env.now) (a_tree (bare of.now.value) (a_tree (bare key.now.value) no_trees)) (type_view of_type.now ∷ type_view key_type.now ∷ []) (capabilities_view held.now)) result }
{
    let Some(name) = tagged_type(of_type, key_type) else {
        return Err(TypingError::Faulty(TypingFault::UnexpectedType));
    };
    let Some(shape) = env.entity(name) else {
        return Err(TypingError::Faulty(TypingFault::UnrecognizedEntityType));
    };
    if shape.tags.is_none() {
        return Ok(Typed::plainly(alloc, ExprType::Boolean(BoolType::AlwaysFalse)));
    }
    let bool_type = if has_tag(held, of, key) {
        BoolType::AlwaysTrue
    } else {
        BoolType::Unsure
    };
    let mut capabilities = Vec::new(alloc);
    capabilities.push(Capability::Tag(of.clone()?, key.clone()?))?;
    Ok(Typed {
        expr_type: ExprType::Boolean(bool_type),
        capabilities,
    })
}
