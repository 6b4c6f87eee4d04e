// Types that are stated by their names.
ghost use Rattle.std.specs.Prelude.{◌≡◌, IfOk};
ghost use Rattle.cedar_trees.specs.Bare.{bare};
ghost use Rattle.cedar_world.specs.Bodies as world;
ghost use Rattle.cedar_held.specs.Lent.{tree_in};

use cedar_held::string_of;
use cedar_literals::uids::EntityType;
use cedar_names::errors::ParseNameError;
use cedar_names::reading::FromNormalizedStr;
use cedar_trees::expr::Expr;
use std::alloc::{AllocError, Global};

// The type that is so named; none where no name is spelled so.
#[tactic(auto, using(crate::proofs::Types::name_read, crate::proofs::Types::no_name_read, crate::proofs::Types::reserved_read))]
fn type_spelled(alloc: Global, text: &str) -> Result<Option<EntityType>, AllocError>
    ensures { IfOk result (λ found. found ≡ world.name_spelled text.now) }
{
    match EntityType::from_normalized_str(alloc, text) {
        Ok(entity_type) => Ok(Some(entity_type)),
        Err(ParseNameError::NotNormalized) => Ok(None),
        Err(ParseNameError::Reserved(_)) => Ok(None),
        Err(ParseNameError::Memory(error)) => Err(error),
    }
}

// The type that a string names.
fn type_named(alloc: Global, expr: &Expr) -> Result<Option<EntityType>, AllocError>
    ensures { IfOk result (λ found. found ≡ world.type_named (bare expr.now)) }
{
    match string_of(expr) {
        None => Ok(None),
        Some(text) => type_spelled(alloc, text.as_str()),
    }
}

/// The type that is named, where something is given; none where that names no type. Refused for memory alone.
pub(crate) fn type_if_given(
    alloc: Global,
    value: Option<&Expr>,
) -> Result<Option<Option<EntityType>>, AllocError>
    ensures { IfOk result (λ found. found ≡ world.if_there world.type_named (tree_in value.entry)) }
{
    match value {
        None => Ok(Some(None)),
        Some(value) => match type_named(alloc, value)? {
            None => Ok(None),
            Some(entity_type) => Ok(Some(Some(entity_type))),
        },
    }
}
