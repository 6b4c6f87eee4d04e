// Whether conditions are typed in each environment.
ghost use Rattle.std.specs.Prelude.{◌≡◌, ◌↔◌, ◌<◌, IsTrue, map};
ghost use Rattle.std.specs.List.{list_all};
ghost use Rattle.cedar_language.specs.Height.{height};
ghost use Rattle.cedar_trees.specs.Bare.{bare};
ghost use Rattle.cedar_typing.specs.Validated.{IsValid};
ghost use Rattle.cedar_validator.specs.SchemaTypes.{types_view};
ghost use Rattle.cedar_validator.specs.Environments.{request_view, slots_view, environment_of, just_these};
ghost use Rattle.cedar_validator.specs.Validating.{is_valid_in, Answers};

use crate::environments::{BoundTypes, RequestType, SchemaEnv};
use crate::functions::FunctionSignatures;
use crate::refusals::ValidationRefusal;
use crate::schema_types::SchemaTypes;
use cedar_trees::expr::Expr;
use cedar_typechecker::{TypingError, typed};
use std::alloc::Global;

// Whether a condition is Boolean in an environment.
#[tactic(auto, using(crate::proofs::Valid::boolean_by_type, crate::proofs::Valid::faulty_is_none))]
fn is_boolean_in<F: FunctionSignatures>(
    env: &SchemaEnv<'_, F>,
    alloc: Global,
    condition: &Expr,
    depth: u32,
) -> Result<bool, ValidationRefusal>
    ensures { Answers (depth < height (bare condition.now)) (λ b. b ≡ is_valid_in
        (environment_of (types_view (F.signatures env.now.functions.now) env.now.types.now) (slots_view env.now.slots.now) (request_view env.now.request.now))
        (bare condition.now)) result }
{
    match typed(env, alloc, condition, &[], depth) {
        Ok(found) => Ok(found.expr_type.as_boolean().is_some()),
        Err(TypingError::Faulty(_)) => Ok(false),
        Err(TypingError::Depth) => Err(ValidationRefusal::Depth),
        Err(TypingError::Memory) => Err(ValidationRefusal::Memory),
    }
}

// Whether a condition is Boolean in the environment of each of these requests.
fn is_boolean_in_each<F: FunctionSignatures>(
    types: &SchemaTypes,
    functions: &F,
    alloc: Global,
    condition: &Expr,
    slots: &BoundTypes,
    requests: &[RequestType],
    depth: u32,
) -> Result<bool, ValidationRefusal>
    ensures { Answers (depth < height (bare condition.now)) (λ b. b ≡ list_all
        (λ r. is_valid_in (environment_of (types_view (F.signatures functions.now) types.now) (slots_view slots.now) r) (bare condition.now))
        (map request_view requests.now)) result }
{
    for request in requests {
        let env = SchemaEnv {
            alloc,
            types,
            functions,
            request,
            slots,
        };
        let is_valid = is_boolean_in(&env, alloc, condition, depth)?;
        if !is_valid {
            return Ok(false);
        }
    }
    Ok(true)
}

/// Whether a condition is Boolean in each environment of a schema in which slots are bound to entities of these types. In an
/// environment that the scope doesn't admit it is: there the scope alone is looked at. `Depth` comes only where it is higher
/// than `depth`, as `typed` counts; `Memory` where memory ran out. (Cedar language reference, "Policy validation".)
pub fn is_condition_valid<F: FunctionSignatures>(
    types: &SchemaTypes,
    functions: &F,
    alloc: Global,
    condition: &Expr,
    slots: &BoundTypes,
    depth: u32,
) -> Result<bool, ValidationRefusal>
    ensures { Answers (depth < height (bare condition.now)) (λ b. IsTrue b
        ↔ IsValid (types_view (F.signatures functions.now) types.now) (just_these (slots_view slots.now)) (bare condition.now)) result }
{
    let requests = types.request_types(alloc)?;
    is_boolean_in_each(types, functions, alloc, condition, slots, &requests, depth)
}
