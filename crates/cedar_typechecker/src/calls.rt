// The types of calls of extension functions.
ghost use Rattle.std.specs.Prelude.{◌≡◌, map};
ghost use Rattle.std.specs.Option.{option_map};
ghost use Rattle.std.specs.Rc.{rc_str_bytes};
ghost use Rattle.cedar_grammar.specs.Build.{trees};
ghost use Rattle.cedar_literals.specs.Types.{value_type_of};
ghost use Rattle.cedar_trees.specs.Bare.{bare};
ghost use Rattle.cedar_typing.specs.Containers as typing;
ghost use Rattle.cedar_typechecker.specs.Calls.{text_in, sole_text};
ghost use Rattle.cedar_typechecker.specs.Environments.{accepts};
ghost use Rattle.cedar_typechecker.specs.Results.{FindsType};
ghost use Rattle.cedar_typechecker.specs.Types.{type_view};

use crate::environment::RequestEnv;
use crate::faults::{TypingError, TypingFault};
use crate::types::ExprType;
use cedar_literals::literals::Literal;
use cedar_literals::types::Type;
use cedar_names::names::Name;
use cedar_trees::expr::{Expr, ExprKind};
use std::alloc::Global;
use std::rc::RcStr;

// Whether a parameter takes arguments of a type.
#[tactic(auto, using(crate::proofs::Called::passes_part))]
fn passes(parameter: &Type, argument: &ExprType) -> bool
    ensures { result ≡ typing.passes (value_type_of parameter.now) (type_view argument.now) }
{
    match parameter {
        Type::Bool => argument.as_boolean().is_some(),
        Type::Long => argument.is_long(),
        Type::String => argument.is_string(),
        Type::Set => argument.as_element().is_some(),
        Type::Record => argument.as_fields().is_some(),
        Type::Entity { ty } => match argument.as_entity() {
            Some(name) => ty == name,
            None => false,
        },
        Type::Extension { name } => match argument.as_extension() {
            Some((other, _)) => name == other,
            None => false,
        },
    }
}

// Whether as many arguments are given as a function takes.
#[tactic(auto, using(crate::proofs::Called::lengths_same, crate::proofs::Called::lengths_differ))]
fn are_as_many(parameters: &[Type], arguments: &[ExprType]) -> bool
    ensures { result ≡ typing.same_length (map value_type_of parameters.now) (map type_view arguments.now) }
{
    parameters.len() == arguments.len()
}

// Whether each parameter takes its argument.
#[tactic(auto, using(crate::proofs::Called::pass_more, crate::proofs::Called::pass_none, crate::proofs::Called::pass_end, crate::proofs::Called::pass_fewer))]
fn all_pass(parameters: &[Type], arguments: &[ExprType]) -> bool
    ensures { result ≡ typing.all_pass (map value_type_of parameters.now) (map type_view arguments.now) }
{
    if parameters.len() != arguments.len() {
        return false;
    }
    for index in 0..parameters.len() {
        if !passes(&parameters[index], &arguments[index]) {
            return false;
        }
    }
    true
}

// The text of a string that is written.
fn text_of(expr: &Expr) -> Option<&RcStr>
    ensures { option_map (λ text. rc_str_bytes text.now) result ≡ text_in (bare expr.now) }
{
    match &expr.expr_kind {
        ExprKind::Lit(Literal::String(text)) => Some(text),
        _ => None,
    }
}

// The text of the only argument, if that is a string that is written.
#[tactic(auto, using(crate::proofs::Called::one_argument, crate::proofs::Called::other_arguments))]
fn sole_text(arguments: &[Expr]) -> Option<&RcStr>
    ensures { option_map (λ text. rc_str_bytes text.now) result ≡ sole_text (trees (map bare arguments.now)) }
{
    if arguments.len() != 1 {
        return None;
    }
    text_of(&arguments[0])
}

// The type of what a constructor makes of these arguments: one text that is written, of which it makes a value.
#[tactic(auto, using(crate::proofs::Called::constructed_of, crate::proofs::Called::constructed_of_none))]
fn constructed_type<E: RequestEnv>(
    env: &E,
    alloc: Global,
    function: &Name,
    arguments: &[Expr],
    made: &ExprType,
) -> Result<ExprType, TypingError>
    ensures { FindsType (typing.constructs_of (accepts ((E.environment env.now).schema.signature function.now)) (trees (map bare arguments.now)) (type_view made.now)) result }
{
    let Some(text) = sole_text(arguments) else {
        return Err(TypingError::Faulty(TypingFault::NonLitExtConstructor));
    };
    if !env.accepts(function, text)? {
        return Err(TypingError::Faulty(TypingFault::FunctionArgumentValidation));
    }
    Ok(made.share(alloc)?)
}

/// The type of a call, by the function's signature and the types of the arguments.
#[tactic(auto, using(crate::proofs::Called::call_none, crate::proofs::Called::call_passes, crate::proofs::Called::call_constructs, crate::proofs::Called::call_differs, crate::proofs::Called::call_counts))]
pub(crate) fn call_type<E: RequestEnv>(
    env: &E,
    alloc: Global,
    function: &Name,
    arguments: &[Expr],
    types: &[ExprType],
) -> Result<ExprType, TypingError>
    ensures { FindsType (typing.call_type ((E.environment env.now).schema.signature function.now) (trees (map bare arguments.now)) (map type_view types.now)) result }
{
    let Some(signature) = env.signature(function) else {
        return Err(TypingError::Faulty(TypingFault::UndefinedFunction));
    };
    if all_pass(&signature.arguments, types) {
        if signature.is_constructor {
            return constructed_type(env, alloc, function, arguments, &signature.result);
        }
        return Ok(signature.result.share(alloc)?);
    }
    if are_as_many(&signature.arguments, types) {
        return Err(TypingError::Faulty(TypingFault::UnexpectedType));
    }
    Err(TypingError::Faulty(TypingFault::WrongNumberArguments))
}
