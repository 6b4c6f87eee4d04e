// The types of `&&`, `||` and `if`, by those of their parts.
ghost use Rattle.std.specs.Prelude.{◌≡◌, ◌++◌, IfOk};
ghost use Rattle.cedar_typing.specs.Lazies as typing;
ghost use Rattle.cedar_typechecker.specs.Capabilities.{capabilities_view};
ghost use Rattle.cedar_typechecker.specs.Results.{typing_view, Finds};
ghost use Rattle.cedar_typechecker.specs.Types.{bool_type_view, type_view};

use crate::capabilities::{Capability, in_both};
use crate::faults::{TypingError, TypingFault};
use crate::results::Typed;
use crate::types::{BoolType, ExprType};
use std::alloc::{AllocError, Global};

/// The type of `&&`, by what is known of its left operand, which may be true, and what that gives, and the type of its right
/// operand.
#[tactic(auto, using(crate::proofs::Lazily::and_of, crate::proofs::Lazily::and_of_none))]
pub(crate) fn and_type(
    alloc: Global,
    left: BoolType,
    given: Vec<Capability>,
    right: Typed,
) -> Result<Typed, TypingError>
    ensures { Finds ⊥ (typing.and_with (bool_type_view left) (capabilities_view given.items) (typing_view right)) result }
{
    let Some(right_bool) = right.expr_type.as_boolean() else {
        return Err(TypingError::Faulty(TypingFault::UnexpectedType));
    };
    match left.and(right_bool) {
        BoolType::AlwaysFalse => Ok(Typed::plainly(
            alloc,
            ExprType::Boolean(BoolType::AlwaysFalse),
        )),
        BoolType::AlwaysTrue => Ok(Typed {
            expr_type: ExprType::Boolean(BoolType::AlwaysTrue),
            capabilities: appended(right.capabilities, given)?,
        }),
        BoolType::Unsure => Ok(Typed {
            expr_type: ExprType::Boolean(BoolType::Unsure),
            capabilities: appended(right.capabilities, given)?,
        }),
    }
}

// Capabilities, and others behind them; refused for memory alone.
fn appended(
    capabilities: Vec<Capability>,
    others: Vec<Capability>,
) -> Result<Vec<Capability>, AllocError>
    ensures { IfOk result (λ all. capabilities_view all.items ≡ capabilities_view capabilities.items ++ capabilities_view others.items) }
{
    let mut all = capabilities;
    let mut others = others;
    all.append(&mut others)?;
    Ok(all)
}

/// The type of `||`, by what is known of its left operand, which may be false, and what that gives, and the type of its right
/// operand.
#[tactic(auto, using(crate::proofs::Lazily::or_of, crate::proofs::Lazily::or_of_none))]
pub(crate) fn or_type(
    alloc: Global,
    given: Vec<Capability>,
    right: Typed,
) -> Result<Typed, TypingError>
    ensures { Finds ⊥ (typing.or_with (capabilities_view given.items) (typing_view right)) result }
{
    match right.expr_type.as_boolean() {
        None => Err(TypingError::Faulty(TypingFault::UnexpectedType)),
        Some(BoolType::AlwaysTrue) => {
            Ok(Typed::plainly(alloc, ExprType::Boolean(BoolType::AlwaysTrue)))
        }
        Some(BoolType::AlwaysFalse) => Ok(Typed {
            expr_type: ExprType::Boolean(BoolType::Unsure),
            capabilities: given,
        }),
        Some(BoolType::Unsure) => Ok(Typed {
            expr_type: ExprType::Boolean(BoolType::Unsure),
            capabilities: in_both(alloc, &given, &right.capabilities)?,
        }),
    }
}

/// The type of `||` whose left operand is never true, by that of its right one.
#[tactic(auto, using(crate::proofs::Lazily::alone_of, crate::proofs::Lazily::alone_of_none))]
pub(crate) fn boolean_alone(right: Typed) -> Result<Typed, TypingError>
    ensures { Finds ⊥ (typing.boolean_alone (typing_view right)) result }
{
    match right.expr_type.as_boolean() {
        None => Err(TypingError::Faulty(TypingFault::UnexpectedType)),
        Some(_) => Ok(right),
    }
}

/// The type of `if` whose test is always true, by what that gives and the type of its first part.
pub(crate) fn with_more(given: Vec<Capability>, yes: Typed) -> Result<Typed, TypingError>
    ensures { Finds ⊥ (typing.with_more (capabilities_view given.items) (typing_view yes)) result }
{
    let Typed {
        expr_type,
        capabilities,
    } = yes;
    Ok(Typed {
        expr_type,
        capabilities: appended(capabilities, given)?,
    })
}

/// The type of `if` whose test may be either, by what its truth gives and the types of both parts.
pub(crate) fn if_type(
    alloc: Global,
    given: Vec<Capability>,
    yes: Typed,
    no: Typed,
) -> Result<Typed, TypingError>
    ensures { Finds ⊥ (typing.if_both (capabilities_view given.items) (typing_view yes) (typing_view no)) result }
{
    let Some(expr_type) = yes.expr_type.lub(alloc, &no.expr_type)? else {
        return Err(TypingError::Faulty(TypingFault::IncompatibleTypes));
    };
    let all = appended(yes.capabilities, given)?;
    Ok(Typed {
        expr_type,
        capabilities: in_both(alloc, &all, &no.capabilities)?,
    })
}
