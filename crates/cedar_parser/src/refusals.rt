// Faults of trees, as errors of their texts.
ghost use Rattle.std.specs.Prelude.{◌≡◌, [], map, IfOk};
ghost use Rattle.cedar_faults.specs.Reasons.{reason, listed, faults_of};
ghost use Rattle.cedar_parser.specs.Errors.{cause_of, means_nothing};
ghost use Rattle.cedar_parser.specs.Strict.{IsToldAs};

use crate::errors::{ParseError, ParseErrors};
use cedar_faults::{ConversionError, ToASTError};
use cedar_trees::unknowns::NonEmpty;
use std::alloc::{AllocError, Global};

/// The faults of a tree that means nothing, in their order; `Memory` where there is none for them, or
/// where the tree wasn't converted for another reason.
pub(crate) fn refused<E: Drop>(alloc: Global, error: ConversionError<E>) -> ParseErrors
    ensures cause { IsToldAs (reason error) (cause_of result.0.head) }
    ensures faults { cause_of result.0.head ≡ means_nothing → listed result.0 ≡ map (λ fault. ParseError.ToAST fault) (faults_of error) }
    ensures alone { (cause_of result.0.head ≡ means_nothing → ⊥) → result.0.tail.items ≡ [] }
{
    let Some(faults) = error.into_faults() else {
        return ParseErrors::one(alloc, ParseError::Memory);
    };
    match errors_of(alloc, faults) {
        Ok(errors) => ParseErrors(errors),
        Err(_) => ParseErrors::one(alloc, ParseError::Memory),
    }
}

// Each of the faults as an error.
fn errors_of(
    alloc: Global,
    faults: NonEmpty<ToASTError>,
) -> Result<NonEmpty<ParseError>, AllocError>
    ensures { IfOk result (λ errors. listed errors ≡ map (λ fault. ParseError.ToAST fault) (listed faults)) }
{
    let NonEmpty { head, tail: others } = faults;
    let mut tail = Vec::new(alloc);
    for fault in others {
        tail.push(ParseError::ToAST(fault))?;
    }
    Ok(NonEmpty {
        head: ParseError::ToAST(head),
        tail,
    })
}
