// The error of a text, from what stopped its reader.
ghost use Rattle.cedar_loose.specs.Errors.{cause_of};
ghost use Rattle.cedar_loose.specs.Texts.{IsTold, stop_cause};

use crate::{LooseError, Met, ReadError, ToCSTError};
use cedar_names::places::Loc;
use std::alloc::Global;
use std::rc::RcStr;

/// The error that stopped the reader, with its place in the text `source`; `Memory` where there is none
/// for the place.
pub(crate) fn refusal(alloc: Global, error: ReadError, source: &RcStr) -> LooseError
    ensures { IsTold (stop_cause error) (cause_of result) }
{
    match error {
        ReadError::Syntax(unexpected) => {
            let Ok(source) = source.clone() else {
                return LooseError::Memory;
            };
            let Ok(loc) = Loc::new(alloc, unexpected.span, source) else {
                return LooseError::Memory;
            };
            LooseError::ToCST(match unexpected.met {
                Met::Token => ToCSTError::unrecognized_token(loc, unexpected.expected),
                Met::End => ToCSTError::unrecognized_eof(loc, unexpected.expected),
                Met::NoToken => ToCSTError::invalid_token(loc),
            })
        }
        ReadError::Depth => LooseError::Depth,
        ReadError::Memory => LooseError::Memory,
    }
}
