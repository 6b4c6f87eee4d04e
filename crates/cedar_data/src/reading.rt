// Data, from its text.
ghost use Rattle.std.specs.Prelude.{◌≡◌, IfOk, IfSome};
ghost use Rattle.cedar_data.specs.Data.{IsDataText};

use crate::reader::Reader;
use crate::type_names::TypeNames;
use crate::unread::Unread;
use cedar_faults::ExtStyles;
use cedar_restricted::restricted::RestrictedExpr;
use std::alloc::{AllocError, Global};

/// The data that a text is within a nesting of `depth`, no higher than that, where these functions may be
/// called: `true` and `false`, longs, strings, entities, lists, records and calls.
///
/// It is a short way for plain texts, beside the parser: `None` says nothing of the text. What is written so
/// without comments and parentheses is read here; refused for memory alone.
pub fn read_data(
    alloc: Global,
    text: &str,
    styles: &ExtStyles,
    types: &mut TypeNames,
    depth: u32,
) -> Result<Option<RestrictedExpr>, AllocError>
    ensures { IfOk result (λ found. IfSome found (λ body. IsDataText styles.now depth text.now body)) }
{
    let mut reader = Reader::new(text);
    match reader.data(alloc, styles, types, depth) {
        Ok(expr) => {
            if reader.is_at_end() {
                Ok(Some(RestrictedExpr::new_unchecked(expr)))
            } else {
                Ok(None)
            }
        }
        Err(Unread::Other) => Ok(None),
        Err(Unread::Memory) => Err(AllocError),
    }
}
