// A schema's text, read into its syntax.
ghost use Rattle.std.specs.Prelude.{◌≡◌, Some, IfOk, IfErr};
ghost use Rattle.cedar_schema_grammar.specs.Reading.{said};
ghost use Rattle.cedar_schema_syntax.specs.View.{schema_view};
ghost use Rattle.cedar_schema_text.specs.Errors.{NestsWithin, Refuses};

use crate::read_error::{ReadError, SyntaxFault};
use crate::reader::Reader;
use crate::syntax_error::SchemaSyntaxError;
use crate::tokenizer::tokenize;
use cedar_schema_syntax::SchemaSyntax;
use cedar_tokens::TokenError;
use std::alloc::Global;

/// The syntax of a schema's text (Cedar language reference, "Schema grammar"). At most `depth` braces and angle brackets
/// may be open at one place of the text; the stack that reading takes is bounded by that.
///
/// `Syntax` comes only where the text is outside the grammar, and says what stands wrong and where; `Depth` exactly where
/// the text has tokens whose brackets nest deeper, with the place of the first that does; `Memory` for want of memory
/// alone. The time is linear in the text, times a logarithm for the keys of annotations.
#[tactic(auto, using(crate::proofs::Said::said_none))]
pub fn parse_schema(
    alloc: Global,
    text: &str,
    depth: u32,
) -> Result<SchemaSyntax, SchemaSyntaxError>
    ensures syntax { IfOk result (λ syntax. said text.now ≡ Some (schema_view syntax)) }
    ensures depth { IfOk result (λ syntax. NestsWithin depth text.now) }
    ensures refused { IfErr result (Refuses depth text.now) }
{
    let tokens = match tokenize(alloc, text) {
        Ok(tokens) => tokens,
        Err(TokenError::Unexpected { place }) => {
            return Err(SchemaSyntaxError::Syntax {
                fault: SyntaxFault::NoToken,
                place,
            });
        }
        Err(TokenError::Memory) => return Err(SchemaSyntaxError::Memory),
    };
    let reader = Reader {
        alloc,
        tokens,
        end: text.len(),
    };
    if let Some(place) = reader.place_beyond(depth as usize) {
        return Err(SchemaSyntaxError::Depth { place });
    }
    match reader.schema() {
        Ok(syntax) => Ok(syntax),
        Err(ReadError::Syntax { fault, place }) => Err(SchemaSyntaxError::Syntax { fault, place }),
        Err(ReadError::Memory) => Err(SchemaSyntaxError::Memory),
    }
}
