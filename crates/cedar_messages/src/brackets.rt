// Which bracket isn't closed.
use cedar_parser::err::ParseError;
use cedar_tokens::{Mark, Token, TokenError, TokenKind, tokenize};
use std::alloc::{AllocError, Global};

/// A bracket that is open, and where it stands.
#[derive(Clone, Copy, Debug)]
struct Open {
    mark: Mark,
    byte: usize,
}

/// The last bracket that is open before the place of a fault, with its byte, where the token at that place shows that
/// it should have been closed: the text's end, `;`, a bracket that closes another, or a word that begins a policy or a
/// clause.
pub(crate) fn unclosed(
    alloc: Global,
    error: &ParseError,
    text: &str,
) -> Result<Option<(char, usize)>, AllocError> {
    let ParseError::ToCST(error) = error else {
        return Ok(None);
    };
    let Some(span) = error.primary_source_span() else {
        return Ok(None);
    };
    let Some((before, behind)) = text.split_at_checked(span.start) else {
        return Ok(None);
    };
    let tokens = read(alloc, before)?;
    let Some(open) = last_open(alloc, tokens.as_slice())? else {
        return Ok(None);
    };
    let met = text.get(span.start..span.end).unwrap_or("");
    let Some((bracket, closes)) = spelled(open.mark) else {
        return Ok(None);
    };
    if behind.is_empty() || shows_unclosed(met, closes) {
        return Ok(Some((bracket, open.byte)));
    }
    Ok(None)
}

/// The tokens of a text; none where it isn't tokens.
pub(crate) fn read(alloc: Global, text: &str) -> Result<Vec<Token<'_>>, AllocError> {
    match tokenize(alloc, text) {
        Ok(tokens) => Ok(tokens),
        Err(TokenError::Memory) => Err(AllocError),
        Err(TokenError::Unexpected { place: _ }) => Ok(Vec::new(alloc)),
    }
}

/// The last bracket of these tokens that isn't closed among them.
fn last_open(alloc: Global, tokens: &[Token<'_>]) -> Result<Option<Open>, AllocError> {
    let mut open = Vec::new(alloc);
    for token in tokens {
        let TokenKind::Mark(mark) = token.kind else {
            continue;
        };
        if spelled(mark).is_some() {
            open.push(Open {
                mark,
                byte: token.span.start,
            })?;
        } else if closes(mark) {
            let _closed = open.pop();
        }
    }
    Ok(open.pop())
}

fn closes(mark: Mark) -> bool {
    matches!(
        mark,
        Mark::RightParen | Mark::RightBracket | Mark::RightBrace
    )
}

/// A bracket, and the one that closes it.
fn spelled(mark: Mark) -> Option<(char, &'static str)> {
    match mark {
        Mark::LeftParen => Some(('(', ")")),
        Mark::LeftBracket => Some(('[', "]")),
        Mark::LeftBrace => Some(('{', "}")),
        _ => None,
    }
}

/// Whether a token can't stand before what is open is closed.
fn shows_unclosed(met: &str, closes: &str) -> bool {
    match met {
        ";" | "when" | "unless" | "permit" | "forbid" => true,
        ")" | "]" | "}" => met != closes,
        _ => false,
    }
}
