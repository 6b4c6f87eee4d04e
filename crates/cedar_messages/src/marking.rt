// The source line that is shown below a fault, and what of it is marked.
ghost use Rattle.std.specs.Prelude.{string_bytes, OnOk};
ghost use Rattle.cedar_messages.specs.Telling.{Adds, AreBelow};

use crate::brackets::read;
use crate::places::{Extent, Places};
use crate::telling::{LONGEST_LINE, push_marked};
use cedar_names::places::Span;
use cedar_parser::err::{ParseError, ToASTErrorKind};
use cedar_tokens::{Mark, Token, TokenKind, Word};
use cedar_trees::errors::ExpressionConstructionError;
use std::alloc::{AllocError, Global};

/// A line behind a place is looked for so far: where more bytes stand before its end it is too long to be shown.
const FURTHEST: usize = 1608;

/// What is marked below its source line: so many characters, from this byte of the text on, which has this column.
#[derive(Clone, Copy, Debug)]
pub(crate) struct Underline {
    byte: usize,
    column: usize,
    characters: usize,
}

/// What is marked of an error, if its line may be shown.
pub(crate) fn mark_of(
    alloc: Global,
    places: &Places<'_>,
    error: &ParseError,
) -> Result<Option<Underline>, AllocError> {
    let Some(span) = marked(alloc, error, places.text)? else {
        return Ok(None);
    };
    let column = places.position(span.start).column;
    if column > LONGEST_LINE {
        return Ok(None);
    }
    Ok(Some(Underline {
        byte: span.start,
        column,
        characters: width_of(places.text, span),
    }))
}

/// The first character of a part of a text, if its line may be shown.
pub(crate) fn mark_at(extent: Option<Extent>, span: Option<Span>) -> Option<Underline> {
    let column = extent?.start.column;
    if column > LONGEST_LINE {
        return None;
    }
    Some(Underline {
        byte: span?.start,
        column,
        characters: 1,
    })
}

/// Adds the line of a text in which a mark stands, and the mark below it.
pub(crate) fn push_source(
    alloc: Global,
    told: &mut String,
    text: &str,
    mark: Option<Underline>,
) -> Result<(), AllocError>
    ensures { OnOk result (Adds AreBelow (string_bytes told.old) (string_bytes told.new)) }
{
    let Some(mark) = mark else {
        return Ok(());
    };
    match line_at(text, mark.byte) {
        None => Ok(()),
        Some(line) => push_marked(alloc, told, line, mark.column, mark.characters),
    }
}

/// The line in which a byte stands, or a part of it that is longer than what is shown.
fn line_at(text: &str, byte: usize) -> Option<&str> {
    let (before, behind) = text.split_at_checked(byte)?;
    let head = match before.rsplit_once('\n') {
        Some((_, line)) => line.len(),
        None => before.len(),
    };
    let tail = match behind.split_at_checked(behind.floor_char_boundary(FURTHEST)) {
        Some((near, _)) => near,
        None => behind,
    };
    let tail = match tail.split_once('\n') {
        Some((line, _)) => line.len(),
        None => tail.len(),
    };
    let line = text.get(byte.saturating_sub(head)..byte.saturating_add(tail))?;
    Some(line.strip_suffix('\r').unwrap_or(line))
}

/// How many characters of its first line a part of a text has, but for blanks at the line's end.
fn width_of(text: &str, span: Span) -> usize {
    let part = text.get(span.start..span.end).unwrap_or("");
    let line = part.lines().next().unwrap_or("");
    line.trim_end().chars().count()
}

/// What is marked of a fault: behind the last token where the text ends too early, an operator or a key by which it is
/// wrong, or else all of it.
fn marked(alloc: Global, error: &ParseError, text: &str) -> Result<Option<Span>, AllocError> {
    match error {
        ParseError::ToCST(error) => match error.primary_source_span() {
            Some(span) if span.start >= text.len() => Ok(Some(behind_last(alloc, text)?)),
            other => Ok(other),
        },
        ParseError::ToAST(error) => match &error.loc {
            None => Ok(None),
            Some(loc) => {
                let whole = loc.span();
                let part = part_marked(alloc, error.kind(), text, whole)?;
                Ok(Some(part.unwrap_or(whole)))
            }
        },
        ParseError::Depth | ParseError::Memory => Ok(None),
    }
}

fn behind_last(alloc: Global, text: &str) -> Result<Span, AllocError> {
    let tokens = read(alloc, text)?;
    let end = match tokens.last() {
        Some(token) => token.span.end,
        None => text.len(),
    };
    Ok(Span { start: end, end })
}

/// The operator or the key of a construct by which it is wrong, where that is one.
fn part_marked(
    alloc: Global,
    kind: &ToASTErrorKind,
    text: &str,
    whole: Span,
) -> Result<Option<Span>, AllocError> {
    let Some(sought) = wrong_token(kind) else {
        return Ok(None);
    };
    let Some(source) = text.get(whole.start..whole.end) else {
        return Ok(None);
    };
    let tokens = read(alloc, source)?;
    let Some(found) = find(sought, tokens.as_slice()) else {
        return Ok(None);
    };
    Ok(Some(Span {
        start: whole.start.saturating_add(found.start),
        end: whole.start.saturating_add(found.end),
    }))
}

/// Which token of a construct is wrong.
#[derive(Clone, Copy)]
enum Sought<'k> {
    /// The first such mark that stands in no bracket.
    Sign(Mark),
    /// The comparison with this number that stands in no bracket.
    Comparison(usize),
    /// The first `is` that stands in no bracket.
    Is,
    /// The second of these keys of a record.
    SecondKey(&'k str),
}

fn wrong_token(kind: &ToASTErrorKind) -> Option<Sought<'_>> {
    match kind {
        ToASTErrorKind::InvalidSingleEq => Some(Sought::Sign(Mark::Equal)),
        ToASTErrorKind::UnsupportedDivision => Some(Sought::Sign(Mark::Slash)),
        ToASTErrorKind::UnsupportedModulo => Some(Sought::Sign(Mark::Percent)),
        ToASTErrorKind::IsWithEq => Some(Sought::Sign(Mark::EqualEqual)),
        ToASTErrorKind::TypeConstraints => Some(Sought::Sign(Mark::Colon)),
        ToASTErrorKind::InvalidScopeOperator(_) | ToASTErrorKind::InvalidActionScopeOperator(_) => {
            Some(Sought::Comparison(1))
        }
        ToASTErrorKind::AmbiguousOperators => Some(Sought::Comparison(2)),
        ToASTErrorKind::IsInActionScope | ToASTErrorKind::InvertedIsIn => Some(Sought::Is),
        ToASTErrorKind::ExpressionConstructionError(
            ExpressionConstructionError::DuplicateKey(key),
        ) => Some(Sought::SecondKey(key.key())),
        _ => None,
    }
}

/// The first token of a construct that is sought.
fn find(sought: Sought<'_>, tokens: &[Token<'_>]) -> Option<Span> {
    let mut depth = 0usize;
    let mut seen = 0usize;
    for (place, token) in tokens.iter().enumerate() {
        let next = tokens.get(place.saturating_add(1));
        if is_sought(sought, depth, *token, next) {
            seen = seen.saturating_add(1);
            if seen == wanted(sought) {
                return Some(Span {
                    start: token.span.start,
                    end: token.span.end,
                });
            }
        }
        depth = deeper(depth, token.kind);
    }
    None
}

/// Which of those that are like it is sought.
fn wanted(sought: Sought<'_>) -> usize {
    match sought {
        Sought::Sign(_) | Sought::Is => 1,
        Sought::Comparison(number) => number,
        Sought::SecondKey(_) => 2,
    }
}

/// Whether a token, behind which another stands, is like the one that is sought.
fn is_sought(sought: Sought<'_>, depth: usize, token: Token<'_>, next: Option<&Token<'_>>) -> bool {
    match (sought, token.kind) {
        (Sought::Sign(mark), TokenKind::Mark(other)) => depth == 0 && mark == other,
        (Sought::Comparison(_), kind) => depth == 0 && compares(kind),
        (Sought::Is, TokenKind::Word(Word::Is)) => depth == 0,
        (Sought::SecondKey(key), TokenKind::Text(other)) => {
            depth == 1 && key == other && is_colon(next)
        }
        (Sought::SecondKey(key), TokenKind::Word(Word::Other(other))) => {
            depth == 1 && key == other && is_colon(next)
        }
        _ => false,
    }
}

fn is_colon(token: Option<&Token<'_>>) -> bool {
    match token {
        Some(token) => match token.kind {
            TokenKind::Mark(mark) => mark == Mark::Colon,
            _ => false,
        },
        None => false,
    }
}

fn compares(kind: TokenKind<'_>) -> bool {
    match kind {
        TokenKind::Word(Word::In) => true,
        TokenKind::Mark(
            Mark::EqualEqual
            | Mark::NotEqual
            | Mark::Less
            | Mark::LessEqual
            | Mark::Greater
            | Mark::GreaterEqual,
        ) => true,
        _ => false,
    }
}

/// How many brackets are open behind a token.
fn deeper(depth: usize, kind: TokenKind<'_>) -> usize {
    match kind {
        TokenKind::Mark(Mark::LeftParen | Mark::LeftBracket | Mark::LeftBrace) => {
            depth.saturating_add(1)
        }
        TokenKind::Mark(Mark::RightParen | Mark::RightBracket | Mark::RightBrace) => {
            depth.saturating_sub(1)
        }
        _ => depth,
    }
}
