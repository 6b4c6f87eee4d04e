// Where a byte of a text stands.
ghost use Rattle.std.specs.Prelude.{◌≡◌, ◌+◌, ◌≤◌, take, IfOk};
ghost use Rattle.cedar_messages.specs.Places.{line_feeds, last_line, characters, begins_character, extent_at, position_at, AreCounted};

use cedar_names::places::Span;
use std::alloc::{AllocError, Global};

/// Where a byte of a text stands, as editors count: lines from 1, and in each line characters from 1.
#[derive(Clone, Copy, Debug, PartialEq, Eq)]
pub struct Position {
    pub line: usize,
    pub column: usize,
}

/// From where to where a part of a text reaches: from its first byte to the first one behind it.
#[derive(Clone, Copy, Debug, PartialEq, Eq)]
pub struct Extent {
    pub start: Position,
    pub end: Position,
}

/// Where every text begins.
const START: Position = Position { line: 1, column: 1 };

/// Where the byte with this number stands, counted from 0: `line` is 1 and the line feeds before it, `column` 1 and the
/// characters that begin before it and behind the last of these. A number past the text stands for its end.
pub fn line_and_column(text: &str, byte: usize) -> Position
    ensures line { result.line ≡ 1 + line_feeds (take byte text.now) }
    ensures column { result.column ≡ 1 + characters (last_line (take byte text.now)) }
{
    position_in(text.as_bytes(), byte)
}

/// The same of bytes that are perhaps no text, in which each byte counts that may begin a character.
pub fn position_in(bytes: &[u8], byte: usize) -> Position
    ensures { result ≡ position_at bytes.now byte }
{
    counted_on(bytes, 0, START, byte)
}

/// From where to where these bytes of a text reach.
pub fn extent_in(text: &str, span: Span) -> Extent
    ensures { result ≡ extent_at text.now span }
{
    Extent {
        start: position_in(text.as_bytes(), span.start),
        end: position_in(text.as_bytes(), span.end),
    }
}

// Where a byte stands, counted on from one before it.
fn counted_on(bytes: &[u8], from: usize, at: Position, to: usize) -> Position
    requires at { at ≡ position_at bytes.now from }
    requires before { from ≤ to }
    ensures { result ≡ position_at bytes.now to }
{
    let Position {
        mut line,
        mut column,
    } = at;
    let mut byte = from;
    let end = to.min(bytes.len());
    'byte: while byte < end {
        let b = bytes[byte];
        if b == b'\n' {
            line += 1;
            column = 1;
        } else if begins_character(b) {
            column += 1;
        }
        byte += 1;
    }
    Position { line, column }
}

// Whether a character begins with this byte: those that go on with one are 128 to 191.
fn begins_character(b: u8) -> bool
    ensures { result ≡ begins_character b }
{
    b < 128 || b >= 192
}

/// From a counted byte to the next are so many.
const BLOCK: usize = 256;

/// The places of a text, any of which is found at once: of every 256th byte it is counted once.
#[derive(Debug, Drop)]
pub struct Places<'t> {
    pub text: &'t str,
    counted: Vec<Position>,
    ghost counted_are: { AreCounted text.now counted.items },
}

impl<'t> Places<'t> {
    /// The places of this text. Takes time linear in it, and memory of a sixteenth of its bytes. Refused for memory alone.
    pub fn of(alloc: Global, text: &'t str) -> Result<Places<'t>, AllocError>
        ensures { IfOk result (λ places. places.text.now ≡ text.entry.now) }
    {
        let counted = count(alloc, text.as_bytes())?;
        Ok(Places { text, counted })
    }

    /// Where the byte of the text with this number stands, as [`line_and_column`] says. Looks at 256 bytes at most.
    pub fn position(&self, byte: usize) -> Position
        ensures { result ≡ position_at self.now.text.now byte }
    {
        let bytes = self.text.as_bytes();
        let block = byte / BLOCK;
        match self.counted.get(block) {
            Some(at) => counted_on(bytes, block * BLOCK, *at, byte),
            None => position_in(bytes, byte),
        }
    }

    /// From where to where these bytes of the text reach. Looks at 512 bytes at most.
    pub fn extent(&self, span: Span) -> Extent
        ensures { result ≡ extent_at self.now.text.now span }
    {
        Extent {
            start: self.position(span.start),
            end: self.position(span.end),
        }
    }
}

// Where the first byte of each block stands, and what is behind the last one.
fn count(alloc: Global, bytes: &[u8]) -> Result<Vec<Position>, AllocError>
    ensures { IfOk result (λ counted. AreCounted bytes.now counted.items) }
{
    let mut counted = Vec::new(alloc);
    let mut at = START;
    let mut byte = 0usize;
    'block: while byte <= bytes.len() {
        counted.push(at)?;
        at = counted_on(bytes, byte, at, byte + BLOCK);
        byte += BLOCK;
    }
    Ok(counted)
}
