// One frame after another.
ghost use Rattle.std.specs.Prelude.{◌≡◌, ℕ, List, false, is_err, ◌||◌, IfOk, OnErr};
ghost use Rattle.cedar_frames.specs.Watching.{watched_failed, watched_late};
ghost use Rattle.cedar_frames.specs.Frames.{IsPartial, IsPartialLine};
ghost use Rattle.cedar_frames.specs.Reading.{Reads, ReadsNext};
ghost use Rattle.cedar_frames.specs.Parts.{ReadsLine};

use crate::body::Body;
use crate::fault::Fault;
use crate::head::{HEAD_LIMIT, HeadLine, head_of};
use crate::reading::{ReadFailed, read_byte};
use crate::verb::Verb;
use crate::watched::Watched;
use std::alloc::Global;
use std::io::Read;

/// What stands next in a stream of frames.
#[derive(Debug, PartialEq, Eq, Drop)]
pub enum Next {
    /// The end of the input.
    End,
    /// No frame.
    Fault(Fault),
    /// A command: its verb, and its body unless there was no memory for it. An empty body takes none.
    Frame(Verb, Option<Vec<u8>>),
}

/// Room for a head and its line feed.
const LINE_ROOM: usize = HEAD_LIMIT + 1;

/// What stands where a line should.
#[derive(Clone, Copy)]
pub(crate) enum Line {
    /// The end of the input.
    End,
    /// Some bytes, and then the end of the input.
    Cut,
    /// More bytes than a head has.
    Endless,
    /// A line of so many bytes.
    Whole(usize),
}

/// Reads a line of at most 32 bytes, and its line feed.
fn read_line<R: Read>(
    reader: &mut Watched<R>,
    line: &mut [u8; LINE_ROOM],
) -> Result<Line, ReadFailed>
    ensures line { IfOk result (λ read. (taken : List ℕ) × Reads R.remaining reader.old reader.new taken
        × ReadsLine R.remaining read taken line.new reader.new) }
    ensures err { OnErr result ((taken : List ℕ) × Reads R.remaining reader.old reader.new taken
        × IsPartialLine taken) }
    ensures failed { watched_failed reader.new ≡ (is_err result || watched_failed reader.old) }
    ensures late { watched_failed reader.old ≡ false → watched_late reader.new ≡ false }
{
    for at in 0..LINE_ROOM {
        let Some(byte) = read_byte(reader)? else {
            return Ok(if at == 0 { Line::End } else { Line::Cut });
        };
        if byte == b'\n' {
            return Ok(Line::Whole(at));
        }
        line[at] = byte;
    }
    Ok(Line::Endless)
}

/// Reads what stands next in a stream of frames.
///
/// A body for which there is no memory is read past, and isn't in the answer; an empty one takes
/// none. A fault is answered as soon as a byte shows it, and nothing behind that byte is read. An
/// error is answered only where the reader has failed; the bytes taken are then no more than a part
/// of a frame, and the reader isn't called again.
pub fn next_frame<R: Read>(alloc: Global, reader: &mut Watched<R>) -> Result<Next, ReadFailed>
    ensures next { IfOk result (λ next. (taken : List ℕ) × Reads R.remaining reader.old reader.new taken
        × ReadsNext R.remaining next taken reader.new) }
    ensures err { OnErr result ((taken : List ℕ) × Reads R.remaining reader.old reader.new taken
        × IsPartial taken) }
    ensures failed { watched_failed reader.new ≡ (is_err result || watched_failed reader.old) }
    ensures late { watched_failed reader.old ≡ false → watched_late reader.new ≡ false }
{
    let mut line = [0u8; LINE_ROOM];
    let len = match read_line(reader, &mut line)? {
        Line::End => return Ok(Next::End),
        Line::Cut => return Ok(Next::Fault(Fault::Truncated)),
        Line::Endless => return Ok(Next::Fault(Fault::BadHead)),
        Line::Whole(len) => len,
    };
    let (verb, size) = match head_of(&line[..len]) {
        HeadLine::Bad => return Ok(Next::Fault(Fault::BadHead)),
        HeadLine::Long => return Ok(Next::Fault(Fault::TooLong)),
        HeadLine::Opens(verb, size) => (verb, size),
    };
    let Body::Whole(body) = Body::read(alloc, reader, size)? else {
        return Ok(Next::Fault(Fault::Truncated));
    };
    let Some(byte) = read_byte(reader)? else {
        return Ok(Next::Fault(Fault::Truncated));
    };
    if byte == b'\n' {
        Ok(Next::Frame(verb, body))
    } else {
        Ok(Next::Fault(Fault::NoLineFeed))
    }
}
