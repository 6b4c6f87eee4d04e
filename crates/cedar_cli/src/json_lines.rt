// Commands in lines of JSON, answered over a table of functions.

use crate::{DEVICE, FINE, NO_MEMORY};
use cedar_authoring::DEPTH;
use cedar_calls::{answer_line, line_text};
use cedar_session::{ExtensionFunctionObject, Extensions, OwnedSession};
use json::Scratch;
use std::alloc::{AllocError, Global};
use std::io::{self, BufRead, Read, Write};

/// The most bytes of a line: the longest body's, each of which may stand as an escape of six.
const LONGEST: usize = 8 << 20;

const TOO_LONG: &str = "{\"refused\":\"Long\"}";

const NO_TEXT: &str = "{\"refused\":\"NotUtf8\"}";

/// Why no more lines are answered.
enum Fault {
    Device,
    Memory,
}

impl From<io::Error> for Fault {
    fn from(error: io::Error) -> Fault {
        if error.kind() == io::ErrorKind::OutOfMemory {
            Fault::Memory
        } else {
            Fault::Device
        }
    }
}

impl From<AllocError> for Fault {
    fn from(_error: AllocError) -> Fault {
        Fault::Memory
    }
}

/// Answers each line of the input by one, which goes out before more is read, by a new session over this table, with the
/// program's limit of depth. The status is 0 at the end of the input, 3 where a device failed, and 4 where there was no
/// memory for a line; the command of that is done, or changes nothing.
pub(crate) fn answer_lines<F: ExtensionFunctionObject, R: BufRead, W: Write>(
    alloc: Global,
    extensions: Extensions<'_, F>,
    input: &mut R,
    output: &mut W,
) -> u8 {
    let mut answering = Answering {
        alloc,
        session: OwnedSession::new(alloc, extensions, DEPTH),
        scratch: Scratch::new(alloc),
    };
    // (no input has more lines)
    for _ in 0..u64::MAX {
        match answering.answer_next(input, output) {
            Ok(true) => {}
            Ok(false) => return FINE,
            Err(Fault::Device) => return DEVICE,
            Err(Fault::Memory) => return NO_MEMORY,
        }
    }
    FINE
}

/// A session that is sent lines, and room to read these in.
#[derive(Drop)]
struct Answering<'f, F: ExtensionFunctionObject> {
    alloc: Global,
    session: OwnedSession<'f, F>,
    scratch: Scratch,
}

impl<F: ExtensionFunctionObject> Answering<'_, F> {
    /// Answers the next line, and says whether there was one.
    fn answer_next<R: BufRead, W: Write>(
        &mut self,
        input: &mut R,
        output: &mut W,
    ) -> Result<bool, Fault> {
        let mut line = Vec::new(self.alloc);
        input
            .by_ref()
            .take(LONGEST as u64)
            .read_until(b'\n', &mut line)?;
        if line.is_empty() {
            return Ok(false);
        }
        if line.len() == LONGEST && line.last() != Some(&b'\n') {
            input.skip_until(b'\n')?;
            output.writeln(TOO_LONG)?;
        } else {
            self.answer_one(line.as_slice(), output)?;
        }
        output.flush()?;
        Ok(true)
    }

    fn answer_one<W: Write>(&mut self, line: &[u8], output: &mut W) -> Result<(), Fault> {
        let Ok(line) = str::from_utf8(line) else {
            output.writeln(NO_TEXT)?;
            return Ok(());
        };
        // (places of faults are those in the line, and not behind it)
        let line = line.strip_suffix('\n').unwrap_or(line);
        let reply = answer_line(self.alloc, &mut self.session, &mut self.scratch, line);
        let text = line_text(self.alloc, line, &reply)?;
        output.write_all(text.as_slice())?;
        output.write_all(b"\n")?;
        Ok(())
    }
}
