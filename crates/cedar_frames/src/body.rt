// The body of a frame.
ghost use Rattle.std.specs.Prelude.{◌≡◌, ℕ, List, ◌<◌, length, false, is_err, ◌||◌, IfOk, OnErr};
ghost use Rattle.cedar_frames.specs.Watching.{watched_failed, watched_late};
ghost use Rattle.cedar_frames.specs.Reading.{Reads};
ghost use Rattle.cedar_frames.specs.Parts.{ReadsBody};

use crate::reading::{ReadFailed, read_piece};
use crate::watched::Watched;
use std::alloc::Global;
use std::io::Read;

/// The greatest number of bytes that one read asks for.
const PIECE: usize = 512;

/// What became of a body.
#[derive(Drop)]
pub(crate) enum Body {
    /// The input ended inside it.
    Cut,
    /// It was read, and is here unless it has a byte and there was no memory for it.
    Whole(Option<Vec<u8>>),
}

impl Body {
    /// Reads a body of so many bytes, past its end also where there is no memory to keep it.
    pub(crate) fn read<R: Read>(
        alloc: Global,
        reader: &mut Watched<R>,
        len: usize,
    ) -> Result<Body, ReadFailed>
        ensures body { IfOk result (λ body. (taken : List ℕ) × Reads R.remaining reader.old reader.new taken
            × ReadsBody R.remaining len body taken reader.new) }
        ensures err { OnErr result ((taken : List ℕ) × Reads R.remaining reader.old reader.new taken
            × (length taken < len)) }
        ensures failed { watched_failed reader.new ≡ (is_err result || watched_failed reader.old) }
        ensures late { watched_failed reader.old ≡ false → watched_late reader.new ≡ false }
    {
        let mut scratch = [0u8; PIECE];
        let mut bytes = Vec::new(alloc);
        let mut held = true;
        let mut left = len;
        while left > 0 {
            let count = read_piece(reader, &mut scratch, left.min(PIECE))?;
            if count == 0 {
                return Ok(Body::Cut);
            }
            if held {
                held = bytes.extend_from_slice(&scratch[..count]).is_ok();
            }
            left -= count;
        }
        Ok(Body::Whole(if held { Some(bytes) } else { None }))
    }
}
