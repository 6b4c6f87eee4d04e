// Reads of a watched reader. None is tried again where it failed.
ghost use Rattle.std.specs.Prelude.{◌≡◌, [], ◌∷◌, ◌<◌, ◌≤◌, take, length, codes, Some, false, is_err, ◌||◌, IfOk, OnErr, IfSome, IfNone};
ghost use Rattle.cedar_frames.specs.Watching.{watched_failed, watched_late};
ghost use Rattle.cedar_frames.specs.Reading.{Reads, IsReadOut};

use crate::watched::Watched;
use std::error::Error;
use std::fmt;
use std::fmt::{Display, Formatter};
use std::io::Read;

/// The reader failed.
#[derive(Clone, Copy, Debug, PartialEq, Eq)]
pub struct ReadFailed;

impl Display for ReadFailed {
    ghost output = { λ _. Some (codes "the reader failed") };

    fn fmt<W: fmt::Write>(&self, f: &mut Formatter<W>) -> fmt::Result {
        f.write_str("the reader failed")
    }
}

impl Error for ReadFailed {}

/// The next byte, or `None` at the end of the input.
///
/// An error is answered only where the reader has failed, and then no byte was taken.
pub fn read_byte<R: Read>(reader: &mut Watched<R>) -> Result<Option<u8>, ReadFailed>
    ensures byte { IfOk result (λ next. IfSome next (λ b.
        Reads R.remaining reader.old reader.new (b ∷ []))) }
    ensures end { IfOk result (λ next. IfNone next (Reads R.remaining reader.old reader.new []
        × IsReadOut R.remaining reader.new)) }
    ensures err { OnErr result (Reads R.remaining reader.old reader.new []) }
    ensures failed { watched_failed reader.new ≡ (is_err result || watched_failed reader.old) }
    ensures late { watched_failed reader.old ≡ false → watched_late reader.new ≡ false }
{
    let mut cell = [0u8; 1];
    match reader.read(&mut cell) {
        Ok(0) => Ok(None),
        Ok(_) => Ok(Some(cell[0])),
        Err(_) => Err(ReadFailed),
    }
}

/// One read of at most so many bytes into the front of the scratch: of none only at the end of the input.
pub(crate) fn read_piece<R: Read>(
    reader: &mut Watched<R>,
    scratch: &mut [u8],
    most: usize,
) -> Result<usize, ReadFailed>
    requires { most ≤ length scratch.old }
    ensures within { IfOk result (λ count. count ≤ most) }
    ensures bytes { IfOk result (λ count.
        Reads R.remaining reader.old reader.new (take count scratch.new)) }
    ensures end { IfOk result (λ count. count ≡ 0 → 0 < most → IsReadOut R.remaining reader.new) }
    ensures err { OnErr result (Reads R.remaining reader.old reader.new []) }
    ensures failed { watched_failed reader.new ≡ (is_err result || watched_failed reader.old) }
    ensures late { watched_failed reader.old ≡ false → watched_late reader.new ≡ false }
{
    reader.read(&mut scratch[..most]).map_err(|_| ReadFailed)
}
