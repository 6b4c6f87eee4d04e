// Text to a watched writer, by `write` alone. No write is tried again where it failed.
ghost use Rattle.cedar_frames.specs.Writing.{Writes};

use crate::watched::Watched;
use std::io::Write;

/// Writes the bytes, unless the writer fails or has failed.
///
/// The writer isn't called once it has failed, so texts can be put one behind the other and the
/// writer be asked at the end.
pub fn put<W: Write>(writer: &mut Watched<W>, bytes: &[u8])
    ensures { Writes W.contents writer.old writer.new bytes.now }
{
    if writer.failed() {
        return;
    }
    let mut at = 0;
    while at < bytes.len() {
        match writer.write(&bytes[at..]) {
            Ok(count) if count > 0 => at += count,
            _ => return,
        }
    }
}
