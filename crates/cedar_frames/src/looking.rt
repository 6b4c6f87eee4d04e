// Looks at what a reader has read ahead.
ghost use Rattle.std.specs.Prelude.{◌≡◌, ◌≤◌, ◌<◌, ◌++◌, length, min, take, drop, IfOk, OnErr};
ghost use Rattle.std.specs.Io.KnownBytes.{Keeps, IsAtEnd};
ghost use Rattle.cedar_frames.specs.Ahead.{IsShown};

use crate::reading::ReadFailed;
use std::io::BufRead;

/// Copies as many bytes as there is room for to the front, and says how many.
fn copy_front(bytes: &[u8], buf: &mut [u8]) -> usize
    ensures count { result ≡ min (length bytes.now) (length buf.old) }
    ensures copied { buf.new ≡ take result bytes.now ++ drop result buf.old }
{
    let count = bytes.len().min(buf.len());
    buf[..count].copy_from_slice(&bytes[..count]);
    count
}

/// Copies the bytes that a reader has read ahead, as many as there is room for, and says how many.
pub(crate) fn copy_ahead<R: BufRead>(reader: &mut R, buf: &mut [u8]) -> Result<usize, ReadFailed>
    ensures within { IfOk result (λ count. count ≤ length buf.new) }
    ensures ahead { IfOk result (λ count. IsShown (R.remaining reader.old) (R.remaining reader.new) (R.consumable_len reader.new) (take count buf.new)) }
    ensures end { IfOk result (λ count. count ≡ 0 → 0 < length buf.new → IsAtEnd (R.remaining reader.old)) }
    ensures err { OnErr result (Keeps (R.remaining reader.old) (R.remaining reader.new)) }
{
    match reader.fill_buf() {
        Ok(ahead) => Ok(copy_front(ahead, buf)),
        Err(_) => Err(ReadFailed),
    }
}
