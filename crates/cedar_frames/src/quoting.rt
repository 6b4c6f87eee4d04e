// Ids in quotes.
ghost use Rattle.std.specs.Prelude.{◌≡◌, [], ◌∷◌, ◌++◌, MatchOption, IfSome, ◌<◌, length};
ghost use Rattle.cedar_frames.specs.Writing.{Writes};
ghost use Rattle.cedar_frames.specs.Quoting.{escaped, escaped_all, quoted};

use crate::watched::Watched;
use crate::writing::put;
use std::io::Write;

/// How a byte is written inside quotes, or `None` where it stands as it is.
fn escape(byte: u8) -> Option<&'static [u8]>
    ensures { MatchOption result (escaped byte ≡ byte ∷ []) (λ written. written.now ≡ escaped byte) }
{
    match byte {
        b'"' => Some(b"\\\""),
        b'\\' => Some(b"\\\\"),
        b'\n' => Some(b"\\n"),
        b'\r' => Some(b"\\r"),
        b'\t' => Some(b"\\t"),
        0 => Some(b"\\0"),
        _ => None,
    }
}

/// The bytes in front that stand as they are, how the byte behind them is written, and what stands
/// behind that one; `None` where all stand as they are.
fn around_escape(bytes: &[u8]) -> Option<(&[u8], &'static [u8], &[u8])>
    ensures parts { MatchOption result (escaped_all bytes.now ≡ bytes.now)
        (λ parts. escaped_all bytes.now ≡ parts.0.now ++ parts.1.now ++ escaped_all parts.2.now) }
    ensures shorter { IfSome result (λ parts. length parts.2.now < length bytes.now) }
{
    for (at, byte) in bytes.iter().enumerate() {
        if let Some(written) = escape(*byte) {
            return Some((&bytes[..at], written, &bytes[at + 1..]));
        }
    }
    None
}

/// Writes a text as it stands inside quotes, as [`put`] does.
///
/// `"`, `\`, line feed, carriage return, tab and NUL are written `\"`, `\\`, `\n`, `\r`, `\t` and
/// `\0`, and all else stands as it is.
pub fn put_escaped<W: Write>(writer: &mut Watched<W>, text: &str)
    ensures { Writes W.contents writer.old writer.new (escaped_all text.now) }
{
    let mut rest = text.as_bytes();
    'escapes: while let Some((plain, written, after)) = around_escape(rest) {
        put(writer, plain);
        put(writer, written);
        rest = after;
    }
    put(writer, rest);
}

/// Writes a text in quotes, as [`put`] does; what stands inside them is written by [`put_escaped`].
pub fn put_quoted<W: Write>(writer: &mut Watched<W>, text: &str)
    ensures { Writes W.contents writer.old writer.new (quoted text.now) }
{
    put(writer, b"\"");
    put_escaped(writer, text);
    put(writer, b"\"");
}
