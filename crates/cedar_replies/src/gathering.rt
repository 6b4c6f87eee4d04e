// Short texts, gathered so that one put takes many of them. They stand in the caller's frame.
ghost use Rattle.std.specs.Prelude.{◌≡◌, [], ◌∷◌, ◌++◌, ℕ, List, IsTrue};
ghost use Rattle.cedar_frames.specs.Quoting.{escaped, escaped_all};
ghost use Rattle.cedar_frames.specs.Writing.{Writes};
ghost use Rattle.cedar_frames.specs.declared.watched.Watched.{Watched as Device};
ghost use Rattle.cedar_replies.specs.Gathering.{WritesAll};

use arrayvec::ArrayString;
use cedar_frames::{Watched, put, put_escaped};
use std::io::Write;

/// How many bytes are gathered at most.
pub(crate) const ROOM: usize = 256;

/// Whether a byte surely stands inside quotes as it is: those up to `"` may not, nor does `\`.
fn is_plain_byte(byte: u8) -> bool
    ensures { IsTrue result → escaped byte ≡ byte ∷ [] }
{
    byte > b'"' && byte != b'\\'
}

/// Whether a text surely does.
#[tactic(auto, using(cedar_frames::proofs::Quotes::plain_more))]
fn is_plain(text: &str) -> bool
    ensures { IsTrue result → escaped_all text.now ≡ text.now }
{
    for byte in text.as_bytes() {
        if !is_plain_byte(*byte) {
            return false;
        }
    }
    true
}

/// Puts what is gathered.
pub(crate) fn put_gathered<W: Write>(writer: &mut Watched<W>, gathered: &ArrayString<ROOM>)
    ensures { Writes W.contents writer.old writer.new gathered.now.bytes }
{
    put(writer, gathered.as_str().as_bytes());
}

/// Gathers one text more. Where it doesn't fit, what is gathered is put, and then the text.
pub(crate) fn gather<W: Write>(
    writer: &mut Watched<W>,
    gathered: &mut ArrayString<ROOM>,
    text: &str,
)
    ensures { (start : Device W) (past : List ℕ) → WritesAll W.contents start writer.old gathered.old.bytes past → WritesAll W.contents start writer.new gathered.new.bytes (past ++ text.now) }
{
    if let Err(_) = gathered.try_push_str(text) {
        put_gathered(writer, &*gathered);
        gathered.clear();
        put(writer, text.as_bytes());
    }
}

/// The same of a text as it stands inside quotes.
// Inlined, since an answer asks it for each id.
#[inline(always)]
pub(crate) fn gather_escaped<W: Write>(
    writer: &mut Watched<W>,
    gathered: &mut ArrayString<ROOM>,
    text: &str,
)
    ensures { (start : Device W) (past : List ℕ) → WritesAll W.contents start writer.old gathered.old.bytes past → WritesAll W.contents start writer.new gathered.new.bytes (past ++ escaped_all text.now) }
{
    if is_plain(text) {
        gather(writer, gathered, text);
        return;
    }
    put_gathered(writer, &*gathered);
    gathered.clear();
    put_escaped(writer, text);
}
