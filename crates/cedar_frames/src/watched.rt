// A reader or a writer, and what became of its calls.
ghost use Rattle.std.specs.Prelude.{◌≡◌, [], ◌≤◌, ◌<◌, ℕ, List, false, length, take, is_err, ◌&&◌, ◌||◌, IfOk, OnErr};
ghost use Rattle.std.specs.Io.{ReadsAtMost, WritesAtMost};
ghost use Rattle.std.specs.Io.KnownBytes.{Keeps, ReadConsumes, WriteAppends};
ghost use Rattle.cedar_frames.specs.Reading.{Reads, IsReadOut};
ghost use Rattle.cedar_frames.specs.Ahead.{Shows};
ghost use Rattle.cedar_frames.specs.declared.watched.Watched.{Watched as Watch};
ghost use Rattle.cedar_frames.specs.Watching.{watched_inner, watched_failed, watched_late, watched_unsent, write_fails, writes_some};

use crate::looking::copy_ahead;
use crate::reading::ReadFailed;
use std::io;
use std::io::{BufRead, Read, Write};

/// What became of a device's calls.
#[derive(Clone, Copy, Debug)]
enum Calls {
    /// None has failed.
    Sound,
    /// One failed, and none was made behind it.
    Failed,
    /// One failed, and another was made behind it.
    Late,
}

/// A device that passes calls on, and keeps for good whether one of them failed.
///
/// A call fails that answers an error, also one that was interrupted, and so does a write that
/// takes nothing of a slice that isn't empty.
#[derive(Debug, Drop)]
pub struct Watched<D> {
    inner: D,
    calls: Calls,
    // Whether something was written behind the last flush that didn't fail.
    unsent: bool,
}

impl<D> Watched<D> {
    /// A device of which no call has failed yet, and to which nothing was written.
    pub fn new(inner: D) -> Watched<D>
        ensures inner { watched_inner result ≡ inner }
        ensures failed { watched_failed result ≡ false }
        ensures late { watched_late result ≡ false }
        ensures unsent { watched_unsent result ≡ false }
    {
        Watched {
            inner,
            calls: Calls::Sound,
            unsent: false,
        }
    }

    /// Whether a call has failed.
    pub fn failed(&self) -> bool
        ensures { result ≡ watched_failed self.now }
    {
        !matches!(self.calls, Calls::Sound)
    }

    /// Keeps in mind a call, and whether it failed.
    fn note(&mut self, fails: bool)
        ensures inner { watched_inner self.new ≡ watched_inner self.old }
        ensures failed { watched_failed self.new ≡ (fails || watched_failed self.old) }
        ensures late { watched_late self.new ≡ watched_failed self.old }
        ensures unsent { watched_unsent self.new ≡ watched_unsent self.old }
    {
        self.calls = if self.failed() {
            Calls::Late
        } else if fails {
            Calls::Failed
        } else {
            Calls::Sound
        };
    }
}

impl<R: Read> Read for Watched<R> {
    ghost remaining = { λ w. R.remaining (watched_inner w) };

    fn read(&mut self, buf: &mut [u8]) -> io::Result<usize>
        ensures bound { ReadsAtMost result buf.new }
        ensures bytes { ReadConsumes (R.remaining (watched_inner self.old))
            (R.remaining (watched_inner self.new)) result buf.new }
        ensures failed { watched_failed self.new ≡ (is_err result || watched_failed self.old) }
        ensures late { watched_late self.new ≡ watched_failed self.old }
        ensures unsent { watched_unsent self.new ≡ watched_unsent self.old }
    {
        let outcome = self.inner.read(buf);
        self.note(outcome.is_err());
        outcome
    }
}

impl<R: BufRead> Watched<R> {
    /// Copies the bytes that were read ahead, as many as there is room for, and says how many: none only at the end of
    /// the input, or without room. Where none was read ahead more is read first. None is consumed.
    ///
    /// An error is answered only where the reader has failed.
    pub fn peek(&mut self, buf: &mut [u8]) -> Result<usize, ReadFailed>
        ensures within { IfOk result (λ count. count ≤ length buf.new) }
        ensures ahead { IfOk result (λ count. Shows R.remaining R.consumable_len self.old self.new (take count buf.new)) }
        ensures end { IfOk result (λ count. count ≡ 0 → 0 < length buf.new → IsReadOut R.remaining self.old) }
        ensures err { OnErr result (Reads R.remaining self.old self.new []) }
        ensures failed { watched_failed self.new ≡ (is_err result || watched_failed self.old) }
        ensures late { watched_late self.new ≡ watched_failed self.old }
        ensures unsent { watched_unsent self.new ≡ watched_unsent self.old }
    {
        let outcome = copy_ahead(&mut self.inner, buf);
        self.note(outcome.is_err());
        outcome
    }

    /// Consumes so many of the bytes that were read ahead. None is read, and no call is made that may fail.
    pub fn consume(&mut self, amount: usize)
        ensures bytes { (before : Watch R) (ahead : List ℕ) → Shows R.remaining R.consumable_len before self.old ahead
            → amount ≤ length ahead → Reads R.remaining before self.new (take amount ahead) }
        ensures failed { watched_failed self.new ≡ watched_failed self.old }
        ensures late { watched_late self.new ≡ watched_late self.old }
        ensures unsent { watched_unsent self.new ≡ watched_unsent self.old }
    {
        self.inner.consume(amount);
    }
}

impl<W: Write> Write for Watched<W> {
    ghost contents = { λ w. W.contents (watched_inner w) };

    fn write(&mut self, buf: &[u8]) -> io::Result<usize>
        ensures bound { WritesAtMost result buf.now }
        ensures bytes { WriteAppends (W.contents (watched_inner self.old))
            (W.contents (watched_inner self.new)) result buf.now }
        ensures failed { watched_failed self.new
            ≡ (write_fails result (length buf.now) || watched_failed self.old) }
        ensures late { watched_late self.new ≡ watched_failed self.old }
        ensures unsent { watched_unsent self.new ≡ (writes_some result || watched_unsent self.old) }
    {
        let outcome = self.inner.write(buf);
        let fails = match outcome {
            Ok(count) => count == 0 && !buf.is_empty(),
            Err(_) => true,
        };
        self.note(fails);
        self.unsent |= matches!(outcome, Ok(count) if count > 0);
        outcome
    }

    fn flush(&mut self) -> io::Result<()>
        ensures bytes { Keeps (W.contents (watched_inner self.old)) (W.contents (watched_inner self.new)) }
        ensures failed { watched_failed self.new ≡ (is_err result || watched_failed self.old) }
        ensures late { watched_late self.new ≡ watched_failed self.old }
        ensures unsent { watched_unsent self.new ≡ (is_err result && watched_unsent self.old) }
    {
        let outcome = self.inner.flush();
        self.note(outcome.is_err());
        self.unsent &= outcome.is_err();
        outcome
    }
}
