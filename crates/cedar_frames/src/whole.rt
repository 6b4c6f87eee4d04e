// A frame that stands whole in bytes that were read ahead. It is lent, and takes no memory.
ghost use Rattle.std.specs.Prelude.{◌≡◌, ◌∷◌, ◌++◌, ◌+◌, ◌≤◌, ℕ, List, length, min, take, true, IfSome, IfNone};
ghost use Rattle.cedar_frames.specs.declared.verb.Verb.{Verb as Verbs};
ghost use Rattle.cedar_frames.specs.Frames.{IsFrame};
ghost use Rattle.cedar_frames.specs.Heads.{lacks, head_limit};

use crate::head::{HEAD_LIMIT, HeadLine, head_of};
use crate::verb::Verb;

/// A frame that stands whole at the front of bytes.
#[derive(Clone, Copy, Debug)]
pub struct WholeFrame<'a> {
    /// What its command does.
    pub verb: Verb,
    /// Its body.
    pub body: &'a [u8],
    /// What stands behind it.
    pub rest: &'a [u8],
}

/// What stands before the first line feed and what stands behind it, where a head may end there.
fn around_feed(bytes: &[u8]) -> Option<(&[u8], &[u8])>
    ensures found { IfSome result (λ parts. (bytes.now ≡ parts.0.now ++ 10 ∷ parts.1.now)
        × (lacks 10 parts.0.now ≡ true) × (length parts.0.now ≤ head_limit)) }
    ensures none { IfNone result (lacks 10 (take (min (length bytes.now) (head_limit + 1)) bytes.now) ≡ true) }
{
    let most = bytes.len().min(HEAD_LIMIT + 1);
    for at in 0..most {
        if bytes[at] == b'\n' {
            return Some((&bytes[..at], &bytes[at + 1..]));
        }
    }
    None
}

/// The frame that stands whole at the front of bytes, or `None` where none does.
///
/// `None` doesn't say whether more bytes would make one: [`next_frame`](crate::next_frame) tells a frame that goes
/// on from what is none.
pub fn whole_frame(bytes: &[u8]) -> Option<WholeFrame<'_>>
    ensures found { IfSome result (λ whole. (frame : List ℕ) × IsFrame frame whole.verb whole.body.now
        × (bytes.now ≡ frame ++ whole.rest.now)) }
    ensures none { IfNone result ((verb : Verbs) (frame body rest : List ℕ) → IsFrame frame verb body
        → bytes.now ≡ frame ++ rest → ⊥) }
{
    let Some((line, behind)) = around_feed(bytes) else {
        return None;
    };
    let (verb, size) = match head_of(line) {
        HeadLine::Bad => return None,
        HeadLine::Long => return None,
        HeadLine::Opens(verb, size) => (verb, size),
    };
    let left = behind.len();
    if left <= size {
        return None;
    }
    let last = behind[size];
    if last != b'\n' {
        return None;
    }
    Some(WholeFrame {
        verb,
        body: &behind[..size],
        rest: &behind[size + 1..],
    })
}
