// How deep the tokens of a text nest.
ghost use Rattle.std.specs.Prelude.{◌≡◌, ◌≤◌, ◌<◌, ◌+◌, ◌^◌, MatchOption};
ghost use Rattle.cedar_schema_text.specs.View.{kind_view};
ghost use Rattle.cedar_schema_text.specs.Gives.{left};
ghost use Rattle.cedar_schema_text.specs.Nesting.{open_behind, nesting};

use crate::reader::Reader;
use crate::tokens::{Mark, TokenKind};

/// How many braces and angle brackets are open behind a token, where so many are before it.
fn open_behind(before: usize, kind: TokenKind<'_>) -> usize
    requires { before + 1 < 2 ^ 64 }
    ensures { result ≡ open_behind before (kind_view kind.entry) }
{
    match kind {
        TokenKind::Mark(Mark::LeftBrace | Mark::LeftAngle) => before + 1,
        TokenKind::Mark(Mark::RightBrace | Mark::RightAngle) => before.saturating_sub(1),
        _ => before,
    }
}

impl<'t> Reader<'t> {
    /// Where the first bracket stands with which more than `limit` are open; none where they never are.
    pub fn place_beyond(&self, limit: usize) -> Option<usize>
        ensures { MatchOption result (nesting (left self.now 0) ≤ limit) (λ place. limit < nesting (left self.now 0)) }
    {
        let mut count = 0;
        let mut at = 0;
        'tokens: while let Some(kind) = self.kind(at) {
            count = open_behind(count, kind);
            if count > limit {
                return Some(self.place(at));
            }
            at += 1;
        }
        None
    }
}
