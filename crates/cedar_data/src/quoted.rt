// Strings with escapes, up to the quotes that close them.
ghost use Rattle.std.specs.Prelude.{◌≡◌, ◌≢◌, List, ℕ, IfNone, IfSome, drop, slice_index};
ghost use Rattle.std.specs.Str.{chars};
ghost use Rattle.cedar_grammar.specs.Token.{text as string_token};
ghost use Rattle.cedar_grammar.specs.Tokens.{Inside, quote};
ghost use Rattle.cedar_data.specs.Quoted.{IsInside};
ghost use Rattle.cedar_data.specs.Takes.{Takes};

use crate::texts::{byte_at, skip_blank};

/// How many bytes of what follows an opening quote stand before the one that closes the string; none where none does.
fn inside_length(text: &str) -> Option<usize>
    ensures closed { IfSome result (λ n. IsInside n text.now) }
    ensures open { IfNone result ((raw rest : List ℕ) → ¬ Inside (chars text.now) raw rest) }
{
    let mut is_escaped = false;
    for (i, byte) in text.as_bytes().iter().enumerate() {
        if is_escaped {
            if *byte == b'\n' {
                return None;
            }
            is_escaped = false;
        } else if *byte == b'"' {
            return Some(i);
        } else {
            is_escaped = *byte == b'\\';
        }
    }
    None
}

/// What stands between quotes, escapes and all, and what follows the closing one; none where the text doesn't begin with
/// a quote, or where no quote closes the string that it opens.
pub fn split_quoted(text: &str) -> Option<(&str, &str)>
    ensures taken { IfSome result (λ x. Takes (string_token (chars x.0.now)) text.now x.1.now) }
    ensures none { IfNone result (slice_index text.now 0 ≡ quote → (raw rest : List ℕ) → ¬ Inside (chars (drop 1 text.now)) raw rest) }
{
    if byte_at(text, 0) != b'"' {
        return None;
    }
    let behind = text.split_at(1).1;
    let length = inside_length(behind)?;
    let (raw, rest) = behind.split_at(length);
    Some((raw, skip_blank(rest.split_at(1).1)))
}
