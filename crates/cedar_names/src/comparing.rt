// Texts compared. Names and ids are short, and these are quicker there than std's `==` and `cmp`, which read
// words.
ghost use Rattle.std.specs.Prelude.{◌≡◌};
ghost use Rattle.cedar_language.specs.Order.{same_text, text_cmp};

use std::cmp::Ordering;

/// The greatest number of bytes that are compared one after another.
const SHORT: usize = 32;

/// Whether two texts are the same.
pub fn is_same(left: &str, right: &str) -> bool
    ensures { result ≡ same_text left.now right.now }
{
    let (bytes, others) = (left.as_bytes(), right.as_bytes());
    let len = bytes.len();
    if len != others.len() {
        return false;
    }
    if len > SHORT {
        return left == right;
    }
    for at in 0..len {
        if bytes[at] != others[at] {
            return false;
        }
    }
    true
}

/// The order of two texts, by their bytes.
pub fn compare(left: &str, right: &str) -> Ordering
    ensures { result ≡ text_cmp left.now right.now }
{
    let (bytes, others) = (left.as_bytes(), right.as_bytes());
    let both = bytes.len().min(others.len());
    for at in 0..both.min(SHORT) {
        if bytes[at] != others[at] {
            return bytes[at].cmp(&others[at]);
        }
    }
    if both > SHORT {
        return left.cmp(right);
    }
    bytes.len().cmp(&others.len())
}
