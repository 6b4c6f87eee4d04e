// Text to a slice of the caller's.
ghost use Rattle.std.specs.Prelude.{◌≡◌, ◌↔◌, ◌≤◌, ◌++◌, IsTrue, IsFalse, length, drop};

/// Writes a text to the front of a slice, and answers whether the slice has room for it.
pub(crate) fn copy_out(text: &[u8], output: &mut [u8]) -> bool
    ensures room { IsTrue result ↔ (length text.now ≤ length output.old) }
    ensures copied { IsTrue result → output.new ≡ text.now ++ drop (length text.now) output.old }
    ensures unwritten { IsFalse result → output.new ≡ output.old }
{
    if output.len() < text.len() {
        return false;
    }
    output[..text.len()].copy_from_slice(text);
    true
}
