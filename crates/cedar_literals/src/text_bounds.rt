// The bound on the elements of a text.
ghost use Rattle.std.specs.Prelude.{◌≡◌};
ghost use Rattle.cedar_literals.specs.TextBounds as texts;

/// How many elements may be printed after one more.
pub fn one_less(left: Option<usize>) -> Option<usize>
    ensures { result ≡ texts.one_less left }
{
    match left {
        Some(left) => Some(left.saturating_sub(1)),
        None => None,
    }
}
