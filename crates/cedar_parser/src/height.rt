// How high expressions are.
ghost use Rattle.std.specs.Prelude.{◌≡◌, nat_le};
ghost use Rattle.cedar_language.specs.Height.{height};
ghost use Rattle.cedar_shapes.specs.Parts.{highest};
ghost use Rattle.cedar_shapes.specs.PartsLeft.{parts_left};
ghost use Rattle.cedar_trees.specs.Bare.{bare};

use cedar_shapes::parts::Parts;
use cedar_trees::expr::Expr;

/// Whether an expression is no higher than the limit `depth`. It takes at most `depth` nested calls,
/// however high the expression is.
#[cycle(is_low)]
pub(crate) fn is_low<T>(expr: &Expr<T>, depth: u32) -> bool
    ensures { result ≡ nat_le (height (bare expr.now)) depth }
{
    match depth.checked_sub(1) {
        None => false,
        Some(below) => are_low(Parts::of(expr), below),
    }
}

// Whether none of these parts is higher than the limit.
#[cycle(is_low)]
fn are_low<T>(parts: Parts<'_, T>, depth: u32) -> bool
    ensures { result ≡ nat_le (highest (parts_left parts.entry)) depth }
{
    for part in parts {
        if !is_low(part, depth) {
            return false;
        }
    }
    true
}
