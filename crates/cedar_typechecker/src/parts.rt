// The parts of an expression, one after another.
ghost use Rattle.std.specs.Prelude.{◌≡◌, map, IfOk};
ghost use Rattle.cedar_shapes.specs.Parts.{parts as parts_of};
ghost use Rattle.cedar_trees.specs.Bare.{bare};

use cedar_shapes::parts::Parts;
use cedar_trees::expr::Expr;
use std::alloc::{AllocError, Global};

/// The parts of an expression, from the left; refused for memory alone.
pub(crate) fn listed(alloc: Global, expr: &Expr) -> Result<Vec<&Expr>, AllocError>
    ensures { IfOk result (λ parts. map (λ e. bare e.now) parts.items ≡ parts_of (bare expr.now)) }
{
    let mut parts = Vec::new(alloc);
    for part in Parts::of(expr) {
        parts.push(part)?;
    }
    Ok(parts)
}
