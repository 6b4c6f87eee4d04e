// The parts of two expressions, side by side.
ghost use Rattle.std.specs.Prelude.{◌≡◌, [], ◌∷◌, MatchOption};
ghost use Rattle.cedar_trees.specs.Bare.{bare};
ghost use Rattle.cedar_shapes.specs.Lists.{both};
ghost use Rattle.cedar_shapes.specs.PairsLeft.{pairs_left};
ghost use Rattle.cedar_shapes.specs.Parts.{parts};

use crate::parts::Parts;
use cedar_trees::expr::Expr;

/// Parts of two expressions, each with the one at its place, as long as both have one.
#[derive(Drop)]
pub(crate) struct Pairs<'a, T, U> {
    left: Parts<'a, T>,
    right: Parts<'a, U>,
}

impl<'a, T, U> Iterator for Pairs<'a, T, U> {
    type Item = (&'a Expr<T>, &'a Expr<U>);

    ghost use Rattle.std.specs.Iterator.{YieldsFirstBy, item_count};
    ghost use Rattle.cedar_trees.specs.Bare.{bare};
    ghost use Rattle.cedar_shapes.specs.PairsLeft.{pairs_left};

    ghost next_gives = { YieldsFirstBy (λ x. (bare x.0.now, bare x.1.now)) pairs_left };

    ghost remaining = { item_count pairs_left };

    #[tactic(auto, using(crate::proofs::Pairing::both_none))]
    fn next(&mut self) -> Option<(&'a Expr<T>, &'a Expr<U>)> {
        let left = self.left.next()?;
        let right = self.right.next()?;
        Some((left, right))
    }
}

/// The first parts of two expressions, and the pairs of those after them; none where one has no part.
pub(crate) fn split_both<'a, T, U>(
    a: &'a Expr<T>,
    b: &'a Expr<U>,
) -> Option<(&'a Expr<T>, &'a Expr<U>, Pairs<'a, T, U>)>
    ensures { MatchOption result (both (parts (bare a.now)) (parts (bare b.now)) ≡ []) (λ p. both (parts (bare a.now)) (parts (bare b.now)) ≡ (bare p.0.now, bare p.1.now) ∷ pairs_left p.2) }
{
    let mut pairs = Pairs {
        left: Parts::of(a),
        right: Parts::of(b),
    };
    let (x, y) = pairs.next()?;
    Some((x, y, pairs))
}
