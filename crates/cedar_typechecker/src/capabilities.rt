// What a test that came out true lets an expression read.
ghost use Rattle.std.specs.Prelude.{◌≡◌, ◌++◌, IfOk};
ghost use Rattle.std.specs.Rc.{rc_str_bytes};
ghost use Rattle.cedar_trees.specs.Bare.{bare};
ghost use Rattle.cedar_typing.specs.Capabilities.{an_attribute, a_tag, same_capability, is_among, in_both};
ghost use Rattle.cedar_typing.specs.Sameness.{same_tree};
ghost use Rattle.cedar_typechecker.specs.Capabilities.{capability_view, capabilities_view};

use cedar_shapes::shapes::ExprShape;
use cedar_trees::expr::Expr;
use std::alloc::{AllocError, Global};
use std::rc::{Rc, RcStr};

/// That an expression has an attribute, or a tag by a key. (Cedar language reference, "Policy validation".)
#[derive(Drop)]
pub enum Capability {
    Attribute(Rc<Expr>, RcStr),
    Tag(Rc<Expr>, Rc<Expr>),
}

impl Capability {
    // A copy that shares the expressions.
    fn share(&self) -> Result<Capability, AllocError>
        ensures { IfOk result (λ copy. capability_view copy ≡ capability_view self.now) }
    {
        Ok(match self {
            Capability::Attribute(of, attr) => Capability::Attribute(of.clone()?, attr.clone()?),
            Capability::Tag(of, key) => Capability::Tag(of.clone()?, key.clone()?),
        })
    }

    // Whether it is that of this attribute.
    fn is_of_attribute(&self, of: &Expr, attr: &RcStr) -> bool
        ensures { result ≡ same_capability (capability_view self.now) (an_attribute (bare of.now) (rc_str_bytes attr.now)) }
    {
        match self {
            Capability::Attribute(expr, name) => same_expr(expr, of) && *name == *attr,
            Capability::Tag(_, _) => false,
        }
    }

    // Whether it is that of the tag by this key.
    fn is_of_tag(&self, of: &Expr, key: &Expr) -> bool
        ensures { result ≡ same_capability (capability_view self.now) (a_tag (bare of.now) (bare key.now)) }
    {
        match self {
            Capability::Attribute(_, _) => false,
            Capability::Tag(expr, name) => same_expr(expr, of) && same_expr(name, key),
        }
    }
}

// Whether two expressions are one, places aside.
fn same_expr(expr: &Expr, other: &Expr) -> bool
    ensures { result ≡ same_tree (bare expr.now) (bare other.now) }
{
    expr.eq_shape(other)
}

/// Whether that of an attribute is among these.
#[tactic(auto, using(crate::proofs::Among::among_here, crate::proofs::Among::among_later, crate::proofs::Among::among_none))]
pub(crate) fn has_attribute(held: &[Capability], of: &Expr, attr: &RcStr) -> bool
    ensures { result ≡ is_among (an_attribute (bare of.now) (rc_str_bytes attr.now)) (capabilities_view held.now) }
{
    for capability in held {
        if capability.is_of_attribute(of, attr) {
            return true;
        }
    }
    false
}

/// Whether that of the tag by a key is among these.
#[tactic(auto, using(crate::proofs::Among::among_here, crate::proofs::Among::among_later, crate::proofs::Among::among_none))]
pub(crate) fn has_tag(held: &[Capability], of: &Expr, key: &Expr) -> bool
    ensures { result ≡ is_among (a_tag (bare of.now) (bare key.now)) (capabilities_view held.now) }
{
    for capability in held {
        if capability.is_of_tag(of, key) {
            return true;
        }
    }
    false
}

fn contains(held: &[Capability], capability: &Capability) -> bool
    ensures { result ≡ is_among (capability_view capability.now) (capabilities_view held.now) }
{
    match capability {
        Capability::Attribute(of, attr) => has_attribute(held, of, attr),
        Capability::Tag(of, key) => has_tag(held, of, key),
    }
}

/// Those that are among the others too, in their order; refused for memory alone.
#[tactic(auto, using(crate::proofs::Among::both_kept, crate::proofs::Among::both_left, crate::proofs::Among::both_end))]
pub(crate) fn in_both(
    alloc: Global,
    capabilities: &[Capability],
    others: &[Capability],
) -> Result<Vec<Capability>, AllocError>
    ensures { IfOk result (λ both. capabilities_view both.items ≡ in_both (capabilities_view capabilities.now) (capabilities_view others.now)) }
{
    let mut both = Vec::new(alloc);
    for capability in capabilities {
        if contains(others, capability) {
            both.push(capability.share()?)?;
        }
    }
    Ok(both)
}

// These, and copies of others behind them, which share their expressions; refused for memory alone.
#[tactic(auto, using(crate::proofs::Among::copied_more, crate::proofs::Among::copied_all))]
fn with_copies(
    capabilities: Vec<Capability>,
    others: &[Capability],
) -> Result<Vec<Capability>, AllocError>
    ensures { IfOk result (λ all. capabilities_view all.items ≡ capabilities_view capabilities.items ++ capabilities_view others.now) }
{
    let mut all = capabilities;
    for capability in others {
        all.push(capability.share()?)?;
    }
    Ok(all)
}

/// Copies of capabilities, and of others behind them, which share their expressions; refused for memory alone.
pub(crate) fn joined(
    alloc: Global,
    capabilities: &[Capability],
    others: &[Capability],
) -> Result<Vec<Capability>, AllocError>
    ensures { IfOk result (λ all. capabilities_view all.items ≡ capabilities_view capabilities.now ++ capabilities_view others.now) }
{
    let all = with_copies(Vec::new(alloc), capabilities)?;
    Ok(with_copies(all, others)?)
}
