// Equality of contexts.
ghost use Rattle.std.specs.Prelude.{◌≡◌};
ghost use Rattle.std.specs.Rc.{rc_str_bytes};
ghost use Rattle.cedar_language.specs.Order.{same};
ghost use Rattle.cedar_language.specs.Value.{RecordOf};
ghost use Rattle.cedar_trees.specs.Bare.{bare, bare_entries, record_tree};
ghost use Rattle.cedar_values.specs.Kinds.{keys_of, values_of};
ghost use Rattle.cedar_restricted.specs.Sameness.{same_tree};
ghost use Rattle.cedar_requests.specs.Sameness.{same_entry};

use crate::contexts::Context;
use cedar_shapes::shapes::ExprShape;
use cedar_trees::expr::Expr;
use cedar_values::values::Value;
use std::collections::BTreeMap;
use std::rc::RcStr;

impl PartialEq for Context {
    ghost use Rattle.cedar_requests.specs.Sameness.{same_context, same_context_partial};

    ghost eq = { same_context };

    ghost laws = { same_context_partial };

    /// Whether both are the record of the same values, or the same is left of both; places don't count.
    /// Takes no memory.
    fn eq(&self, other: &Context) -> bool {
        match (self, other) {
            (Context::Value(a), Context::Value(b)) => are_same_values(a, b),
            (Context::RestrictedResidual(a), Context::RestrictedResidual(b)) => {
                are_same_exprs(a.entries(), b.entries())
            }
            _ => false,
        }
    }
}

impl Eq for Context {
    ghost use Rattle.cedar_requests.specs.Sameness.{same_context_equiv};

    ghost laws = { same_context_equiv };
}

// Whether the records of these values are one.
fn are_same_values(a: &BTreeMap<RcStr, Value>, b: &BTreeMap<RcStr, Value>) -> bool
    ensures { result ≡ same (RecordOf (keys_of a.now.entries) (values_of a.now.entries)) (RecordOf (keys_of b.now.entries) (values_of b.now.entries)) }
{
    a == b
}

// Whether the records of these expressions are one.
fn are_same_exprs(a: &BTreeMap<RcStr, Expr>, b: &BTreeMap<RcStr, Expr>) -> bool
    ensures { result ≡ same_tree (record_tree (bare_entries a.now.entries)) (record_tree (bare_entries b.now.entries)) }
{
    let mut others = b.iter();
    for (key, expr) in a {
        let Some((other_key, other)) = others.next() else {
            return false;
        };
        if !is_same_entry(key, expr, other_key, other) {
            return false;
        }
    }
    others.next().is_none()
}

fn is_same_entry(key: &RcStr, expr: &Expr, other_key: &RcStr, other: &Expr) -> bool
    ensures { result ≡ same_entry (rc_str_bytes key.now, bare expr.now) (rc_str_bytes other_key.now, bare other.now) }
{
    key == other_key && expr.cmp_shape(other).is_eq()
}
