// Operators that take sets.
ghost use Rattle.std.specs.Prelude.{◌≡◌};
ghost use Rattle.cedar_language.specs.Facts.{Facts};
ghost use Rattle.cedar_language.specs.Operators.{applied, has_some};
ghost use Rattle.cedar_language.specs.Order.{all_of};
ghost use Rattle.cedar_language.specs.Tree.{Contains, ContainsAll, ContainsAny};
ghost use Rattle.cedar_extensions.specs.Giving.{Gives};
ghost use Rattle.cedar_value_operators.specs.Operands.{two};

use crate::operands::get_as_set;
use cedar_extensions::evaluation_error::EvaluationError;
use cedar_literals::literals::Literal;
use cedar_values::values::{Set, Value};
use std::alloc::Global;

/// Whether a set has a member. (Cedar language reference, "contains() (single element set membership
/// test)".)
///
/// It errs with `TypeError` where `set` is no set, and `Memory`.
#[tactic(auto, using(crate::proofs::BySets::contains_at))]
pub fn contains(alloc: Global, set: &Value, member: &Value) -> Result<Value, EvaluationError>
    ensures { (facts : Facts) → Gives (λ v. v) ⊥ result (applied facts Contains (two set.now member.now)) }
{
    let set = get_as_set(alloc, set)?;
    Ok(Value::from(Literal::Bool(set.contains(member))))
}

/// Whether a set has all members of another. (Cedar language reference, "containsAll() (all element set
/// membership test)".)
///
/// It errs with `TypeError` where one of them is no set, `set` before `members`, and `Memory`.
#[tactic(auto, using(crate::proofs::BySets::two_sets_at))]
pub fn contains_all(alloc: Global, set: &Value, members: &Value) -> Result<Value, EvaluationError>
    ensures { (facts : Facts) → Gives (λ v. v) ⊥ result (applied facts ContainsAll (two set.now members.now)) }
{
    let set = get_as_set(alloc, set)?;
    let members = get_as_set(alloc, members)?;
    Ok(Value::from(Literal::Bool(members.is_subset(set))))
}

/// Whether a set has some member of another. (Cedar language reference, "containsAny() (any element set
/// membership test)".)
///
/// It errs with `TypeError` where one of them is no set, `set` before `members`, and `Memory`.
#[tactic(auto, using(crate::proofs::BySets::two_sets_at))]
pub fn contains_any(alloc: Global, set: &Value, members: &Value) -> Result<Value, EvaluationError>
    ensures { (facts : Facts) → Gives (λ v. v) ⊥ result (applied facts ContainsAny (two set.now members.now)) }
{
    let set = get_as_set(alloc, set)?;
    let members = get_as_set(alloc, members)?;
    Ok(Value::from(Literal::Bool(share_members(set, members))))
}

fn share_members(set: &Set, other: &Set) -> bool
    ensures { result ≡ has_some (all_of set.now) (all_of other.now) }
{
    !other.is_disjoint(set)
}
