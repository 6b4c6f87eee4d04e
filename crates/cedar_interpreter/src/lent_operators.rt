// What operators give for values that are lent, where that is told without memory and is no error.
ghost use Rattle.std.specs.Prelude.{◌≡◌, ◌+ℤ◌, ◌-ℤ◌, ◌*ℤ◌, IfSome};
ghost use Rattle.std.specs.Str.{chars};
ghost use Rattle.cedar_language.specs.Facts.{Facts};
ghost use Rattle.cedar_language.specs.Operators.{applied, truth, negated, arithmetic, like_of, is_of, less_of, less_eq_of, in_of, contains_of, of_two_sets, has_member, has_all, has_some};
ghost use Rattle.cedar_language.specs.Order.{same, all_of};
ghost use Rattle.cedar_language.specs.Pattern.{matches};
ghost use Rattle.cedar_language.specs.Tree.{Long};
ghost use Rattle.cedar_language.specs.Value.{Plain, SetOf, Gives};
ghost use Rattle.cedar_literals.specs.Operators.{binary_operator_of};
ghost use Rattle.cedar_value_operators.specs.Operands.{one, two};
ghost use Rattle.cedar_operators.specs.Store.{HasFacts};
ghost use Rattle.cedar_interpreter.specs.Forms.{unary_operator};
ghost use Rattle.cedar_interpreter.specs.Glancing.{value_lent};

use crate::lent::Lent;
use crate::lent_lookups::{has_lent, is_within};
use crate::operands::UnaryOperator;
use crate::written_sets::{are_among, has_each, has_one, is_among, is_within_one};
use cedar_entities::store::Entities;
use cedar_literals::literals::{Integer, Literal};
use cedar_literals::operators::BinaryOp;
use cedar_literals::patterns::Pattern;
use cedar_literals::uids::EntityType;
use cedar_values::values::{Set, Value};

/// What `has`, `like` or `is` gives.
pub(crate) fn test_of_one(entities: &Entities, op: UnaryOperator<'_>, of: Lent<'_>) -> Option<bool>
    ensures { (facts : Facts) → HasFacts entities.now facts → IfSome result (λ b. applied facts (unary_operator op.entry) (one (value_lent of.entry)) ≡ truth b) }
{
    match op {
        UnaryOperator::Applied(_) | UnaryOperator::HasPath(_) => None,
        UnaryOperator::Has(attr) => has_lent(entities, of, attr.as_str()),
        UnaryOperator::Like(pattern) => like_lent(of, pattern),
        UnaryOperator::Is(entity_type) => is_lent(of, entity_type),
    }
}

fn like_lent(of: Lent<'_>, pattern: &Pattern) -> Option<bool>
    ensures { IfSome result (λ b. like_of pattern.now (one (value_lent of.entry)) ≡ truth b) }
{
    Some(is_match(of.text()?.as_str(), pattern))
}

fn is_match(text: &str, pattern: &Pattern) -> bool
    ensures { result ≡ matches pattern.now (chars text.now) }
{
    cedar_language::decides_matches();
    pattern.wildcard_match(text)
}

fn is_lent(of: Lent<'_>, entity_type: &EntityType) -> Option<bool>
    ensures { IfSome result (λ b. is_of entity_type.now (one (value_lent of.entry)) ≡ truth b) }
{
    Some(of.entity()?.entity_type() == entity_type)
}

/// The negative of a long, where that is a long.
#[tactic(auto, using(crate::proofs::Glanced::negative_long))]
pub(crate) fn negative_lent(of: Lent<'_>) -> Option<Integer>
    ensures { IfSome result (λ n. negated (one (value_lent of.entry)) ≡ Gives (Plain (Long n))) }
{
    of.long()?.checked_neg()
}

/// What `+`, `-` or `*` gives for two longs, where that is a long.
pub(crate) fn long_of_two(op: BinaryOp, left: Lent<'_>, right: Lent<'_>) -> Option<Integer>
    ensures { (facts : Facts) → IfSome result (λ n. applied facts (binary_operator_of op) (two (value_lent left.entry) (value_lent right.entry)) ≡ Gives (Plain (Long n))) }
{
    match op {
        BinaryOp::Add => sum_lent(left, right),
        BinaryOp::Sub => difference_lent(left, right),
        BinaryOp::Mul => product_lent(left, right),
        BinaryOp::Eq | BinaryOp::Less | BinaryOp::LessEq | BinaryOp::In => None,
        BinaryOp::Contains | BinaryOp::ContainsAll | BinaryOp::ContainsAny => None,
        BinaryOp::GetTag | BinaryOp::HasTag => None,
    }
}

#[tactic(auto, using(crate::proofs::Glanced::long_of_longs))]
fn sum_lent(left: Lent<'_>, right: Lent<'_>) -> Option<Integer>
    ensures { IfSome result (λ n. arithmetic (λ x y. x +ℤ y) (two (value_lent left.entry) (value_lent right.entry)) ≡ Gives (Plain (Long n))) }
{
    left.long()?.checked_add(right.long()?)
}

#[tactic(auto, using(crate::proofs::Glanced::long_of_longs))]
fn difference_lent(left: Lent<'_>, right: Lent<'_>) -> Option<Integer>
    ensures { IfSome result (λ n. arithmetic (λ x y. x -ℤ y) (two (value_lent left.entry) (value_lent right.entry)) ≡ Gives (Plain (Long n))) }
{
    left.long()?.checked_sub(right.long()?)
}

#[tactic(auto, using(crate::proofs::Glanced::long_of_longs))]
fn product_lent(left: Lent<'_>, right: Lent<'_>) -> Option<Integer>
    ensures { IfSome result (λ n. arithmetic (λ x y. x *ℤ y) (two (value_lent left.entry) (value_lent right.entry)) ≡ Gives (Plain (Long n))) }
{
    left.long()?.checked_mul(right.long()?)
}

/// What an operator of two operands gives, where that is a Boolean.
// Inlined, since most conditions ask it for each policy.
#[inline(always)]
pub(crate) fn test_of_two(
    entities: &Entities,
    op: BinaryOp,
    left: Lent<'_>,
    right: Lent<'_>,
) -> Option<bool>
    ensures { (facts : Facts) → HasFacts entities.now facts → IfSome result (λ b. applied facts (binary_operator_of op) (two (value_lent left.entry) (value_lent right.entry)) ≡ truth b) }
{
    match op {
        BinaryOp::Eq => equal_lent(left, right),
        BinaryOp::Less => less_lent(left, right),
        BinaryOp::LessEq => less_eq_lent(left, right),
        BinaryOp::In => in_lent(entities, left, right),
        BinaryOp::Contains => contains_lent(left, right),
        BinaryOp::ContainsAll => contains_all_lent(left, right),
        BinaryOp::ContainsAny => contains_any_lent(left, right),
        BinaryOp::Add | BinaryOp::Sub | BinaryOp::Mul => None,
        BinaryOp::GetTag | BinaryOp::HasTag => None,
    }
}

// Whether both are one; not told of two that differ in kind.
#[tactic(auto, using(crate::proofs::Glanced::texts_tie, crate::proofs::Glanced::uids_tie))]
fn equal_lent(left: Lent<'_>, right: Lent<'_>) -> Option<bool>
    ensures { IfSome result (λ b. same (value_lent left.entry) (value_lent right.entry) ≡ b) }
{
    match left {
        Lent::Bool(x) => Some(x == right.truth()?),
        Lent::Long(x) => Some(x == right.long()?),
        Lent::Text(x) => Some(*x == *right.text()?),
        Lent::Entity(x) => Some(**x == **right.entity()?),
        Lent::Held(x) => Some(*x == *right.held()?),
        Lent::Written(_) => None,
    }
}

fn less_lent(left: Lent<'_>, right: Lent<'_>) -> Option<bool>
    ensures { IfSome result (λ b. less_of (two (value_lent left.entry) (value_lent right.entry)) ≡ truth b) }
{
    Some(left.long()? < right.long()?)
}

fn less_eq_lent(left: Lent<'_>, right: Lent<'_>) -> Option<bool>
    ensures { IfSome result (λ b. less_eq_of (two (value_lent left.entry) (value_lent right.entry)) ≡ truth b) }
{
    Some(left.long()? <= right.long()?)
}

// Whether an entity is another one, or one of a written set, or below it.
#[tactic(auto, using(crate::proofs::Written::in_entity))]
fn in_lent(entities: &Entities, left: Lent<'_>, right: Lent<'_>) -> Option<bool>
    ensures { (facts : Facts) → HasFacts entities.now facts → IfSome result (λ b. in_of facts (two (value_lent left.entry) (value_lent right.entry)) ≡ truth b) }
{
    let uid = left.entity()?;
    match right {
        Lent::Written(literals) => is_within_one(entities, uid, literals),
        _ => Some(is_within(entities, uid, right.entity()?)),
    }
}

// Whether a set has a member.
#[tactic(auto, using(crate::proofs::Written::contains_written, crate::proofs::Written::contains_held))]
fn contains_lent(set: Lent<'_>, member: Lent<'_>) -> Option<bool>
    ensures { IfSome result (λ b. contains_of (two (value_lent set.entry) (value_lent member.entry)) ≡ truth b) }
{
    // This law, as those below, runs no code: a written set has the members that are written.
    cedar_language::sets_are_finite();
    match set {
        Lent::Written(literals) => is_among(literals, member),
        _ => is_member(set.set()?, member),
    }
}

// Whether a set has all members of another; not told where both are written.
#[tactic(auto, using(crate::proofs::Written::with_held))]
fn contains_all_lent(left: Lent<'_>, right: Lent<'_>) -> Option<bool>
    ensures { IfSome result (λ b. of_two_sets has_all (two (value_lent left.entry) (value_lent right.entry)) ≡ truth b) }
{
    cedar_language::sets_are_finite();
    match right {
        Lent::Written(literals) => has_each(left.set()?, literals),
        _ => contains_all_held(left, right.set()?),
    }
}

#[tactic(auto, using(crate::proofs::Written::both_held))]
fn contains_all_held(set: Lent<'_>, members: &Set) -> Option<bool>
    ensures { IfSome result (λ b. of_two_sets has_all (two (value_lent set.entry) (SetOf (all_of members.now))) ≡ truth b) }
{
    cedar_language::sets_are_finite();
    match set {
        Lent::Written(literals) => are_among(literals, members.authoritative()),
        _ => Some(members.is_subset(set.set()?)),
    }
}

// Whether a set has some member of another; not told where both are written.
#[tactic(auto, using(crate::proofs::Written::with_held))]
fn contains_any_lent(left: Lent<'_>, right: Lent<'_>) -> Option<bool>
    ensures { IfSome result (λ b. of_two_sets has_some (two (value_lent left.entry) (value_lent right.entry)) ≡ truth b) }
{
    cedar_language::sets_are_finite();
    match right {
        Lent::Written(literals) => has_one(left.set()?, literals),
        _ => contains_any_held(left, right.set()?),
    }
}

#[tactic(auto, using(crate::proofs::Written::both_held, crate::proofs::Written::not_apart))]
fn contains_any_held(set: Lent<'_>, others: &Set) -> Option<bool>
    ensures { IfSome result (λ b. of_two_sets has_some (two (value_lent set.entry) (SetOf (all_of others.now))) ≡ truth b) }
{
    cedar_language::sets_are_finite();
    match set {
        Lent::Written(literals) => has_one(others, literals),
        _ => Some(!others.is_disjoint(set.set()?)),
    }
}

/// Whether a value is a member of a set.
pub(crate) fn is_member(members: &Set, member: Lent<'_>) -> Option<bool>
    ensures { IfSome result (λ b. has_member (all_of members.now) (value_lent member.entry) ≡ b) }
{
    match member {
        Lent::Bool(b) => Some(members.contains(&Value::from(Literal::Bool(b)))),
        Lent::Long(n) => Some(members.contains(&Value::from(Literal::Long(n)))),
        Lent::Text(text) => match text.clone() {
            Ok(text) => Some(members.contains(&Value::from(Literal::String(text)))),
            Err(_) => None,
        },
        Lent::Entity(uid) => match uid.clone() {
            Ok(uid) => Some(members.contains(&Value::from(Literal::EntityUID(uid)))),
            Err(_) => None,
        },
        Lent::Held(value) => Some(members.contains(value)),
        Lent::Written(_) => None,
    }
}
