// Sets that are written as literals alone, asked as they are written: none is built.
ghost use Rattle.std.specs.Prelude.{◌≡◌, IfSome, map};
ghost use Rattle.std.specs.List.{list_any};
ghost use Rattle.std.specs.Option.{option_copied};
ghost use Rattle.cedar_grammar.specs.Build.{trees};
ghost use Rattle.cedar_language.specs.Facts.{Facts};
ghost use Rattle.cedar_language.specs.Operators.{truth, has_member, has_all, has_some, uids_in, within_members};
ghost use Rattle.cedar_language.specs.Order.{same, all_of, rising};
ghost use Rattle.cedar_language.specs.Tree.{Lit, Boolean, Long, String, Entity};
ghost use Rattle.cedar_language.specs.Value.{Plain};
ghost use Rattle.cedar_literals.specs.Literals.{literal_of};
ghost use Rattle.cedar_operators.specs.Hierarchy.{is_within_entity};
ghost use Rattle.cedar_operators.specs.Store.{HasFacts};
ghost use Rattle.cedar_trees.specs.Bare.{bare};
ghost use Rattle.cedar_trees.specs.Shapes.{are_entities};
ghost use Rattle.cedar_interpreter.specs.Glancing.{value_lent};
ghost use Rattle.cedar_interpreter.specs.Written.{is_literal, are_literals, literals_in, entities_in};

use crate::given::GivenEntity;
use crate::lent::Lent;
use crate::lent_lookups::{held, is_same_uid};
use crate::lent_operators::is_member;
use cedar_entities::store::Entities;
use cedar_literals::literals::{Integer, Literal};
use cedar_literals::uids::EntityUID;
use cedar_names::comparing::is_same;
use cedar_trees::expr::{Expr, ExprKind};
use cedar_values::values::{Set, Value};

/// The most literals that are looked through for each member of a set.
const FEW: usize = 16;

fn is_literal(expr: &Expr) -> bool
    ensures { result ≡ is_literal (bare expr.now) }
{
    match &expr.expr_kind {
        ExprKind::Lit(_) => true,
        _ => false,
    }
}

/// Whether each member is a literal; any other may err, or be what isn't known here.
pub(crate) fn are_literals(members: &[Expr]) -> bool
    ensures { result ≡ are_literals (trees (map bare members.now)) }
{
    for member in members {
        if !is_literal(member) {
            return false;
        }
    }
    true
}

fn literal_of(expr: &Expr) -> Option<&Literal>
    ensures { IfSome result (λ literal. bare expr.now ≡ Lit (literal_of literal.now)) }
{
    match &expr.expr_kind {
        ExprKind::Lit(literal) => Some(literal),
        _ => None,
    }
}

fn entity_of(expr: &Expr) -> Option<&EntityUID>
    ensures { IfSome result (λ uid. bare expr.now ≡ Lit (Entity uid.now)) }
{
    match literal_of(expr)? {
        Literal::EntityUID(uid) => Some(uid),
        Literal::Bool(_) | Literal::Long(_) | Literal::String(_) => None,
    }
}

// ---- a literal and a value

fn is_boolean(literal: &Literal, value: bool) -> bool
    ensures { same (Plain (literal_of literal.now)) (Plain (Boolean value)) ≡ result }
{
    match literal {
        Literal::Bool(written) => *written == value,
        Literal::Long(_) | Literal::String(_) | Literal::EntityUID(_) => false,
    }
}

fn is_long(literal: &Literal, value: Integer) -> bool
    ensures { same (Plain (literal_of literal.now)) (Plain (Long value)) ≡ result }
{
    match literal {
        Literal::Long(written) => *written == value,
        Literal::Bool(_) | Literal::String(_) | Literal::EntityUID(_) => false,
    }
}

#[tactic(auto, using(crate::proofs::Glanced::texts_tie))]
fn is_text(literal: &Literal, value: &str) -> bool
    ensures { same (Plain (literal_of literal.now)) (Plain (String value.now)) ≡ result }
{
    match literal {
        Literal::String(written) => is_same(written.as_str(), value),
        Literal::Bool(_) | Literal::Long(_) | Literal::EntityUID(_) => false,
    }
}

#[tactic(auto, using(crate::proofs::Glanced::uids_tie))]
fn is_entity(literal: &Literal, value: &EntityUID) -> bool
    ensures { same (Plain (literal_of literal.now)) (Plain (Entity value.now)) ≡ result }
{
    match literal {
        Literal::EntityUID(written) => is_same_uid(written, value),
        Literal::Bool(_) | Literal::Long(_) | Literal::String(_) => false,
    }
}

// Whether a value is this literal; not told of what may hold others.
fn is_value(literal: &Literal, value: Lent<'_>) -> Option<bool>
    ensures { IfSome result (λ b. same (Plain (literal_of literal.now)) (value_lent value.entry) ≡ b) }
{
    match value {
        Lent::Bool(b) => Some(is_boolean(literal, b)),
        Lent::Long(n) => Some(is_long(literal, n)),
        Lent::Text(text) => Some(is_text(literal, text.as_str())),
        Lent::Entity(uid) => Some(is_entity(literal, uid)),
        Lent::Held(_) | Lent::Written(_) => None,
    }
}

// ---- what sets are asked

/// Whether a value is one of these literals.
pub(crate) fn is_among(literals: &[Expr], value: Lent<'_>) -> Option<bool>
    ensures { IfSome result (λ b. has_member (literals_in (trees (map bare literals.now))) (value_lent value.entry) ≡ b) }
{
    for literal in literals {
        if is_value(literal_of(literal)?, value)? {
            return Some(true);
        }
    }
    Some(false)
}

/// Whether each value is one of these literals; not told where there are many.
pub(crate) fn are_among(literals: &[Expr], values: &[Value]) -> Option<bool>
    ensures { IfSome result (λ b. has_all (literals_in (trees (map bare literals.now))) (all_of values.now) ≡ b) }
{
    if literals.len() > FEW {
        return None;
    }
    for value in values {
        if !is_among(literals, Lent::of_value(value))? {
            return Some(false);
        }
    }
    Some(true)
}

/// Whether a set has each of these literals.
pub(crate) fn has_each(set: &Set, literals: &[Expr]) -> Option<bool>
    ensures { IfSome result (λ b. has_all (all_of set.now) (literals_in (trees (map bare literals.now))) ≡ b) }
{
    for literal in literals {
        if !is_member(set, Lent::of_literal(literal_of(literal)?))? {
            return Some(false);
        }
    }
    Some(true)
}

/// Whether a set has one of these literals.
pub(crate) fn has_one(set: &Set, literals: &[Expr]) -> Option<bool>
    ensures { IfSome result (λ b. has_some (all_of set.now) (literals_in (trees (map bare literals.now))) ≡ b) }
{
    for literal in literals {
        if is_member(set, Lent::of_literal(literal_of(literal)?))? {
            return Some(true);
        }
    }
    Some(false)
}

// ---- entities

// Whether each member is an entity, as `in` takes them.
fn are_entities(members: &[Expr]) -> bool
    ensures { result ≡ are_entities (trees (map bare members.now)) }
{
    for member in members {
        if !member.is_ref() {
            return false;
        }
    }
    true
}

// Whether an entity is one of these, or below one.
fn is_in_one(given: &GivenEntity<'_, '_>, entities: &[Expr]) -> Option<bool>
    ensures { IfSome result (λ b. list_any (is_within_entity given.now.uid.now (option_copied given.now.entity)) (entities_in (trees (map bare entities.now))) ≡ b) }
{
    for entity in entities {
        if given.is_in(entity_of(entity)?) {
            return Some(true);
        }
    }
    Some(false)
}

/// Whether an entity is one of these literals, or below one; told only where each is an entity.
pub(crate) fn is_within_one(entities: &Entities, uid: &EntityUID, literals: &[Expr]) -> Option<bool>
    ensures { (facts : Facts) → HasFacts entities.now facts → IfSome result (λ b. within_members facts uid.now (uids_in (rising (literals_in (trees (map bare literals.now))))) ≡ truth b) }
{
    if are_entities(literals) {
        let given = GivenEntity {
            uid,
            entity: held(entities, uid),
        };
        is_in_one(&given, literals)
    } else {
        None
    }
}
