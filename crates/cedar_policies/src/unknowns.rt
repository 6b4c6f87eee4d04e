// The entities that aren't known yet.
ghost use Rattle.std.specs.Prelude.{◌≡◌, true, false, None, IfOk, IfSome, OnOk, option_map};
ghost use Rattle.std.specs.BTreeSet.{contains};
ghost use Rattle.cedar_language.specs.Order.{uid_cmp};
ghost use Rattle.cedar_language.specs.Uid.{Uid};
ghost use Rattle.cedar_grammar.specs.Policy.{condition};
ghost use Rattle.cedar_literals.specs.Types.{value_type_of};
ghost use Rattle.cedar_trees.specs.Bare.{bare};
ghost use Rattle.cedar_trees.specs.Unknowns.{unknown_name, unknown_type};
ghost use Rattle.cedar_policies.specs.Policies.{policy_syntax};
ghost use Rattle.cedar_policies.specs.Unknowns.{IsWrittenUid, is_memory, is_of_entities, stands_for, stands_for_found, is_unknown_entity};

use crate::policies::Policy;
use cedar_literals::types::Type;
use cedar_literals::uids::EntityUID;
use cedar_names::errors::ParseNameError;
use cedar_names::reading::FromNormalizedStr;
use cedar_shapes::readers::ExprReaders;
use cedar_trees::expr::Expr;
use cedar_trees::unknowns::Unknown;
use std::alloc::{AllocError, Global};
use std::collections::BTreeSet;

impl Policy {
    /// The entities that unknowns of its condition stand for: an unknown whose type is one of entities,
    /// and whose name is a uid as it is printed, stands for the entity of this uid. Refused for memory
    /// alone.
    pub fn unknown_entities(&self, alloc: Global) -> Result<BTreeSet<EntityUID>, AllocError>
        ensures stand { IfOk result (λ uids. (u : Uid) → IsWrittenUid u → contains uid_cmp uids u ≡ is_unknown_entity (condition (policy_syntax self.now)) u) }
        ensures written { IfOk result (λ uids. (u : Uid) → contains uid_cmp uids u ≡ true → IsWrittenUid u) }
    {
        let condition = self.condition(alloc)?;
        gather_entities(alloc, &condition)
    }
}

fn gather_entities(alloc: Global, expr: &Expr) -> Result<BTreeSet<EntityUID>, AllocError>
    ensures stand { IfOk result (λ uids. (u : Uid) → IsWrittenUid u → contains uid_cmp uids u ≡ is_unknown_entity (bare expr.now) u) }
    ensures written { IfOk result (λ uids. (u : Uid) → contains uid_cmp uids u ≡ true → IsWrittenUid u) }
{
    let mut uids = BTreeSet::new(alloc);
    for unknown in expr.unknowns(alloc)? {
        if let Some(uid) = named_entity(alloc, unknown)? {
            uids.insert(uid)?;
        }
    }
    Ok(uids)
}

// The entity that the unknown stands for, if it does.
#[tactic(auto, using(crate::proofs::Standing::no_entities))]
fn named_entity(alloc: Global, unknown: &Unknown) -> Result<Option<EntityUID>, AllocError>
    ensures stands { IfOk result (λ found. (u : Uid) → IsWrittenUid u → stands_for_found found u ≡ stands_for (unknown_name unknown.now, unknown_type unknown.now) u) }
    ensures written { IfOk result (λ found. IfSome found IsWrittenUid) }
{
    if !is_of_entities(&unknown.type_annotation) {
        return Ok(None);
    }
    match EntityUID::from_normalized_str(alloc, unknown.name.as_str()) {
        Ok(uid) => Ok(Some(uid)),
        Err(error) => without_memory(error),
    }
}

// Whether values of this type are entities.
fn is_of_entities(ty: &Option<Type>) -> bool
    ensures { result ≡ is_of_entities (option_map value_type_of ty.now) }
{
    matches!(ty, Some(Type::Entity { .. }))
}

// No uid, unless the reading ended for want of memory.
fn without_memory(error: ParseNameError) -> Result<Option<EntityUID>, AllocError>
    ensures none { IfOk result (λ found. found ≡ None) }
    ensures read { OnOk result (is_memory error ≡ false) }
{
    if is_memory(&error) {
        return Err(AllocError);
    }
    Ok(None)
}

// Whether it is want of memory.
fn is_memory(error: &ParseNameError) -> bool
    ensures { result ≡ is_memory error.now }
{
    matches!(error, ParseNameError::Memory(_))
}
