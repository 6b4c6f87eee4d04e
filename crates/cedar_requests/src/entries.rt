// Principals, actions and resources of requests.
ghost use Rattle.std.specs.Prelude.{◌≡◌, IfOk, Some, None};
ghost use Rattle.std.specs.Option.{option_copied};
ghost use Rattle.cedar_literals.specs.Variables.{variable_of, variable_text};
ghost use Rattle.cedar_partial_evaluation.specs.Question.{Given, Missing, entity_type, part_held};
ghost use Rattle.cedar_trees.specs.Unknowns.{unknown_name, unknown_type};
ghost use Rattle.cedar_restricted.specs.PartialValues.{partial_of};
ghost use Rattle.cedar_restricted_evaluation.specs.Evaluations.{part_answer};
ghost use Rattle.cedar_requests.specs.Parts.{part_of, entry_place, uid_given, type_stated};

use cedar_literals::literals::Literal;
use cedar_literals::types::Type;
use cedar_literals::uids::{EntityType, EntityUID};
use cedar_literals::variables::Var;
use cedar_names::places::Loc;
use cedar_restricted::partial_values::PartialValue;
use cedar_trees::unknowns::Unknown;
use cedar_values::values::{Value, ValueKind};
use std::alloc::{AllocError, Global};
use std::rc::{Rc, RcStr};

/// A principal, an action or a resource of a request: given by its uid, or not known yet. Contracts see it
/// by `part_of`. (Cedar language reference, "Request".)
#[derive(Debug)]
pub enum EntityUIDEntry {
    /// It is given.
    Known {
        /// Its uid.
        euid: Rc<EntityUID>,
        /// Where it was read, if it was.
        loc: Option<Loc>,
    },
    /// It isn't known yet.
    Unknown {
        /// Its type, where that is known.
        ty: Option<EntityType>,
        /// Where it was read, if it was.
        loc: Option<Loc>,
    },
}

// By hand, so that letting go of one is a call, whichever it is.
impl Drop for EntityUIDEntry {
    fn drop(self) {
        match self {
            EntityUIDEntry::Known { euid: _, loc: _ } => {}
            EntityUIDEntry::Unknown { ty: _, loc: _ } => {}
        }
    }
}

impl EntityUIDEntry {
    /// The entity of this uid, read at `loc`; refused for memory alone.
    pub fn known(
        alloc: Global,
        euid: EntityUID,
        loc: Option<Loc>,
    ) -> Result<EntityUIDEntry, AllocError>
        ensures entity { IfOk result (λ entry. part_of entry ≡ Given euid) }
        ensures place { IfOk result (λ entry. entry_place entry ≡ loc) }
    {
        Ok(EntityUIDEntry::Known {
            euid: Rc::new(alloc, euid)?,
            loc,
        })
    }

    /// An entity of which nothing is known.
    pub fn unknown() -> EntityUIDEntry
        ensures { part_of result ≡ Missing None }
    {
        EntityUIDEntry::Unknown {
            ty: None,
            loc: None,
        }
    }

    /// An entity of which the type alone is known, read at `loc`.
    pub fn unknown_with_type(ty: EntityType, loc: Option<Loc>) -> EntityUIDEntry
        ensures entity { part_of result ≡ Missing (Some ty) }
        ensures place { entry_place result ≡ loc }
    {
        EntityUIDEntry::Unknown { ty: Some(ty), loc }
    }

    /// Its uid, where it is given.
    pub fn uid(&self) -> Option<&EntityUID>
        ensures { option_copied result ≡ uid_given (part_of self.now) }
    {
        match self {
            EntityUIDEntry::Known { euid, loc: _ } => Some(euid),
            EntityUIDEntry::Unknown { ty: _, loc: _ } => None,
        }
    }

    /// The type of the uid that is given, or the type that is stated of one that isn't known.
    pub fn get_type(&self) -> Option<&EntityType>
        ensures { option_copied result ≡ type_stated (part_of self.now) }
    {
        match self {
            EntityUIDEntry::Known { euid, loc: _ } => Some(euid.entity_type()),
            EntityUIDEntry::Unknown { ty, loc: _ } => ty.as_ref(),
        }
    }

    /// What the variable `var` is evaluated to where this stands for it: the entity, or the unknown that
    /// is named as the variable, of the type that is stated. It has the entry's place, of which no
    /// contract speaks. Refused for memory alone. (Cedar language reference, "Partial evaluation".)
    pub fn evaluate(&self, alloc: Global, var: Var) -> Result<PartialValue, AllocError>
        ensures { IfOk result (λ found. part_answer (partial_of found) ≡
            part_held (part_of self.now) None (variable_text (variable_of var))) }
    {
        match self {
            EntityUIDEntry::Known { euid, loc } => {
                let kind = ValueKind::Lit(Literal::from(euid.clone()?));
                Ok(PartialValue::from(Value::new(kind, loc.clone()?)))
            }
            EntityUIDEntry::Unknown { ty, loc } => {
                let unknown = unknown_named(alloc, var, ty.as_ref())?;
                Ok(PartialValue::unknown(unknown).with_maybe_source_loc(loc.clone()?))
            }
        }
    }

    /// A copy that shares the uid; refused for memory alone.
    pub fn clone(&self, alloc: Global) -> Result<EntityUIDEntry, AllocError>
        ensures entity { IfOk result (λ copy. part_of copy ≡ part_of self.now) }
        ensures place { IfOk result (λ copy. entry_place copy ≡ entry_place self.now) }
    {
        match self {
            EntityUIDEntry::Known { euid, loc } => Ok(EntityUIDEntry::Known {
                euid: euid.clone()?,
                loc: loc.clone()?,
            }),
            EntityUIDEntry::Unknown { ty: None, loc } => Ok(EntityUIDEntry::Unknown {
                ty: None,
                loc: loc.clone()?,
            }),
            EntityUIDEntry::Unknown { ty: Some(ty), loc } => Ok(EntityUIDEntry::Unknown {
                ty: Some(ty.clone(alloc)?),
                loc: loc.clone()?,
            }),
        }
    }
}

// The unknown that is named as the variable, of this type of entities where one is stated.
fn unknown_named(alloc: Global, var: Var, ty: Option<&EntityType>) -> Result<Unknown, AllocError>
    ensures name { IfOk result (λ unknown. unknown_name unknown ≡ variable_text (variable_of var)) }
    ensures ty { IfOk result (λ unknown. unknown_type unknown ≡ entity_type (option_copied ty.entry)) }
{
    let name = RcStr::from_string(var.to_string(alloc)?)?;
    match ty {
        None => Ok(Unknown::new_untyped(name)),
        Some(ty) => {
            let ty = Type::Entity {
                ty: ty.clone(alloc)?,
            };
            Ok(Unknown::new_with_type(name, ty))
        }
    }
}
