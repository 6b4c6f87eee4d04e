// Policies and templates that aren't what they should be.
ghost use Rattle.std.specs.Prelude.{◌≡◌, IfOk};
ghost use Rattle.cedar_policy_parts.specs.Actions.{uids_refused};

use crate::actions::cloned;
use cedar_literals::slots::Slot;
use cedar_literals::uids::EntityUID;
use cedar_trees::unknowns::NonEmpty;
use std::alloc::{AllocError, Global};
use std::error::Error;
use std::fmt;
use std::rc::Rc;
use thiserror::Error;

/// A scope names entities as actions that are none.
#[derive(Debug, PartialEq, Eq, Drop)]
pub struct InvalidActionType {
    /// Those whose type's last identifier isn't `Action`.
    pub euids: NonEmpty<Rc<EntityUID>>,
}

impl InvalidActionType {
    /// A copy that shares the uids; refused for memory alone.
    pub fn clone(&self, alloc: Global) -> Result<InvalidActionType, AllocError>
        ensures { IfOk result (λ copy. uids_refused copy ≡ uids_refused self.now) }
    {
        let euids = NonEmpty {
            head: self.euids.head.clone()?,
            tail: cloned(alloc, &self.euids.tail)?,
        };
        Ok(InvalidActionType { euids })
    }
}

impl fmt::Display for InvalidActionType {
    fn fmt<W: fmt::Write>(&self, f: &mut fmt::Formatter<W>) -> fmt::Result {
        let first = &self.euids.head;
        match self.euids.tail.split_last() {
            None => write!(
                f,
                "expected an entity uid with type `Action` but got `{first}`"
            ),
            Some((last, between)) => {
                write!(
                    f,
                    "expected entity uids with type `Action` but got `{first}`"
                )?;
                for euid in between {
                    write!(f, ", `{euid}`")?;
                }
                write!(f, " and `{last}`")
            }
        }
    }
}

impl Error for InvalidActionType {}

/// A slot stands in a clause. It may, so nothing tells this; callers may match on it still.
#[derive(Debug, PartialEq, Eq, Clone, Drop, Error)]
#[error("found template slot {} in a `{clause_type}` clause", .slot.id)]
pub struct SlotsInConditionClause {
    /// The slot.
    pub slot: Slot,
    /// How the clause begins.
    pub clause_type: &'static str,
}

/// A template stands where a static policy should.
#[derive(Debug, PartialEq, Eq, Clone, Drop, Error)]
#[error("expected a static policy, got a template containing the slot {}", .slot.id)]
pub struct ExpectedStaticPolicy {
    /// The first slot of the template.
    pub slot: Slot,
}

/// A static policy stands where a template should.
#[derive(Clone, Copy, Debug, PartialEq, Eq, Error)]
#[error("expected a template, got a static policy")]
pub struct ExpectedTemplate;
