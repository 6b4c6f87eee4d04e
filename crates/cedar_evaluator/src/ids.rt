//! Ids of the policies of a `PartialResponse`, lent one after another: `ErroredIds` of those that erred, and
//! `ResidualIds` of those that are open.
ghost use Rattle.std.specs.Prelude.{◌≡◌, ◌++◌};
ghost use Rattle.cedar_evaluator.specs.Holding.{has_erred, holding_in};
ghost use Rattle.cedar_evaluator.specs.IdsLeft.{errored_ids_left, residual_ids_left};
ghost use Rattle.cedar_evaluator.specs.Residuals.{erring_ids, is_residual};
ghost use Rattle.cedar_evaluator.specs.Responses.{judged_held};
ghost use Rattle.cedar_language.specs.Answering.{ids_with};

use crate::partial_response::{ErrorState, PartialResponse};
use cedar_policy_parts::PolicyID;
use cedar_policy_parts::annotations::Annotations;
use cedar_trees::expr::Expr;
use std::rc::Rc;
use std::slice::Iter;

/// The ids of the policies of a response that erred, permits before forbids.
#[derive(Drop)]
pub struct ErroredIds<'a> {
    permits: Iter<'a, (PolicyID, (ErrorState, Rc<Annotations>))>,
    forbids: Iter<'a, (PolicyID, (ErrorState, Rc<Annotations>))>,
}

// Whether a policy erred.
fn has_erred(state: ErrorState) -> bool
    ensures { result ≡ has_erred state }
{
    match state {
        ErrorState::NoError => false,
        ErrorState::Error => true,
    }
}

impl<'a> Iterator for ErroredIds<'a> {
    type Item = &'a PolicyID;

    ghost use Rattle.std.specs.Iterator.{YieldsFirstBy, item_count};
    ghost use Rattle.cedar_evaluator.specs.IdsLeft.{errored_ids_left};

    ghost next_gives = { YieldsFirstBy (λ x. x.now) errored_ids_left };

    ghost remaining = { item_count errored_ids_left };

    fn next(&mut self) -> Option<&'a PolicyID> {
        while let Some((id, kept)) = self.permits.next() {
            if has_erred(kept.0) {
                return Some(id);
            }
        }
        while let Some((id, kept)) = self.forbids.next() {
            if has_erred(kept.0) {
                return Some(id);
            }
        }
        None
    }
}

/// The ids of the policies of a response that are open, permits before forbids.
#[derive(Drop)]
pub struct ResidualIds<'a> {
    permits: Iter<'a, (PolicyID, (Rc<Expr>, Rc<Annotations>))>,
    forbids: Iter<'a, (PolicyID, (Rc<Expr>, Rc<Annotations>))>,
}

impl<'a> Iterator for ResidualIds<'a> {
    type Item = &'a PolicyID;

    ghost use Rattle.std.specs.Iterator.{YieldsFirstBy, item_count};
    ghost use Rattle.cedar_evaluator.specs.IdsLeft.{residual_ids_left};

    ghost next_gives = { YieldsFirstBy (λ x. x.now) residual_ids_left };

    ghost remaining = { item_count residual_ids_left };

    fn next(&mut self) -> Option<&'a PolicyID> {
        if let Some((id, _)) = self.permits.next() {
            return Some(id);
        }
        let (id, _) = self.forbids.next()?;
        Some(id)
    }
}

impl PartialResponse {
    /// The ids of the policies that erred, permits before forbids, as they stand among those that aren't satisfied:
    /// none in a response without these (`Authorizer::is_authorized_without_false`), whose `errors` tell them. Takes
    /// no memory.
    pub fn definitely_errored(&self) -> ErroredIds<'_>
        ensures { errored_ids_left result ≡ erring_ids (holding_in self.now).false_permits ++ erring_ids (holding_in self.now).false_forbids }
    {
        ErroredIds {
            permits: self.false_permits.iter(),
            forbids: self.false_forbids.iter(),
        }
    }

    /// The ids of the open policies, permits before forbids. Takes no memory.
    pub fn nontrivial_residual_ids(&self) -> ResidualIds<'_>
        ensures { residual_ids_left result ≡ ids_with is_residual (judged_held (holding_in self.now)) }
    {
        ResidualIds {
            permits: self.residual_permits.iter(),
            forbids: self.residual_forbids.iter(),
        }
    }
}
