//! What typing promises of questions with unknown parts: valid policies under each filling that conforms, and what is settled and
//! answered of them before. Definitions and their laws.
#![tactic(auto)]

ghost use Rattle.cedar_typed_questions.specs.Early.{ValidPoliciesSettleByType, ValidPoliciesAreAnsweredByType, ImpossiblePoliciesAreNotSatisfiedEarly};
ghost use Rattle.cedar_typed_questions.specs.Filled.{FilledPoliciesStand, FilledImpossiblesAreNeverSatisfied};

use cedar_partial_evaluation::{filled_is_meant, question_answers_are_fair, settled_is_meant};
use cedar_typing::{types_are_sound, validated_policies_err_only_by};

/// Under each filling of a question that makes a request of the schema's, a valid policy errs by `EntityDoesNotExist`,
/// `IntegerOverflow` or `FailedExtensionFunctionExecution` alone, and an impossible one isn't satisfied.
pub fn filled_policies_stand_by_type()
    ensures stand { FilledPoliciesStand }
    ensures impossible { FilledImpossiblesAreNeverSatisfied }
{
    validated_policies_err_only_by();
    types_are_sound();
}

/// What is settled of a valid condition while parts are unknown is a Boolean, or an error where one of these kinds is meant.
pub fn valid_policies_settle_by_type()
    ensures { ValidPoliciesSettleByType }
{
    validated_policies_err_only_by();
    settled_is_meant();
    filled_is_meant();
}

/// What is answered of it is a Boolean, or an error where one of these kinds is meant; and what is left of it comes to one of
/// them under the filling.
pub fn valid_policies_are_answered_by_type()
    ensures { ValidPoliciesAreAnsweredByType }
{
    validated_policies_err_only_by();
    question_answers_are_fair();
    filled_is_meant();
}

/// An impossible policy isn't satisfied early, where some filling makes a request of the schema's.
pub fn impossible_policies_are_not_satisfied_early()
    ensures { ImpossiblePoliciesAreNotSatisfiedEarly }
{
    filled_policies_stand_by_type();
    question_answers_are_fair();
    filled_is_meant();
}
