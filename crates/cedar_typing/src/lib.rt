// Types of expressions by a schema, and what a policy that has types may err by, in definitions and their laws.
#![tactic(auto)]

ghost use Rattle.cedar_language.specs.Value.{TypeError, RecordAttrDoesNotExist, EntityAttrDoesNotExist, WrongNumArguments, FailedExtensionFunctionLookup, UnlinkedSlot, NonValue};
ghost use Rattle.cedar_typing.specs.Deciding.{TypesAreDecided, ParentsAreEnough};
ghost use Rattle.cedar_typing.specs.Existing.{HeldEntitiesExist, ValidPoliciesStandOverHeld};
ghost use Rattle.cedar_typing.specs.Sameness.{TreesAreToldApart};
ghost use Rattle.cedar_typing.specs.Shows.{FaultsAreShown, ScopesNarrow};
ghost use Rattle.cedar_typing.specs.Validated.{TypesAreSound, ValidatedPoliciesErrOnlyBy, ValidPoliciesStand, NeverErrsBy, ImpossiblePoliciesAreNeverSatisfied};

use cedar_language::sets_are_finite;

/// Where facts and request conform to a schema, what has a type means a value of it, or errs by `EntityDoesNotExist`,
/// `IntegerOverflow` or `FailedExtensionFunctionExecution`.
pub fn types_are_sound()
    ensures { TypesAreSound }
{
    sets_are_finite();
}

/// A condition that is Boolean in each environment of a schema means a Boolean in each request of one, or errs by such a kind.
pub fn validated_policies_err_only_by()
    ensures { ValidatedPoliciesErrOnlyBy }
{
    sets_are_finite();
}

/// A valid policy in force errs by such a kind alone.
pub fn valid_policies_stand()
    ensures { ValidPoliciesStand }
{
    sets_are_finite();
}

/// No valid policy in force errs by a value of a wrong type, an attribute or tag that isn't there, arguments that are too many
/// or too few, a function that isn't there, a slot that isn't linked, or an unknown.
pub fn valid_policies_never_err_by()
    ensures type_error { NeverErrsBy TypeError }
    ensures record_attribute { NeverErrsBy RecordAttrDoesNotExist }
    ensures entity_attribute { NeverErrsBy EntityAttrDoesNotExist }
    ensures arguments { NeverErrsBy WrongNumArguments }
    ensures function { NeverErrsBy FailedExtensionFunctionLookup }
    ensures slot { NeverErrsBy UnlinkedSlot }
    ensures unknown { NeverErrsBy NonValue }
{
    sets_are_finite();
}

/// Where each entity is held that the tree, the request, what is held and what functions answer name, nothing errs by
/// `EntityDoesNotExist`; no types are needed.
pub fn held_entities_exist()
    ensures { HeldEntitiesExist }
{
    sets_are_finite();
}

/// There a valid policy in force errs by `IntegerOverflow` or `FailedExtensionFunctionExecution` alone.
pub fn valid_policies_stand_over_held()
    ensures { ValidPoliciesStandOverHeld }
{
    sets_are_finite();
}

/// A policy whose condition is always false by type in each environment is never satisfied.
pub fn impossible_policies_are_never_satisfied()
    ensures { ImpossiblePoliciesAreNeverSatisfied }
{
    sets_are_finite();
}

/// A value as it stands in code is of a type exactly where it passes the test.
pub fn types_are_decided()
    ensures { TypesAreDecided }
{}

/// Ancestors are of types that may stand there where each direct parent is.
pub fn parents_are_enough()
    ensures { ParentsAreEnough }
{}

/// Some fault may be told exactly where there is no type.
pub fn faults_are_shown()
    ensures { FaultsAreShown }
{}

/// Where a scope is always false by type, so is the condition, whatever its clauses are.
pub fn scopes_narrow()
    ensures { ScopesNarrow }
{}

/// The test by which capabilities are compared is equality of trees.
pub fn trees_are_told_apart()
    ensures { TreesAreToldApart }
{}
