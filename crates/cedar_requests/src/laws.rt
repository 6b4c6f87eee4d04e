// Laws of contexts, as contracts of functions that do nothing.
ghost use Rattle.cedar_requests.specs.Sameness.{ContextsAreTheirParts};
ghost use Rattle.cedar_requests.specs.ToldContexts.{ToldContextsAreEvaluated, ToldContextsStay};

use cedar_restricted::partial_value_laws::written_values_are_restricted;

/// `==` holds of contexts exactly where they hold the same values, or where the same is left of them; no
/// place counts.
pub fn equality_is_sameness()
    ensures { ContextsAreTheirParts }
{}

/// A context that waits is, once values are told, what partial evaluation of its tree answers where these
/// values are held.
pub fn told_contexts_are_evaluated()
    ensures { ToldContextsAreEvaluated }
{
    cedar_language::sets_are_finite();
    written_values_are_restricted();
}

/// A context that a record of data was evaluated to is, once values are told, what the record is evaluated to
/// where these are held; memory and depth aside, it errs exactly where some part of the record does, all of
/// whose names are told.
pub fn told_contexts_stay()
    ensures { ToldContextsStay }
{
    cedar_partial_evaluation::contexts_stay();
    cedar_partial_evaluation::leaves_dont_matter();
    cedar_partial_evaluation::data_errs_in_parts();
    told_contexts_are_evaluated();
}
