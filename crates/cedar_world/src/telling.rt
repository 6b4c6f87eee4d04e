//! What an answer is once more is told: laws of policies that are taken up again, and of answers that are joined along tells.

ghost use Rattle.cedar_world.specs.Again.{AgainIsSound, EarlyStaysSound};
ghost use Rattle.cedar_world.specs.ContextErrors.{ContextsErrInParts};
ghost use Rattle.cedar_world.specs.Joined.{FirstAnswersAreSteady, LaterAnswersStand};
ghost use Rattle.cedar_world.specs.Lookups.{EarlyTextsFindFunctions, PoliciesInForceErrOrdinarily, FoundAnswers, AnswersErrOrdinarily};
ghost use Rattle.cedar_world.specs.PlainAnswers.{PlainAnswers};
ghost use Rattle.cedar_world.specs.Typed.{TypedQuestionsAreSharper};

// ---- evaluations

/// What is left of a tree that calls no function for an unknown calls none.
pub fn plain_answers()
    ensures { PlainAnswers }
{}

/// What is left of a tree that calls functions that are there calls such functions alone, and it errs with no failed
/// look-up of one.
pub fn found_answers()
    ensures { FoundAnswers }
{}

/// A context is refused once values are told where some part of it errs, all of whose names are told.
pub fn contexts_err_in_parts()
    ensures { ContextsErrInParts }
{
    cedar_partial_evaluation::data_errs_in_parts();
}

// ---- policies

/// How policies stand when a question is asked stays true, whatever is told later.
pub fn early_stays_sound()
    ensures { EarlyStaysSound }
{
    cedar_partial_evaluation::question_answers_are_fair();
    cedar_partial_evaluation::filled_is_meant();
    cedar_partial_evaluation::question_answers_are_prompt();
    cedar_partial_evaluation::telling_carries();
    cedar_partial_evaluation::residuals_settle();
    cedar_partial_evaluation::settling_is_one();
    cedar_partial_evaluation::names_dont_matter();
    cedar_partial_evaluation::without_unknowns();
    cedar_partial_evaluation::all_told_is_known();
}

/// No policy of a text errs with a failed look-up of a function when a body's question is asked, nor where what was left
/// of it is evaluated again, whatever is told.
pub fn early_texts_find_functions()
    ensures { EarlyTextsFindFunctions }
{
    cedar_grammar::linking_binds_the_condition();
    crate::calls_are_found();
}

/// No policy that is in force after any list of commands errs so, or, when the question is asked, with a slot that isn't
/// linked; nor does one err with such a slot later where no clause has a slot.
pub fn policies_in_force_err_ordinarily()
    ensures { PoliciesInForceErrOrdinarily }
{
    cedar_grammar::linking_binds_the_condition();
    cedar_grammar::slots_stand_in_policies();
    crate::link_laws();
    crate::calls_are_found();
}

/// What was left of policies when a question was asked, evaluated again once more is told, has them stand as their conditions do.
pub fn again_is_sound()
    ensures { AgainIsSound }
{
    cedar_grammar::linking_binds_the_condition();
    cedar_partial_evaluation::question_answers_are_fair();
    cedar_partial_evaluation::filled_is_meant();
    cedar_partial_evaluation::unbound_answers_are_fair();
    cedar_partial_evaluation::telling_carries();
    cedar_partial_evaluation::residuals_settle();
    cedar_partial_evaluation::unbound_residuals_settle();
    cedar_partial_evaluation::linking_is_writing();
    cedar_partial_evaluation::linking_is_writing_early();
    cedar_partial_evaluation::settling_is_one();
    cedar_partial_evaluation::names_dont_matter();
    cedar_partial_evaluation::without_unknowns();
    cedar_partial_evaluation::reauthorizing_is_sharp();
    cedar_partial_evaluation::errors_are_named();
    cedar_partial_evaluation::reauthorizing_is_exact();
}

// ---- answers

/// No answer names a failed look-up of a function, when a body's question is asked or once more is told; and none names a
/// slot that isn't linked when it is asked, nor later where no clause of a policy or template has a slot.
pub fn answers_err_ordinarily()
    ensures { AnswersErrOrdinarily }
{
    policies_in_force_err_ordinarily();
    crate::worlds_have_facts();
}

/// A first answer stays true, whatever is told later.
pub fn first_answers_are_steady()
    ensures { FirstAnswersAreSteady }
{}

/// What the rules say of policies that are taken up again, joined with the last answer, is the answer once more is told.
pub fn later_answers_stand()
    ensures { LaterAnswersStand }
{}

/// A question that states types of what is missing is answered at least as sharply as the one that states none.
pub fn typed_questions_are_sharper()
    ensures { TypedQuestionsAreSharper }
{
    cedar_language::rules_are_sharp();
}
