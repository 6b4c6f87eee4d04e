//! Questions answered: what is answered by a response, once more is told too, and the laws by which what a
//! response says is a first answer to the question.
#![tactic(auto)]

mod answering;
mod listing;

ghost use Rattle.cedar_asking.specs.Laws.{StoresHaveWorldFacts, TablesServeWorlds, WorldsAreMade, ResponsesAnswerQuestions};
ghost use Rattle.cedar_asking.specs.TellLaws.{MoreIsTold, QuestionsAreKept, TellsAreAnswered, TellsAreRefused, LimitsAreOfPolicies};

pub use answering::{answer, answer_told};

/// The facts of a world are those of a whole store that shows its entities and of a table that has its
/// functions, and what it holds is made again by trees for it.
pub fn worlds_are_shown()
    ensures stores { StoresHaveWorldFacts }
    ensures tables { TablesServeWorlds }
    ensures made { WorldsAreMade }
{}

/// What is kept of the policies held, each evaluated for the request of a question, gives a first answer to
/// the question, and meets the limit only where some policy is in force and each evaluation that answers is
/// too deep.
pub fn responses_answer_questions()
    ensures { ResponsesAnswerQuestions }
{
    cedar_language::linking_keeps_height();
    cedar_grammar::linking_binds_the_condition();
    cedar_partial_evaluation::known_is_never_left();
    cedar_partial_evaluation::mentioned_is_meant();
    cedar_partial_evaluation::linking_is_writing_early();
    cedar_world::answers_stay_within();
    cedar_world::early_answers_stand();
    cedar_world::answers_are_made();
    cedar_held::worlds::policy_sets_are_worlds();
}

/// A question that was just asked is kept by its response, where no limit was met.
pub fn questions_are_kept()
    ensures { QuestionsAreKept }
{
    cedar_grammar::linking_binds_the_condition();
    cedar_partial_evaluation::linking_is_writing_early();
    cedar_world::worlds_have_facts();
    cedar_world::answers_are_made();
    cedar_held::worlds::policy_sets_are_worlds();
    cedar_world::telling::early_stays_sound();
    cedar_world::telling::first_answers_are_steady();
}

/// Values told besides others are told with them.
pub fn more_is_told()
    ensures { MoreIsTold }
{}

/// Where no limit is met, a first response that is taken up again once more is told, joined with the last
/// answer, answers its question; as the last answer, until a name is told that stands in what is left of a policy.
pub fn tells_are_answered()
    ensures { TellsAreAnswered }
{
    cedar_grammar::linking_binds_the_condition();
    cedar_partial_evaluation::answers_are_prompt();
    cedar_partial_evaluation::leaves_dont_matter();
    cedar_partial_evaluation::contexts_stay();
    cedar_partial_evaluation::what_is_left_waits();
    cedar_world::worlds_have_facts();
    cedar_world::answers_are_made();
    cedar_world::unsatisfied_say_nothing();
    cedar_held::worlds::policy_sets_are_worlds();
    cedar_requests::laws::told_contexts_are_evaluated();
    cedar_world::telling::plain_answers();
    cedar_world::telling::contexts_err_in_parts();
    cedar_world::telling::again_is_sound();
    cedar_world::telling::later_answers_stand();
}

/// Values that are of their unknowns' kinds are refused only where the question's context errs with them, or
/// names an unknown and is too high with them; and a response that is taken up again meets the limit only where
/// some policy is in force and each evaluation of what is left is too deep.
pub fn tells_are_refused()
    ensures context { TellsAreRefused }
    ensures limit { LimitsAreOfPolicies }
{
    cedar_grammar::linking_binds_the_condition();
    cedar_partial_evaluation::known_is_never_left();
    cedar_partial_evaluation::leaves_dont_matter();
    cedar_partial_evaluation::contexts_stay();
    cedar_world::answers_stay_within();
    cedar_world::worlds_have_facts();
    cedar_held::worlds::policy_sets_are_worlds();
    cedar_requests::laws::told_contexts_are_evaluated();
    cedar_restricted::partial_value_laws::written_values_are_restricted();
    cedar_world::telling::plain_answers();
    cedar_world::telling::contexts_err_in_parts();
}
