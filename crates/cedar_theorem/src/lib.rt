//! The headline, by as few definitions as serve: what a session answers where nothing is unknown.
#![tactic(auto)]

ghost use Rattle.cedar_grammar.specs.Functions.{Functions};
ghost use Rattle.cedar_theorem.specs.Laws.{KnownQuestionsAsk, SessionsAnswerByTheRules};
ghost use Rattle.cedar_theorem.specs.Rows.{Rows};

/// Whatever commands a session was sent before: an `ask` with nothing unknown is answered `allow` exactly where some permit in
/// force is satisfied and no forbid is, and else `deny`; the reasons are the satisfied policies of the effect that decides, and each policy
/// that errs is named with its kind. What is in force and which entities are held is what the accepted commands say, by
/// their texts; a refused one changes nothing. (Cedar language reference, "Authorization".)
pub fn sessions_answer_by_the_rules()
    ensures { SessionsAnswerByTheRules }
{
    cedar_world::known_questions_are_answered();
    cedar_world::texts_are_one();
    cedar_world::edits_at_uids();
}

/// Each question that is answered and in which nothing is unknown, as `cedar_world` has it, asks as the theorem has it.
pub fn known_questions_ask()
    ensures { KnownQuestionsAsk }
{
    cedar_world::texts_are_one();
}

/// What the definitions of the theorem have of single bodies: a question with four keys, an entity with a parent that is put, added
/// or removed.
pub fn rows()
    ensures { (functions : Functions) → Rows functions }
{}
