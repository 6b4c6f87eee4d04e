//! Sessions that are sent commands as JSON.
//!
//! [`answer_json`] answers one command of which a text of JSON says the body (`docs/JSON.md`): the session is sent the
//! Cedar text that says the same.
#![tactic(auto)]

mod answering;
mod line_faults;
mod line_texts;
mod lines;
#[cfg(test)]
mod tests;

ghost use Rattle.cedar_language.specs.Uid.{Text};
ghost use Rattle.cedar_world.specs.Setting.{Setting};
ghost use Rattle.cedar_world.specs.World.{World};
ghost use Rattle.cedar_calls.specs.Laws.{JsonCommandsDoWhatIsSaid, JsonQuestionsAreAnswered};

pub use answering::{JsonReply, Unanswered, answer_json, answer_value};
pub use cedar_json_commands::JsonVerb;
pub use line_texts::line_text;
pub use lines::{LineReply, answer_line};

/// Whatever commands were answered before: a question of JSON that is answered, that calls no function that the session
/// doesn't know, and in which nothing is unknown is answered by what the conditions of the policies in force mean for just
/// the question that the JSON asks. (Cedar language reference, "Authorization".)
pub fn json_questions_are_answered()
    ensures { JsonQuestionsAreAnswered }
{
    cedar_world::known_questions_are_answered();
}

/// What an accepted command of JSON does is what the JSON says, where the session knows the functions that this calls: the
/// template is linked that it names, the entities are put that it lists, its question is answered.
pub fn json_commands_do_what_is_said()
    ensures { (by : Setting) (old new : World) (json text : Text) → JsonCommandsDoWhatIsSaid by old new json text }
{
    cedar_world::texts_are_one();
}
