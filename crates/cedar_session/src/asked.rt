// The open question.
ghost use Rattle.std.specs.Prelude.{◌≡◌, None};
ghost use Rattle.std.specs.Option.{option_map};
ghost use Rattle.cedar_session.specs.declared.asked.Asked.{Asked as Question};

use cedar_data::GivenQuestion;
use cedar_evaluator::partial_response::PartialResponse;
use cedar_replies::Answer;
use cedar_restricted::restricted::RestrictedExpr;
use cedar_values::values::Value;
use std::collections::BTreeMap;
use std::rc::RcStr;

// The body of a question: as it is written, or its parts where all of it is given.
pub(crate) enum AskedBody {
    Written(RestrictedExpr),
    Given(GivenQuestion),
}

impl Drop for AskedBody {
    fn drop(self) {
        match self {
            AskedBody::Written(_body) => {}
            AskedBody::Given(_question) => {}
        }
    }
}

// A question that was asked, as its body states it, the first response to it, the values told since, and
// the answer that was given last.
pub(crate) struct Asked {
    pub(crate) body: AskedBody,
    pub(crate) first: PartialResponse,
    pub(crate) told: BTreeMap<RcStr, Value>,
    pub(crate) answer: Answer,
}

impl Drop for Asked {
    fn drop(self) {
        let Asked {
            body: _,
            first: _,
            told: _,
            answer: _,
        } = self;
    }
}

// Closes the open question.
pub(crate) fn close(asked: &mut Option<Asked>)
    ensures { asked.new ≡ None }
{
    *asked = None;
}

// Keeps what is told by now, and its answer.
pub(crate) fn go_on(asked: &mut Option<Asked>, told: BTreeMap<RcStr, Value>, answer: Answer)
    ensures { asked.new ≡ option_map (λ (a : Question). record a { told = told; answer = answer }) asked.old }
{
    if let Some(asked) = asked {
        asked.told = told;
        asked.answer = answer;
    }
}
