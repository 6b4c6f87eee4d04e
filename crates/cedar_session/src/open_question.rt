// What a body tells of the open question.
ghost use Rattle.std.specs.Prelude.{◌≡◌, Some, IfOk, map};
ghost use Rattle.cedar_extensions.specs.Table.{as_table};
ghost use Rattle.cedar_grammar.specs.UnknownCalls.{holds_call};
ghost use Rattle.cedar_held.specs.Fields.{Serves};
ghost use Rattle.cedar_restricted.specs.Views.{restricted_tree};
ghost use Rattle.cedar_session.specs.Asking.{body_tree};
ghost use Rattle.cedar_telling.specs.AskedNames.{AreUntoldOf};
ghost use Rattle.cedar_telling.specs.Tells.{told_in, TellsBody};
ghost use Rattle.cedar_world.specs.Asking.{Question};
ghost use Rattle.cedar_world.specs.Bodies as world;
ghost use Rattle.cedar_world.specs.Setting.{Setting};

use crate::asked::{Asked, AskedBody};
use crate::given_questions::body_given;
use cedar_extensions::extensions::Extensions;
use cedar_extensions::objects::ExtensionFunctionObject;
use cedar_replies::Refusal;
use cedar_restricted::restricted::RestrictedExpr;
use cedar_telling::{told_by, untold_names};
use cedar_values::values::Value;
use std::alloc::{AllocError, Global};
use std::collections::BTreeMap;
use std::rc::RcStr;

/// All that is told with the values that a body tells of the open question besides; refused as `told_by` says.
pub(crate) fn told_besides<F: ExtensionFunctionObject>(
    alloc: Global,
    body: &RestrictedExpr,
    asked: &Asked,
    extensions: &Extensions<'_, F>,
    depth: u32,
) -> Result<BTreeMap<RcStr, Value>, Refusal>
    ensures { (by : Setting) (q : Question) → Serves (as_table F.answers extensions.now) by (holds_call (restricted_tree body.now)) →
        world.ask_body (body_tree asked.now.body) ≡ Some q → TellsBody by q (told_in asked.now.told.entries) depth (restricted_tree body.now) result }
{
    match &asked.body {
        AskedBody::Written(question) => {
            told_by(alloc, body, question, &asked.told, extensions, depth)
        }
        AskedBody::Given(given) => {
            let question = body_given(alloc, given)?;
            told_by(alloc, body, &question, &asked.told, extensions, depth)
        }
    }
}

/// The names for which the open question wants values that aren't told; refused for memory alone.
pub(crate) fn untold_of(alloc: Global, asked: &Asked) -> Result<Vec<&str>, AllocError>
    ensures { IfOk result (λ names. AreUntoldOf (body_tree asked.now.body) (told_in asked.now.told.entries) (map (λ n. n.now) names.items)) }
{
    match &asked.body {
        AskedBody::Written(body) => untold_names(alloc, body, &asked.told),
        AskedBody::Given(_) => Ok(Vec::new(alloc)),
    }
}
