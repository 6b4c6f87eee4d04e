// The id that a body states.
ghost use Rattle.cedar_parser.specs.Settings.{functions_of};
ghost use Rattle.cedar_session.specs.Calling.{AreNamesOf};
ghost use Rattle.cedar_session.specs.Settings.{setting_with};
ghost use Rattle.cedar_session.specs.Reading.{ReadsId};

use crate::called_names::CalledNames;
use crate::reading::read_body;
use cedar_extensions::extensions::Extensions;
use cedar_extensions::objects::ExtensionFunctionObject;
use cedar_held::string_of;
use cedar_replies::Refusal;
use std::alloc::Global;
use std::rc::RcStr;

/// The id that the body of a text states, which is a string. It is refused `Text`, `Depth`,
/// `NotRestricted`, `Shape` where the body is something else, and `Memory`.
pub(crate) fn read_id<F: ExtensionFunctionObject>(
    alloc: Global,
    text: &str,
    names: &mut CalledNames,
    extensions: &Extensions<'_, F>,
    depth: u32,
) -> Result<RcStr, Refusal>
    requires { AreNamesOf (functions_of F.answers extensions.now) names.old }
    ensures called { AreNamesOf (functions_of F.answers extensions.now) names.new }
    ensures id { ReadsId (setting_with F.answers extensions.now depth) text.now result }
{
    let body = read_body(alloc, text, names, extensions, depth)?;
    let Some(id) = string_of(body.as_ref()) else {
        return Err(Refusal::Shape);
    };
    Ok(id.clone()?)
}
