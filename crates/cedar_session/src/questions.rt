// The question that a text asks.
ghost use Rattle.cedar_extensions.specs.Table.{as_table};
ghost use Rattle.cedar_parser.specs.Settings.{functions_of};
ghost use Rattle.cedar_session.specs.Asking.{AsksText};
ghost use Rattle.cedar_session.specs.Calling.{AreNamesOf};
ghost use Rattle.cedar_session.specs.Settings.{setting_with};

use crate::asked::AskedBody;
use crate::called_names::CalledNames;
use crate::given_questions::request_given;
use crate::reading::read_body;
use cedar_extensions::extensions::Extensions;
use cedar_extensions::objects::ExtensionFunctionObject;
use cedar_replies::Refusal;
use cedar_requests::Request;
use cedar_telling::request_of;
use std::alloc::Global;

/// The body of the question that a text asks, and its request. Most questions are read straight to their parts
/// (`read_question`); of any other the body is read.
///
/// It is refused as any body, and then as its request.
pub(crate) fn asked_question<F: ExtensionFunctionObject>(
    alloc: Global,
    text: &str,
    names: &mut CalledNames,
    extensions: &Extensions<'_, F>,
    depth: u32,
) -> Result<(AskedBody, Request), Refusal>
    requires { AreNamesOf (functions_of F.answers extensions.now) names.old }
    ensures called { AreNamesOf (functions_of F.answers extensions.now) names.new }
    ensures asks { AsksText (setting_with F.answers extensions.now depth) (as_table F.answers extensions.now) text.now result }
{
    extensions.names_are_defined();
    if let Some(question) = names.read_given(alloc, text, depth)? {
        let request = request_given(&question)?;
        return Ok((AskedBody::Given(question), request));
    }
    let body = read_body(alloc, text, names, extensions, depth)?;
    let request = request_of(alloc, &body, extensions, depth)?;
    Ok((AskedBody::Written(body), request))
}
