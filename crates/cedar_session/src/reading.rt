// Bodies of commands.
ghost use Rattle.std.specs.Prelude.{◌≡◌, IfOk, false};
ghost use Rattle.cedar_extensions.specs.Tables.{holds_unknown};
ghost use Rattle.cedar_restricted.specs.Views.{restricted_tree};
ghost use Rattle.cedar_grammar.specs.UnknownCalls.{holds_call};
ghost use Rattle.cedar_parser.specs.Settings.{functions_of};
ghost use Rattle.cedar_session.specs.Calling.{AreNamesOf};
ghost use Rattle.cedar_session.specs.TextReading.{ReadsBody};
ghost use Rattle.cedar_session.specs.Settings.{setting_with};

use crate::called_names::CalledNames;
use crate::refusals::of_body;
use cedar_extensions::extensions::Extensions;
use cedar_extensions::objects::ExtensionFunctionObject;
use cedar_grammar::texts_call_the_table;
use cedar_parser::strict::parse_restrictedexpr;
use cedar_replies::Refusal;
use cedar_restricted::restricted::RestrictedExpr;
use cedar_world::{names_are_found, texts_are_one};
use std::alloc::Global;

/// The body that a text is, where it may call the functions of the table. No `unknown` is called in it
/// where the table lacks that function. Most bodies are read straight from their text (`read_data`); the
/// parser reads the others, and finds why a text is refused. The names of the table's functions are made where they
/// aren't yet, and kept; so are names of types that the text spells, for bodies to come to share.
///
/// It is refused `Text` where the text is no expression within any nesting, and so where a slot of templates
/// stands in it; `Depth` where its nesting or the height of its tree is more than `depth`; `NotRestricted`
/// where it holds more than literals, sets, records and calls; and `Memory`.
pub fn read_body<F: ExtensionFunctionObject>(
    alloc: Global,
    text: &str,
    names: &mut CalledNames,
    extensions: &Extensions<'_, F>,
    depth: u32,
) -> Result<RestrictedExpr, Refusal>
    requires { AreNamesOf (functions_of F.answers extensions.now) names.old }
    ensures called { AreNamesOf (functions_of F.answers extensions.now) names.new }
    ensures body { ReadsBody (setting_with F.answers extensions.now depth) text.now result }
    ensures calls { IfOk result (λ body. holds_unknown extensions.now ≡ false → holds_call (restricted_tree body) ≡ false) }
{
    // These run no code: their contracts are laws of texts and names.
    texts_are_one();
    names_are_found();
    texts_call_the_table();

    names.make_for_bodies(alloc, extensions)?;
    let found = names.read_plain(alloc, text, depth)?;
    if let Some(body) = found {
        return Ok(body);
    }
    match parse_restrictedexpr(alloc, text, names.for_bodies(), depth) {
        Ok(body) => Ok(body),
        Err(error) => Err(of_body(&error)),
    }
}
