// Policies that a session loads.
ghost use Rattle.std.specs.Prelude.{IfOk};
ghost use Rattle.cedar_parser.specs.Settings.{functions_of};
ghost use Rattle.cedar_session.specs.Calling.{AreNamesOf};
ghost use Rattle.cedar_session.specs.Settings.{setting_with};
ghost use Rattle.cedar_session.specs.PolicyReading.{CallNoUnknown, ReadsPolicies, ReadsSet};

use crate::called_names::CalledNames;
use crate::refusals::of_text;
use cedar_extensions::extensions::Extensions;
use cedar_extensions::objects::ExtensionFunctionObject;
use cedar_faults::ExtStyles;
use cedar_parser::strict::parse_policyset_strict;
use cedar_policy_set::sets::PolicySet;
use cedar_replies::Refusal;
use cedar_world::calls_are_found;
use std::alloc::Global;

/// The policies and templates that a text is, under `policy0`, `policy1`, .. in its order, where they may
/// call the functions of the table but `unknown`: no condition of theirs calls it, or holds an unknown
/// else. One with a slot in its scope or in a clause is a template. (Cedar language reference, "Policy
/// syntax" and "Policy templates".) The names of these functions are made where they aren't yet, and kept.
///
/// It is refused `Text` where the text is no policies within any nesting; `Depth` where its nesting is
/// more than `depth`; and `Memory`.
pub fn read_policies<F: ExtensionFunctionObject>(
    alloc: Global,
    text: &str,
    names: &mut CalledNames,
    extensions: &Extensions<'_, F>,
    depth: u32,
) -> Result<PolicySet, Refusal>
    requires { AreNamesOf (functions_of F.answers extensions.now) names.old }
    ensures called { AreNamesOf (functions_of F.answers extensions.now) names.new }
    ensures policies { ReadsPolicies (setting_with F.answers extensions.now depth) text.now result }
    ensures names { IfOk result (λ set. CallNoUnknown set) }
{
    // This runs no code: its contract is the law that no policy calls `unknown`.
    calls_are_found();

    names.make_for_policies(alloc, extensions)?;
    policy_set(alloc, text, names.for_policies(), depth)
}

// The policies of a text, or what a command is refused by.
fn policy_set(
    alloc: Global,
    text: &str,
    styles: &ExtStyles,
    depth: u32,
) -> Result<PolicySet, Refusal>
    ensures { ReadsSet styles.now depth text.now result }
{
    match parse_policyset_strict(alloc, text, styles, depth) {
        Ok(set) => Ok(set),
        Err(errors) => Err(of_text(&errors)),
    }
}
