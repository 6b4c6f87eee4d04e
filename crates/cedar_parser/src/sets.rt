// Policy sets.
ghost use Rattle.std.specs.Prelude.{List, IfOk, IfErr};
ghost use Rattle.std.specs.Option.{option_map};
ghost use Rattle.cedar_grammar.specs.Converting.{policies_syntax};
ghost use Rattle.cedar_grammar.specs.Functions.{policy_names};
ghost use Rattle.cedar_grammar.specs.Loose as loose;
ghost use Rattle.cedar_grammar.specs.LooseReading.{read_policies};
ghost use Rattle.cedar_grammar.specs.Names.{Names};
ghost use Rattle.cedar_policy_set.specs.Texts.{text_entries};
ghost use Rattle.cedar_loose.specs.Texts.{Refuses};
ghost use Rattle.cedar_policy_conversion.specs.Gathered.{AreGathered};
ghost use Rattle.cedar_policy_conversion.specs.Shows.{policies_show};
ghost use Rattle.cedar_parser.specs.Faults.{TellOnly, text_shows};
ghost use Rattle.cedar_parser.specs.Settings.{functions_of};
ghost use Rattle.cedar_parser.specs.Strict.{Writes, ReadsSet, GathersText};

use crate::errors::{ParseError, ParseErrors};
use crate::refusals::refused;
use crate::styles::StylesOfExtensions;
use crate::text_to_cst::unread;
use cedar_extensions::extensions::Extensions;
use cedar_extensions::objects::ExtensionFunctionObject;
use cedar_faults::ExtStyles;
use cedar_grammar::{at_most_one_meaning, converting_is_the_grammar, wider_limits_change_nothing};
use cedar_loose::{LooseError, PolicyReader};
use cedar_policy_conversion::GatheredPolicies;
use cedar_policy_set::sets::PolicySet;
use std::alloc::Global;
use std::rc::RcStr;

/// The policies and templates that a text is within a nesting of `depth`, under `policy0`, `policy1`, ..
/// in its order, where these names may be called. One with a slot in its scope or in a clause is a template.
/// (Cedar language reference, "Policy syntax" and "Policy templates".)
///
/// The first error is `ToCST` or `ToAST`, with a place, where the text is none within any nesting; `Depth`
/// where it is none within this one and more places in it open a construct; and `Memory`. With `ToAST` the
/// errors are all faults of the text, in order, each of a kind that its loose tree shows; each other error
/// stands alone.
pub fn parse_policyset_strict(
    alloc: Global,
    text: &str,
    styles: &ExtStyles,
    depth: u32,
) -> Result<PolicySet, ParseErrors>
    ensures set { ReadsSet styles.now depth text.now result }
    ensures shown { IfErr result (λ errors. TellOnly errors (text_shows read_policies depth text.now (policies_show styles.now))) }
{
    // These run no code: their contracts are laws of the grammars.
    at_most_one_meaning();
    converting_is_the_grammar();
    wider_limits_change_nothing();

    match gathered(alloc, text, styles, depth) {
        Ok(policies) => converted(alloc, policies),
        Err(error) => Err(unread(alloc, error)),
    }
}

/// The policies and templates that a text is, as [`parse_policyset_strict`] reads it, where the functions of this table
/// may be called, but for `unknown`, which policies never call.
pub fn parse_policyset<F: ExtensionFunctionObject>(
    alloc: Global,
    text: &str,
    extensions: &Extensions<'_, F>,
    depth: u32,
) -> Result<PolicySet, ParseErrors>
    ensures set { ReadsSet (policy_names (functions_of F.answers extensions.now)) depth text.now result }
    ensures shown { IfErr result (λ errors. TellOnly errors (text_shows read_policies depth text.now (policies_show (policy_names (functions_of F.answers extensions.now))))) }
{
    let Ok(styles) = ExtStyles::for_policies(alloc, extensions) else {
        return Err(ParseErrors::one(alloc, ParseError::Memory));
    };
    parse_policyset_strict(alloc, text, &styles, depth)
}

// The policies of a text. Each is converted as it is read, so that no more than one loose tree stands.
fn gathered(
    alloc: Global,
    text: &str,
    styles: &ExtStyles,
    depth: u32,
) -> Result<GatheredPolicies, LooseError>
    ensures read { IfOk result (λ policies. GathersText styles.now depth text.now policies) }
    ensures refused { IfErr result (Refuses read_policies depth text.now) }
{
    let Ok(source) = RcStr::from_str(alloc, text) else {
        return Err(LooseError::Memory);
    };
    let mut reader = PolicyReader::new(alloc, text, &source, depth)?;
    let mut policies = GatheredPolicies::new(alloc);
    'each: while let Some(policy) = reader.next(alloc)? {
        policies = policies.with(alloc, &policy, styles);
    }
    Ok(policies)
}

// The set of the policies that were gathered, or their faults as errors.
fn converted(alloc: Global, policies: GatheredPolicies) -> Result<PolicySet, ParseErrors>
    ensures set { (names : Names) (ps : List loose.Policy) → AreGathered names ps policies →
        Writes (λ set. set) result (option_map (text_entries 0) (policies_syntax names (loose.policies ps))) }
    ensures shown { (names : Names) (ps : List loose.Policy) → AreGathered names ps policies →
        IfErr result (λ errors. TellOnly errors (policies_show names (loose.policies ps))) }
{
    match policies.into_set() {
        Ok(set) => Ok(set),
        Err(error) => Err(refused(alloc, error)),
    }
}
