// Effects.
ghost use Rattle.std.specs.Prelude.{◌≡◌, IfErr};
ghost use Rattle.std.specs.Option.{option_map};
ghost use Rattle.cedar_grammar.specs.Converting.{effect};
ghost use Rattle.cedar_cst.specs.LeafView.{shown_ident, view_ident, written_ident};
ghost use Rattle.cedar_policy_parts.specs.Effects.{effect_of};
ghost use Rattle.cedar_faults.specs.Converts.{Finds};
ghost use Rattle.cedar_faults.specs.Telling.{TellsOnly};
ghost use Rattle.cedar_policy_conversion.specs.PartsShow.{effect_shows};

use crate::copies::copied;
use cedar_conversion::spelling;
use cedar_cst::cst::Ident;
use cedar_cst::node::Node;
use cedar_faults::{ConversionError, ToASTErrorKind};
use cedar_policy_parts::Effect;
use std::alloc::Global;

// The effect that is so written.
fn effect_named(text: &str) -> Option<Effect>
    ensures { option_map effect_of result ≡ effect (written_ident text.now) }
{
    match text {
        "permit" => Some(Effect::Permit),
        "forbid" => Some(Effect::Forbid),
        _ => None,
    }
}

// The effect that a word is.
fn word_to_effect(word: &Ident) -> Option<Effect>
    ensures { option_map effect_of result ≡ effect (view_ident word.now) }
{
    match spelling(word) {
        None => None,
        Some(text) => effect_named(text),
    }
}

/// The effect of a policy; faults where its word is missing, or is neither `permit` nor `forbid`. (Cedar
/// language reference, "Policy syntax".)
pub fn to_effect<E: Drop>(
    alloc: Global,
    node: &Node<Option<Ident>>,
) -> Result<Effect, ConversionError<E>>
    ensures effect { Finds effect_of result (effect (shown_ident node.now)) }
    ensures shown { IfErr result (λ error. TellsOnly error (effect_shows (shown_ident node.now))) }
{
    let Some(word) = &node.node else {
        return Err(ConversionError::missing(alloc, node.loc()));
    };
    match word_to_effect(word) {
        Some(effect) => Ok(effect),
        None => {
            let kind = ToASTErrorKind::InvalidEffect(copied(word)?);
            Err(ConversionError::fault(alloc, kind, node.loc()))
        }
    }
}
