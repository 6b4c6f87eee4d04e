// The effect of a policy.

use std::fmt;

/// What a satisfied policy asks for. (Cedar language reference, "Effect".)
#[derive(Clone, Copy, Debug, PartialEq, Eq, PartialOrd, Ord, Hash)]
pub enum Effect {
    /// It permits.
    Permit,
    /// It forbids.
    Forbid,
}

impl fmt::Display for Effect {
    ghost use Rattle.std.specs.Prelude.{Some};
    ghost use Rattle.cedar_policy_parts.specs.Effects.{effect_of, effect_text};

    ghost output = { λ effect. Some (effect_text (effect_of effect)) };

    fn fmt<W: fmt::Write>(&self, f: &mut fmt::Formatter<W>) -> fmt::Result {
        match self {
            Effect::Permit => write!(f, "permit"),
            Effect::Forbid => write!(f, "forbid"),
        }
    }
}
