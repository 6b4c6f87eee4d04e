// `like` and `is`.
ghost use Rattle.std.specs.Prelude.{◌≡◌};
ghost use Rattle.std.specs.Str.{chars};
ghost use Rattle.cedar_language.specs.Facts.{Facts};
ghost use Rattle.cedar_language.specs.Operators.{applied};
ghost use Rattle.cedar_language.specs.Pattern.{matches};
ghost use Rattle.cedar_language.specs.Tree.{Like, Is};
ghost use Rattle.cedar_extensions.specs.Giving.{Gives};
ghost use Rattle.cedar_value_operators.specs.Operands.{one};

use crate::operands::{get_as_entity, get_as_string};
use cedar_extensions::evaluation_error::EvaluationError;
use cedar_literals::literals::Literal;
use cedar_literals::patterns::Pattern;
use cedar_literals::uids::EntityType;
use cedar_values::values::Value;
use std::alloc::Global;

/// Whether a string matches a pattern. (Cedar language reference, "like (string matching with
/// wildcard)".)
///
/// It errs with `TypeError` where `text` is no string, and with `Memory`.
#[tactic(auto, using(crate::proofs::ByPart::like_at))]
pub fn is_like(alloc: Global, text: &Value, pattern: &Pattern) -> Result<Value, EvaluationError>
    ensures { (facts : Facts) → Gives (λ v. v) ⊥ result (applied facts (Like pattern.now) (one text.now)) }
{
    let text = get_as_string(alloc, text)?;
    Ok(Value::from(Literal::Bool(matches(text.as_str(), pattern))))
}

/// Whether an entity is of this type; it need not be held. (Cedar language reference, "is (entity type
/// test)".)
///
/// It errs with `TypeError` where `of` is no entity, and with `Memory`.
#[tactic(auto, using(crate::proofs::ByPart::is_at))]
pub fn is_of_type(
    alloc: Global,
    of: &Value,
    entity_type: &EntityType,
) -> Result<Value, EvaluationError>
    ensures { (facts : Facts) → Gives (λ v. v) ⊥ result (applied facts (Is entity_type.now) (one of.now)) }
{
    let uid = get_as_entity(alloc, of)?;
    Ok(Value::from(Literal::Bool(uid.entity_type() == entity_type)))
}

fn matches(text: &str, pattern: &Pattern) -> bool
    ensures { result ≡ matches pattern.now (chars text.now) }
{
    cedar_language::decides_matches();
    pattern.wildcard_match(text)
}
