//! A function of the caller's own: `domain(mail)` of a mail address, by which policies compare the organizations of
//! two. `like` can't: its pattern is written in the policy.
ghost use Rattle.std.specs.Prelude.{◌≡◌};
ghost use Rattle.std.specs.Option.{option_copied};
ghost use Rattle.cedar_language.specs.Order.{all_of};
ghost use Rattle.cedar_type_examples.specs.Domain.{domain_alone, domain_of};

use cedar_expressions::ast::{Literal, Value};
use cedar_expressions::extensions::{CallError, ExtensionFunctionObject};
use cedar_expressions::prelude::FromIn;
use std::alloc::Global;

/// `domain(mail)`: of a text what stands behind its last `@`.
#[derive(Drop)]
pub(crate) struct Domain;

// `answers` is what it gives, as `specs/Domain.antt` defines it. That `call` gives it is proved.
impl ExtensionFunctionObject for Domain {
    ghost use Rattle.cedar_type_examples.specs.Domain.{domain_alone, text_answers};

    ghost answers = { λ function. text_answers domain_alone };

    fn call(&self, alloc: Global, args: &[Value]) -> Result<Value, CallError> {
        match domain_alone(args) {
            Some(domain) => Ok(Value::from(Literal::from_in(alloc, domain)?)),
            None => Err(CallError::NoAnswer(String::from_str(alloc, "it is no mail address")?)),
        }
    }
}

/// The domain of the one argument, which is a text.
#[tactic(auto, using(crate::proofs::Domain::not_alone))]
fn domain_alone(args: &[Value]) -> Option<&str>
    ensures { option_copied result ≡ domain_alone (all_of args.now) }
{
    let [mail] = args else {
        return None;
    };
    domain_of(mail.as_string()?.as_str())
}

/// What stands behind the last `@`, if there is one.
#[tactic(auto, using(crate::proofs::Domain::is_domain, crate::proofs::Domain::no_domain))]
fn domain_of(mail: &str) -> Option<&str>
    ensures { option_copied result ≡ domain_of mail.now }
{
    let (_, domain) = mail.rsplit_once('@')?;
    Some(domain)
}
