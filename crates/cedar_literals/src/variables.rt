// Variables of a request.
ghost use Rattle.std.specs.Prelude.{◌≡◌};
ghost use Rattle.cedar_names.specs.Identifiers.{IsUnreservedId};
ghost use Rattle.cedar_literals.specs.Variables.{variable_of, variable_text};

use cedar_names::conversions::FromIn;
use cedar_names::identifiers::{Id, UnreservedId};
use std::alloc::{AllocError, Global};
use std::fmt;
use std::rc::RcStr;

/// A variable of a request. (Cedar language reference, "Variables".)
#[derive(Clone, Copy, Debug, PartialEq, Eq, PartialOrd, Ord, Hash)]
pub enum Var {
    /// Who asks.
    Principal,
    /// What is to be done.
    Action,
    /// What it is to be done to.
    Resource,
    /// All else that is known of the request.
    Context,
}

impl fmt::Display for Var {
    ghost use Rattle.std.specs.Prelude.{Some};
    ghost use Rattle.cedar_literals.specs.Variables.{variable_of, variable_text};

    ghost output = { λ var. Some (variable_text (variable_of var)) };

    fn fmt<W: fmt::Write>(&self, f: &mut fmt::Formatter<W>) -> fmt::Result {
        f.write_str(word(*self))
    }
}

// How a variable is written.
fn word(var: Var) -> &'static str
    ensures text { result.now ≡ variable_text (variable_of var) }
    ensures identifier { IsUnreservedId result.now }
{
    match var {
        Var::Principal => "principal",
        Var::Action => "action",
        Var::Resource => "resource",
        Var::Context => "context",
    }
}

impl FromIn<Var> for Id {
    type Error = AllocError;

    ghost use Rattle.std.specs.Prelude.{◌≡◌, IfOk};
    ghost use Rattle.cedar_literals.specs.Variables.{variable_of, variable_text};

    ghost from_in_gives = { λ var result. IfOk result (λ id. id ≡ variable_text (variable_of var)) };

    /// The word that names the variable; refused for memory alone.
    fn from_in(alloc: Global, var: Var) -> Result<Id, AllocError> {
        Ok(Id::new_unchecked(RcStr::from_str(alloc, word(var))?))
    }
}

impl FromIn<Var> for UnreservedId {
    type Error = AllocError;

    ghost use Rattle.std.specs.Prelude.{◌≡◌, IfOk};
    ghost use Rattle.cedar_literals.specs.Variables.{variable_of, variable_text};

    ghost from_in_gives = { λ var result. IfOk result (λ id. id ≡ variable_text (variable_of var)) };

    /// The word that names the variable; refused for memory alone.
    fn from_in(alloc: Global, var: Var) -> Result<UnreservedId, AllocError> {
        match UnreservedId::try_from(Id::from_in(alloc, var)?) {
            Ok(id) => Ok(id),
            Err(_) => unreachable!(),
        }
    }
}
