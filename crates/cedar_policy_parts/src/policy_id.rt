// The id of a policy.
ghost use Rattle.std.specs.Prelude.{◌≡◌, IfOk};
ghost use Rattle.std.specs.Rc.{rc_str_bytes};

use cedar_names::texts::SharedText;
use std::alloc::{AllocError, Global};
use std::convert::AsStr;
use std::fmt;
use std::marker::Model;
use std::rc::RcStr;

/// The id of a policy or template within a policy set: any text. Ids go by their bytes.
#[derive(Debug, PartialEq, Eq, PartialOrd, Ord, Hash, Clone, Drop)]
pub struct PolicyID {
    text: SharedText,
}

impl Model for PolicyID {
    ghost use Rattle.cedar_language.specs.Uid.{Text};

    ghost Value = { Text };

    ghost view = { λ id. id.text };

    ghost inverse = { λ text. record { text = text } };
}

impl PolicyID {
    /// The id with a copy of this text, whatever it holds. Refused for memory alone.
    pub fn from_string(alloc: Global, text: &str) -> Result<PolicyID, AllocError>
        ensures { IfOk result (λ id. id ≡ text.now) }
    {
        Ok(PolicyID::from_smolstr(RcStr::from_str(alloc, text)?))
    }

    /// The id with this text, which is shared; takes no memory.
    pub fn from_smolstr(text: RcStr) -> PolicyID
        ensures { result ≡ rc_str_bytes text }
    {
        PolicyID {
            text: SharedText::new(text),
        }
    }

    /// Its text, given up without a copy.
    pub fn into_smolstr(self) -> RcStr
        ensures { rc_str_bytes result ≡ self }
    {
        self.text.into_smolstr()
    }

    /// Its text, lent.
    pub fn as_str(&self) -> &str
        ensures { result.now ≡ self.now }
    {
        self.text.as_str()
    }
}

impl AsStr for PolicyID {
    ghost text = { λ id. id };

    fn as_str(&self) -> &str {
        self.as_str()
    }
}

impl fmt::Display for PolicyID {
    ghost use Rattle.std.specs.Prelude.{Some};

    ghost output = { λ id. Some id };

    fn fmt<W: fmt::Write>(&self, f: &mut fmt::Formatter<W>) -> fmt::Result {
        fmt::Display::fmt(&self.text, f)
    }
}
