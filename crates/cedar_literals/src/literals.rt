// Literals.
ghost use Rattle.std.specs.Prelude.{◌≡◌, ◌↔◌, IsTrue};
ghost use Rattle.cedar_language.specs.Order.{literal_head};
ghost use Rattle.cedar_literals.specs.Literals.{literal_of, IsEntity};

use crate::escapes::Escaped;
use crate::uids::EntityUID;
use cedar_names::conversions::FromIn;
use std::alloc::{AllocError, Global};
use std::cmp::Ordering;
use std::fmt;
use std::hash::{Hash, Hasher};
use std::rc::{Rc, RcStr};

/// A long: a whole number of 64 bits, with its sign.
pub type Integer = i64;

/// A long, as it is handed in.
pub type InputInteger = i64;

/// A literal. Contracts see it through `literal_of`: the text of a string, and the type and id of an
/// entity; `==`, order and hash look past sharing and places. (Cedar language reference, "Data types".)
#[derive(Debug)]
pub enum Literal {
    /// `true` or `false`.
    Bool(bool),
    /// A whole number.
    Long(Integer),
    /// A text.
    String(RcStr),
    /// An entity, by its uid.
    EntityUID(Rc<EntityUID>),
}

impl Drop for Literal {
    fn drop(self) {
        match self {
            Literal::Bool(_) => {}
            Literal::Long(_) => {}
            Literal::String(_) => {}
            Literal::EntityUID(_) => {}
        }
    }
}

impl Literal {
    /// Whether it is an entity.
    pub fn is_ref(&self) -> bool
        ensures { IsTrue result ↔ IsEntity (literal_of self.now) }
    {
        matches!(self, Literal::EntityUID(_))
    }
}

impl From<bool> for Literal {
    ghost use Rattle.std.specs.Prelude.{◌≡◌};
    ghost use Rattle.cedar_language.specs.Tree.{Boolean};
    ghost use Rattle.cedar_literals.specs.Literals.{literal_of};

    ghost from_gives = { λ b literal. literal_of literal ≡ Boolean b };

    fn from(b: bool) -> Literal {
        Literal::Bool(b)
    }
}

impl From<Integer> for Literal {
    ghost use Rattle.std.specs.Prelude.{◌≡◌};
    ghost use Rattle.cedar_language.specs.Tree.{Long};
    ghost use Rattle.cedar_literals.specs.Literals.{literal_of};

    ghost from_gives = { λ n literal. literal_of literal ≡ Long n };

    fn from(n: Integer) -> Literal {
        Literal::Long(n)
    }
}

impl From<RcStr> for Literal {
    ghost use Rattle.std.specs.Prelude.{◌≡◌};
    ghost use Rattle.std.specs.Rc.{rc_str_bytes};
    ghost use Rattle.cedar_language.specs.Tree.{String};
    ghost use Rattle.cedar_literals.specs.Literals.{literal_of};

    ghost from_gives = { λ text literal. literal_of literal ≡ String (rc_str_bytes text) };

    fn from(text: RcStr) -> Literal {
        Literal::String(text)
    }
}

impl From<Rc<EntityUID>> for Literal {
    ghost use Rattle.std.specs.Prelude.{◌≡◌};
    ghost use Rattle.cedar_language.specs.Tree.{Entity};
    ghost use Rattle.cedar_literals.specs.Literals.{literal_of};

    ghost from_gives = { λ uid literal. literal_of literal ≡ Entity uid.value };

    fn from(uid: Rc<EntityUID>) -> Literal {
        Literal::EntityUID(uid)
    }
}

impl FromIn<&str> for Literal {
    type Error = AllocError;

    ghost use Rattle.std.specs.Prelude.{◌≡◌, IfOk};
    ghost use Rattle.cedar_language.specs.Tree.{String};
    ghost use Rattle.cedar_literals.specs.Literals.{literal_of};

    ghost from_in_gives = { λ text result. IfOk result (λ literal. literal_of literal ≡ String text.now) };

    fn from_in(alloc: Global, text: &str) -> Result<Literal, AllocError> {
        Ok(Literal::String(RcStr::from_str(alloc, text)?))
    }
}

impl FromIn<String> for Literal {
    type Error = AllocError;

    ghost use Rattle.std.specs.Prelude.{◌≡◌, IfOk};
    ghost use Rattle.std.specs.String.{string_bytes};
    ghost use Rattle.cedar_language.specs.Tree as tree;
    ghost use Rattle.cedar_literals.specs.Literals.{literal_of};

    ghost from_in_gives = { λ text result. IfOk result (λ literal. literal_of literal ≡ tree.String (string_bytes text)) };

    fn from_in(_alloc: Global, text: String) -> Result<Literal, AllocError> {
        Ok(Literal::String(RcStr::from_string(text)?))
    }
}

impl FromIn<EntityUID> for Literal {
    type Error = AllocError;

    ghost use Rattle.std.specs.Prelude.{◌≡◌, IfOk};
    ghost use Rattle.cedar_language.specs.Tree.{Entity};
    ghost use Rattle.cedar_literals.specs.Literals.{literal_of};

    ghost from_in_gives = { λ uid result. IfOk result (λ literal. literal_of literal ≡ Entity uid) };

    fn from_in(alloc: Global, uid: EntityUID) -> Result<Literal, AllocError> {
        Ok(Literal::EntityUID(Rc::new(alloc, uid)?))
    }
}

impl Clone for Literal {
    ghost use Rattle.std.specs.Prelude.{◌≡◌};
    ghost use Rattle.cedar_literals.specs.Literals.{literal_of};

    ghost is_clone = { λ literal copy. literal_of copy ≡ literal_of literal };

    fn clone(&self) -> Result<Literal, AllocError> {
        Ok(match self {
            Literal::Bool(b) => Literal::Bool(*b),
            Literal::Long(n) => Literal::Long(*n),
            Literal::String(s) => Literal::String(s.clone()?),
            Literal::EntityUID(uid) => Literal::EntityUID(uid.clone()?),
        })
    }
}

impl PartialEq for Literal {
    ghost use Rattle.std.specs.Ordering.{eq_by_cmp};
    ghost use Rattle.std.specs.Cmp.{partial_equiv_from_equiv};
    ghost use Rattle.std.proofs.lemmas.Cmp.{eq_by_cmp_equiv};
    ghost use Rattle.cedar_literals.specs.Literals.{order_of_literals, literals_total};

    ghost eq = { eq_by_cmp order_of_literals };

    ghost laws = { partial_equiv_from_equiv (eq_by_cmp_equiv literals_total) };

    fn eq(&self, other: &Literal) -> bool {
        self.cmp(other).is_eq()
    }
}

impl Eq for Literal {
    ghost use Rattle.std.proofs.lemmas.Cmp.{eq_by_cmp_equiv};
    ghost use Rattle.cedar_literals.specs.Literals.{literals_total};

    ghost laws = { eq_by_cmp_equiv literals_total };
}

impl PartialOrd for Literal {
    ghost use Rattle.std.specs.Ordering.{as_partial_cmp};
    ghost use Rattle.std.specs.Cmp.{partial_order_from_total};
    ghost use Rattle.cedar_literals.specs.Literals.{order_of_literals, literals_total};

    ghost partial_cmp = { as_partial_cmp order_of_literals };

    ghost laws = { partial_order_from_total literals_total };

    fn partial_cmp(&self, other: &Literal) -> Option<Ordering> {
        Some(self.cmp(other))
    }
}

impl Ord for Literal {
    ghost use Rattle.std.specs.Prelude.{refl};
    ghost use Rattle.cedar_literals.specs.Literals.{order_of_literals, literals_total};

    ghost cmp = { order_of_literals };

    ghost total = { literals_total };

    ghost matches_partial_cmp = { λ x y. refl };

    ghost matches_eq = { λ x y. refl };

    fn cmp(&self, other: &Literal) -> Ordering {
        match (self, other) {
            (Literal::Bool(a), Literal::Bool(b)) => a.cmp(b),
            (Literal::Long(a), Literal::Long(b)) => a.cmp(b),
            (Literal::String(a), Literal::String(b)) => a.cmp(b),
            (Literal::EntityUID(a), Literal::EntityUID(b)) => a.cmp(b),
            _ => kind(self).cmp(&kind(other)),
        }
    }
}

impl Hash for Literal {
    ghost use Rattle.cedar_literals.specs.Literals.{literal_of, literal_hash, literals_alike};

    ghost hash_input = { λ l. literal_hash (literal_of l) };

    ghost respects_eq = { literals_alike.fed };

    fn hash<H: Hasher>(&self, state: &mut H) {
        state.write_u8(kind(self));
        match self {
            Literal::Bool(b) => b.hash(state),
            Literal::Long(n) => n.hash(state),
            Literal::String(s) => s.hash(state),
            Literal::EntityUID(uid) => uid.hash(state),
        }
    }
}

// The number of its kind.
fn kind(literal: &Literal) -> u8
    ensures { result ≡ (literal_head (literal_of literal.now)).kind }
{
    match literal {
        Literal::Bool(_) => 0,
        Literal::Long(_) => 1,
        Literal::String(_) => 2,
        Literal::EntityUID(_) => 3,
    }
}

impl fmt::Display for Literal {
    ghost use Rattle.std.specs.Prelude.{Some};
    ghost use Rattle.cedar_literals.specs.Literals.{literal_of, literal_text};

    ghost output = { λ literal. Some (literal_text (literal_of literal)) };

    fn fmt<W: fmt::Write>(&self, f: &mut fmt::Formatter<W>) -> fmt::Result {
        match self {
            Literal::Bool(b) => write!(f, "{b}"),
            Literal::Long(n) => write!(f, "{n}"),
            Literal::String(s) => {
                let text = Escaped::new(s.as_str());
                write!(f, "\"{text}\"")
            }
            Literal::EntityUID(uid) => write!(f, "{uid}"),
        }
    }
}
