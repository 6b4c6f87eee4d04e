// Values that copies share.
ghost use Rattle.std.specs.Prelude.{◌≡◌, IfOk};

use std::alloc::{AllocError, Global};
use std::cmp::Ordering;
use std::fmt;
use std::hash::{Hash, Hasher};
use std::marker::Model;
use std::rc::Rc;

/// A value that is shared, seen as the value. Its owner takes the room of a handle, however large the value is: so
/// errors hold what they tell by one, and what may be an error stays small.
#[derive(Debug, Drop)]
pub struct Shared<T> {
    held: Rc<T>,
}

impl<T> Model for Shared<T> {
    ghost Value = { T };

    ghost view = { λ a. a.held.value };
}

impl<T: Drop> Shared<T> {
    /// The value, shared; refused for memory alone.
    pub fn new(alloc: Global, value: T) -> Result<Shared<T>, AllocError>
        ensures { IfOk result (λ shared. shared ≡ value) }
    {
        Ok(Shared {
            held: Rc::new(alloc, value)?,
        })
    }
}

impl<T> Shared<T> {
    /// The value.
    pub fn get(&self) -> &T
        ensures { result.now ≡ self.now }
    {
        &self.held
    }
}

impl<T: fmt::Display> fmt::Display for Shared<T> {
    fn fmt<W: fmt::Write>(&self, f: &mut fmt::Formatter<W>) -> fmt::Result {
        self.held.fmt(f)
    }
}

impl<T: Drop> Clone for Shared<T> {
    ghost is_clone = { λ shared copy. copy ≡ shared };

    fn clone(&self) -> Result<Shared<T>, AllocError> {
        Ok(Shared {
            held: self.held.clone()?,
        })
    }
}

impl<T: PartialEq> PartialEq for Shared<T> {
    ghost eq = { T.eq };

    ghost laws = { T.laws };

    fn eq(&self, other: &Shared<T>) -> bool {
        self.held == other.held
    }
}

impl<T: Eq> Eq for Shared<T> {
    ghost laws = { T.Eq.laws };
}

impl<T: PartialOrd> PartialOrd for Shared<T> {
    ghost partial_cmp = { T.partial_cmp };

    ghost laws = { T.PartialOrd.laws };

    fn partial_cmp(&self, other: &Shared<T>) -> Option<Ordering> {
        self.held.partial_cmp(&other.held)
    }
}

impl<T: Ord> Ord for Shared<T> {
    ghost cmp = { T.cmp };

    ghost total = { T.total };

    ghost matches_partial_cmp = { T.matches_partial_cmp };

    ghost matches_eq = { T.matches_eq };

    fn cmp(&self, other: &Shared<T>) -> Ordering {
        self.held.cmp(&other.held)
    }
}

impl<T: Hash> Hash for Shared<T> {
    ghost hash_input = { T.hash_input };

    ghost respects_eq = { T.respects_eq };

    fn hash<H: Hasher>(&self, state: &mut H) {
        self.held.hash(state);
    }
}
