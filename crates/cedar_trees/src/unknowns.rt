// Unknowns, and the paths of `has`.
ghost use Rattle.std.specs.Prelude.{◌≡◌, IfOk, map};
ghost use Rattle.std.specs.Rc.{rc_str_bytes};

use cedar_literals::types::Type;
use std::alloc::{AllocError, Global};
use std::rc::RcStr;

/// A value that isn't known yet, by a name: each unknown of one name stands for one value. In a text it
/// is written `unknown("name")`.
#[derive(Debug, PartialEq, Eq, Drop)]
pub struct Unknown {
    /// What it is called.
    pub name: RcStr,
    /// The type of its values, where that is known.
    pub type_annotation: Option<Type>,
}

impl Unknown {
    /// The unknown of this name, whose type isn't known.
    pub fn new_untyped(name: RcStr) -> Unknown
        ensures { result ≡ record { name = name; type_annotation = None } }
    {
        Unknown {
            name,
            type_annotation: None,
        }
    }

    /// The unknown of this name, whose values are of this type.
    pub fn new_with_type(name: RcStr, ty: Type) -> Unknown
        ensures { result ≡ record { name = name; type_annotation = Some ty } }
    {
        Unknown {
            name,
            type_annotation: Some(ty),
        }
    }
}

impl Clone for Unknown {
    ghost use Rattle.std.specs.Prelude.{◌≡◌};
    ghost use Rattle.cedar_trees.specs.Unknowns.{unknown_name, unknown_type};

    ghost is_clone = { λ unknown copy. (unknown_name copy ≡ unknown_name unknown)
        × (unknown_type copy ≡ unknown_type unknown) };

    fn clone(&self) -> Result<Unknown, AllocError> {
        let name = self.name.clone()?;
        match &self.type_annotation {
            None => Ok(Unknown::new_untyped(name)),
            Some(ty) => Ok(Unknown::new_with_type(name, ty.clone()?)),
        }
    }
}

/// A list of at least one item.
#[derive(Debug, PartialEq, Eq, Drop)]
pub struct NonEmpty<T> {
    /// The first item.
    pub head: T,
    /// Those after it.
    pub tail: Vec<T>,
}

impl NonEmpty<RcStr> {
    /// A copy that shares the texts; refused for memory alone.
    pub fn clone(&self, alloc: Global) -> Result<NonEmpty<RcStr>, AllocError>
        ensures head { IfOk result (λ copy. rc_str_bytes copy.head ≡ rc_str_bytes self.now.head) }
        ensures tail { IfOk result (λ copy.
            map rc_str_bytes copy.tail.items ≡ map rc_str_bytes self.now.tail.items) }
    {
        let head = self.head.clone()?;
        let mut tail = Vec::new(alloc);
        for text in &self.tail {
            tail.push(text.clone()?)?;
        }
        Ok(NonEmpty { head, tail })
    }
}
