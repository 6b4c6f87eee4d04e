// Names of types, kept from one text to the next.
ghost use Rattle.std.specs.Prelude.{◌≡◌, ◌++◌, [], ◌∷◌, IfOk, IfSome, map};
ghost use Rattle.std.specs.List.{All};
ghost use Rattle.cedar_names.specs.Identifiers.{IsUnreservedId};

use crate::names::{is_spelled, name_of};
use crate::unread::Unread;
use cedar_names::names::Name;
use std::alloc::{AllocError, Global};
use std::marker::Model;

/// How many names are kept at most.
const MOST: usize = 16;

/// The names of types that texts spelled last, for texts that spell them again to share: 16 at most.
#[derive(Drop)]
pub struct TypeNames {
    names: Vec<Name>,
    // The place of the name that is kept next.
    next: usize,
}

impl Model for TypeNames {
    ghost use Rattle.std.specs.Prelude.{◌≤◌, ◌<◌, List, length};
    ghost use Rattle.cedar_language.specs.Uid as language;

    ghost Value = { List language.Name };

    ghost view = { λ kept. kept.names.items };

    ghost invariant = { λ kept. (length kept.names.items ≤ 16) × (kept.next < 16) };
}

impl TypeNames {
    /// None are kept. Takes no memory.
    pub fn new(alloc: Global) -> TypeNames
        ensures { result ≡ [] }
    {
        TypeNames {
            names: Vec::new(alloc),
            next: 0,
        }
    }

    // The kept name that these words spell.
    fn find(&self, namespace: &[&str], basename: &str) -> Option<&Name>
        ensures { IfSome result (λ name. name.now ≡ map (λ word. word.now) namespace.now ++ basename.now ∷ []) }
    {
        for name in &self.names {
            if is_spelled(name, namespace, basename) {
                return Some(name);
            }
        }
        None
    }

    // Keeps the name, in place of the one that was kept first where no more are. Refused for memory alone.
    fn keep(&mut self, name: Name) -> Result<(), AllocError> {
        if self.next < self.names.len() {
            self.names[self.next] = name;
        } else {
            self.names.push(name)?;
        }
        self.next = if self.next + 1 < MOST {
            self.next + 1
        } else {
            0
        };
        Ok(())
    }

    /// The name of these identifiers: the one that is kept, or else a new one, which is kept.
    pub(crate) fn name(
        &mut self,
        alloc: Global,
        namespace: &[&str],
        basename: &str,
    ) -> Result<Name, Unread>
        requires namespace { All (λ word. IsUnreservedId word.now) namespace.now }
        requires basename { IsUnreservedId basename.now }
        ensures { IfOk result (λ name. name ≡ map (λ word. word.now) namespace.now ++ basename.now ∷ []) }
    {
        if let Some(kept) = self.find(namespace, basename) {
            return Ok(kept.clone(alloc)?);
        }
        let name = name_of(alloc, namespace, basename)?;
        self.keep(name.clone(alloc)?)?;
        Ok(name)
    }
}
