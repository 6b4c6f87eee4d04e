// Uids of actions and of other entities, as a schema has them.
ghost use Rattle.std.specs.Prelude.{◌≡◌, [], ◌∷◌, codes, IfOk};
ghost use Rattle.cedar_schema_grammar.specs.Declared.{action_uid};
ghost use Rattle.cedar_schema_syntax.specs.View.{path_view};
ghost use Rattle.cedar_schema_resolution.specs.Declarations.{action_view};

use crate::declarations::DeclaredAction;
use cedar_literals::escapes::Escaped;
use cedar_names::texts::SharedText;
use cedar_schema::TypeName;
use cedar_schema_syntax::Path;
use std::alloc::{AllocError, Global};
use std::cmp::Ordering;
use std::fmt;
use std::marker::Model;
use std::rc::RcStr;

/// An entity, as a schema speaks of it: the full name of its type, and its own id. Contracts see these; so do `==` and the
/// order. Copies share both.
#[derive(Debug, Drop)]
pub struct Uid {
    type_name: TypeName,
    id: SharedText,
}

impl Model for Uid {
    ghost use Rattle.cedar_language.specs.Uid as language;

    ghost Value = { language.Uid };

    ghost view = { λ a. record { type_name = a.type_name; id = a.id } };
}

/// The path `Action`: that of the types of actions in their namespaces. Refused for memory alone. (Cedar language reference,
/// "Schema", actions.)
pub fn action_path(alloc: Global) -> Result<Path, AllocError>
    ensures { IfOk result (λ path. path_view path ≡ codes "Action" ∷ []) }
{
    let mut words = Vec::new(alloc);
    words.push(RcStr::from_str(alloc, "Action")?)?;
    Ok(Path { words, place: 0 })
}

impl Uid {
    /// The uid of an action that is declared: `N::Action::"a"` for `a` of the namespace `N`. Refused for memory alone. (Cedar
    /// language reference, "Schema", actions.)
    pub fn of(alloc: Global, action: &DeclaredAction<'_>) -> Result<Uid, AllocError>
        ensures { IfOk result (λ uid. uid ≡ action_uid (action_view action.now)) }
    {
        let path = action_path(alloc)?;
        let type_name = TypeName::within(alloc, action.namespace.words(), &path)?;
        let id = SharedText::new(action.own.text.clone()?);
        Ok(Uid::new(type_name, id))
    }

    /// The entity of this type and this id.
    pub fn new(type_name: TypeName, id: SharedText) -> Uid
        ensures { result ≡ record { type_name = type_name; id = id } }
    {
        Uid { type_name, id }
    }

    /// The full name of its type.
    pub fn type_name(&self) -> &TypeName
        ensures { result.now ≡ self.now.type_name }
    {
        &self.type_name
    }

    /// Its own id.
    pub fn id(&self) -> &SharedText
        ensures { result.now ≡ self.now.id }
    {
        &self.id
    }
}

impl Clone for Uid {
    ghost is_clone = { λ uid copy. copy ≡ uid };

    fn clone(&self) -> Result<Uid, AllocError> {
        Ok(Uid {
            type_name: self.type_name.clone()?,
            id: self.id.clone()?,
        })
    }
}

impl PartialEq for Uid {
    ghost use Rattle.cedar_language.specs.Order.{same_uid};
    ghost use Rattle.cedar_literals.specs.Laws.{same_uid_partial_equiv};

    ghost eq = { same_uid };

    ghost laws = { same_uid_partial_equiv };

    fn eq(&self, other: &Uid) -> bool {
        self.type_name == other.type_name && self.id == other.id
    }
}

impl Eq for Uid {
    ghost use Rattle.cedar_literals.specs.Laws.{same_uid_equiv};

    ghost laws = { same_uid_equiv };
}

impl PartialOrd for Uid {
    ghost use Rattle.std.specs.Ordering.{as_partial_cmp};
    ghost use Rattle.cedar_language.specs.Order.{uid_cmp};
    ghost use Rattle.cedar_literals.specs.Laws.{uid_cmp_partial};

    ghost partial_cmp = { as_partial_cmp uid_cmp };

    ghost laws = { uid_cmp_partial };

    fn partial_cmp(&self, other: &Uid) -> Option<Ordering> {
        Some(self.cmp(other))
    }
}

impl Ord for Uid {
    ghost use Rattle.std.specs.Prelude.{refl};
    ghost use Rattle.cedar_language.specs.Order.{uid_cmp};
    ghost use Rattle.cedar_literals.specs.Laws.{uid_cmp_total, uid_cmp_ties};

    ghost cmp = { uid_cmp };

    ghost total = { uid_cmp_total };

    ghost matches_partial_cmp = { λ x y. refl };

    ghost matches_eq = { uid_cmp_ties };

    fn cmp(&self, other: &Uid) -> Ordering {
        match self.type_name.cmp(&other.type_name) {
            Ordering::Equal => self.id.cmp(&other.id),
            decided => decided,
        }
    }
}

impl fmt::Display for Uid {
    fn fmt<W: fmt::Write>(&self, f: &mut fmt::Formatter<W>) -> fmt::Result {
        let type_name = &self.type_name;
        let id = Escaped::new(self.id.as_str());
        write!(f, "{type_name}::\"{id}\"")
    }
}
