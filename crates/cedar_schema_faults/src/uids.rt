// Uids of actions.
ghost use Rattle.std.specs.Prelude.{◌≡◌, [], ◌∷◌, ◌++◌, codes, IfOk};
ghost use Rattle.std.specs.Rc.{rc_str_bytes};
ghost use Rattle.cedar_language.specs.Uid.{Uid};
ghost use Rattle.cedar_schema_grammar.specs.Declared.{action_uid};
ghost use Rattle.cedar_schema_syntax.specs.View.{path_view};
ghost use Rattle.cedar_schema_resolution.specs.Declarations.{action_view};

use cedar_names::texts::SharedText;
use cedar_schema::TypeName;
use cedar_schema_resolution::DeclaredAction;
use cedar_schema_syntax::Path;
use std::alloc::{AllocError, Global};
use std::cmp::Ordering;
use std::fmt;
use std::marker::Model;
use std::rc::RcStr;

/// The uid of an action, as `N::Action::"view"`: what a schema declares it by. Copies share it.
#[derive(Debug, Drop)]
pub struct ActionUid {
    type_name: TypeName,
    id: SharedText,
}

impl Model for ActionUid {
    ghost use Rattle.cedar_language.specs.Uid.{Uid};

    ghost Value = { Uid };

    ghost view = { λ a. record { type_name = a.type_name; id = a.id } };
}

/// The path `Action`: that of an action's type where none is written. Refused for memory alone.
pub(crate) fn action_path(alloc: Global) -> Result<Path, AllocError>
    ensures { IfOk result (λ path. path_view path ≡ codes "Action" ∷ []) }
{
    let mut words = Vec::new(alloc);
    words.push(RcStr::from_str(alloc, "Action")?)?;
    Ok(Path { words, place: 0 })
}

impl ActionUid {
    /// The uid of a type and an id.
    pub fn new(type_name: TypeName, id: SharedText) -> ActionUid
        ensures { result ≡ record { type_name = type_name; id = id } }
    {
        ActionUid { type_name, id }
    }

    /// The uid of an action that is declared; refused for memory alone. (Cedar language reference, "Schema", actions.)
    pub fn of(alloc: Global, action: &DeclaredAction<'_>) -> Result<ActionUid, AllocError>
        ensures { IfOk result (λ uid. uid ≡ action_uid (action_view action.now)) }
    {
        let path = action_path(alloc)?;
        let type_name = TypeName::within(alloc, action.namespace.words(), &path)?;
        let id = SharedText::new(action.own.text.clone()?);
        Ok(ActionUid::new(type_name, id))
    }

    /// The name of its type.
    pub fn type_name(&self) -> &TypeName
        ensures { result.now ≡ self.now.type_name }
    {
        &self.type_name
    }

    /// Its id.
    pub fn id(&self) -> &SharedText
        ensures { result.now ≡ self.now.id }
    {
        &self.id
    }
}

impl Clone for ActionUid {
    ghost is_clone = { λ uid copy. copy ≡ uid };

    fn clone(&self) -> Result<ActionUid, AllocError> {
        Ok(ActionUid {
            type_name: self.type_name.clone()?,
            id: self.id.clone()?,
        })
    }
}

impl PartialEq for ActionUid {
    ghost use Rattle.cedar_language.specs.Order.{same_uid};
    ghost use Rattle.cedar_literals.specs.Laws.{same_uid_partial_equiv};

    ghost eq = { same_uid };

    ghost laws = { same_uid_partial_equiv };

    fn eq(&self, other: &ActionUid) -> bool {
        self.type_name == other.type_name && self.id == other.id
    }
}

impl Eq for ActionUid {
    ghost use Rattle.cedar_literals.specs.Laws.{same_uid_equiv};

    ghost laws = { same_uid_equiv };
}

impl PartialOrd for ActionUid {
    ghost use Rattle.std.specs.Ordering.{as_partial_cmp};
    ghost use Rattle.cedar_language.specs.Order.{uid_cmp};
    ghost use Rattle.cedar_literals.specs.Laws.{uid_cmp_partial};

    ghost partial_cmp = { as_partial_cmp uid_cmp };

    ghost laws = { uid_cmp_partial };

    fn partial_cmp(&self, other: &ActionUid) -> Option<Ordering> {
        Some(self.cmp(other))
    }
}

impl Ord for ActionUid {
    ghost use Rattle.std.specs.Prelude.{refl};
    ghost use Rattle.cedar_language.specs.Order.{uid_cmp};
    ghost use Rattle.cedar_literals.specs.Laws.{uid_cmp_total, uid_cmp_ties};

    ghost cmp = { uid_cmp };

    ghost total = { uid_cmp_total };

    ghost matches_partial_cmp = { λ x y. refl };

    ghost matches_eq = { uid_cmp_ties };

    fn cmp(&self, other: &ActionUid) -> Ordering {
        self.type_name
            .cmp(&other.type_name)
            .then(self.id.cmp(&other.id))
    }
}

impl fmt::Display for ActionUid {
    fn fmt<W: fmt::Write>(&self, f: &mut fmt::Formatter<W>) -> fmt::Result {
        write!(f, "{}::\"{}\"", self.type_name, self.id)
    }
}
