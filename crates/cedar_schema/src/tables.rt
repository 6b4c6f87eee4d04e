// What the names of types stand for.
ghost use Rattle.std.specs.Prelude.{◌≡◌, ◌||◌, Some, None, is_some, cond, IfOk, OnOk, OnErr};
ghost use Rattle.std.specs.Option.{option_map, option_copied};
ghost use Rattle.cedar_language.specs.Order.{name_cmp};
ghost use Rattle.cedar_schema_grammar.specs.Declared.{first_of, places};
ghost use Rattle.cedar_schema_syntax.specs.View.{path_view};
ghost use Rattle.std.specs.BTreeMap.{is_at};
ghost use Rattle.cedar_language.specs.Uid.{Name};
ghost use Rattle.cedar_schema.specs.Types.{type_view, fields_of, typed_views};
ghost use Rattle.cedar_schema.specs.Tables.{entry_at, built_in_at, named_type, in_order};

use crate::names::TypeName;
use crate::places::Places;
use crate::types::{AttributeType, SchemaType};
use cedar_names::texts::SharedText;
use cedar_schema_syntax::Path;
use std::alloc::{AllocError, Global};
use std::collections::BTreeMap;

/// What the names of types stand for, by full names.
#[derive(Drop)]
pub struct TypeTable {
    // The declared types: of an entity type that type, of a common type what it stands for, where that is known.
    declared: BTreeMap<TypeName, Option<SchemaType>>,
    // Those that are built in, also behind `__cedar::`.
    built_in: BTreeMap<TypeName, SchemaType>,
}

// A copy of a type that may be known.
fn share_known(known: &Option<SchemaType>) -> Result<Option<SchemaType>, AllocError>
    ensures { IfOk result (λ copy. option_map type_view copy ≡ option_map type_view known.now) }
{
    match known {
        Some(known) => Ok(Some(known.share()?)),
        None => Ok(None),
    }
}

impl TypeTable {
    /// A table in which no name stands.
    pub fn new(alloc: Global) -> TypeTable
        ensures declared { (n : Name) → entry_at result n ≡ None }
        ensures built_in { (n : Name) → built_in_at result n ≡ None }
    {
        TypeTable {
            declared: BTreeMap::new(alloc),
            built_in: BTreeMap::new(alloc),
        }
    }

    /// Declares a type: with what it is, or, of a common type that isn't resolved yet, without. What stood at the name goes.
    /// Refused for memory alone; nothing changes then.
    pub fn declare(&mut self, name: TypeName, known: Option<SchemaType>) -> Result<(), AllocError>
        ensures declared { OnOk result ((n : Name) → entry_at self.new n
            ≡ cond (is_at (name_cmp name) n) (Some (option_map type_view known)) (entry_at self.old n)) }
        ensures built_in { (n : Name) → built_in_at self.new n ≡ built_in_at self.old n }
        ensures err { OnErr result ((n : Name) → entry_at self.new n ≡ entry_at self.old n) }
    {
        self.declared.insert(name, known)?;
        Ok(())
    }

    /// Puts a built-in type; one that stood at the name goes. Refused for memory alone; nothing changes then.
    pub fn add_built_in(
        &mut self,
        name: TypeName,
        schema_type: SchemaType,
    ) -> Result<(), AllocError>
        ensures built_in { OnOk result ((n : Name) → built_in_at self.new n
            ≡ cond (is_at (name_cmp name) n) (Some (type_view schema_type)) (built_in_at self.old n)) }
        ensures declared { (n : Name) → entry_at self.new n ≡ entry_at self.old n }
        ensures err { OnErr result ((n : Name) → built_in_at self.new n ≡ built_in_at self.old n) }
    {
        self.built_in.insert(name, schema_type)?;
        Ok(())
    }

    // What stands at a declared name, as it is written in a namespace.
    fn declared_at(
        &self,
        alloc: Global,
        namespace: &[SharedText],
        path: &Path,
    ) -> Result<Option<&Option<SchemaType>>, AllocError>
        ensures { IfOk result (λ known. option_map (option_map type_view) (option_copied known)
            ≡ first_of (entry_at self.now) (places namespace.now (path_view path.now))) }
    {
        Ok(Places::of(alloc, namespace, path)?.find(&self.declared))
    }

    /// Whether a type of this full name is declared.
    pub fn declares(&self, name: &TypeName) -> bool
        ensures { result ≡ is_some (entry_at self.now name.now) }
    {
        self.declared.get(name).is_some()
    }

    /// Whether a name stands for a type in a namespace, also for one that isn't known yet. Refused for memory alone.
    pub fn names_type(
        &self,
        alloc: Global,
        namespace: &[SharedText],
        path: &Path,
    ) -> Result<bool, AllocError>
        ensures { IfOk result (λ names. names
            ≡ (is_some (first_of (entry_at self.now) (places namespace.now (path_view path.now)))
            || is_some (built_in_at self.now (path_view path.now)))) }
    {
        if self.declared_at(alloc, namespace, path)?.is_some() {
            return Ok(true);
        }
        Ok(self.built_in_type(alloc, path)?.is_some())
    }

    /// The type that a name stands for in a namespace: what is declared goes before what is built in. None where nothing of
    /// that name is declared, or its type isn't known. (Cedar language reference, "Schema", name resolution.)
    pub fn named_type(
        &self,
        alloc: Global,
        namespace: &[SharedText],
        path: &Path,
    ) -> Result<Option<SchemaType>, AllocError>
        ensures { IfOk result (λ named. option_map type_view named ≡ named_type self.now namespace.now (path_view path.now)) }
    {
        match self.declared_at(alloc, namespace, path)? {
            Some(known) => share_known(known),
            None => self.built_in_type(alloc, path),
        }
    }

    // The built-in type of a name.
    fn built_in_type(&self, alloc: Global, path: &Path) -> Result<Option<SchemaType>, AllocError>
        ensures { IfOk result (λ o. option_map type_view o ≡ built_in_at self.now (path_view path.now)) }
    {
        let name = TypeName::from_path(alloc, path)?;
        match self.built_in.get(&name) {
            Some(built_in) => Ok(Some(built_in.share()?)),
            None => Ok(None),
        }
    }
}

/// Attributes with their types as a record's, which has none twice; none where one is twice there.
pub(crate) fn attributes_by_name(
    alloc: Global,
    typed: Vec<(SharedText, AttributeType)>,
) -> Result<Option<BTreeMap<SharedText, AttributeType>>, AllocError>
    ensures { IfOk result (λ o. option_map fields_of o ≡ in_order (typed_views typed)) }
{
    let mut left = typed;
    let mut by_name = BTreeMap::new(alloc);
    while let Some((name, attribute)) = left.pop() {
        if by_name.insert(name, attribute)?.is_some() {
            return Ok(None);
        }
    }
    Ok(Some(by_name))
}
