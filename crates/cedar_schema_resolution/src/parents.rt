// The types that entities may be within.
ghost use Rattle.std.specs.Prelude.{◌≡◌, [], ◌++◌, Some, None, cond, map, IfOk, OnOk, option_to_list};
ghost use Rattle.std.specs.BTreeMap.{is_at};
ghost use Rattle.cedar_language.specs.Uid.{Name};
ghost use Rattle.cedar_language.specs.Order.{name_cmp};
ghost use Rattle.cedar_schema_grammar.specs.Declared.{Declared};
ghost use Rattle.cedar_schema_grammar.specs.Resolving.{body_parents};
ghost use Rattle.cedar_schema_syntax.specs.View.{path_view, paths_view};
ghost use Rattle.cedar_schema_resolution.specs.Declarations.{entity_view};
ghost use Rattle.cedar_schema_resolution.specs.Parents.{name_at, HaveNames, AreNamesOf, first_named, all_named};

use crate::declarations::{DeclaredEntity, EntityBody};
use cedar_names::texts::SharedText;
use cedar_schema::{Places, TypeName};
use cedar_schema_syntax::Path;
use std::alloc::{AllocError, Global};
use std::collections::BTreeMap;

/// The names of the entity types that are declared.
#[derive(Drop)]
pub struct EntityNames {
    by_name: BTreeMap<TypeName, TypeName>,
}

impl EntityNames {
    /// The names of these. Refused for memory alone.
    pub fn of(alloc: Global, entities: &[DeclaredEntity<'_>]) -> Result<EntityNames, AllocError>
        ensures { IfOk result (HaveNames (map entity_view entities.now)) }
    {
        let mut names = EntityNames::new(alloc);
        for entity in entities {
            names.put(entity.name(alloc)?)?;
        }
        Ok(names)
    }

    // No names.
    fn new(alloc: Global) -> EntityNames
        ensures { (n : Name) → name_at result n ≡ None }
    {
        EntityNames {
            by_name: BTreeMap::new(alloc),
        }
    }

    // Puts a name.
    fn put(&mut self, name: TypeName) -> Result<(), AllocError>
        ensures { OnOk result ((n : Name) → name_at self.new n
            ≡ cond (is_at (name_cmp name) n) (Some name) (name_at self.old n)) }
    {
        let copy = name.clone()?;
        self.by_name.insert(copy, name)?;
        Ok(())
    }

    /// The name of the entity type that a name stands for in a namespace, if one is declared. Refused for memory alone.
    pub fn named(
        &self,
        alloc: Global,
        namespace: &[SharedText],
        path: &Path,
    ) -> Result<Option<TypeName>, AllocError>
        ensures { IfOk result (λ name. name ≡ first_named self.now namespace.now (path_view path.now)) }
    {
        match Places::of(alloc, namespace, path)?.find(&self.by_name) {
            Some(name) => Ok(Some(name.clone()?)),
            None => Ok(None),
        }
    }

    // Puts the name of the entity type that a name stands for, if one is declared.
    fn add_named(
        &self,
        alloc: Global,
        namespace: &[SharedText],
        path: &Path,
        found: &mut Vec<TypeName>,
    ) -> Result<(), AllocError>
        ensures { OnOk result (found.new.items
            ≡ found.old.items ++ option_to_list (first_named self.now namespace.now (path_view path.now))) }
    {
        if let Some(name) = self.named(alloc, namespace, path)? {
            found.push(name)?;
        }
        Ok(())
    }

    /// The names of those that names stand for in a namespace, so far as they are declared. Refused for memory alone.
    pub fn all_named(
        &self,
        alloc: Global,
        namespace: &[SharedText],
        paths: &[Path],
    ) -> Result<Vec<TypeName>, AllocError>
        ensures { IfOk result (λ found. found.items ≡ all_named self.now namespace.now (paths_view paths.now)) }
    {
        let mut found = Vec::new(alloc);
        for path in paths {
            self.add_named(alloc, namespace, path, &mut found)?;
        }
        Ok(found)
    }
}

impl DeclaredEntity<'_> {
    /// The types that its entities may be within, so far as they are declared, by the names of those. Refused for memory alone.
    pub fn parents(&self, alloc: Global, names: &EntityNames) -> Result<Vec<TypeName>, AllocError>
        ensures { IfOk result (λ found. (d : Declared) → AreNamesOf d names.now
            → found.items ≡ body_parents d self.now.namespace (entity_view self.now).body) }
    {
        match self.body {
            EntityBody::Shaped(written) => {
                names.all_named(alloc, self.namespace.words(), &written.parents)
            }
            EntityBody::Listed(_) => Ok(Vec::new(alloc)),
        }
    }
}
