// The numbers of common types.
ghost use Rattle.std.specs.Prelude.{◌≡◌, ◌↔◌, [], ◌∷◌, Some, None, IsTrue, cond, map, IfOk, OnOk};
ghost use Rattle.std.specs.BTreeMap.{is_at};
ghost use Rattle.cedar_language.specs.Uid.{Name};
ghost use Rattle.cedar_language.specs.Order.{name_cmp};
ghost use Rattle.cedar_schema_grammar.specs.Declared.{entity_name, type_name};
ghost use Rattle.cedar_schema_syntax.specs.View.{path_view};
ghost use Rattle.cedar_schema_resolution.specs.Declarations.{entity_view, type_view, declared_view};
ghost use Rattle.cedar_schema_resolution.specs.Numbers.{number_at, named_number, HasNone, AreNumbered, AreNumbersOf};

use crate::declarations::{Declarations, DeclaredEntity, DeclaredType};
use cedar_names::texts::SharedText;
use cedar_schema::{Places, TypeName};
use cedar_schema_syntax::Path;
use std::alloc::{AllocError, Global};
use std::collections::BTreeMap;

/// The numbers of common types, by full names: the first's where a name is declared twice. An entity type has none.
#[derive(Drop)]
pub struct CommonNumbers {
    by_name: BTreeMap<TypeName, Option<usize>>,
}

impl CommonNumbers {
    /// The numbers of the common types that are declared. Refused for memory alone.
    pub fn of(alloc: Global, declared: &Declarations<'_>) -> Result<CommonNumbers, AllocError>
        ensures { IfOk result (λ numbers. AreNumbersOf (declared_view declared.now) numbers) }
    {
        let mut numbers = CommonNumbers::new(alloc);
        numbers.add_entities(alloc, &declared.entities)?;
        numbers.add_types(alloc, &declared.types)?;
        Ok(numbers)
    }

    // No numbers.
    fn new(alloc: Global) -> CommonNumbers
        ensures { (n : Name) → number_at result n ≡ None }
    {
        CommonNumbers {
            by_name: BTreeMap::new(alloc),
        }
    }

    // Puts what stands at a name.
    fn put(&mut self, name: TypeName, number: Option<usize>) -> Result<(), AllocError>
        ensures { OnOk result ((n : Name) → number_at self.new n
            ≡ cond (is_at (name_cmp name) n) (Some number) (number_at self.old n)) }
    {
        self.by_name.insert(name, number)?;
        Ok(())
    }

    // Puts that entity types have no numbers.
    fn add_entities(
        &mut self,
        alloc: Global,
        entities: &[DeclaredEntity<'_>],
    ) -> Result<(), AllocError>
        ensures { OnOk result (HasNone (map entity_view entities.now) self.old self.new) }
    {
        for number in (0..entities.len()).rev() {
            self.add_entity(alloc, &entities[number])?;
        }
        Ok(())
    }

    // Puts that an entity type has no number.
    fn add_entity(&mut self, alloc: Global, entity: &DeclaredEntity<'_>) -> Result<(), AllocError>
        ensures { OnOk result (HasNone (entity_view entity.now ∷ []) self.old self.new) }
    {
        let name = entity.name(alloc)?;
        self.put(name, None)?;
        Ok(())
    }

    // Puts the numbers of common types.
    fn add_types(&mut self, alloc: Global, types: &[DeclaredType<'_>]) -> Result<(), AllocError>
        ensures { OnOk result (AreNumbered 0 (map type_view types.now) self.old self.new) }
    {
        for number in (0..types.len()).rev() {
            self.add_type(alloc, &types[number], number)?;
        }
        Ok(())
    }

    // Puts the number of a common type.
    fn add_type(
        &mut self,
        alloc: Global,
        common: &DeclaredType<'_>,
        number: usize,
    ) -> Result<(), AllocError>
        ensures { OnOk result (AreNumbered number (type_view common.now ∷ []) self.old self.new) }
    {
        let name = common.name(alloc)?;
        self.put(name, Some(number))?;
        Ok(())
    }

    /// Whether it is the number of the common type of this name.
    pub fn has(&self, name: &TypeName, number: usize) -> bool
        ensures { IsTrue result ↔ (number_at self.now name.now ≡ Some (Some number)) }
    {
        match self.by_name.get(name) {
            Some(Some(first)) => *first == number,
            _ => false,
        }
    }

    /// The number of the common type that a name stands for in a namespace, if it stands for one. Refused for memory alone.
    pub fn named(
        &self,
        alloc: Global,
        namespace: &[SharedText],
        path: &Path,
    ) -> Result<Option<usize>, AllocError>
        ensures { IfOk result (λ number. number ≡ named_number self.now namespace.now (path_view path.now)) }
    {
        match Places::of(alloc, namespace, path)?.find(&self.by_name) {
            Some(number) => Ok(*number),
            None => Ok(None),
        }
    }
}
