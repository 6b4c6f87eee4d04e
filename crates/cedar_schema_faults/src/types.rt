// The faults of types, as they are written.
ghost use Rattle.std.specs.Prelude.{◌≡◌, [], ◌∷◌, OnOk, map, option_map};
ghost use Rattle.cedar_schema_grammar.specs.Syntax.{named, a_record};
ghost use Rattle.cedar_schema_grammar.specs.Faults.{type_faults, attribute_faults, maybe_type_faults, entity_name_faults, faults_of_all};
ghost use Rattle.cedar_schema_syntax.specs.View as syntax;
ghost use Rattle.cedar_schema_faults.specs.Telling.{Tells};

use crate::duplicates::tell_duplicate_attributes;
use crate::kinds::{SchemaError, SchemaErrorKind};
use crate::names::SchemaNames;
use crate::told::tell;
use cedar_names::texts::SharedText;
use cedar_schema::TypeName;
use cedar_schema_syntax::{Attribute, Path, TypeSyntax};
use std::alloc::{AllocError, Global};

impl SchemaNames {
    // Tells a name that stands for no type in a namespace.
    fn tell_undefined(
        &self,
        alloc: Global,
        namespace: &[SharedText],
        path: &Path,
        told: &mut Vec<SchemaError>,
    ) -> Result<(), AllocError>
        ensures { OnOk result (Tells self.now told.old told.new (λ d l. type_faults d l namespace.now (named (syntax.path_view path.now)))) }
    {
        let is_defined = self.table.names_type(alloc, namespace, path)?;
        if is_defined {
            return Ok(());
        }
        let name = TypeName::from_path(alloc, path)?;
        tell(SchemaErrorKind::TypeNotDefined(name), path.place, told)
    }

    /// Tells the faults of a type that is written in a namespace. It recurs as deep as the text nests.
    #[cycle(type_faults)]
    pub fn tell_type(
        &self,
        alloc: Global,
        namespace: &[SharedText],
        written: &TypeSyntax,
        told: &mut Vec<SchemaError>,
    ) -> Result<(), AllocError>
        ensures { OnOk result (Tells self.now told.old told.new (λ d l. type_faults d l namespace.now (syntax.type_view written.now))) }
    {
        match written {
            TypeSyntax::Named(path) => self.tell_undefined(alloc, namespace, path, told),
            TypeSyntax::Set(element) => self.tell_type(alloc, namespace, element, told),
            TypeSyntax::Record(attributes) => {
                tell_duplicate_attributes(alloc, attributes, told)?;
                self.tell_attributes(alloc, namespace, attributes, told)
            }
        }
    }

    // Tells the faults of the types of attributes.
    #[cycle(type_faults)]
    fn tell_attributes(
        &self,
        alloc: Global,
        namespace: &[SharedText],
        attributes: &[Attribute],
        told: &mut Vec<SchemaError>,
    ) -> Result<(), AllocError>
        ensures { OnOk result (Tells self.now told.old told.new (λ d l. attribute_faults d l namespace.now (syntax.attributes_view attributes.now))) }
    {
        for attribute in attributes {
            self.tell_type(alloc, namespace, &attribute.written, told)?;
        }
        Ok(())
    }

    /// Tells the faults of a record that is written in a namespace.
    pub fn tell_record(
        &self,
        alloc: Global,
        namespace: &[SharedText],
        attributes: &[Attribute],
        told: &mut Vec<SchemaError>,
    ) -> Result<(), AllocError>
        ensures { OnOk result (Tells self.now told.old told.new (λ d l. type_faults d l namespace.now (a_record (syntax.attributes_view attributes.now)))) }
    {
        tell_duplicate_attributes(alloc, attributes, told)?;
        self.tell_attributes(alloc, namespace, attributes, told)
    }

    /// Tells the faults of a type that may be written in a namespace.
    pub fn tell_maybe_type(
        &self,
        alloc: Global,
        namespace: &[SharedText],
        written: &Option<TypeSyntax>,
        told: &mut Vec<SchemaError>,
    ) -> Result<(), AllocError>
        ensures { OnOk result (Tells self.now told.old told.new
            (λ d l. maybe_type_faults d l namespace.now (option_map syntax.type_view written.now))) }
    {
        match written {
            Some(written) => self.tell_type(alloc, namespace, written, told),
            None => Ok(()),
        }
    }

    // Tells a name that stands for no entity type in a namespace.
    fn tell_undefined_entity(
        &self,
        alloc: Global,
        namespace: &[SharedText],
        path: &Path,
        told: &mut Vec<SchemaError>,
    ) -> Result<(), AllocError>
        ensures { OnOk result (Tells self.now told.old told.new (λ d l. entity_name_faults d namespace.now (syntax.path_view path.now))) }
    {
        let is_defined = self.entities.named(alloc, namespace, path)?.is_some();
        if is_defined {
            return Ok(());
        }
        let name = TypeName::from_path(alloc, path)?;
        tell(SchemaErrorKind::TypeNotDefined(name), path.place, told)
    }

    /// Tells the names that stand for no entity types in a namespace.
    pub fn tell_undefined_entities(
        &self,
        alloc: Global,
        namespace: &[SharedText],
        paths: &[Path],
        told: &mut Vec<SchemaError>,
    ) -> Result<(), AllocError>
        ensures { OnOk result (Tells self.now told.old told.new
            (λ d l. faults_of_all (entity_name_faults d namespace.now) (syntax.paths_view paths.now))) }
    {
        for path in paths {
            self.tell_undefined_entity(alloc, namespace, path, told)?;
        }
        Ok(())
    }
}
