// The types that are written in a schema, by what its names stand for.
ghost use Rattle.std.specs.Prelude.{◌≡◌, [], ◌∷◌, ◌++◌, IfOk, OnOk};
ghost use Rattle.std.specs.Option.{option_map};
ghost use Rattle.cedar_typing.specs.Types.{Sets, Records};
ghost use Rattle.cedar_schema_grammar.specs.Syntax.{a_record};
ghost use Rattle.cedar_schema_syntax.specs.View as syntax;
ghost use Rattle.cedar_schema.specs.Types.{type_view, fields_of, typed_views};
ghost use Rattle.cedar_schema.specs.Tables.{all_in_order, IsWritten, AreTyped};

use crate::tables::{TypeTable, attributes_by_name};
use crate::types::{AttributeType, SchemaType};
use cedar_names::texts::SharedText;
use cedar_schema_syntax::{Attribute, TypeSyntax};
use std::alloc::{AllocError, Global};
use std::collections::BTreeMap;
use std::rc::Rc;

// The sets of a type, if that is known.
#[tactic(auto, using(crate::proofs::TypeViews::set_view))]
fn set_of(alloc: Global, element: Option<SchemaType>) -> Result<Option<SchemaType>, AllocError>
    ensures { IfOk result (λ o. option_map type_view o ≡ option_map Sets (option_map type_view element)) }
{
    match element {
        Some(element) => Ok(Some(SchemaType::Set(Rc::new(alloc, element)?))),
        None => Ok(None),
    }
}

// The records of attributes, if their types are known and none stands twice.
#[tactic(auto, using(crate::proofs::TypeViews::record_view))]
fn record_of(
    alloc: Global,
    typed: Option<Vec<(SharedText, AttributeType)>>,
) -> Result<Option<SchemaType>, AllocError>
    ensures { IfOk result (λ o. option_map type_view o
        ≡ option_map Records (all_in_order (option_map typed_views typed))) }
{
    let Some(typed) = typed else {
        return Ok(None);
    };
    match attributes_by_name(alloc, typed)? {
        Some(attributes) => Ok(Some(SchemaType::Record(Rc::new(alloc, attributes)?))),
        None => Ok(None),
    }
}

// Puts an attribute behind those whose types are known.
fn push_typed(
    typed: &mut Vec<(SharedText, AttributeType)>,
    attribute: &Attribute,
    schema_type: SchemaType,
) -> Result<(), AllocError>
    ensures { OnOk result (typed_views typed.new ≡ typed_views typed.old
        ++ (syntax.name_view attribute.now.name, record { presence = syntax.presence_view attribute.now.presence; type = type_view schema_type }) ∷ []) }
{
    let name = SharedText::new(attribute.name.text.clone()?);
    let presence = attribute.presence;
    typed.push((
        name,
        AttributeType {
            presence,
            schema_type,
        },
    ))?;
    Ok(())
}

impl TypeTable {
    /// The type that is written in a namespace: none where a name in it stands for nothing, or for a common type that isn't
    /// known yet, or where a record has an attribute twice. It recurs as deep as the text nests. Refused for memory alone.
    #[cycle(written_type)]
    pub fn written_type(
        &self,
        alloc: Global,
        namespace: &[SharedText],
        written: &TypeSyntax,
    ) -> Result<Option<SchemaType>, AllocError>
        ensures { IfOk result (λ o. IsWritten self.now namespace.now (syntax.type_view written.now) (option_map type_view o)) }
    {
        match written {
            TypeSyntax::Named(path) => self.named_type(alloc, namespace, path),
            TypeSyntax::Set(element) => {
                let element = self.written_type(alloc, namespace, element)?;
                set_of(alloc, element)
            }
            TypeSyntax::Record(attributes) => {
                let typed = self.typed_attributes(alloc, namespace, attributes)?;
                record_of(alloc, typed)
            }
        }
    }

    /// The attributes of a record that is written in a namespace, as `written_type` has them.
    pub fn written_attributes(
        &self,
        alloc: Global,
        namespace: &[SharedText],
        attributes: &[Attribute],
    ) -> Result<Option<BTreeMap<SharedText, AttributeType>>, AllocError>
        ensures { IfOk result (λ o. IsWritten self.now namespace.now (a_record (syntax.attributes_view attributes.now))
            (option_map (λ m. Records (fields_of m)) o)) }
    {
        match self.typed_attributes(alloc, namespace, attributes)? {
            Some(typed) => attributes_by_name(alloc, typed),
            None => Ok(None),
        }
    }

    // The attributes of a record as they are written, each with its type, if all have one.
    #[cycle(written_type)]
    fn typed_attributes(
        &self,
        alloc: Global,
        namespace: &[SharedText],
        attributes: &[Attribute],
    ) -> Result<Option<Vec<(SharedText, AttributeType)>>, AllocError>
        ensures { IfOk result (λ o. AreTyped self.now namespace.now (syntax.attributes_view attributes.now)
            (option_map typed_views o)) }
    {
        let mut typed = Vec::new(alloc);
        for attribute in attributes {
            match self.written_type(alloc, namespace, &attribute.written)? {
                Some(schema_type) => push_typed(&mut typed, attribute, schema_type)?,
                None => return Ok(None),
            }
        }
        Ok(Some(typed))
    }
}
