// The types that are built in.
ghost use Rattle.std.specs.Prelude.{◌≡◌, [], ◌∷◌, None, codes, IfOk, OnOk, option_map};
ghost use Rattle.cedar_language.specs.Uid.{Name};
ghost use Rattle.cedar_schema_grammar.specs.Declared.{Library, built_in_path};
ghost use Rattle.cedar_schema.specs.Types.{type_view};
ghost use Rattle.cedar_schema.specs.Tables.{entry_at, built_in_at};
ghost use Rattle.cedar_schema_resolution.specs.BuiltIn.{extension_view, HasTypes, IsBuiltIn, AreBuiltIn};
ghost use Rattle.cedar_schema_resolution.specs.Puts.{SameDeclared};

use cedar_names::texts::SharedText;
use cedar_schema::{SchemaType, TypeName, TypeTable};
use std::alloc::{AllocError, Global};
use std::rc::RcStr;

/// An extension type, by its name alone.
#[derive(Drop)]
pub struct ExtensionType {
    pub name: SharedText,
    /// Whether its values have an order.
    pub is_ordered: bool,
}

impl ExtensionType {
    // The type of its values.
    fn schema_type(&self, alloc: Global) -> Result<SchemaType, AllocError>
        ensures { IfOk result (λ t. type_view t ≡ extension_view self.now) }
    {
        let name = name_alone(alloc, &self.name)?;
        Ok(SchemaType::Extension(name, self.is_ordered))
    }
}

// A shared copy of a text.
fn shared(alloc: Global, text: &str) -> Result<SharedText, AllocError>
    ensures { IfOk result (λ copy. copy ≡ text.now) }
{
    Ok(SharedText::new(RcStr::from_str(alloc, text)?))
}

// The name of one word.
fn name_alone(alloc: Global, own: &SharedText) -> Result<TypeName, AllocError>
    ensures { IfOk result (λ name. name ≡ own.now ∷ []) }
{
    let mut words = Vec::new(alloc);
    words.push(own.clone()?)?;
    TypeName::new(alloc, words)
}

// The name of a word behind `__cedar`.
fn name_in_cedar(alloc: Global, own: &SharedText) -> Result<TypeName, AllocError>
    ensures { IfOk result (λ name. name ≡ codes "__cedar" ∷ own.now ∷ []) }
{
    let mut words = Vec::new(alloc);
    words.push(shared(alloc, "__cedar")?)?;
    words.push(own.clone()?)?;
    TypeName::new(alloc, words)
}

// Puts a built-in type under its own name, and behind `__cedar`.
fn put(
    alloc: Global,
    table: &mut TypeTable,
    own: &SharedText,
    schema_type: SchemaType,
) -> Result<(), AllocError>
    ensures built_in { OnOk result (IsBuiltIn own.now (type_view schema_type) table.old table.new) }
    ensures declared { OnOk result (SameDeclared table.old table.new) }
{
    let copy = schema_type.share()?;
    let alone = name_alone(alloc, own)?;
    let in_cedar = name_in_cedar(alloc, own)?;
    table.add_built_in(alone, copy)?;
    table.add_built_in(in_cedar, schema_type)?;
    Ok(())
}

// Puts one of the language's own types.
fn put_own(
    alloc: Global,
    table: &mut TypeTable,
    own: &str,
    schema_type: SchemaType,
) -> Result<(), AllocError>
    ensures built_in { OnOk result (IsBuiltIn own.now (type_view schema_type) table.old table.new) }
    ensures declared { OnOk result (SameDeclared table.old table.new) }
{
    let own = shared(alloc, own)?;
    put(alloc, table, &own, schema_type)
}

// Puts an extension type.
fn put_extension(
    alloc: Global,
    table: &mut TypeTable,
    extension: &ExtensionType,
) -> Result<(), AllocError>
    ensures built_in { OnOk result (IsBuiltIn extension.now.name (extension_view extension.now) table.old table.new) }
    ensures declared { OnOk result (SameDeclared table.old table.new) }
{
    let schema_type = extension.schema_type(alloc)?;
    put(alloc, table, &extension.name, schema_type)
}

// Puts extension types, so that the first of a name stands.
fn put_extensions(
    alloc: Global,
    table: &mut TypeTable,
    extensions: &[ExtensionType],
) -> Result<(), AllocError>
    ensures built_in { OnOk result (AreBuiltIn extensions.now table.old table.new) }
    ensures declared { OnOk result (SameDeclared table.old table.new) }
{
    for number in (0..extensions.len()).rev() {
        put_extension(alloc, table, &extensions[number])?;
    }
    Ok(())
}

/// A table of the built-in types, with these extension types: of two with one name the first. No name is declared in it.
/// Refused for memory alone.
pub(crate) fn built_in_table(
    alloc: Global,
    extensions: &[ExtensionType],
) -> Result<TypeTable, AllocError>
    ensures built_in { IfOk result (λ table. (l : Library) → HasTypes l extensions.now → (n : Name) → built_in_at table n ≡ built_in_path l n) }
    ensures declared { IfOk result (λ table. (n : Name) → entry_at table n ≡ None) }
{
    let mut table = TypeTable::new(alloc);
    put_extensions(alloc, &mut table, extensions)?;
    put_own(alloc, &mut table, "String", SchemaType::String)?;
    put_own(alloc, &mut table, "Long", SchemaType::Long)?;
    put_own(alloc, &mut table, "Bool", SchemaType::Boolean)?;
    Ok(table)
}
