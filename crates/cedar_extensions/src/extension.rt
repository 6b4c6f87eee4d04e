// Extensions: functions under one name.
ghost use Rattle.std.specs.Prelude.{◌≡◌};
ghost use Rattle.std.specs.List.{filter_map, flat_map};
ghost use Rattle.cedar_extensions.specs.Functions.{extension_type_of};
ghost use Rattle.std.specs.Option.{option_copied};
ghost use Rattle.std.specs.Slice.Iter.{iter_rest};
ghost use Rattle.cedar_extensions.specs.Holding.{extension_name, extension_functions, ordered_types, found_in};
ghost use Rattle.cedar_extensions.specs.Tables.{type_names_left};

use crate::functions::ExtensionFunction;
use crate::iteration::ExtTypes;
use crate::objects::NoFunction;
use cedar_names::names::Name;
use std::fmt;
use std::slice::Iter;

/// An extension: its functions, and those of its types whose values `<` and `<=` compare.
/// (Cedar language reference, "Extension functions".)
#[derive(Drop)]
pub struct Extension<F = NoFunction> {
    name: Name,
    functions: Vec<ExtensionFunction<F>>,
    types_with_operator_overloading: Vec<Name>,
}

impl<F> fmt::Debug for Extension<F> {
    fn fmt<W: fmt::Write>(&self, f: &mut fmt::Formatter<W>) -> fmt::Result {
        let name = &self.name;
        write!(f, "<extension {name}>")
    }
}

impl<F> Extension<F> {
    /// The extension of this name, with these functions and these types that have an order.
    pub fn new(
        name: Name,
        functions: Vec<ExtensionFunction<F>>,
        types_with_operator_overloading: Vec<Name>,
    ) -> Extension<F>
        ensures name { extension_name result ≡ name }
        ensures functions { extension_functions result ≡ functions.items }
        ensures ordered { ordered_types result ≡ types_with_operator_overloading.items }
    {
        Extension {
            name,
            functions,
            types_with_operator_overloading,
        }
    }

    /// Its name, which errors tell; functions are found by their own names.
    pub fn name(&self) -> &Name
        ensures { result.now ≡ extension_name self.now }
    {
        &self.name
    }

    /// Its function of this name; of several the one that stands first.
    pub fn get_func(&self, name: &Name) -> Option<&ExtensionFunction<F>>
        ensures { option_copied result ≡ found_in (extension_functions self.now) name.now }
    {
        find_in(&self.functions, name)
    }

    /// Its functions, in the order in which they were handed in.
    pub fn funcs(&self) -> Iter<'_, ExtensionFunction<F>>
        ensures { iter_rest result ≡ extension_functions self.now }
    {
        self.functions.iter()
    }

    /// The extension types of which its functions give values, one for each such function.
    pub fn ext_types(&self) -> ExtTypes<'_, F>
        ensures { type_names_left result ≡ filter_map extension_type_of (extension_functions self.now) }
    {
        ExtTypes::of_extension(self)
    }

    /// Those of its types whose values `<` and `<=` compare.
    pub fn types_with_operator_overloading(&self) -> Iter<'_, Name>
        ensures { iter_rest result ≡ ordered_types self.now }
    {
        self.types_with_operator_overloading.iter()
    }
}

fn find_in<'a, F>(
    functions: &'a [ExtensionFunction<F>],
    name: &Name,
) -> Option<&'a ExtensionFunction<F>>
    ensures { option_copied result ≡ found_in functions.entry.now name.now }
{
    for function in functions {
        if function.name() == name {
            return Some(function);
        }
    }
    None
}

/// The first function of this name among those of the extensions.
pub(crate) fn find_among<'a, F>(
    extensions: &'a [Extension<F>],
    name: &Name,
) -> Option<&'a ExtensionFunction<F>>
    ensures { option_copied result ≡ found_in (flat_map extension_functions extensions.entry.now) name.now }
{
    for extension in extensions {
        if let Some(function) = extension.get_func(name) {
            return Some(function);
        }
    }
    None
}
