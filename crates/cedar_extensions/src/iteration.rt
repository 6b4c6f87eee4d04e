// Walks over the functions and the names of a table.
ghost use Rattle.std.specs.Prelude.{◌≡◌, [], ◌∷◌, ◌++◌, map};
ghost use Rattle.std.specs.List.{filter_map, flat_map};
ghost use Rattle.std.specs.Slice.Iter.{iter_rest};
ghost use Rattle.cedar_extensions.specs.Functions.{extension_type_of};
ghost use Rattle.cedar_extensions.specs.Holding.{extension_name, extension_functions, ordered_types};
ghost use Rattle.cedar_extensions.specs.Tables.{functions_left, names_left, type_names_left, ordered_left};

use crate::extension::Extension;
use crate::functions::ExtensionFunction;
use crate::objects::NoFunction;
use cedar_names::names::Name;
use std::slice::Iter;

/// The functions of extensions, one extension after the other.
#[derive(Drop)]
pub struct Funcs<'a, F = NoFunction> {
    functions: Iter<'a, ExtensionFunction<F>>,
    extensions: Iter<'a, Extension<F>>,
}

impl<'a, F> Funcs<'a, F> {
    /// Of these extensions.
    pub fn new(extensions: &'a [Extension<F>]) -> Funcs<'a, F>
        ensures { functions_left result ≡ flat_map extension_functions extensions.now }
    {
        Funcs {
            functions: [].iter(),
            extensions: extensions.iter(),
        }
    }

    fn of_extension(extension: &'a Extension<F>) -> Funcs<'a, F>
        ensures { functions_left result ≡ extension_functions extension.now }
    {
        Funcs {
            functions: extension.funcs(),
            extensions: [].iter(),
        }
    }
}

impl<'a, F> Iterator for Funcs<'a, F> {
    type Item = &'a ExtensionFunction<F>;

    ghost use Rattle.std.specs.Iterator.{YieldsFirstBy, item_count};
    ghost use Rattle.cedar_extensions.specs.Tables.{functions_left};

    ghost next_gives = { YieldsFirstBy (λ x. x.now) functions_left };

    ghost remaining = { item_count functions_left };

    fn next(&mut self) -> Option<&'a ExtensionFunction<F>> {
        loop {
            if let Some(function) = self.functions.next() {
                return Some(function);
            }
            self.functions = self.extensions.next()?.funcs();
        }
    }
}

/// The names of extensions.
#[derive(Drop)]
pub struct ExtNames<'a, F = NoFunction> {
    extensions: Iter<'a, Extension<F>>,
}

impl<'a, F> ExtNames<'a, F> {
    /// Of these extensions.
    pub fn new(extensions: &'a [Extension<F>]) -> ExtNames<'a, F>
        ensures { names_left result ≡ map extension_name extensions.now }
    {
        ExtNames {
            extensions: extensions.iter(),
        }
    }
}

impl<'a, F> Iterator for ExtNames<'a, F> {
    type Item = &'a Name;

    ghost use Rattle.std.specs.Iterator.{YieldsFirstBy, item_count};
    ghost use Rattle.cedar_extensions.specs.Tables.{names_left};

    ghost next_gives = { YieldsFirstBy (λ x. x.now) names_left };

    ghost remaining = { item_count names_left };

    fn next(&mut self) -> Option<&'a Name> {
        Some(self.extensions.next()?.name())
    }
}

/// The extension types of which functions give values, one for each such function.
#[derive(Drop)]
pub struct ExtTypes<'a, F = NoFunction> {
    functions: Funcs<'a, F>,
}

impl<'a, F> ExtTypes<'a, F> {
    /// Of the functions of these extensions.
    pub fn new(extensions: &'a [Extension<F>]) -> ExtTypes<'a, F>
        ensures { type_names_left result ≡ filter_map extension_type_of (flat_map extension_functions extensions.now) }
    {
        ExtTypes {
            functions: Funcs::new(extensions),
        }
    }

    /// Of the functions of one extension.
    pub fn of_extension(extension: &'a Extension<F>) -> ExtTypes<'a, F>
        ensures { type_names_left result ≡ filter_map extension_type_of (extension_functions extension.now) }
    {
        ExtTypes {
            functions: Funcs::of_extension(extension),
        }
    }
}

impl<'a, F> Iterator for ExtTypes<'a, F> {
    type Item = &'a Name;

    ghost use Rattle.std.specs.Iterator.{YieldsFirstBy, item_count};
    ghost use Rattle.cedar_extensions.specs.Tables.{type_names_left};

    ghost next_gives = { YieldsFirstBy (λ x. x.now) type_names_left };

    ghost remaining = { item_count type_names_left };

    fn next(&mut self) -> Option<&'a Name> {
        while let Some(function) = self.functions.next() {
            if let Some(name) = function.ext_types() {
                return Some(name);
            }
        }
        None
    }
}

/// The types of extensions whose values `<` and `<=` compare.
#[derive(Drop)]
pub struct OrderedTypes<'a, F = NoFunction> {
    types: Iter<'a, Name>,
    extensions: Iter<'a, Extension<F>>,
}

impl<'a, F> OrderedTypes<'a, F> {
    /// Of these extensions.
    pub fn new(extensions: &'a [Extension<F>]) -> OrderedTypes<'a, F>
        ensures { ordered_left result ≡ flat_map ordered_types extensions.now }
    {
        OrderedTypes {
            types: [].iter(),
            extensions: extensions.iter(),
        }
    }
}

impl<'a, F> Iterator for OrderedTypes<'a, F> {
    type Item = &'a Name;

    ghost use Rattle.std.specs.Iterator.{YieldsFirstBy, item_count};
    ghost use Rattle.cedar_extensions.specs.Tables.{ordered_left};

    ghost next_gives = { YieldsFirstBy (λ x. x.now) ordered_left };

    ghost remaining = { item_count ordered_left };

    fn next(&mut self) -> Option<&'a Name> {
        loop {
            if let Some(name) = self.types.next() {
                return Some(name);
            }
            self.types = self.extensions.next()?.types_with_operator_overloading();
        }
    }
}
