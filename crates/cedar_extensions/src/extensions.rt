// Tables of extensions.
ghost use Rattle.std.specs.Prelude.{◌≡◌, true, None};
ghost use Rattle.std.specs.List.{flat_map};
ghost use Rattle.cedar_language.specs.Constructing.{the_constructor};
ghost use Rattle.cedar_extensions.specs.Holding.{extension_functions, are_named, found_in};

use crate::available::partial_evaluation;
use crate::extension::{Extension, find_among};
use crate::functions::{ExtensionFunction, SchemaType};
use crate::iteration::{ExtNames, ExtTypes, Funcs, OrderedTypes};
use crate::lookups::{ExtensionFunctionLookupError, FuncDoesNotExistError};
use crate::making::{first_repeated, names_taken, types_made};
use crate::objects::{ExtensionFunctionObject, NoFunction};
use crate::table_errors::{
    ExtensionInitializationError, FuncMultiplyDefinedError, MultipleConstructorsSameSignatureError,
};
use cedar_literals::types::Type;
use cedar_names::names::Name;
use cedar_shapes::types::FunctionTypes;
use std::alloc::{AllocError, Global};
use std::fmt;
use std::marker::PhantomData;

/// The extension functions that texts may call and that an evaluation knows: one table for both. Those
/// of a caller's are each an `F`.
/// A function of it is named `unknown` exactly where it is the built-in one, and none is named
/// `extension_value`, as the language's own constructor of extension values is: so each function that a
/// text calls is the one that is evaluated.
/// (Cedar language reference, "Extension functions".)
#[derive(Drop)]
pub struct Extensions<'a, F = NoFunction> {
    extensions: Vec<Extension<F>>,
    lender: PhantomData<&'a ()>,
    pub ghost named: { are_named (flat_map extension_functions extensions.items) ≡ true },
    pub ghost apart: { found_in (flat_map extension_functions extensions.items) the_constructor ≡ None },
}

impl<F> fmt::Debug for Extensions<'_, F> {
    fn fmt<W: fmt::Write>(&self, f: &mut fmt::Formatter<W>) -> fmt::Result {
        fmt::Debug::fmt(&self.extensions, f)
    }
}

impl<'a> Extensions<'a> {
    ghost use Rattle.std.specs.Prelude.{[], IfOk, false};
    ghost use Rattle.cedar_extensions.specs.Holding.{ordered_types};
    ghost use Rattle.cedar_extensions.specs.Lookups.{IsUnknownAlone};
    ghost use Rattle.cedar_extensions.specs.Tables.{extensions_in, functions_in, holds_unknown};

    /// Every extension there is: the one of the built-in `unknown` alone. Refused for memory alone.
    pub fn all_available(alloc: Global) -> Result<Extensions<'a>, AllocError>
        ensures unknown { IfOk result (λ table. holds_unknown table ≡ true) }
        ensures alone { IfOk result (λ table. IsUnknownAlone (functions_in table)) }
        ensures ordered { IfOk result (λ table. flat_map ordered_types (extensions_in table) ≡ []) }
    {
        Ok(Extensions {
            extensions: vec![in alloc; partial_evaluation(alloc)?]?,
            lender: PhantomData,
        })
    }

    /// The table of no extension: no text may call a function there, `unknown` neither. The language's own
    /// constructor stands in no table: a tree that calls `extension_value`, as what is written of an
    /// extension value does, evaluates to the value there too.
    pub fn none(alloc: Global) -> Extensions<'a>
        ensures unknown { holds_unknown result ≡ false }
        ensures functions { functions_in result ≡ [] }
        ensures extensions { extensions_in result ≡ [] }
    {
        Extensions {
            extensions: Vec::new(alloc),
            lender: PhantomData,
        }
    }
}

impl<'a, F: Drop> Extensions<'a, F> {
    ghost use Rattle.cedar_extensions.specs.Making.{MakesTable};

    /// The table of these extensions. Refused `FuncMultiplyDefined` where two of all their functions have
    /// one name, or one has the name `extension_value` of the language's own constructor of extension
    /// values, which is defined before all of them: with the first name that stands before it too. Else
    /// `MultipleConstructorsSameSignature`, likewise, where two functions that aren't methods make values
    /// of one extension type from one text; and `Memory`. Names count as `==` has them, which looks past
    /// their places. Whatever functions a table has, a tree that calls `extension_value` evaluates by the
    /// language's own constructor; no text calls it. (Cedar language reference, "Extension functions".)
    pub fn specific_extensions(
        alloc: Global,
        extensions: Vec<Extension<F>>,
    ) -> Result<Extensions<'a, F>, ExtensionInitializationError>
        requires named { are_named (flat_map extension_functions extensions.items) ≡ true }
        ensures { MakesTable extensions.items result }
    {
        if let Some(name) = first_repeated(alloc, names_taken(alloc, &extensions)?)? {
            let error = FuncMultiplyDefinedError::new(name);
            return Err(ExtensionInitializationError::from(error));
        }
        if let Some(name) = first_repeated(alloc, types_made(alloc, &extensions)?)? {
            let return_type = SchemaType::Extension { name };
            let error = MultipleConstructorsSameSignatureError::new(return_type);
            return Err(ExtensionInitializationError::from(error));
        }
        Ok(Extensions {
            extensions,
            lender: PhantomData,
        })
    }
}

impl<F> Extensions<'_, F> {
    ghost use Rattle.std.specs.Prelude.{map};
    ghost use Rattle.std.specs.List.{filter_map};
    ghost use Rattle.cedar_extensions.specs.Functions.{extension_type_of};
    ghost use Rattle.cedar_extensions.specs.Holding.{extension_name, ordered_types};
    ghost use Rattle.cedar_extensions.specs.Lookups.{Finds};
    ghost use Rattle.cedar_extensions.specs.Tables.{extensions_in, functions_in, holds_unknown, functions_left, names_left, type_names_left, ordered_left};

    /// Whether the built-in `unknown` is among them.
    pub fn holds_unknown(&self) -> bool
        ensures { result ≡ holds_unknown self.now }
    {
        let mut functions = self.all_funcs();
        while let Some(function) = functions.next() {
            if function.is_unknown() {
                return true;
            }
        }
        false
    }

    /// The function of this name, the whole name counting. Refused `FuncDoesNotExist` where there is
    /// none, and `Memory`.
    pub fn func(
        &self,
        alloc: Global,
        name: &Name,
    ) -> Result<&ExtensionFunction<F>, ExtensionFunctionLookupError>
        ensures { Finds (found_in (functions_in self.now) name.now) name.now result }
    {
        if let Some(function) = find_among(&self.extensions, name) {
            return Ok(function);
        }
        let source_loc = match name.loc() {
            None => None,
            Some(loc) => Some(loc.clone(alloc)?),
        };
        let error = FuncDoesNotExistError::new(name.clone(alloc)?, source_loc);
        Err(ExtensionFunctionLookupError::from(error))
    }

    /// All functions, in the order of the extensions.
    pub fn all_funcs(&self) -> Funcs<'_, F>
        ensures { functions_left result ≡ functions_in self.now }
    {
        Funcs::new(&self.extensions)
    }

    /// The names of the extensions, in the order in which they were handed in.
    pub fn ext_names(&self) -> ExtNames<'_, F>
        ensures { names_left result ≡ map extension_name (extensions_in self.now) }
    {
        ExtNames::new(&self.extensions)
    }

    /// The extension types of which functions give values, one for each such function.
    pub fn ext_types(&self) -> ExtTypes<'_, F>
        ensures { type_names_left result ≡ filter_map extension_type_of (functions_in self.now) }
    {
        ExtTypes::new(&self.extensions)
    }

    /// The extension types whose values `<` and `<=` compare.
    pub fn types_with_operator_overloading(&self) -> OrderedTypes<'_, F>
        ensures { ordered_left result ≡ flat_map ordered_types (extensions_in self.now) }
    {
        OrderedTypes::new(&self.extensions)
    }
}

impl<F: ExtensionFunctionObject> Extensions<'_, F> {
    ghost use Rattle.std.specs.Prelude.{IsSome};
    ghost use Rattle.cedar_language.specs.Uid as language;
    ghost use Rattle.cedar_grammar.specs.Functions.{function_of};
    ghost use Rattle.cedar_extensions.specs.Defining.{defined};
    ghost use Rattle.cedar_extensions.specs.Table.{as_table};
    ghost use Rattle.cedar_extensions.specs.Tables.{functions_in, function_called};

    /// What a name calls is what the definitions say of these functions.
    pub fn names_are_defined(&self)
        ensures { (name : language.Name) →
            function_of (defined F.answers (functions_in self.now)) name ≡ function_called F.answers self.now name }
    {}

    /// No function has the name of the language's own constructor of extension values; so each is the one
    /// that its name calls in an evaluation.
    pub fn names_are_apart(&self)
        ensures apart { function_of (defined F.answers (functions_in self.now)) the_constructor ≡ None }
        ensures evaluated { (name : language.Name) → IsSome (function_called F.answers self.now name) →
            (as_table F.answers self.now).function name ≡ function_called F.answers self.now name }
    {}
}

impl<F> FunctionTypes for Extensions<'_, F> {
    ghost use Rattle.cedar_extensions.specs.Tables.{answer_type};

    ghost returns = { answer_type };

    fn return_type(&self, name: &Name) -> Option<&Type> {
        find_among(&self.extensions, name)?.return_type()
    }
}
