// Why no table is made.
ghost use Rattle.std.specs.Prelude.{◌≡◌};
ghost use Rattle.cedar_literals.specs.Types.{value_type_of};
ghost use Rattle.cedar_extensions.specs.TableRefusals.{name_repeated, type_repeated};

use crate::functions::SchemaType;
use cedar_names::names::Name;
use std::alloc::AllocError;
use thiserror::Error;

/// Two functions of a table have one name, or one has that of the language's own constructor of extension
/// values.
#[derive(Debug, PartialEq, Eq, Clone, Drop, Error)]
#[error("extension function `{name}` is defined multiple times")]
pub struct FuncMultiplyDefinedError {
    name: Name,
}

impl FuncMultiplyDefinedError {
    /// The error of the name that is defined twice.
    pub fn new(name: Name) -> FuncMultiplyDefinedError
        ensures { name_repeated result ≡ name }
    {
        FuncMultiplyDefinedError { name }
    }
}

/// Two functions of a table make values of one extension type from one text.
#[derive(Debug, PartialEq, Eq, Clone, Drop, Error)]
#[error("multiple extension constructors for the same extension type {return_type}")]
pub struct MultipleConstructorsSameSignatureError {
    return_type: SchemaType,
}

impl MultipleConstructorsSameSignatureError {
    /// The error of the type of which two functions make values.
    pub fn new(return_type: SchemaType) -> MultipleConstructorsSameSignatureError
        ensures { type_repeated result ≡ value_type_of return_type }
    {
        MultipleConstructorsSameSignatureError { return_type }
    }
}

/// Why no table is made of extensions: a name is defined twice, two functions make values of one extension
/// type, or memory ran out.
#[derive(Debug, PartialEq, Eq, Clone, Drop, Error)]
pub enum ExtensionInitializationError {
    /// Two functions have one name, or one has that of the language's own constructor.
    #[error(transparent)]
    FuncMultiplyDefined(FuncMultiplyDefinedError),
    /// Two functions make values of one extension type.
    #[error(transparent)]
    MultipleConstructorsSameSignature(MultipleConstructorsSameSignatureError),
    /// Memory ran out.
    #[error(transparent)]
    Memory(AllocError),
}

impl From<FuncMultiplyDefinedError> for ExtensionInitializationError {
    ghost use Rattle.cedar_extensions.specs.declared.table_errors.ExtensionInitializationError.TheVariants.{FuncMultiplyDefined};

    ghost from_gives = { λ error made. made ≡ FuncMultiplyDefined error };

    fn from(error: FuncMultiplyDefinedError) -> ExtensionInitializationError {
        ExtensionInitializationError::FuncMultiplyDefined(error)
    }
}

impl From<MultipleConstructorsSameSignatureError> for ExtensionInitializationError {
    ghost use Rattle.cedar_extensions.specs.declared.table_errors.ExtensionInitializationError.TheVariants.{MultipleConstructorsSameSignature};

    ghost from_gives = { λ error made. made ≡ MultipleConstructorsSameSignature error };

    fn from(error: MultipleConstructorsSameSignatureError) -> ExtensionInitializationError {
        ExtensionInitializationError::MultipleConstructorsSameSignature(error)
    }
}

impl From<AllocError> for ExtensionInitializationError {
    ghost use Rattle.cedar_extensions.specs.declared.table_errors.ExtensionInitializationError.TheVariants.{Memory};

    ghost from_gives = { λ error made. made ≡ Memory error };

    fn from(error: AllocError) -> ExtensionInitializationError {
        ExtensionInitializationError::Memory(error)
    }
}
