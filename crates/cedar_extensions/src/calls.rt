// Calls of extension functions that give no value.

ghost use Rattle.std.specs.Prelude.{◌≡◌, IfOk};
ghost use Rattle.std.specs.String.{string_bytes};
ghost use Rattle.cedar_names.specs.Names.{name_text};
ghost use Rattle.cedar_extensions.specs.Causes as causes;
ghost use Rattle.cedar_extensions.specs.Causes.{miscounted, place_miscounted, name_failed};

use cedar_names::names::Name;
use cedar_names::places::Loc;
use std::alloc::{AllocError, Global};
use thiserror::Error;

/// A function was called with another number of arguments than it takes.
#[derive(Debug, PartialEq, Eq, Clone, Drop, Error)]
#[error("wrong number of arguments provided to extension function `{function_name}`: expected {expected}, got {actual}")]
pub struct WrongNumArgumentsError {
    pub(crate) function_name: Name,
    pub(crate) expected: usize,
    pub(crate) actual: usize,
    pub(crate) source_loc: Option<Loc>,
}

impl WrongNumArgumentsError {
    /// The error of a function that takes `expected` arguments and was given `actual`, called at
    /// `source_loc`.
    pub fn new(
        function_name: Name,
        expected: usize,
        actual: usize,
        source_loc: Option<Loc>,
    ) -> WrongNumArgumentsError
        ensures cause { miscounted result ≡ causes.OtherCount function_name expected actual }
        ensures place { place_miscounted result ≡ source_loc }
    {
        WrongNumArgumentsError {
            function_name,
            expected,
            actual,
            source_loc,
        }
    }
}

/// A function was called and said that it has no answer.
#[derive(Debug, PartialEq, Eq, Clone, Drop, Error)]
#[error("error while evaluating `{extension_name}` extension function: {msg}")]
pub struct ExtensionFunctionExecutionError {
    pub(crate) extension_name: Name,
    pub(crate) msg: String,
    pub(crate) source_loc: Option<Loc>,
}

impl ExtensionFunctionExecutionError {
    /// The name of the extension whose function it was; refused for memory alone.
    pub fn extension_name(&self, alloc: Global) -> Result<String, AllocError>
        ensures { IfOk result (λ text. string_bytes text ≡ name_text (name_failed self.now)) }
    {
        self.extension_name.to_string(alloc)
    }
}

impl WrongNumArgumentsError {
    // The same error, met at another place, or at none.
    pub(crate) fn at(self, source_loc: Option<Loc>) -> WrongNumArgumentsError
        ensures { result ≡ record self { source_loc = source_loc } }
    {
        WrongNumArgumentsError { source_loc, ..self }
    }
}

impl ExtensionFunctionExecutionError {
    // The same error, met at another place, or at none.
    pub(crate) fn at(self, source_loc: Option<Loc>) -> ExtensionFunctionExecutionError
        ensures { result ≡ record self { source_loc = source_loc } }
    {
        ExtensionFunctionExecutionError { source_loc, ..self }
    }
}
