// Extension functions.
ghost use Rattle.std.specs.Prelude.{◌≡◌, ℕ, [], ◌∷◌, length, IfOk, IfErr, map, Option, Some, None, is_none, option_map, true, false};
ghost use Rattle.std.specs.Option.{option_copied};
ghost use Rattle.cedar_language.specs.Order.{all_of};
ghost use Rattle.cedar_language.specs.Operators.{called, or_fails};
ghost use Rattle.cedar_language.specs.Value as language;
ghost use Rattle.cedar_language.specs.Value.{a_value, no_values, FailedExtensionFunctionExecution};
ghost use Rattle.cedar_literals.specs.Types.{value_type_of};
ghost use Rattle.cedar_grammar.specs.Functions.{one_string, unknown_function};
ghost use Rattle.cedar_extensions.specs.Causes.{cause_of};
ghost use Rattle.cedar_extensions.specs.Giving.{Gives};
ghost use Rattle.cedar_extensions.specs.Failures.{OfKind, failure_of};
ghost use Rattle.cedar_extensions.specs.Functions.{function_name, function_style, style_of, arity_of, meaning_of, answers_of, is_unknown, returned_type, argument_types, is_single_argument_constructor, extension_type_of, output_value, IsOtherCount, IsOutput, TellsOfCall, string_value};

use crate::evaluation_error::EvaluationError;
use crate::objects::{CallError, ExtensionFunctionObject, NoFunction};
use cedar_literals::types::Type;
use cedar_names::names::Name;
use cedar_trees::unknowns::Unknown;
use cedar_values::values::Value;
use std::alloc::{AllocError, Global};
use std::fmt;
use std::rc::RcStr;

/// A type as extension functions state it.
pub type SchemaType = Type;

/// How a function is called. (Cedar language reference, "Operators and functions".)
#[derive(Clone, Copy, Debug, PartialEq, Eq)]
pub enum CallStyle {
    /// By its name before all its arguments.
    FunctionStyle,
    /// By its name behind its first argument.
    MethodStyle,
}

/// What a call of an extension function gives: a value, or, from the built-in function `unknown` alone,
/// an unknown. `==` looks past a value's place.
#[derive(Debug, PartialEq, Eq, Clone, Drop)]
pub enum ExtensionOutputValue {
    /// A value.
    Known(Value),
    /// A value that isn't known yet.
    Unknown(Unknown),
}

impl From<Value> for ExtensionOutputValue {
    ghost use Rattle.std.specs.Prelude.{◌≡◌};
    ghost use Rattle.cedar_extensions.specs.declared.functions.ExtensionOutputValue.TheVariants.{Known};

    ghost from_gives = { λ value made. made ≡ Known value };

    fn from(value: Value) -> ExtensionOutputValue {
        ExtensionOutputValue::Known(value)
    }
}

// A caller's function, and how many arguments it takes, or none where it takes any number.
#[derive(Drop)]
pub(crate) struct CallersFunction<F> {
    takes: Option<usize>,
    object: F,
}

/// What a function does.
#[derive(Drop)]
enum Function<F> {
    /// It names an unknown.
    Unknown,
    /// It calls the caller's function.
    Callers(CallersFunction<F>),
}

/// A function that expressions call by its name: the built-in one, or a caller's, which is an `F`.
/// Contracts see what it does as the definitions have functions, through `meaning_of`.
#[derive(Drop)]
pub struct ExtensionFunction<F = NoFunction> {
    name: Name,
    style: CallStyle,
    function: Function<F>,
    return_type: Option<SchemaType>,
    arg_types: Vec<SchemaType>,
}

impl<F> fmt::Debug for ExtensionFunction<F> {
    fn fmt<W: fmt::Write>(&self, f: &mut fmt::Formatter<W>) -> fmt::Result {
        let name = &self.name;
        write!(f, "<extension function {name}>")
    }
}

impl<F: Drop> ExtensionFunction<F> {
    /// The built-in function, which names an unknown by the text that it is given. Refused for memory
    /// alone.
    pub fn partial_eval_unknown(
        alloc: Global,
        name: Name,
        style: CallStyle,
        arg_type: SchemaType,
    ) -> Result<ExtensionFunction<F>, AllocError>
        ensures unknown { IfOk result (λ function. is_unknown function ≡ true) }
        ensures name { IfOk result (λ function. function_name function ≡ name) }
        ensures style { IfOk result (λ function. function_style function ≡ style_of style) }
        ensures arguments { IfOk result (λ function. argument_types function ≡ value_type_of arg_type ∷ []) }
        ensures untyped { IfOk result (λ function. returned_type function ≡ None) }
    {
        Ok(ExtensionFunction {
            name,
            style,
            function: Function::Unknown,
            return_type: None,
            arg_types: vec![in alloc; arg_type]?,
        })
    }
}

impl<F> ExtensionFunction<F> {
    /// Its name, by which expressions call it and tables find it.
    pub fn name(&self) -> &Name
        ensures { result.now ≡ function_name self.now }
    {
        &self.name
    }

    /// How it is called: by its name before all arguments, or behind the first one.
    pub fn style(&self) -> CallStyle
        ensures { style_of result ≡ function_style self.now }
    {
        self.style
    }

    /// The type of its values, where it gives values of one type.
    pub fn return_type(&self) -> Option<&SchemaType>
        ensures { option_copied result ≡ returned_type self.now }
    {
        self.return_type.as_ref()
    }

    /// The types of its arguments, in order.
    pub fn arg_types(&self) -> &[SchemaType]
        ensures { map value_type_of result.now ≡ argument_types self.now }
    {
        self.arg_types.as_slice()
    }

    /// How many arguments it takes, or none where it takes any number.
    pub fn arity(&self) -> Option<usize>
        ensures { result ≡ arity_of self.now }
    {
        match &self.function {
            Function::Unknown => Some(1),
            Function::Callers(function) => function.takes,
        }
    }

    /// Whether it takes any number of arguments.
    pub fn is_variadic(&self) -> bool
        ensures { result ≡ is_none (arity_of self.now) }
    {
        self.arity().is_none()
    }

    /// Whether it makes values of an extension type from one text, and is no method.
    pub fn is_single_arg_constructor(&self) -> bool
        ensures { result ≡ is_single_argument_constructor self.now }
    {
        match (&self.return_type, self.style, self.arg_types.as_slice()) {
            (Some(Type::Extension { .. }), CallStyle::FunctionStyle, [argument]) => {
                matches!(argument, Type::String)
            }
            _ => false,
        }
    }

    /// The extension type of which it gives values, if there is one.
    pub fn ext_types(&self) -> Option<&Name>
        ensures { option_copied result ≡ extension_type_of self.now }
    {
        match &self.return_type {
            Some(Type::Extension { name }) => Some(name),
            _ => None,
        }
    }

    /// Whether it is the built-in function that names an unknown.
    pub fn is_unknown(&self) -> bool
        ensures { result ≡ is_unknown self.now }
    {
        match &self.function {
            Function::Unknown => true,
            Function::Callers(_) => false,
        }
    }

    fn call_unknown(
        &self,
        alloc: Global,
        args: &[Value],
    ) -> Result<ExtensionOutputValue, EvaluationError>
        ensures meaning { Gives output_value ⊥ result (called (Some unknown_function) (all_of args.now)) }
        ensures unknown { IfOk result (IsOutput true) }
        ensures refusal { IfErr result (λ error. TellsOfCall (function_name self.now)
            unknown_function.takes (length args.now) (cause_of error)) }
    {
        if args.len() != 1 {
            let name = self.name.clone(alloc)?;
            let actual = args.len();
            return Err(EvaluationError::wrong_num_arguments(name, 1, actual, None));
        }
        match text_of(&args[0]) {
            Some(text) => Ok(ExtensionOutputValue::Unknown(Unknown::new_untyped(text.clone()?))),
            None => Err(self.no_text(alloc)?),
        }
    }

    // What it was given is no text.
    fn no_text(&self, alloc: Global) -> Result<EvaluationError, AllocError>
        ensures kind { IfOk result (λ error. failure_of error ≡ OfKind FailedExtensionFunctionExecution) }
        ensures refusal { IfOk result (λ error. (taken : Option ℕ) (given : ℕ) →
            TellsOfCall (function_name self.now) taken given (cause_of error)) }
    {
        let name = self.name.clone(alloc)?;
        let msg = String::from_str(alloc, "the name of an unknown is a string")?;
        Ok(EvaluationError::failed_extension_function_application(name, msg, None))
    }
}

impl<F: ExtensionFunctionObject> ExtensionFunction<F> {
    /// A function of no argument, and the type of its values.
    pub fn nullary(
        alloc: Global,
        name: Name,
        style: CallStyle,
        function: F,
        return_type: SchemaType,
    ) -> ExtensionFunction<F>
        ensures meaning { meaning_of F.answers result ≡ record { takes = Some 0; answer = (F.answers function).given } }
        ensures other { is_unknown result ≡ false }
        ensures name { function_name result ≡ name }
        ensures style { function_style result ≡ style_of style }
        ensures typed { returned_type result ≡ Some return_type }
        ensures arguments { argument_types result ≡ [] }
    {
        ExtensionFunction {
            name,
            style,
            function: Function::Callers(CallersFunction {
                takes: Some(0),
                object: function,
            }),
            return_type: Some(return_type),
            arg_types: Vec::new(alloc),
        }
    }

    /// A function of one argument, and the types of its values and of the argument. Refused for memory
    /// alone.
    pub fn unary(
        alloc: Global,
        name: Name,
        style: CallStyle,
        function: F,
        return_type: SchemaType,
        arg_type: SchemaType,
    ) -> Result<ExtensionFunction<F>, AllocError>
        ensures meaning { IfOk result (λ made. meaning_of F.answers made ≡ record { takes = Some 1; answer = (F.answers function).given }) }
        ensures other { IfOk result (λ made. is_unknown made ≡ false) }
        ensures name { IfOk result (λ made. function_name made ≡ name) }
        ensures style { IfOk result (λ made. function_style made ≡ style_of style) }
        ensures typed { IfOk result (λ made. returned_type made ≡ Some return_type) }
        ensures arguments { IfOk result (λ made. argument_types made ≡ value_type_of arg_type ∷ []) }
    {
        Ok(ExtensionFunction {
            name,
            style,
            function: Function::Callers(CallersFunction {
                takes: Some(1),
                object: function,
            }),
            return_type: Some(return_type),
            arg_types: vec![in alloc; arg_type]?,
        })
    }

    /// A function of two arguments, and the types of its values and of these. Refused for memory alone.
    pub fn binary(
        alloc: Global,
        name: Name,
        style: CallStyle,
        function: F,
        return_type: SchemaType,
        arg_types: (SchemaType, SchemaType),
    ) -> Result<ExtensionFunction<F>, AllocError>
        ensures meaning { IfOk result (λ made. meaning_of F.answers made ≡ record { takes = Some 2; answer = (F.answers function).given }) }
        ensures other { IfOk result (λ made. is_unknown made ≡ false) }
        ensures name { IfOk result (λ made. function_name made ≡ name) }
        ensures style { IfOk result (λ made. function_style made ≡ style_of style) }
        ensures typed { IfOk result (λ made. returned_type made ≡ Some return_type) }
        ensures arguments { IfOk result (λ made. argument_types made ≡ value_type_of arg_types.0 ∷ value_type_of arg_types.1 ∷ []) }
    {
        Ok(ExtensionFunction {
            name,
            style,
            function: Function::Callers(CallersFunction {
                takes: Some(2),
                object: function,
            }),
            return_type: Some(return_type),
            arg_types: vec![in alloc; arg_types.0, arg_types.1]?,
        })
    }

    /// A function of three arguments, and the types of its values and of these. Refused for memory alone.
    pub fn ternary(
        alloc: Global,
        name: Name,
        style: CallStyle,
        function: F,
        return_type: SchemaType,
        arg_types: (SchemaType, SchemaType, SchemaType),
    ) -> Result<ExtensionFunction<F>, AllocError>
        ensures meaning { IfOk result (λ made. meaning_of F.answers made ≡ record { takes = Some 3; answer = (F.answers function).given }) }
        ensures other { IfOk result (λ made. is_unknown made ≡ false) }
        ensures name { IfOk result (λ made. function_name made ≡ name) }
        ensures style { IfOk result (λ made. function_style made ≡ style_of style) }
        ensures typed { IfOk result (λ made. returned_type made ≡ Some return_type) }
        ensures arguments { IfOk result (λ made. argument_types made ≡ value_type_of arg_types.0 ∷ value_type_of arg_types.1 ∷ value_type_of arg_types.2 ∷ []) }
    {
        Ok(ExtensionFunction {
            name,
            style,
            function: Function::Callers(CallersFunction {
                takes: Some(3),
                object: function,
            }),
            return_type: Some(return_type),
            arg_types: vec![in alloc; arg_types.0, arg_types.1, arg_types.2]?,
        })
    }

    /// A function of any number of arguments, and the types of its values and of these.
    pub fn variadic(
        name: Name,
        style: CallStyle,
        function: F,
        return_type: SchemaType,
        arg_types: Vec<SchemaType>,
    ) -> ExtensionFunction<F>
        ensures meaning { meaning_of F.answers result ≡ record { takes = None; answer = (F.answers function).given } }
        ensures other { is_unknown result ≡ false }
        ensures name { function_name result ≡ name }
        ensures style { function_style result ≡ style_of style }
        ensures typed { returned_type result ≡ Some return_type }
        ensures arguments { argument_types result ≡ map value_type_of arg_types.items }
    {
        ExtensionFunction {
            name,
            style,
            function: Function::Callers(CallersFunction {
                takes: None,
                object: function,
            }),
            return_type: Some(return_type),
            arg_types: arg_types,
        }
    }

    /// Calls it. The built-in function gives the unknown of the text that it is given; every other
    /// function gives values alone.
    ///
    /// It is refused `WrongNumArguments` for another number of arguments than the function takes,
    /// `FailedExtensionFunctionExecution` where the function has no answer, as the built-in one for
    /// anything but a text, and `Memory`.
    pub fn call(
        &self,
        alloc: Global,
        args: &[Value],
    ) -> Result<ExtensionOutputValue, EvaluationError>
        ensures meaning { Gives output_value ⊥ result (called (Some (meaning_of F.answers self.now)) (all_of args.now)) }
        ensures unknown { IfOk result (IsOutput (is_unknown self.now)) }
        ensures refusal { IfErr result (λ error. TellsOfCall (function_name self.now)
            (arity_of self.now) (length args.now) (cause_of error)) }
    {
        match &self.function {
            Function::Unknown => self.call_unknown(alloc, args),
            Function::Callers(function) => function.call(alloc, &self.name, args),
        }
    }
}

impl<F> CallersFunction<F> {
    // How many arguments it takes, where that isn't so many.
    fn other_count(&self, actual: usize) -> Option<usize>
        ensures { IsOtherCount self.now.takes actual result }
    {
        let expected = self.takes?;
        if expected == actual {
            None
        } else {
            Some(expected)
        }
    }
}

impl<F: ExtensionFunctionObject> CallersFunction<F> {
    fn call(
        &self,
        alloc: Global,
        name: &Name,
        args: &[Value],
    ) -> Result<ExtensionOutputValue, EvaluationError>
        ensures meaning { Gives output_value ⊥ result (called (Some (answers_of F.answers self.now)) (all_of args.now)) }
        ensures unknown { IfOk result (IsOutput false) }
        ensures refusal { IfErr result (λ error. TellsOfCall name.now
            (answers_of F.answers self.now).takes (length args.now) (cause_of error)) }
    {
        let actual = args.len();
        match self.other_count(actual) {
            Some(expected) => {
                let name = name.clone(alloc)?;
                Err(EvaluationError::wrong_num_arguments(name, expected, actual, None))
            }
            None => match self.object.call(alloc, args) {
                Ok(value) => Ok(ExtensionOutputValue::Known(value)),
                Err(CallError::NoAnswer(msg)) => {
                    let name = name.clone(alloc)?;
                    Err(EvaluationError::failed_extension_function_application(name, msg, None))
                }
                Err(CallError::Memory(error)) => Err(EvaluationError::from(error)),
            },
        }
    }
}

// The text that a value is.
fn text_of(value: &Value) -> Option<&RcStr>
    ensures { one_string (a_value value.now no_values) ≡ option_map string_value (option_copied result) }
{
    value.as_string()
}
