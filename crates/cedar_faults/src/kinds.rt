// The kinds of faults.
ghost use Rattle.std.specs.Prelude.{◌≡◌};

use cedar_cst::cst::{Ident, RelOp};
use cedar_literals::operators::UnaryOp;
use cedar_literals::slots::Slot;
use cedar_literals::variables::Var;
use cedar_names::errors::ReservedNameError;
use cedar_names::identifiers::{AnyId, UnreservedId};
use cedar_names::names::Name;
use cedar_policy_parts::{
    ExpectedStaticPolicy, ExpectedTemplate, InvalidActionType, PolicyID, Ref,
    SlotsInConditionClause, WrongEntityArgument,
};
use cedar_tokens::UnescapeError;
use cedar_trees::errors::ExpressionConstructionError;
use either::Either;
use std::error::Error;
use std::fmt;
use std::rc::RcStr;

/// Why a part of a loose tree means nothing.
#[derive(PartialEq, Eq, Drop)]
pub enum ToASTErrorKind {
    /// A template has an id that another one has.
    DuplicateTemplateId(PolicyID),
    /// A policy has an id that another one has.
    DuplicatePolicyId(PolicyID),
    /// A template stands where a static policy should.
    ExpectedStaticPolicy(ExpectedStaticPolicy),
    /// A static policy stands where a template should.
    ExpectedTemplate(ExpectedTemplate),
    /// A key of an annotation stands twice.
    DuplicateAnnotation(AnyId),
    /// A slot stands in a clause. It may, so nothing tells this; callers may match on it still.
    SlotsInConditionClause(SlotsInConditionClause),
    /// The scope lacks this variable.
    MissingScopeVariable(Var),
    /// The scope has more than three parts: this one.
    ExtraScopeElement(RcStr),
    /// What stands where `permit` or `forbid` should.
    InvalidEffect(Ident),
    /// What stands where `when` or `unless` should.
    InvalidCondition(Ident),
    /// What stands where a variable of the scope should.
    InvalidScopeVariable(Ident),
    /// Another variable of the scope should stand there.
    IncorrectVariable {
        /// The variable that should stand there.
        expected: Var,
        /// The variable that stands there.
        got: Var,
    },
    /// The scope compares a principal or a resource by another operator than `==` and `in`.
    InvalidScopeOperator(RelOp),
    /// The scope compares the action by another operator than `==` and `in`.
    InvalidActionScopeOperator(RelOp),
    /// The scope asks for a type of the action.
    IsInActionScope,
    /// The scope compares by `==` behind `is`.
    IsWithEq,
    /// The scope names entities as actions that are none.
    InvalidActionType(InvalidActionType),
    /// A clause holds nothing; how it begins, where that is known.
    EmptyClause(Option<Ident>),
    /// A member is accessed in a way that the grammar has not.
    MembershipInvariantViolation,
    /// The scope has a name behind `:`.
    TypeConstraints,
    /// The scope compares its variable with what it can't be compared with.
    WrongEntityArgument(WrongEntityArgument),
    /// An `in` stands before the `is` that it should follow.
    InvertedIsIn,
    /// A word that the grammar keeps for itself stands where an identifier should.
    ReservedIdentifier(Ident),
    /// What stands where an identifier should is none.
    InvalidIdentifier(RcStr),
    /// A single `=` stands where an operator should.
    InvalidSingleEq,
    /// What should be a string is none.
    InvalidString(RcStr),
    /// A name that is no variable stands alone.
    ArbitraryVariable(RcStr),
    /// What stands where the key of an entry should is neither an identifier nor a string.
    InvalidAttribute(RcStr),
    /// What stands behind `has` is neither attributes nor a string.
    InvalidHasRHS(RcStr),
    /// A name with a namespace stands where an attribute should.
    PathAsAttribute(RcStr),
    /// A method is called as a function.
    FunctionCallOnMethod(UnreservedId),
    /// A function is called as a method.
    MethodCallOnFunction(UnreservedId),
    /// What stands behind `like` is no string.
    InvalidPattern(RcStr),
    /// What stands behind `is` is no name.
    InvalidIsType(RcStr),
    /// Another construct should stand there.
    WrongNode {
        /// What should stand there.
        expected: &'static str,
        /// What stands there.
        got: RcStr,
    },
    /// Two comparisons follow each other without parentheses.
    AmbiguousOperators,
    /// There is no division.
    UnsupportedDivision,
    /// There is no remainder.
    UnsupportedModulo,
    /// The builder of expressions would refuse it.
    ExpressionConstructionError(ExpressionConstructionError),
    /// A number is no long.
    IntegerLiteralTooLarge(u64),
    /// More than four of a sign follow each other.
    UnaryOpLimit(UnaryOp),
    /// A variable is called.
    VariableCall(Var),
    /// A method of a name that is no variable is called.
    NoMethods(Name, UnreservedId),
    /// No method is so called.
    UnknownMethod {
        /// Its name.
        id: UnreservedId,
    },
    /// No function is so called.
    UnknownFunction {
        /// Its name.
        id: Name,
    },
    /// An entity is written by its attributes.
    UnsupportedEntityLiterals,
    /// What is called is no name.
    ExpressionCall,
    /// An attribute of a name that is no variable is accessed.
    InvalidAccess {
        /// The name.
        lhs: Name,
        /// The attribute.
        field: RcStr,
    },
    /// An attribute of a name that is no variable is accessed by its text.
    InvalidIndex {
        /// The name.
        lhs: Name,
        /// The attribute.
        field: RcStr,
    },
    /// What stands between brackets behind an operand is no string.
    NonStringIndex,
    /// A node is empty.
    EmptyNodeInvariantViolation,
    /// A method of the language's own is called with another number of arguments.
    WrongArity {
        /// Its name.
        name: &'static str,
        /// How many arguments it takes.
        expected: usize,
        /// How many it was given.
        got: usize,
    },
    /// A string holds an escape that there is none of.
    Unescape(UnescapeError),
    /// There is no slot so called, or one stands in an expression that is no policy's.
    InvalidSlot(RcStr),
    /// A name holds `__cedar`.
    ReservedNamespace(ReservedNameError),
}

impl fmt::Display for ToASTErrorKind {
    fn fmt<W: fmt::Write>(&self, f: &mut fmt::Formatter<W>) -> fmt::Result {
        match self {
            ToASTErrorKind::DuplicateTemplateId(id) => write!(f, "duplicate template id: {id}"),
            ToASTErrorKind::DuplicatePolicyId(id) => write!(f, "duplicate policy id: {id}"),
            ToASTErrorKind::ExpectedStaticPolicy(error) => write!(f, "{error}"),
            ToASTErrorKind::ExpectedTemplate(error) => write!(f, "{error}"),
            ToASTErrorKind::DuplicateAnnotation(key) => {
                write!(f, "duplicate annotation: @{key}")
            }
            ToASTErrorKind::SlotsInConditionClause(error) => write!(f, "{error}"),
            ToASTErrorKind::InvalidSlot(slot) => {
                write!(f, "`{slot}` is not a valid template slot")
            }
            ToASTErrorKind::InvalidActionType(error) => write!(f, "{error}"),
            ToASTErrorKind::WrongEntityArgument(error) => write!(f, "{error}"),
            ToASTErrorKind::InvalidEffect(word) => write!(f, "invalid policy effect: {word}"),
            ToASTErrorKind::InvalidCondition(word) => {
                write!(f, "invalid policy condition: {word}")
            }
            ToASTErrorKind::EmptyClause(Some(word)) => {
                write!(f, "`{word}` condition clause cannot be empty")
            }
            ToASTErrorKind::EmptyClause(None) => { write!(f, "condition clause cannot be empty") }
            _ => self.fmt_scope(f),
        }
    }
}

/// The text of the fault, as `Display` writes it.
impl fmt::Debug for ToASTErrorKind {
    fn fmt<W: fmt::Write>(&self, f: &mut fmt::Formatter<W>) -> fmt::Result {
        fmt::Display::fmt(self, f)
    }
}

impl Error for ToASTErrorKind {}

impl ToASTErrorKind {
    /// `got` stands where `expected` should.
    pub fn wrong_node(expected: &'static str, got: RcStr) -> ToASTErrorKind
        ensures { result ≡ ToASTErrorKind.WrongNode expected.entry got }
    {
        ToASTErrorKind::WrongNode { expected, got }
    }

    /// The method `name` takes `expected` arguments and was given `got`.
    pub fn wrong_arity(name: &'static str, expected: usize, got: usize) -> ToASTErrorKind
        ensures { result ≡ ToASTErrorKind.WrongArity name.entry expected got }
    {
        ToASTErrorKind::WrongArity {
            name,
            expected,
            got,
        }
    }

    /// The slot stands in a clause that begins with `clause_type`.
    pub fn slots_in_condition_clause(slot: Slot, clause_type: &'static str) -> ToASTErrorKind
        ensures { result ≡ ToASTErrorKind.SlotsInConditionClause (record { slot = slot; clause_type = clause_type.entry }) }
    {
        ToASTErrorKind::SlotsInConditionClause(SlotsInConditionClause { slot, clause_type })
    }

    /// A template with this slot stands where a static policy should.
    pub fn expected_static_policy(slot: Slot) -> ToASTErrorKind
        ensures { result ≡ ToASTErrorKind.ExpectedStaticPolicy (record { slot = slot }) }
    {
        ToASTErrorKind::ExpectedStaticPolicy(ExpectedStaticPolicy { slot })
    }

    /// A static policy stands where a template should.
    pub fn expected_template() -> ToASTErrorKind
        ensures { result ≡ ToASTErrorKind.ExpectedTemplate (record {}) }
    {
        ToASTErrorKind::ExpectedTemplate(ExpectedTemplate)
    }

    /// A scope compares its variable with `got`, and may compare it with `expected` alone.
    pub fn wrong_entity_argument_one_expected(expected: Ref, got: Ref) -> ToASTErrorKind
        ensures { result ≡ ToASTErrorKind.WrongEntityArgument (record { expected = Either.Left expected; got = got }) }
    {
        let expected = Either::Left(expected);
        ToASTErrorKind::WrongEntityArgument(WrongEntityArgument { expected, got })
    }

    /// A scope compares its variable with `got`, and may compare it with `r1` or `r2`.
    pub fn wrong_entity_argument_two_expected(r1: Ref, r2: Ref, got: Ref) -> ToASTErrorKind
        ensures { result ≡ ToASTErrorKind.WrongEntityArgument (record { expected = Either.Right (r1, r2); got = got }) }
    {
        let expected = Either::Right((r1, r2));
        ToASTErrorKind::WrongEntityArgument(WrongEntityArgument { expected, got })
    }

    // The texts of faults of scopes.
    fn fmt_scope<W: fmt::Write>(&self, f: &mut fmt::Formatter<W>) -> fmt::Result {
        match self {
            ToASTErrorKind::MissingScopeVariable(var) => write!(
                f,
                "this policy is missing the `{var}` variable in the scope"
            ),
            ToASTErrorKind::ExtraScopeElement(text) => write!(
                f,
                "this policy has an extra element in the scope: {text}"
            ),
            ToASTErrorKind::InvalidScopeVariable(word) => write!(
                f,
                "found an invalid variable in the policy scope: {word}"
            ),
            ToASTErrorKind::IncorrectVariable { expected, got } => write!(
                f,
                "found the variable `{got}` where the variable `{expected}` must be used"
            ),
            ToASTErrorKind::InvalidScopeOperator(op) => {
                write!(f, "invalid operator in the policy scope: {op}")
            }
            ToASTErrorKind::InvalidActionScopeOperator(op) => write!(
                f,
                "invalid operator in the policy scope for the action: {op}"
            ),
            ToASTErrorKind::IsInActionScope => write!(
                f,
                "`is` cannot appear in the scope's constraint of the action"
            ),
            ToASTErrorKind::IsWithEq => write!(f, "`is` cannot be used together with `==`"),
            ToASTErrorKind::TypeConstraints => write!(
                f,
                "type constraints using `:` are not supported"
            ),
            _ => self.fmt_word(f),
        }
    }

    // The texts of faults of words and names.
    fn fmt_word<W: fmt::Write>(&self, f: &mut fmt::Formatter<W>) -> fmt::Result {
        match self {
            ToASTErrorKind::ReservedIdentifier(word) => {
                write!(f, "this identifier is reserved and cannot be used: {word}")
            }
            ToASTErrorKind::ReservedNamespace(error) => write!(f, "{error}"),
            ToASTErrorKind::InvalidIdentifier(text) => write!(f, "invalid identifier: {text}"),
            ToASTErrorKind::InvalidSingleEq => write!(f, "'=' is not a valid operator in Cedar"),
            ToASTErrorKind::InvalidString(text) => write!(f, "invalid string literal: {text}"),
            ToASTErrorKind::Unescape(error) => write!(f, "{error}"),
            ToASTErrorKind::ArbitraryVariable(name) => write!(f, "invalid variable: {name}"),
            ToASTErrorKind::InvalidAttribute(text) => write!(f, "invalid attribute name: {text}"),
            ToASTErrorKind::InvalidHasRHS(text) => {
                write!(f, "invalid right-hand side of `has`: {text}")
            }
            ToASTErrorKind::PathAsAttribute(name) => write!(
                f,
                "`{name}` cannot be used as an attribute as it contains a namespace"
            ),
            ToASTErrorKind::FunctionCallOnMethod(id) => {
                write!(f, "`{id}` is a method, not a function")
            }
            ToASTErrorKind::MethodCallOnFunction(id) => {
                write!(f, "`{id}` is a function, not a method")
            }
            ToASTErrorKind::UnknownMethod { id } => write!(f, "`{id}` is not a valid method"),
            ToASTErrorKind::UnknownFunction { id } => write!(f, "`{id}` is not a valid function"),
            _ => self.fmt_operator(f),
        }
    }

    // The texts of faults of operators and operands.
    fn fmt_operator<W: fmt::Write>(&self, f: &mut fmt::Formatter<W>) -> fmt::Result {
        match self {
            ToASTErrorKind::InvalidPattern(text) => {
                write!(f, "a pattern must be a string literal, but got `{text}`")
            }
            ToASTErrorKind::InvalidIsType(text) => write!(
                f,
                "right-hand side of `is` must be an entity type, but got `{text}`"
            ),
            ToASTErrorKind::WrongNode { expected, got } => {
                write!(f, "expected {expected}, found {got}")
            }
            ToASTErrorKind::AmbiguousOperators => write!(
                f,
                "multiple relational operators must be used with parentheses"
            ),
            ToASTErrorKind::InvertedIsIn => write!(
                f,
                "when `is` and `in` are used together, `is` must come first"
            ),
            ToASTErrorKind::UnsupportedDivision => write!(f, "division is not supported"),
            ToASTErrorKind::UnsupportedModulo => write!(f, "remainder/modulo is not supported"),
            ToASTErrorKind::ExpressionConstructionError(error) => write!(f, "{error}"),
            ToASTErrorKind::IntegerLiteralTooLarge(number) => {
                write!(f, "integer literal `{number}` is too large")
            }
            ToASTErrorKind::UnaryOpLimit(op) => write!(f, "too many occurrences of `{op}`"),
            ToASTErrorKind::NonStringIndex => write!(
                f,
                "the contents of an index expression must be a string literal"
            ),
            _ => self.fmt_call(f),
        }
    }

    // The texts of faults of calls, accesses and leaves.
    fn fmt_call<W: fmt::Write>(&self, f: &mut fmt::Formatter<W>) -> fmt::Result {
        match self {
            ToASTErrorKind::VariableCall(var) => {
                write!(f, "`{var}(...)` is not a valid function call")
            }
            ToASTErrorKind::NoMethods(name, id) => write!(
                f,
                "attempted to call `{name}.{id}(...)`, but `{name}` does not have any methods"
            ),
            ToASTErrorKind::UnsupportedEntityLiterals => {
                write!(f, "entity literals are not supported")
            }
            ToASTErrorKind::ExpressionCall => write!(
                f,
                "function calls must be of the form `<name>(arg1, arg2, ...)`"
            ),
            ToASTErrorKind::InvalidAccess { lhs, field } => write!(
                f,
                "invalid member access `{lhs}.{field}`, `{lhs}` has no fields or methods"
            ),
            ToASTErrorKind::InvalidIndex { lhs, field } => write!(
                f,
                "invalid indexing expression `{lhs}[\"{field}\"]`, `{lhs}` has no fields"
            ),
            ToASTErrorKind::WrongArity {
                name,
                expected,
                got,
            } => write!(
                f,
                "call to `{name}` requires {expected} argument(s), but got {got}"
            ),
            ToASTErrorKind::MembershipInvariantViolation => {
                write!(f, "a member is accessed in an unknown way")
            }
            _ => write!(f, "a part of the text was not read"),
        }
    }
}
