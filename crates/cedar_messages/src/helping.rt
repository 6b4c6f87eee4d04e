// What helps where a text isn't read.
use crate::helping_tokens::{help_of_character, help_of_token};
use crate::helping_words::{help_of_function, help_of_method, help_of_reserved, help_of_variable};
use cedar_names::names::Name;
use cedar_names::places::Loc;
use cedar_parser::err::{Kinds, ParseError, Ref, ToASTErrorKind, ToCSTError};

/// A sentence that helps where a text isn't read for this error, if there is one: what stands at its place in the text,
/// and beside it, decides which. Takes no memory.
pub fn help_of(error: &ParseError, text: &str) -> Option<&'static str> {
    match error {
        ParseError::ToCST(error) => help_of_syntax(error, text),
        ParseError::ToAST(error) => help_of_fault(error.kind(), &error.loc, text),
        ParseError::Depth | ParseError::Memory => None,
    }
}

/// A fault's place in its text.
#[derive(Clone, Copy)]
pub(crate) struct Around<'t> {
    /// What stands before it, without the blanks at its end.
    pub(crate) before: &'t str,
    /// What stands there.
    pub(crate) at: &'t str,
    /// What follows.
    pub(crate) behind: &'t str,
}

impl<'t> Around<'t> {
    fn of(text: &'t str, start: usize, end: usize) -> Option<Around<'t>> {
        let (before, rest) = text.split_at_checked(start)?;
        let (at, behind) = rest.split_at_checked(end.saturating_sub(start))?;
        Some(Around {
            before: before.trim_end(),
            at,
            behind,
        })
    }
}

/// Whether a text ends with a character of a word.
pub(crate) fn ends_with_word(text: &str) -> bool {
    match text.as_bytes().last() {
        Some(b) => b.is_ascii_alphanumeric() || *b == b'_',
        None => false,
    }
}

fn help_of_syntax(error: &ToCSTError, text: &str) -> Option<&'static str> {
    let span = error.primary_source_span()?;
    let around = Around::of(text, span.start, span.end)?;
    let expected = error.expected();
    if span.start < span.end {
        help_of_token(around, expected)
    } else if around.behind.is_empty() {
        help_of_end(expected)
    } else {
        help_of_character(around.behind)
    }
}

/// Where a text ends too early.
fn help_of_end(expected: Kinds) -> Option<&'static str> {
    if expected.meets(Kinds::SEMICOLON) {
        return Some("a policy ends with `;`");
    }
    None
}

fn help_of_fault(kind: &ToASTErrorKind, loc: &Option<Loc>, text: &str) -> Option<&'static str> {
    let around = match loc {
        Some(loc) => Around::of(text, loc.start(), loc.end()),
        None => None,
    };
    match help_of_scope(kind) {
        Some(help) => Some(help),
        None => match help_of_operator(kind) {
            Some(help) => Some(help),
            None => help_of_name(kind, around),
        },
    }
}

/// Of faults of effects, clauses and scopes.
fn help_of_scope(kind: &ToASTErrorKind) -> Option<&'static str> {
    match kind {
        ToASTErrorKind::InvalidEffect(_) => Some("an effect is `permit` or `forbid`"),
        ToASTErrorKind::InvalidCondition(_) => Some("a clause begins with `when` or `unless`"),
        ToASTErrorKind::EmptyClause(_) => Some("a clause has a condition, as in `when { true }`"),
        ToASTErrorKind::DuplicateAnnotation(_) => Some("a policy has an annotation once"),
        ToASTErrorKind::MissingScopeVariable(_) | ToASTErrorKind::IncorrectVariable { .. } => {
            Some("a scope has `principal`, `action` and `resource`, in this order")
        }
        ToASTErrorKind::ExtraScopeElement(_) => {
            Some("a scope has three parts: what else must hold is written in `when { .. }`")
        }
        ToASTErrorKind::InvalidScopeOperator(_) => {
            Some(
                "a scope has `==`, `in` and `is` alone: other conditions are written in `when { .. }`",
            )
        }
        ToASTErrorKind::InvalidActionScopeOperator(_) | ToASTErrorKind::IsInActionScope => {
            Some("an action is compared by `==` or `in`")
        }
        ToASTErrorKind::IsWithEq => Some("behind `==` the entity says its type: leave `is` out"),
        ToASTErrorKind::InvertedIsIn => Some(
            "write `is` first, as in `principal is User in Group::\"g\"`",
        ),
        ToASTErrorKind::InvalidActionType(_) => Some("the type of an action is `Action`"),
        ToASTErrorKind::TypeConstraints => Some(
            "write the type behind `is`, as in `principal is User`",
        ),
        ToASTErrorKind::WrongEntityArgument(argument) => {
            Some(help_of_argument(argument.got, argument.expected.is_left()))
        }
        ToASTErrorKind::WrongNode { expected, got } => Some(help_of_node(*expected, got.as_str())),
        ToASTErrorKind::InvalidSlot(_) => Some("the slots are `?principal` and `?resource`"),
        _ => None,
    }
}

/// Of what a scope compares its variable with: one thing may stand behind `==` for the action, two for the others.
fn help_of_argument(got: Ref, is_action: bool) -> &'static str {
    match (got, is_action) {
        (Ref::Set, true) => "use `in` for a list, as in `action in [Action::\"a\", Action::\"b\"]`",
        (Ref::Set, false) => "a list is written in `when { principal in [..] }`",
        _ => SLOTS,
    }
}

const SLOTS: &str =
    "the slots are `?principal` and `?resource`, and stand behind their own variables";

/// Of what stands where an entity should.
fn help_of_node(expected: &str, got: &str) -> &'static str {
    if got.starts_with('?') {
        if expected == "an entity uid" {
            return "an action can't be a slot";
        }
        return SLOTS;
    }
    if got.ends_with("expression") || got.ends_with("operator") {
        return "conditions are written in `when { .. }`";
    }
    "an entity is written as `User::\"alice\"`"
}

/// Of faults of operators and operands.
fn help_of_operator(kind: &ToASTErrorKind) -> Option<&'static str> {
    match kind {
        ToASTErrorKind::InvalidSingleEq => Some("did you mean `==`?"),
        ToASTErrorKind::AmbiguousOperators => Some(
            "join comparisons by `&&`, as in `1 < a && a < 10`",
        ),
        ToASTErrorKind::UnsupportedDivision | ToASTErrorKind::UnsupportedModulo => {
            Some("numbers are added, subtracted and multiplied, by `+`, `-` and `*`")
        }
        ToASTErrorKind::IntegerLiteralTooLarge(_) => Some(NUMBERS),
        ToASTErrorKind::InvalidPattern(_) => {
            Some(
                "a pattern is written out, as in `like \"x*\"`, where `*` stands for any characters",
            )
        }
        ToASTErrorKind::InvalidIsType(_) => Some("a type has no quotes, as in `principal is User`"),
        ToASTErrorKind::ExpressionConstructionError(_) => Some("a record has a key once"),
        ToASTErrorKind::NonStringIndex => Some(
            "an attribute has quotes there, as in `context[\"name\"]`",
        ),
        ToASTErrorKind::UnsupportedEntityLiterals => Some(
            "an entity is written as `User::\"alice\"`",
        ),
        _ => None,
    }
}

/// How large numbers are.
pub(crate) const NUMBERS: &str = "numbers go from -9223372036854775808 to 9223372036854775807";

/// Of faults of words and names, by what stands around them.
fn help_of_name(kind: &ToASTErrorKind, around: Option<Around<'_>>) -> Option<&'static str> {
    match kind {
        ToASTErrorKind::InvalidScopeVariable(_) => help_of_scope_variable(around?.at),
        ToASTErrorKind::ReservedIdentifier(_) => help_of_reserved(around?),
        ToASTErrorKind::ArbitraryVariable(name) => help_of_variable(name.as_str(), around),
        ToASTErrorKind::InvalidAccess { lhs, field: _ } => help_of_base(lhs),
        ToASTErrorKind::InvalidIndex { lhs, field: _ } => help_of_base(lhs),
        ToASTErrorKind::NoMethods(lhs, _) => help_of_base(lhs),
        ToASTErrorKind::InvalidHasRHS(text) => Some(if text.as_str().contains('-') {
            "a name with `-` has quotes, as in `context has \"user-name\"`"
        } else {
            "behind `has` stands an attribute, or a string"
        }),
        ToASTErrorKind::FunctionCallOnMethod(_) => Some(
            "a method stands behind a value, as in `a.contains(b)`",
        ),
        ToASTErrorKind::MethodCallOnFunction(_) => Some(
            "a function stands before its arguments, as in `ip(a)`",
        ),
        ToASTErrorKind::Unescape(_) => Some(help_of_escape(around?.at)),
        ToASTErrorKind::UnknownMethod { id } => help_of_method(id.as_str()),
        ToASTErrorKind::UnknownFunction { id } => help_of_function(id.basename_as_ref().as_str()),
        _ => None,
    }
}

/// Of a string that has an escape which there is none of, or a carriage return.
fn help_of_escape(string: &str) -> &'static str {
    if string.contains('\r') && !string.contains('\\') {
        return "a carriage return in a string is written `\\r`";
    }
    "the escapes are `\\n`, `\\r`, `\\t`, `\\\\`, `\\0`, `\\'`, `\\\"`, `\\x41`, `\\u{e9}`, and in a pattern `\\*`"
}

/// Of a name whose attribute is read as if it were a variable.
fn help_of_base(name: &Name) -> Option<&'static str> {
    help_of_variable(name.basename_as_ref().as_str(), None)
}

fn help_of_scope_variable(word: &str) -> Option<&'static str> {
    match help_of_variable(word, None) {
        Some(help) if help.starts_with("did you mean") => Some(help),
        _ => Some("the variables of a scope are `principal`, `action` and `resource`"),
    }
}
