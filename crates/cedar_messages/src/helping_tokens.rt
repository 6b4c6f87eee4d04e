// What helps where tokens are outside the grammar.
use crate::helping::{Around, NUMBERS, ends_with_word};
use cedar_parser::err::Kinds;

/// Where no token begins.
pub(crate) fn help_of_character(behind: &str) -> Option<&'static str> {
    match behind.chars().next()? {
        '\'' => Some("a string has double quotes, as in `\"alice\"`"),
        '\u{201c}' | '\u{201d}' | '\u{201e}' | '\u{2018}' | '\u{2019}' | '\u{ab}' | '\u{bb}' => {
            Some("these are typographic quotes: a string has straight ones, as in `\"alice\"`")
        }
        '"' => Some("this string isn't closed"),
        '&' => Some("did you mean `&&`?"),
        '|' => Some("did you mean `||`?"),
        '?' => Some("write `if .. then .. else ..`"),
        '#' => Some("comments begin with `//`"),
        '\u{feff}' => Some("the text begins with a byte order mark"),
        _ => None,
    }
}

/// Where a token can't stand.
pub(crate) fn help_of_token(around: Around<'_>, expected: Kinds) -> Option<&'static str> {
    match help_of_word(around) {
        Some(help) => Some(help),
        None => match help_of_mark(around, expected) {
            Some(help) => Some(help),
            None => help_of_expected(around, expected),
        },
    }
}

/// By the token alone, or one beside it.
fn help_of_word(around: Around<'_>) -> Option<&'static str> {
    let before = around.before;
    match around.at {
        "and" => Some("did you mean `&&`?"),
        "or" => Some("did you mean `||`?"),
        "equals" => Some("did you mean `==`?"),
        "not" => Some("did you mean `!`?"),
        "=" if before.ends_with("==") => Some("did you mean `==`?"),
        ">" if before.ends_with('<') => Some("did you mean `!=`?"),
        "/" if around.behind.starts_with('*') => Some("comments begin with `//`"),
        _ if is_word(before, "not") => Some("did you mean `!`?"),
        _ => None,
    }
}

/// By the mark, and what was expected.
fn help_of_mark(around: Around<'_>, expected: Kinds) -> Option<&'static str> {
    let before = around.before;
    match around.at {
        "::" => Some("namespaces are joined by `::`, as in `App::User::\"alice\"`"),
        "@" if expected.meets(Kinds::LEFT_PAREN) => Some("annotations stand before the effect"),
        "(" if is_word(before, "permit") || is_word(before, "forbid") => {
            Some("a policy ends with `;`, which is missing before this one")
        }
        "{" if is_word(before, "when") || is_word(before, "unless") => {
            Some(
                "a policy begins with `permit` or `forbid`, and its clauses stand behind its scope",
            )
        }
        "{" if before.is_empty() => Some(
            "a policy is written as `permit(principal, action, resource);`: JSON isn't read",
        ),
        "}" if expected.meets(Kinds::COLON) && !is_of_scope(expected) => Some(
            "an entry of a record is written as `key: value`",
        ),
        ")" | "]" | "}" if expected.meets(Kinds::SEMICOLON) => Some("no bracket is open here"),
        "}" if expected.meets(Kinds::ELSE) => Some("an `if` has an `else`"),
        "." if is_of_scope(expected) => Some("conditions are written in `when { .. }`"),
        _ => None,
    }
}

/// By what was expected.
fn help_of_expected(around: Around<'_>, expected: Kinds) -> Option<&'static str> {
    let before = around.before;
    if expected == Kinds::NONE {
        return Some(NUMBERS);
    }
    if expected == Kinds::LEFT_BRACE && (is_word(before, "when") || is_word(before, "unless")) {
        return Some("a condition has braces, as in `when { true }`");
    }
    if expected == Kinds::STRINGLIT {
        return Some("the value of an annotation has double quotes, as in `@id(\"a\")`");
    }
    if is_fraction(around) {
        return Some("numbers are whole");
    }
    if is_of_scope(expected) && is_variable(around.at) {
        return Some("the parts of a scope have `,` between them");
    }
    None
}

/// Whether this is expected behind a variable of a scope, or what it is compared with.
fn is_of_scope(expected: Kinds) -> bool {
    expected.meets(Kinds::COLON) && expected.meets(Kinds::RIGHT_PAREN)
}

fn is_variable(word: &str) -> bool {
    matches!(word, "principal" | "action" | "resource")
}

/// Whether digits stand behind a point and other digits.
fn is_fraction(around: Around<'_>) -> bool {
    if !is_digit(around.at.as_bytes().first()) {
        return false;
    }
    match around.before.strip_suffix('.') {
        Some(number) => is_digit(number.as_bytes().last()),
        None => false,
    }
}

fn is_digit(b: Option<&u8>) -> bool {
    match b {
        Some(b) => b.is_ascii_digit(),
        None => false,
    }
}

/// Whether a text ends with this word.
fn is_word(text: &str, word: &str) -> bool {
    match text.strip_suffix(word) {
        None => false,
        Some(before) => !ends_with_word(before),
    }
}
