// What helps where a word or a name means nothing.
use crate::helping::{Around, ends_with_word};

/// Words that people write for a word of Cedar's, and it.
const MEANT: [(&str, &str); 14] = [
    ("principle", "did you mean `principal`?"),
    ("principals", "did you mean `principal`?"),
    ("subject", "did you mean `principal`?"),
    ("user", "did you mean `principal`?"),
    ("actions", "did you mean `action`?"),
    ("verb", "did you mean `action`?"),
    ("resources", "did you mean `resource`?"),
    ("ressource", "did you mean `resource`?"),
    ("object", "did you mean `resource`?"),
    ("ctx", "did you mean `context`?"),
    ("env", "did you mean `context`?"),
    (
        "null",
        "there is no null: `has` tests whether an attribute is there",
    ),
    (
        "nil",
        "there is no null: `has` tests whether an attribute is there",
    ),
    (
        "none",
        "there is no null: `has` tests whether an attribute is there",
    ),
];

/// Words of Cedar's, which small letters make of one that is written otherwise.
const SPELLED: [(&str, &str); 6] = [
    ("principal", "did you mean `principal`?"),
    ("action", "did you mean `action`?"),
    ("resource", "did you mean `resource`?"),
    ("context", "did you mean `context`?"),
    ("true", "did you mean `true`?"),
    ("false", "did you mean `false`?"),
];

/// Methods, and what is said where one is written in other letters.
const METHODS: [(&str, &str); 6] = [
    ("contains", "did you mean `contains`?"),
    ("containsall", "did you mean `containsAll`?"),
    ("containsany", "did you mean `containsAny`?"),
    ("isempty", "did you mean `isEmpty`?"),
    ("hastag", "did you mean `hasTag`?"),
    ("gettag", "did you mean `getTag`?"),
];

/// Methods of Cedar's extension types.
const EXTENSION_METHODS: [&str; 18] = [
    "lessThan",
    "lessThanOrEqual",
    "greaterThan",
    "greaterThanOrEqual",
    "isIpv4",
    "isIpv6",
    "isLoopback",
    "isMulticast",
    "isInRange",
    "offset",
    "durationSince",
    "toDate",
    "toTime",
    "toMilliseconds",
    "toSeconds",
    "toMinutes",
    "toHours",
    "toDays",
];

const FUNCTIONS: [&str; 4] = ["ip", "decimal", "datetime", "duration"];

/// Words by which other languages look into texts.
const TEXT_TESTS: [&str; 9] = [
    "startswith",
    "endswith",
    "starts_with",
    "ends_with",
    "includes",
    "matches",
    "match",
    "regex",
    "indexof",
];

const LIKE: &str = "use `like`, as in `name like \"x*\"`, where `*` stands for any characters";

/// Of a name that is no variable.
pub(crate) fn help_of_variable(name: &str, around: Option<Around<'_>>) -> Option<&'static str> {
    if let Some(around) = around {
        if is_behind_hyphen(around) {
            return Some("a name with `-` is written as `context[\"user-name\"]`");
        }
    }
    match meant(&MEANT, name) {
        Some(help) => Some(help),
        None => match meant(&SPELLED, name) {
            Some(help) => Some(help),
            None => Some(
                "the variables are `principal`, `action`, `resource` and `context`; a string has double quotes",
            ),
        },
    }
}

/// Whether a hyphen joins a name to a word before it.
fn is_behind_hyphen(around: Around<'_>) -> bool {
    match around.before.strip_suffix('-') {
        None => false,
        Some(word) => ends_with_word(word),
    }
}

/// Of a word that the grammar keeps for itself.
pub(crate) fn help_of_reserved(around: Around<'_>) -> Option<&'static str> {
    match around.at {
        "has" => Some("`has` stands between, as in `resource has owner`"),
        "like" => Some("`like` stands between, as in `name like \"x*\"`"),
        "in" => Some("`in` stands between, as in `principal in Group::\"g\"`"),
        "is" => Some("`is` stands between, as in `principal is User`"),
        _ if around.before.ends_with('.') => Some("this attribute is written as `context[\"if\"]`"),
        _ => None,
    }
}

/// Of a method that isn't there.
pub(crate) fn help_of_method(name: &str) -> Option<&'static str> {
    if is_text_test(name) {
        return Some(LIKE);
    }
    if EXTENSION_METHODS.iter().any(|method| *method == name) {
        return Some("this is a method of Cedar's extension types, which aren't in this table");
    }
    meant(&METHODS, name)
}

/// Of a function that isn't there.
pub(crate) fn help_of_function(name: &str) -> Option<&'static str> {
    if is_text_test(name) {
        return Some(LIKE);
    }
    if FUNCTIONS.iter().any(|function| *function == name) {
        return Some("this is one of Cedar's functions, and isn't in this table");
    }
    if name == "not" {
        return Some("did you mean `!`?");
    }
    None
}

fn is_text_test(name: &str) -> bool {
    TEXT_TESTS
        .iter()
        .any(|word| word.eq_ignore_ascii_case(name))
}

/// What is said of a word that a table has, in whatever letters.
fn meant(table: &[(&'static str, &'static str)], word: &str) -> Option<&'static str> {
    for (written, help) in table {
        if written.eq_ignore_ascii_case(word) {
            return Some(*help);
        }
    }
    None
}
