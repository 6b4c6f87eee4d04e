// The tokens of which one was expected, as a text.
use cedar_parser::err::{Kinds, POLICY_TOKEN_CONFIG, ParseError};
use std::alloc::{AllocError, Global};
use std::collections::BTreeSet;

/// What closes or parts what is open, with how it is shown: these come first.
const CLOSERS: [(Kinds, &str, &str); 6] = [
    (Kinds::RIGHT_PAREN, "\")\"", "`)`"),
    (Kinds::RIGHT_BRACE, "\"}\"", "`}`"),
    (Kinds::RIGHT_BRACKET, "\"]\"", "`]`"),
    (Kinds::COMMA, "\",\"", "`,`"),
    (Kinds::SEMICOLON, "\";\"", "`;`"),
    (Kinds::ELSE, "ELSE", "`else`"),
];

/// The tokens of which one was expected, as `expected a, b, or c`, where there are any.
pub(crate) fn expected(alloc: Global, error: &ParseError) -> Result<Option<String>, AllocError> {
    let ParseError::ToCST(error) = error else {
        return Ok(None);
    };
    let kinds = error.expected();
    let names = kinds.names(alloc)?;
    let mut shown = Vec::new(alloc);
    push_closers(&mut shown, kinds, names.as_slice())?;
    push_others(alloc, &mut shown, names.as_slice())?;
    if shown.is_empty() {
        return Ok(None);
    }
    Ok(Some(listed(alloc, shown.as_slice())?))
}

fn push_closers<'n>(
    shown: &mut Vec<&'n str>,
    kinds: Kinds,
    names: &[String],
) -> Result<(), AllocError> {
    for (kind, name, friendly) in &CLOSERS {
        if kinds.meets(*kind) && POLICY_TOKEN_CONFIG.is_shown(*name, names) {
            shown.push(*friendly)?;
        }
    }
    Ok(())
}

fn push_others<'n>(
    alloc: Global,
    shown: &mut Vec<&'n str>,
    names: &'n [String],
) -> Result<(), AllocError> {
    let mut others = BTreeSet::new(alloc);
    for name in names {
        let name = name.as_str();
        if !is_closer(name) && POLICY_TOKEN_CONFIG.is_shown(name, names) {
            others.insert(name)?;
        }
    }
    for name in others.iter() {
        shown.push(friendly(name))?;
    }
    Ok(())
}

fn is_closer(name: &str) -> bool {
    CLOSERS.iter().any(|closer| closer.1 == name)
}

/// The name by which a reader knows a kind; a mark has none beside its own.
fn friendly(kind: &str) -> &str {
    for (token, name) in POLICY_TOKEN_CONFIG.friendly_token_names {
        if *token == kind {
            return *name;
        }
    }
    kind
}

/// These in a sentence; the quotes of marks are made backticks.
fn listed(alloc: Global, shown: &[&str]) -> Result<String, AllocError> {
    let last = shown.len().saturating_sub(1);
    let mut told = String::from_str(alloc, "expected ")?;
    for (place, name) in shown.iter().enumerate() {
        if place > 0 {
            told.push_str(separator(place == last, last))?;
        }
        for c in name.chars() {
            told.push(if c == '"' { '`' } else { c })?;
        }
    }
    Ok(told)
}

/// What stands before a name that isn't the first.
fn separator(is_last: bool, last: usize) -> &'static str {
    match (is_last, last) {
        (false, _) => ", ",
        (true, 1) => " or ",
        (true, _) => ", or ",
    }
}
