// What a parser expected, as a text.
ghost use Rattle.std.specs.Prelude.{◌≡◌, IfOk, is_some, map, string_bytes};
ghost use Rattle.cedar_tokens.specs.Shown.{texts, is_among, is_shown, shows};

use std::alloc::{AllocError, Global};
use std::collections::BTreeSet;

/// How the kinds of tokens that a grammar names are shown.
#[derive(Clone, Copy, Debug)]
pub struct ExpectedTokenConfig {
    /// Kinds, each with the name by which a reader knows it.
    pub friendly_token_names: &'static [(&'static str, &'static str)],
    /// Kinds that the conversion refuses wherever they stand: they are never shown.
    pub impossible_tokens: &'static [&'static str],
    /// Words of the grammar that are identifiers too: they aren't shown beside an identifier.
    pub special_identifier_tokens: &'static [&'static str],
    /// The kind that says that an identifier is expected.
    pub identifier_sentinel: &'static str,
    /// Words that begin an expression: they are shown beside an identifier where one may begin.
    pub first_set_identifier_tokens: &'static [&'static str],
    /// The kind that says that an expression may begin.
    pub first_set_sentinel: &'static str,
}

/// How the kinds of tokens of policies are shown.
pub const POLICY_TOKEN_CONFIG: ExpectedTokenConfig = ExpectedTokenConfig {
    friendly_token_names: &[
        ("TRUE", "`true`"),
        ("FALSE", "`false`"),
        ("IF", "`if`"),
        ("PERMIT", "`permit`"),
        ("FORBID", "`forbid`"),
        ("WHEN", "`when`"),
        ("UNLESS", "`unless`"),
        ("IN", "`in`"),
        ("HAS", "`has`"),
        ("LIKE", "`like`"),
        ("IS", "`is`"),
        ("THEN", "`then`"),
        ("ELSE", "`else`"),
        ("PRINCIPAL", "`principal`"),
        ("ACTION", "`action`"),
        ("RESOURCE", "`resource`"),
        ("CONTEXT", "`context`"),
        ("PRINCIPAL_SLOT", "`?principal`"),
        ("RESOURCE_SLOT", "`?resource`"),
        ("IDENTIFIER", "identifier"),
        ("NUMBER", "number"),
        ("STRINGLIT", "string literal"),
    ],
    impossible_tokens: &["\"=\"", "\"%\"", "\"/\"", "OTHER_SLOT"],
    special_identifier_tokens: &[
        "PERMIT",
        "FORBID",
        "WHEN",
        "UNLESS",
        "IN",
        "HAS",
        "LIKE",
        "IS",
        "THEN",
        "ELSE",
        "PRINCIPAL",
        "ACTION",
        "RESOURCE",
        "CONTEXT",
    ],
    identifier_sentinel: "IDENTIFIER",
    first_set_identifier_tokens: &["TRUE", "FALSE", "IF"],
    first_set_sentinel: "\"!\"",
};

impl ExpectedTokenConfig {
    /// Whether the kind is shown where these are expected: it is none that the conversion refuses, no
    /// word beside an identifier, and beside an identifier none that begins an expression, unless one
    /// may begin there.
    pub fn is_shown(&self, kind: &str, expected: &[String]) -> bool
        ensures { result ≡ is_shown self.now (map string_bytes expected.now) kind.now }
    {
        let beside_word = is_expected(expected, self.identifier_sentinel);
        let beside_first = is_expected(expected, self.first_set_sentinel);
        !is_listed(self.impossible_tokens, kind)
            && !(beside_word && is_listed(self.special_identifier_tokens, kind))
            && !(beside_word && !beside_first && is_listed(self.first_set_identifier_tokens, kind))
    }

    /// Whether one of the kinds is shown.
    fn shows_one_of(&self, expected: &[String]) -> bool
        ensures { result ≡ shows self.now (map string_bytes expected.now) }
    {
        expected
            .iter()
            .any(|kind| self.is_shown(kind.as_str(), expected))
    }

    /// The kinds that are shown, each once, in rising order.
    fn shown<'e>(
        &self,
        alloc: Global,
        expected: &'e [String],
    ) -> Result<BTreeSet<&'e str>, AllocError> {
        let mut kinds = BTreeSet::new(alloc);
        for kind in expected {
            if self.is_shown(kind.as_str(), expected) {
                kinds.insert(kind.as_str())?;
            }
        }
        Ok(kinds)
    }

    /// Adds the name of the kind: the friendly one, or else the kind with backticks for its quotes.
    fn push_name(&self, shown: &mut String, kind: &str) -> Result<(), AllocError> {
        for (token, name) in self.friendly_token_names {
            if *token == kind {
                return shown.push_str(name);
            }
        }
        for c in kind.chars() {
            shown.push(if c == '"' { '`' } else { c })?;
        }
        Ok(())
    }
}

/// Whether the kind is among those that are expected.
fn is_expected(expected: &[String], kind: &str) -> bool
    ensures { result ≡ is_among (map string_bytes expected.now) kind.now }
{
    expected.iter().any(|other| other.as_str() == kind)
}

/// Whether the kind is among these.
fn is_listed(kinds: &[&str], kind: &str) -> bool
    ensures { result ≡ is_among (texts kinds.now) kind.now }
{
    kinds.iter().any(|other| *other == kind)
}

/// The kinds that are expected, as `expected a, b, or c`; none where the config shows none of them.
/// Refused for memory alone.
pub fn expected_to_string(
    alloc: Global,
    expected: &[String],
    config: &ExpectedTokenConfig,
) -> Result<Option<String>, AllocError>
    ensures { IfOk result (λ told. is_some told ≡ shows config.now (map string_bytes expected.now)) }
{
    if !config.shows_one_of(expected) {
        return Ok(None);
    }
    let kinds = config.shown(alloc, expected)?;
    let last = kinds.len().saturating_sub(1);
    let mut told = String::from_str(alloc, "expected ")?;
    for (place, kind) in kinds.iter().enumerate() {
        if place > 0 {
            told.push_str(separator(place == last, last))?;
        }
        config.push_name(&mut told, kind)?;
    }
    Ok(Some(told))
}

/// What stands before a name that isn't the first.
fn separator(is_last: bool, last: usize) -> &'static str {
    match (is_last, last) {
        (false, _) => ", ",
        (true, 1) => " or ",
        (true, _) => ", or ",
    }
}
