// Identifiers.
ghost use Rattle.std.specs.Prelude.{◌≡◌, ◌≢◌, ◌↔◌, IsTrue, IfOk, MatchResult};
ghost use Rattle.std.specs.List.{list_all};
ghost use Rattle.std.specs.Rc.{rc_str_bytes};
ghost use Rattle.cedar_language.specs.Words.{begins_word, is_in_word};
ghost use Rattle.cedar_names.specs.Identifiers as identifiers;
ghost use Rattle.cedar_names.specs.Identifiers.{IsId, IsAnyId, IsUnreservedId, reserved};

use crate::comparing::is_same;
use crate::texts::SharedText;
use std::alloc::{AllocError, Global};
use std::convert::AsStr;
use std::fmt;
use std::marker::Model;
use std::rc::RcStr;

/// The identifier that Cedar keeps for itself.
const RESERVED: &str = "__cedar";

/// Whether the text is an identifier that is neither a keyword of the language nor `__cedar`.
pub fn is_normalized_ident(text: &str) -> bool
    ensures { IsTrue result ↔ IsUnreservedId text.now }
{
    is_id(text) && text != RESERVED
}

/// Whether the text is an identifier that is no keyword.
pub(crate) fn is_id(text: &str) -> bool
    ensures { IsTrue result ↔ IsId text.now }
{
    is_identifier(text) && !is_keyword(text)
}

/// Whether the text is an identifier, keywords included.
pub(crate) fn is_identifier(text: &str) -> bool
    ensures { result ≡ identifiers.is_identifier text.now }
{
    match text.as_bytes().split_first() {
        None => false,
        Some((first, more)) => begins_word(*first) && are_in_identifier(more),
    }
}

fn are_in_identifier(bytes: &[u8]) -> bool
    ensures { result ≡ list_all is_in_word bytes.now }
{
    bytes.iter().all(|byte| is_in_word(*byte))
}

fn begins_word(byte: u8) -> bool
    ensures { result ≡ begins_word byte }
{
    byte.is_ascii_alphabetic() || byte == b'_'
}

fn is_in_word(byte: u8) -> bool
    ensures { result ≡ is_in_word byte }
{
    byte.is_ascii_alphanumeric() || byte == b'_'
}

fn is_keyword(text: &str) -> bool
    ensures { result ≡ identifiers.is_keyword text.now }
{
    is_same(text, "true")
        || is_same(text, "false")
        || is_same(text, "if")
        || is_same(text, "then")
        || is_same(text, "else")
        || is_same(text, "in")
        || is_same(text, "like")
        || is_same(text, "has")
        || is_same(text, "is")
}

/// An identifier that is no keyword of the language: an ASCII letter or `_`, then letters, digits or
/// `_`. It may be `__cedar`, which Cedar keeps for itself. (Cedar language reference, "Policy grammar".)
#[derive(Debug, PartialEq, Eq, PartialOrd, Ord, Hash, Clone, Drop)]
pub struct Id {
    text: SharedText,
}

impl Model for Id {
    ghost use Rattle.cedar_language.specs.Uid.{Text};
    ghost use Rattle.cedar_names.specs.Identifiers as identifiers;
    ghost use Rattle.cedar_names.specs.Identifiers.{IsId};

    ghost Value = { Text };

    ghost view = { λ a. a.text };

    ghost invariant = { λ a. IsId a.text };

    ghost inverse = { λ text. record { text = text } };
}

impl Id {
    /// The identifier `text`, which the caller knows to be one.
    pub fn new_unchecked(text: RcStr) -> Id
        requires { IsId (rc_str_bytes text) }
        ensures { result ≡ rc_str_bytes text }
    {
        Id {
            text: SharedText::new(text),
        }
    }

    /// Its text.
    pub fn as_str(&self) -> &str
        ensures text { result.now ≡ self.now }
        ensures identifier { IsId self.now }
    {
        self.text.as_str()
    }

    /// Its text.
    pub fn into_smolstr(self) -> RcStr
        ensures text { rc_str_bytes result ≡ self }
        ensures identifier { IsId self }
    {
        self.text.into_smolstr()
    }

    /// The identifier `__cedar`; refused for memory alone.
    pub(crate) fn reserved(alloc: Global) -> Result<Id, AllocError>
        ensures { IfOk result (λ id. id ≡ reserved) }
    {
        Ok(Id::new_unchecked(RcStr::from_str(alloc, RESERVED)?))
    }

    /// Whether it is `__cedar`.
    pub fn is_reserved(&self) -> bool
        ensures { IsTrue result ↔ (self.now ≡ reserved) }
    {
        self.as_str() == RESERVED
    }

    /// Whether its text stands on the heap: always.
    pub fn is_heap_allocated(&self) -> bool
        ensures { IsTrue result }
    {
        true
    }

    /// A copy that shares the text; refused for memory alone.
    pub fn clone(&self, _alloc: Global) -> Result<Id, AllocError>
        ensures { IfOk result (λ copy. copy ≡ self.now) }
    {
        Clone::clone(self)
    }
}

/// An identifier that is neither a keyword of the language nor `__cedar`.
#[derive(Debug, PartialEq, Eq, PartialOrd, Ord, Hash, Clone, Drop)]
pub struct UnreservedId {
    id: Id,
}

impl Model for UnreservedId {
    ghost use Rattle.cedar_language.specs.Uid.{Text};
    ghost use Rattle.cedar_names.specs.Identifiers as identifiers;
    ghost use Rattle.cedar_names.specs.Identifiers.{IsUnreservedId};

    ghost Value = { Text };

    ghost view = { λ a. a.id };

    ghost invariant = { λ a. IsUnreservedId a.id };

    ghost inverse = { λ text. record { id = text } };
}

impl UnreservedId {
    /// Its text.
    pub fn as_str(&self) -> &str
        ensures text { result.now ≡ self.now }
        ensures unreserved { IsUnreservedId self.now }
    {
        self.id.as_str()
    }

    /// Its text.
    pub fn into_smolstr(self) -> RcStr
        ensures text { rc_str_bytes result ≡ self }
        ensures unreserved { IsUnreservedId self }
    {
        self.id.into_smolstr()
    }

    /// A copy that shares the text; refused for memory alone.
    pub fn clone(&self, _alloc: Global) -> Result<UnreservedId, AllocError>
        ensures { IfOk result (λ copy. copy ≡ self.now) }
    {
        Clone::clone(self)
    }
}

impl AsRef<Id> for UnreservedId {
    fn as_ref(&self) -> &Id
        ensures id { result.now ≡ self.now }
        ensures unreserved { IsUnreservedId self.now }
    {
        &self.id
    }
}

impl From<UnreservedId> for Id {
    ghost from_gives = { λ unreserved id. id ≡ unreserved };

    fn from(unreserved: UnreservedId) -> Id {
        unreserved.id
    }
}

impl TryFrom<Id> for UnreservedId {
    type Error = Id;

    ghost try_from_gives = { λ id result. MatchResult result (λ unreserved. (unreserved ≡ id) × (id ≢ reserved)) (λ back. (back ≡ id) × (id ≡ reserved)) };

    /// The same identifier; given back where it is `__cedar`.
    fn try_from(id: Id) -> Result<UnreservedId, Id> {
        if id.is_reserved() {
            return Err(id);
        }
        Ok(UnreservedId { id })
    }
}

/// Any identifier, keywords and `__cedar` included, as the key of an annotation is.
#[derive(Debug, PartialEq, Eq, PartialOrd, Ord, Hash, Clone, Drop)]
pub struct AnyId {
    text: SharedText,
}

impl Model for AnyId {
    ghost use Rattle.cedar_language.specs.Uid.{Text};
    ghost use Rattle.cedar_names.specs.Identifiers as identifiers;
    ghost use Rattle.cedar_names.specs.Identifiers.{IsAnyId};

    ghost Value = { Text };

    ghost view = { λ a. a.text };

    ghost invariant = { λ a. IsAnyId a.text };

    ghost inverse = { λ text. record { text = text } };
}

impl AnyId {
    /// The identifier `text`, which the caller knows to be one.
    pub fn new_unchecked(text: RcStr) -> AnyId
        requires { IsAnyId (rc_str_bytes text) }
        ensures { result ≡ rc_str_bytes text }
    {
        AnyId {
            text: SharedText::new(text),
        }
    }

    /// Its text.
    pub fn as_str(&self) -> &str
        ensures text { result.now ≡ self.now }
        ensures identifier { IsAnyId self.now }
    {
        self.text.as_str()
    }

    /// Its text.
    pub fn into_smolstr(self) -> RcStr
        ensures text { rc_str_bytes result ≡ self }
        ensures identifier { IsAnyId self }
    {
        self.text.into_smolstr()
    }

    /// A copy that shares the text; refused for memory alone.
    pub fn clone(&self, _alloc: Global) -> Result<AnyId, AllocError>
        ensures { IfOk result (λ copy. copy ≡ self.now) }
    {
        Clone::clone(self)
    }
}

impl fmt::Display for Id {
    ghost use Rattle.std.specs.Prelude.{Some};

    ghost output = { Some };

    fn fmt<W: fmt::Write>(&self, f: &mut fmt::Formatter<W>) -> fmt::Result {
        fmt::Display::fmt(&self.text, f)
    }
}

impl fmt::Display for UnreservedId {
    ghost use Rattle.std.specs.Prelude.{Some};

    ghost output = { Some };

    fn fmt<W: fmt::Write>(&self, f: &mut fmt::Formatter<W>) -> fmt::Result {
        fmt::Display::fmt(&self.id, f)
    }
}

impl fmt::Display for AnyId {
    ghost use Rattle.std.specs.Prelude.{Some};

    ghost output = { Some };

    fn fmt<W: fmt::Write>(&self, f: &mut fmt::Formatter<W>) -> fmt::Result {
        fmt::Display::fmt(&self.text, f)
    }
}

impl AsStr for Id {
    ghost text = { λ id. id };

    fn as_str(&self) -> &str {
        self.as_str()
    }
}

impl AsStr for UnreservedId {
    ghost text = { λ id. id };

    fn as_str(&self) -> &str {
        self.as_str()
    }
}

impl AsStr for AnyId {
    ghost text = { λ id. id };

    fn as_str(&self) -> &str {
        self.as_str()
    }
}
