// What is asked of a primary that stands alone: a string, a key, a name, a pattern, attributes, or a slot.
ghost use Rattle.std.specs.Prelude.{◌≡◌, ◌⊎◌, [], ◌∷◌, Some, map, IfErr};
ghost use Rattle.std.specs.Option.{option_map};
ghost use Rattle.std.specs.Str.{chars};
ghost use Rattle.std.specs.Rc.{rc_str_bytes};
ghost use Rattle.cedar_grammar.specs.Escape.{pattern_of};
ghost use Rattle.cedar_grammar.specs.Loose as loose;
ghost use Rattle.cedar_grammar.specs.Converting.{alone, named_slot, lone_primary, lone_member, member_fields, fields, primary_text, primary_key, primary_path, primary_raw};
ghost use Rattle.cedar_cst.specs.LeafView.{shown_literal, shown_name, shown_slot};
ghost use Rattle.cedar_cst.specs.View.{shown_expr, shown_add, shown_member, shown_mem_access, shown_primary};
ghost use Rattle.cedar_faults.specs.Reasons.{IsFault};
ghost use Rattle.cedar_faults.specs.Converts.{and_then, Finds};
ghost use Rattle.cedar_conversion.specs.Fields.{path_texts};
ghost use Rattle.cedar_conversion.specs.Alone.{access_word};
ghost use Rattle.cedar_faults.specs.Telling.{TellsOnly};
ghost use Rattle.cedar_conversion.specs.Shown.{IsNoKey, IsNoAttributes, IsPath, slot_shows, text_shows, string_shows, word_shows, word_or_string_shows, key_shows, index_shows, path_shows, type_shows, elems_show, pattern_shows, field_shows, fields_show, member_attributes_show, attributes_show};

use crate::lookahead;
use crate::lookahead::{only_literal, only_name};
use crate::names::{to_name, to_unreserved_ident};
use crate::strings::{to_pattern, to_text};
use cedar_cst::cst::{Add, Expr, Literal, MemAccess, Member, Name, Primary, Slot, Str};
use cedar_cst::node::Node;
use cedar_faults::{ConversionError, ToASTErrorKind};
use cedar_literals::patterns::Pattern;
use cedar_literals::slots::SlotId;
use cedar_names::names;
use cedar_names::places::Loc;
use cedar_trees::unknowns::NonEmpty;
use std::alloc::{AllocError, Global};
use std::fmt;
use std::rc::RcStr;

// How a part is printed; nothing where it is missing.
fn printed<T: fmt::Display>(alloc: Global, node: &Node<Option<T>>) -> Result<RcStr, AllocError> {
    match &node.node {
        Some(part) => RcStr::from_string(part.to_string(alloc)?),
        None => RcStr::from_str(alloc, ""),
    }
}

// The fault of what stands where a key should.
fn no_key<E: Drop>(alloc: Global, node: &Node<Option<Primary>>) -> ConversionError<E>
    ensures fault { IsFault result }
    ensures kind { TellsOnly result IsNoKey }
{
    match printed(alloc, node) {
        Ok(text) => {
            ConversionError::fault(alloc, ToASTErrorKind::InvalidAttribute(text), node.loc())
        }
        Err(_) => ConversionError::Memory,
    }
}

// The text of a literal that is a string.
fn literal_to_text<E: Drop>(
    alloc: Global,
    literal: &Node<Option<Literal>>,
    loc: Option<&Loc>,
) -> Result<RcStr, ConversionError<E>>
    ensures text { Finds rc_str_bytes result (primary_text (loose.literal (shown_literal literal.now))) }
    ensures shown { IfErr result (λ error. TellsOnly error (text_shows (shown_literal literal.now))) }
{
    match &literal.node {
        Some(Literal::Str(text)) => to_text(alloc, text),
        _ => Err(ConversionError::fault(alloc, ToASTErrorKind::NonStringIndex, loc)),
    }
}

/// The text of a string that stands alone; faults where anything else does.
pub fn to_string_literal<E: Drop>(
    alloc: Global,
    node: &Node<Option<Primary>>,
) -> Result<RcStr, ConversionError<E>>
    ensures text { Finds rc_str_bytes result (primary_text (shown_primary node.now)) }
    ensures shown { IfErr result (λ error. TellsOnly error (string_shows (shown_primary node.now))) }
{
    match only_literal(node) {
        Some(literal) => literal_to_text(alloc, literal, node.loc()),
        None => Err(no_key(alloc, node)),
    }
}

// The fault of a path where an identifier should stand.
fn no_word<E: Drop>(
    alloc: Global,
    name: &Node<Option<Name>>,
    loc: Option<&Loc>,
) -> ConversionError<E>
    ensures fault { IsFault result }
    ensures kind { TellsOnly result IsPath }
{
    match printed(alloc, name) {
        Ok(text) => ConversionError::fault(alloc, ToASTErrorKind::PathAsAttribute(text), loc),
        Err(_) => ConversionError::Memory,
    }
}

// The identifier that a name is.
fn name_to_key<E: Drop>(
    alloc: Global,
    name: &Node<Option<Name>>,
    loc: Option<&Loc>,
) -> Result<RcStr, ConversionError<E>>
    ensures key { Finds rc_str_bytes result (primary_key (loose.named (shown_name name.now))) }
    ensures shown { IfErr result (λ error. TellsOnly error (word_shows (shown_name name.now))) }
{
    let Some(inner) = &name.node else {
        return Err(ConversionError::missing(alloc, loc));
    };
    if !inner.path.is_empty() {
        return Err(no_word(alloc, name, loc));
    }
    let id = to_unreserved_ident(alloc, &inner.name)?;
    Ok(id.into_smolstr())
}

/// The key that a primary is: an identifier or a string.
fn primary_to_key<E: Drop>(
    alloc: Global,
    node: &Node<Option<Primary>>,
) -> Result<RcStr, ConversionError<E>>
    ensures key { Finds rc_str_bytes result (primary_key (shown_primary node.now)) }
    ensures shown { IfErr result (λ error. TellsOnly error (word_or_string_shows (shown_primary node.now))) }
{
    match only_name(node) {
        Some(name) => name_to_key(alloc, name, node.loc()),
        None => to_string_literal(alloc, node),
    }
}

/// The key of an entry: an identifier that stands alone, or the text of a string; faults where anything else
/// stands there, the identifier is reserved, or the string stands for no text.
pub fn to_key<E: Drop>(
    alloc: Global,
    node: &Node<Option<Expr>>,
) -> Result<RcStr, ConversionError<E>>
    ensures key { Finds rc_str_bytes result (and_then (alone (shown_expr node.now)) primary_key) }
    ensures shown { IfErr result (λ error. TellsOnly error (key_shows (shown_expr node.now))) }
{
    match lookahead::alone(node) {
        Some(primary) => primary_to_key(alloc, primary),
        None => {
            let kind = ToASTErrorKind::InvalidAttribute(printed(alloc, node)?);
            Err(ConversionError::fault(alloc, kind, node.loc()))
        }
    }
}

/// The text between the brackets of an access.
pub fn to_index<E: Drop>(
    alloc: Global,
    node: &Node<Option<Expr>>,
) -> Result<RcStr, ConversionError<E>>
    ensures text { Finds rc_str_bytes result (and_then (alone (shown_expr node.now)) primary_text) }
    ensures shown { IfErr result (λ error. TellsOnly error (index_shows (shown_expr node.now))) }
{
    match lookahead::alone(node) {
        Some(primary) => to_string_literal(alloc, primary),
        None => {
            let kind = ToASTErrorKind::NonStringIndex;
            Err(ConversionError::fault(alloc, kind, node.loc()))
        }
    }
}

// The name that a primary is.
fn primary_to_path<E: Drop>(
    alloc: Global,
    node: &Node<Option<Primary>>,
) -> Result<names::Name, ConversionError<E>>
    ensures path { Finds (λ name. name) result (primary_path (shown_primary node.now)) }
    ensures shown { IfErr result (λ error. TellsOnly error (path_shows (shown_primary node.now))) }
{
    match only_name(node) {
        Some(name) => to_name(alloc, name),
        None => {
            let kind = ToASTErrorKind::InvalidIsType(printed(alloc, node)?);
            Err(ConversionError::fault(alloc, kind, node.loc()))
        }
    }
}

/// The type that stands behind `is`.
pub fn to_entity_type<E: Drop>(
    alloc: Global,
    node: &Node<Option<Add>>,
) -> Result<names::Name, ConversionError<E>>
    ensures path { Finds (λ name. name) result (and_then (lone_primary (shown_add node.now)) primary_path) }
    ensures shown { IfErr result (λ error. TellsOnly error (type_shows (shown_add node.now))) }
{
    match lookahead::lone_primary(node) {
        Some(primary) => primary_to_path(alloc, primary),
        None => {
            let kind = ToASTErrorKind::InvalidIsType(printed(alloc, node)?);
            Err(ConversionError::fault(alloc, kind, node.loc()))
        }
    }
}

/// The slot of templates that is so written; a fault at `loc` where there is none so called.
pub fn to_slot<E: Drop>(
    alloc: Global,
    node: &Node<Option<Slot>>,
    loc: Option<&Loc>,
) -> Result<SlotId, ConversionError<E>>
    ensures slot { Finds (λ slot. slot) result (named_slot (shown_slot node.now)) }
    ensures shown { IfErr result (λ error. TellsOnly error (slot_shows (shown_slot node.now))) }
{
    match &node.node {
        Some(Slot::Principal) => Ok(SlotId::principal()),
        Some(Slot::Resource) => Ok(SlotId::resource()),
        Some(Slot::Other(_)) => {
            let kind = ToASTErrorKind::InvalidSlot(printed(alloc, node)?);
            Err(ConversionError::fault(alloc, kind, loc))
        }
        None => {
            let kind = ToASTErrorKind::InvalidSlot(printed(alloc, node)?);
            Err(ConversionError::fault(alloc, kind, loc))
        }
    }
}

// What stands between the quotes of a literal that is a string.
fn raw_text(node: &Node<Option<Literal>>) -> Option<&str>
    ensures { option_map (λ raw. chars raw.now) result ≡ primary_raw (loose.literal (shown_literal node.now)) }
{
    match &node.node {
        Some(Literal::Str(text)) => match &text.node {
            Some(Str::String(raw)) => Some(raw.as_str()),
            _ => None,
        },
        _ => None,
    }
}

// What stands between the quotes of a primary that is a string.
fn raw_of(node: &Node<Option<Primary>>) -> Option<&str>
    ensures { option_map (λ raw. chars raw.now) result ≡ primary_raw (shown_primary node.now) }
{
    match only_literal(node) {
        None => None,
        Some(literal) => raw_text(literal),
    }
}

// The pattern that a primary is.
fn primary_to_pattern<E: Drop>(
    alloc: Global,
    node: &Node<Option<Primary>>,
) -> Result<Pattern, ConversionError<E>>
    ensures pattern { Finds (λ pattern. pattern) result (and_then (primary_raw (shown_primary node.now)) pattern_of) }
    ensures shown { IfErr result (λ error. TellsOnly error (elems_show (shown_primary node.now))) }
{
    match raw_of(node) {
        Some(raw) => to_pattern(alloc, raw, node.loc()),
        None => {
            let kind = ToASTErrorKind::InvalidPattern(printed(alloc, node)?);
            Err(ConversionError::fault(alloc, kind, node.loc()))
        }
    }
}

/// The pattern that stands behind `like`.
pub fn to_like_pattern<E: Drop>(
    alloc: Global,
    node: &Node<Option<Add>>,
) -> Result<Pattern, ConversionError<E>>
    ensures pattern { Finds (λ pattern. pattern) result (and_then (and_then (lone_primary (shown_add node.now)) primary_raw) pattern_of) }
    ensures shown { IfErr result (λ error. TellsOnly error (pattern_shows (shown_add node.now))) }
{
    match lookahead::lone_primary(node) {
        Some(primary) => primary_to_pattern(alloc, primary),
        None => {
            let kind = ToASTErrorKind::InvalidPattern(printed(alloc, node)?);
            Err(ConversionError::fault(alloc, kind, node.loc()))
        }
    }
}

// The words of a path of attributes.
fn to_words<E: Drop>(
    alloc: Global,
    accesses: &Vec<Node<Option<MemAccess>>>,
) -> Result<Vec<RcStr>, ConversionError<E>>
    ensures words { Finds (λ words. map rc_str_bytes words.items) result (fields (loose.accesses (map shown_mem_access accesses.now.items))) }
    ensures shown { IfErr result (λ error. TellsOnly error (fields_show (loose.accesses (map shown_mem_access accesses.now.items)))) }
{
    let mut words = Vec::new(alloc);
    'accesses: for access in accesses {
        words.push(access_to_word(alloc, access)?)?;
    }
    Ok(words)
}

// The word of an access that is one.
fn access_to_word<E: Drop>(
    alloc: Global,
    node: &Node<Option<MemAccess>>,
) -> Result<RcStr, ConversionError<E>>
    ensures word { Finds rc_str_bytes result (access_word (shown_mem_access node.now)) }
    ensures shown { IfErr result (λ error. TellsOnly error (field_shows (shown_mem_access node.now))) }
{
    match &node.node {
        Some(MemAccess::Field(id)) => Ok(to_unreserved_ident(alloc, id)?.into_smolstr()),
        _ => Err(no_fields(alloc, node)),
    }
}

// The fault of what stands behind `has`.
fn no_fields<T: fmt::Display, E: Drop>(alloc: Global, node: &Node<Option<T>>) -> ConversionError<E>
    ensures fault { IsFault result }
    ensures kind { TellsOnly result IsNoAttributes }
{
    match printed(alloc, node) {
        Ok(text) => ConversionError::fault(alloc, ToASTErrorKind::InvalidHasRHS(text), node.loc()),
        Err(_) => ConversionError::Memory,
    }
}

// The attributes of a path of words.
fn words_to_fields<E: Drop>(
    alloc: Global,
    name: &Node<Option<Name>>,
    accesses: &Vec<Node<Option<MemAccess>>>,
    loc: Option<&Loc>,
) -> Result<NonEmpty<RcStr>, ConversionError<E>>
    ensures fields { Finds path_texts result (and_then (primary_key (loose.named (shown_name name.now)))
        (λ s. and_then (fields (loose.accesses (map shown_mem_access accesses.now.items))) (λ ss. Some (s ∷ ss)))) }
    ensures shown { IfErr result (λ error. TellsOnly error (λ kind. word_shows (shown_name name.now) kind ⊎ fields_show (loose.accesses (map shown_mem_access accesses.now.items)) kind)) }
{
    let head = name_to_key(alloc, name, loc)?;
    let tail = to_words(alloc, accesses)?;
    Ok(NonEmpty { head, tail })
}

// The one attribute that a string names.
fn text_to_field<E: Drop>(
    alloc: Global,
    node: &Node<Option<Primary>>,
) -> Result<NonEmpty<RcStr>, ConversionError<E>>
    ensures fields { Finds path_texts result (and_then (primary_text (shown_primary node.now)) (λ s. Some (s ∷ []))) }
    ensures shown { IfErr result (λ error. TellsOnly error (string_shows (shown_primary node.now))) }
{
    let head = to_string_literal(alloc, node)?;
    Ok(NonEmpty {
        head,
        tail: Vec::new(alloc),
    })
}

// The attributes that a member is: words, or one string.
fn member_to_fields<E: Drop>(
    alloc: Global,
    node: &Node<Option<Member>>,
) -> Result<NonEmpty<RcStr>, ConversionError<E>>
    ensures fields { Finds path_texts result (member_fields (shown_member node.now)) }
    ensures shown { IfErr result (λ error. TellsOnly error (member_attributes_show (shown_member node.now))) }
{
    match &node.node {
        None => Err(no_fields(alloc, node)),
        Some(member) => match only_name(&member.item) {
            Some(name) => words_to_fields(alloc, name, &member.access, node.loc()),
            None => {
                if member.access.is_empty() {
                    text_to_field(alloc, &member.item)
                } else {
                    Err(no_fields(alloc, node))
                }
            }
        },
    }
}

/// The attributes that stand behind `has`.
pub fn to_fields<E: Drop>(
    alloc: Global,
    node: &Node<Option<Add>>,
) -> Result<NonEmpty<RcStr>, ConversionError<E>>
    ensures fields { Finds path_texts result (and_then (lone_member (shown_add node.now)) member_fields) }
    ensures shown { IfErr result (λ error. TellsOnly error (attributes_show (shown_add node.now))) }
{
    match lookahead::lone_member(node) {
        Some(member) => member_to_fields(alloc, member),
        None => Err(no_fields(alloc, node)),
    }
}
