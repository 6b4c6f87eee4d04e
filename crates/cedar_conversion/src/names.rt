// Words and names.
ghost use Rattle.std.specs.Prelude.{◌≡◌, MatchOption, IfOk, IfErr, None, map, false};
ghost use Rattle.cedar_grammar.specs.Converting.{ident_text, ident_spelling, name_path, each};
ghost use Rattle.cedar_cst.specs.LeafView.{view_ident, shown_ident, shown_name, written_ident};
ghost use Rattle.cedar_faults.specs.Reasons.{IsFault};
ghost use Rattle.cedar_names.specs.Names.{is_reserved_name};
ghost use Rattle.cedar_faults.specs.Converts.{Finds};
ghost use Rattle.cedar_conversion.specs.Words.{valid_text};
ghost use Rattle.cedar_faults.specs.Telling.{TellsOnly};
ghost use Rattle.cedar_conversion.specs.Shown.{ident_shows, idents_show, name_shows};

use cedar_cst::cst;
use cedar_cst::cst::Ident;
use cedar_cst::node::Node;
use cedar_faults::{ConversionError, ToASTErrorKind};
use cedar_names::errors::{ParseNameError, ReservedNameError};
use cedar_names::identifiers::{AnyId, Id, UnreservedId, is_normalized_ident};
use cedar_names::names::{InternalName, Name};
use cedar_names::places::Loc;
use cedar_names::reading::FromNormalizedStr;
use std::alloc::{AllocError, Global};
use std::rc::RcStr;

/// How a word is written; none where it is invalid.
pub fn spelling(ident: &Ident) -> Option<&str>
    ensures { MatchOption result ((ident_text (view_ident ident.now) ≡ None) × (ident_spelling (view_ident ident.now) ≡ None))
        (λ text. view_ident ident.now ≡ written_ident text.now) }
{
    match ident {
        Ident::Principal => Some("principal"),
        Ident::Action => Some("action"),
        Ident::Resource => Some("resource"),
        Ident::Context => Some("context"),
        Ident::True => Some("true"),
        Ident::False => Some("false"),
        Ident::Permit => Some("permit"),
        Ident::Forbid => Some("forbid"),
        Ident::When => Some("when"),
        Ident::Unless => Some("unless"),
        Ident::In => Some("in"),
        Ident::Has => Some("has"),
        Ident::Like => Some("like"),
        Ident::Is => Some("is"),
        Ident::If => Some("if"),
        Ident::Then => Some("then"),
        Ident::Else => Some("else"),
        Ident::Ident(text) => Some(text.as_str()),
        Ident::Invalid(_) => None,
    }
}

// The fault of a word that is no identifier.
fn no_identifier<E: Drop>(alloc: Global, ident: &Ident, loc: Option<&Loc>) -> ConversionError<E>
    ensures fault { IsFault result }
    ensures shown { ident_text (view_ident ident.now) ≡ None → TellsOnly result (ident_shows (view_ident ident.now)) }
{
    match kind_of_no_identifier(alloc, ident) {
        Ok(kind) => ConversionError::fault(alloc, kind, loc),
        Err(_) => ConversionError::Memory,
    }
}

fn kind_of_no_identifier(alloc: Global, ident: &Ident) -> Result<ToASTErrorKind, AllocError>
    ensures { IfOk result (λ kind. ident_text (view_ident ident.now) ≡ None → ident_shows (view_ident ident.now) kind) }
{
    match ident {
        Ident::Invalid(text) => Ok(ToASTErrorKind::InvalidIdentifier(RcStr::from_str(
            alloc,
            text.as_str(),
        )?)),
        Ident::Ident(text) => match text.as_str() {
            "__cedar" => {
                let name = InternalName::cedar(alloc)?;
                Ok(ToASTErrorKind::ReservedNamespace(ReservedNameError { name }))
            }
            _ => Ok(ToASTErrorKind::ReservedIdentifier(ident.clone()?)),
        },
        _ => Ok(ToASTErrorKind::ReservedIdentifier(ident.clone()?)),
    }
}

// The identifier that is so written, unless it is reserved.
fn unreserved(alloc: Global, text: &str) -> Result<Option<UnreservedId>, AllocError>
    ensures { IfOk result (λ id. id ≡ ident_text (written_ident text.now)) }
{
    if !is_normalized_ident(text) {
        return Ok(None);
    }
    let id = Id::new_unchecked(RcStr::from_str(alloc, text)?);
    match UnreservedId::try_from(id) {
        Ok(id) => Ok(Some(id)),
        Err(_) => unreachable!(),
    }
}

/// The identifier of a word; faults where the word is missing, invalid or reserved.
pub fn to_unreserved_ident<E: Drop>(
    alloc: Global,
    node: &Node<Option<Ident>>,
) -> Result<UnreservedId, ConversionError<E>>
    ensures id { Finds (λ id. id) result (ident_text (shown_ident node.now)) }
    ensures shown { IfErr result (λ error. TellsOnly error (ident_shows (shown_ident node.now))) }
{
    let Some(ident) = &node.node else {
        return Err(ConversionError::missing(alloc, node.loc()));
    };
    let Some(text) = spelling(ident) else {
        return Err(no_identifier(alloc, ident, node.loc()));
    };
    match unreserved(alloc, text)? {
        Some(id) => Ok(id),
        None => Err(no_identifier(alloc, ident, node.loc())),
    }
}

// The identifier that is so written, unless it is a keyword.
#[tactic(auto, using(crate::proofs::Words::valid_written, crate::proofs::Words::none_valid))]
fn valid_identifier(alloc: Global, text: &str) -> Result<Option<Id>, AllocError>
    ensures { IfOk result (λ id. id ≡ valid_text (written_ident text.now)) }
{
    match Id::from_normalized_str(alloc, text) {
        Ok(id) => Ok(Some(id)),
        Err(ParseNameError::NotNormalized) => Ok(None),
        Err(ParseNameError::Reserved(_)) => unreachable!(),
        Err(ParseNameError::Memory(error)) => Err(error),
    }
}

/// The identifier of a word, which may be `__cedar`; faults where the word is missing, invalid or a keyword.
#[tactic(auto, using(crate::proofs::Words::no_valid_text))]
pub fn to_valid_ident<E: Drop>(
    alloc: Global,
    node: &Node<Option<Ident>>,
) -> Result<Id, ConversionError<E>>
    ensures id { Finds (λ id. id) result (valid_text (shown_ident node.now)) }
    ensures shown { IfErr result (λ error. TellsOnly error (ident_shows (shown_ident node.now))) }
{
    let Some(ident) = &node.node else {
        return Err(ConversionError::missing(alloc, node.loc()));
    };
    let Some(text) = spelling(ident) else {
        return Err(no_identifier(alloc, ident, node.loc()));
    };
    match valid_identifier(alloc, text)? {
        Some(id) => Ok(id),
        None => Err(no_identifier(alloc, ident, node.loc())),
    }
}

// The identifier that is so written, reserved or not.
#[tactic(auto, using(crate::proofs::Words::any_written, crate::proofs::Words::none_written))]
fn any_identifier(alloc: Global, text: &str) -> Result<Option<AnyId>, AllocError>
    ensures { IfOk result (λ id. id ≡ ident_spelling (written_ident text.now)) }
{
    match AnyId::from_normalized_str(alloc, text) {
        Ok(id) => Ok(Some(id)),
        Err(ParseNameError::NotNormalized) => Ok(None),
        Err(ParseNameError::Reserved(_)) => unreachable!(),
        Err(ParseNameError::Memory(error)) => Err(error),
    }
}

/// The identifier of a word, which may be reserved, as the key of an annotation may; faults where the word
/// is missing or invalid.
#[tactic(auto, using(crate::proofs::Words::no_spelling))]
pub fn to_any_ident<E: Drop>(
    alloc: Global,
    node: &Node<Option<Ident>>,
) -> Result<AnyId, ConversionError<E>>
    ensures id { Finds (λ id. id) result (ident_spelling (shown_ident node.now)) }
    ensures shown { IfErr result (λ error. TellsOnly error (ident_shows (shown_ident node.now))) }
{
    let Some(ident) = &node.node else {
        return Err(ConversionError::missing(alloc, node.loc()));
    };
    let Some(text) = spelling(ident) else {
        return Err(no_identifier(alloc, ident, node.loc()));
    };
    match any_identifier(alloc, text)? {
        Some(id) => Ok(id),
        None => Err(no_identifier(alloc, ident, node.loc())),
    }
}

// The identifiers of words, up to the first that has faults.
fn to_path<E: Drop>(
    alloc: Global,
    words: &Vec<Node<Option<Ident>>>,
) -> Result<Vec<Id>, ConversionError<E>>
    ensures path { Finds (λ ids. ids.items) result (each ident_text (map shown_ident words.now.items)) }
    ensures unreserved { IfOk result (λ ids. is_reserved_name ids.items ≡ false) }
    ensures shown { IfErr result (λ error. TellsOnly error (idents_show (map shown_ident words.now.items))) }
{
    let mut path = Vec::new(alloc);
    'words: for word in words {
        let id = to_unreserved_ident(alloc, word)?;
        path.push(Id::from(id))?;
    }
    Ok(path)
}

/// The name of a path; faults where a word of it is missing, invalid or reserved.
pub fn to_name<E: Drop>(
    alloc: Global,
    node: &Node<Option<cst::Name>>,
) -> Result<Name, ConversionError<E>>
    ensures name { Finds (λ name. name) result (name_path (shown_name node.now)) }
    ensures shown { IfErr result (λ error. TellsOnly error (name_shows (shown_name node.now))) }
{
    let Some(name) = &node.node else {
        return Err(ConversionError::missing(alloc, node.loc()));
    };
    let path = to_path(alloc, &name.path)?;
    let last = to_unreserved_ident(alloc, &name.name)?;
    let loc = node.loc().cloned()?;
    let name = InternalName::new(alloc, Id::from(last), path, loc)?;
    match Name::try_from(name) {
        Ok(name) => Ok(name),
        Err(_) => unreachable!(),
    }
}
