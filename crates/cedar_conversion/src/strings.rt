// Strings and patterns.
ghost use Rattle.std.specs.Prelude.{◌≡◌, Some, map, IfErr};
ghost use Rattle.std.specs.Rc.{rc_str_bytes};
ghost use Rattle.std.specs.Str.{chars};
ghost use Rattle.cedar_grammar.specs.Escape.{pattern_of, pattern_elem};
ghost use Rattle.cedar_tokens.specs.Parts.{part_view};
ghost use Rattle.cedar_literals.specs.Patterns.{elem_of};
ghost use Rattle.cedar_grammar.specs.Converting.{str_text};
ghost use Rattle.cedar_cst.specs.LeafView.{shown_str};
ghost use Rattle.cedar_faults.specs.Refusing.{Refuses};
ghost use Rattle.cedar_faults.specs.Converts.{Finds};
ghost use Rattle.cedar_faults.specs.Telling.{TellsOnly};
ghost use Rattle.cedar_conversion.specs.Shown.{str_shows, raw_shows};

use cedar_cst::cst::Str;
use cedar_cst::node::Node;
use cedar_faults::{ConversionError, ToASTErrorKind};
use cedar_literals::patterns::{Pattern, PatternElem};
use cedar_names::conversions::FromIn;
use cedar_names::places::Loc;
use cedar_tokens::{Part, UnescapeError, to_unescaped_string, unescape_parts};
use std::alloc::Global;
use std::rc::RcStr;

/// The text of a string; faults where it is missing, or holds what stands for no character.
#[tactic(auto, unfolding(cedar_grammar::specs::Escape::string_of))]
pub fn to_text<E: Drop>(
    alloc: Global,
    node: &Node<Option<Str>>,
) -> Result<RcStr, ConversionError<E>>
    ensures text { Finds rc_str_bytes result (str_text (shown_str node.now)) }
    ensures shown { IfErr result (λ error. TellsOnly error (str_shows (shown_str node.now))) }
{
    match &node.node {
        None => Err(ConversionError::missing(alloc, node.loc())),
        Some(Str::String(raw)) => match to_unescaped_string(alloc, raw.as_str()) {
            Ok(text) => Ok(text),
            Err(error) => Err(no_text(alloc, error, node.loc())),
        },
        Some(Str::Invalid(text)) => {
            let kind = ToASTErrorKind::InvalidString(text.clone()?);
            Err(ConversionError::fault(alloc, kind, node.loc()))
        }
    }
}

// What a string that stands for nothing is refused by.
fn no_text<E: Drop>(alloc: Global, error: UnescapeError, loc: Option<&Loc>) -> ConversionError<E>
    ensures refused { Refuses error result }
    ensures kind { TellsOnly result (λ kind. kind ≡ ToASTErrorKind.Unescape error) }
{
    match error {
        UnescapeError::Invalid { .. } => {
            ConversionError::fault(alloc, ToASTErrorKind::Unescape(error), loc)
        }
        UnescapeError::Memory => ConversionError::Memory,
    }
}

/// The pattern that a string stands for, by what is written between its quotes; faults where it holds what
/// stands for no character.
#[tactic(auto, unfolding(cedar_grammar::specs::Escape::pattern_of))]
pub fn to_pattern<E: Drop>(
    alloc: Global,
    raw: &str,
    loc: Option<&Loc>,
) -> Result<Pattern, ConversionError<E>>
    ensures pattern { Finds (λ pattern. pattern) result (pattern_of (chars raw.now)) }
    ensures shown { IfErr result (λ error. TellsOnly error (raw_shows (chars raw.now))) }
{
    match unescape_parts(alloc, raw) {
        Ok(parts) => pattern_of_parts(alloc, &parts),
        Err(error) => Err(no_text(alloc, error, loc)),
    }
}

fn pattern_of_parts<E: Drop>(
    alloc: Global,
    parts: &Vec<Part>,
) -> Result<Pattern, ConversionError<E>>
    ensures { Finds (λ pattern. pattern) result (Some (map pattern_elem (map part_view parts.now.items))) }
{
    let mut elems = Vec::new(alloc);
    'parts: for part in parts {
        elems.push(elem_of_part(*part))?;
    }
    Ok(Pattern::from_in(alloc, elems)?)
}

fn elem_of_part(part: Part) -> PatternElem
    ensures { elem_of result ≡ pattern_elem (part_view part) }
{
    match part {
        Part::Itself('*') => PatternElem::Wildcard,
        Part::Itself(c) => PatternElem::Char(c),
        Part::Named(c) => PatternElem::Char(c),
        Part::Star => PatternElem::Char('*'),
    }
}
