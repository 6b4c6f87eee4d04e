// Annotations.
ghost use Rattle.std.specs.Prelude.{◌≡◌, ◌⊎◌, true, List, map, Option, Some, IfErr};
ghost use Rattle.std.specs.Option.{option_map};
ghost use Rattle.std.specs.Rc.{rc_str_bytes};
ghost use Rattle.cedar_language.specs.Uid.{Text};
ghost use Rattle.cedar_grammar.specs.Names.{is_among};
ghost use Rattle.cedar_grammar.specs.Build.{Keyed, keys};
ghost use Rattle.cedar_cst.specs.LeafView.{shown_str};
ghost use Rattle.cedar_cst.specs.View.{shown_annotation};
ghost use Rattle.cedar_faults.specs.Converts.{and_then, Finds};
ghost use Rattle.cedar_faults.specs.Telling.{Told, TellsOnly};
ghost use Rattle.cedar_policy_conversion.specs.Notes.{notes_of, put_new, written_value, placed_note, placed_notes, Handed, IsMadeAt, AreMade, Makes};
ghost use Rattle.cedar_policy_conversion.specs.PartsShow.{note_text_shows, annotation_key, annotation_shows, again_shows, annotations_show};

use cedar_conversion::{to_any_ident, to_text};
use cedar_cst::cst;
use cedar_cst::cst::Str;
use cedar_cst::node::Node;
use cedar_faults::{ConversionError, ToASTErrorKind, flatten_tuple_2};
use cedar_names::identifiers::AnyId;
use cedar_names::places::Loc;
use cedar_policy_parts::annotations::{Annotation, Annotations};
use std::alloc::{AllocError, Global};
use std::collections::BTreeMap;
use std::rc::RcStr;

// The value of an annotation, where one is written.
fn to_value<E: Drop>(
    alloc: Global,
    value: &Option<Node<Option<Str>>>,
) -> Result<Option<RcStr>, ConversionError<E>>
    ensures value { Finds (option_map rc_str_bytes) result (written_value (option_map shown_str value.now)) }
    ensures shown { IfErr result (λ error. TellsOnly error (note_text_shows (option_map shown_str value.now))) }
{
    match value {
        None => Ok(None),
        Some(value) => Ok(Some(to_text(alloc, value)?)),
    }
}

// The key of an annotation, and what a maker makes of its value and its place.
fn to_made<T: Drop, E: Drop, F: Fn(Option<RcStr>, Option<Loc>) -> Result<T, AllocError>>(
    alloc: Global,
    node: &Node<Option<cst::Annotation>>,
    maker: &F,
) -> Result<(AnyId, T), ConversionError<E>>
    requires { F.IsAlwaysCallable maker.now }
    ensures made { Makes (IsMadeAt (F.post maker.now)) result (placed_note node.now) }
    ensures shown { IfErr result (λ error. TellsOnly error (annotation_shows (shown_annotation node.now))) }
{
    let Some(annotation) = &node.node else {
        return Err(ConversionError::missing(alloc, node.loc()));
    };
    let key = to_any_ident(alloc, &annotation.key);
    let value = to_value(alloc, &annotation.value);
    let (key, value) = flatten_tuple_2(key, value)?;
    let loc = node.loc().cloned()?;
    let made = maker(value, loc)?;
    Ok((key, made))
}

/// The key of an annotation, and what `maker` makes of its value, which may be left out, and of its place.
/// Faults where the annotation is missing, the key is no word, or the value stands for no text. (Cedar
/// language reference, "Annotations".)
pub fn to_kv_pair<T: Drop, E: Drop, F: Fn(Option<RcStr>, Option<Loc>) -> Result<T, AllocError>>(
    alloc: Global,
    node: &Node<Option<cst::Annotation>>,
    maker: F,
) -> Result<(AnyId, T), ConversionError<E>>
    requires { F.IsAlwaysCallable maker }
    ensures made { Makes (IsMadeAt (F.post maker)) result (placed_note node.now) }
    ensures shown { IfErr result (λ error. TellsOnly error (annotation_shows (shown_annotation node.now))) }
{
    to_made(alloc, node, &maker)
}

// Puts what was made of an annotation among others; faults where its key isn't new.
fn insert_new<T: Drop, E: Drop>(
    alloc: Global,
    loc: Option<&Loc>,
    notes: &mut BTreeMap<AnyId, T>,
    key: AnyId,
    value: T,
) -> Result<(), ConversionError<E>>
    ensures put { Finds (λ done. notes.new.entries) result (put_new (key, value) notes.old.entries) }
    ensures kind { IfErr result (λ error. TellsOnly error (λ kind. (kind ≡ ToASTErrorKind.DuplicateAnnotation key) × (is_among key (keys notes.old.entries) ≡ true))) }
    ensures keys { (k : Text) → is_among k (keys notes.new.entries) ≡ true → (k ≡ key) ⊎ (is_among k (keys notes.old.entries) ≡ true) }
{
    if notes.contains_key(&key) {
        let kind = ToASTErrorKind::DuplicateAnnotation(key);
        return Err(ConversionError::fault(alloc, kind, loc));
    }
    notes.insert(key, value)?;
    Ok(())
}

// Puts what is made of a node's annotation among others; faults where it has some, or its key isn't new.
fn insert_node<T: Drop, E: Drop, F: Fn(Option<RcStr>, Option<Loc>) -> Result<T, AllocError>>(
    alloc: Global,
    notes: &mut BTreeMap<AnyId, T>,
    node: &Node<Option<cst::Annotation>>,
    maker: &F,
) -> Result<(), ConversionError<E>>
    requires { F.IsAlwaysCallable maker.now }
    ensures made { (before : List (Keyed Handed)) → AreMade (F.post maker.now) notes.old.entries before →
        Makes (λ done. AreMade (F.post maker.now) notes.new.entries) result
        (and_then (placed_note node.now) (λ note. put_new note before)) }
    ensures shown { IfErr result (λ error. TellsOnly error (λ kind. annotation_shows (shown_annotation node.now) kind ⊎ again_shows (keys notes.old.entries) (shown_annotation node.now) kind)) }
    ensures keys { (k : Text) → is_among k (keys notes.new.entries) ≡ true → (annotation_key (shown_annotation node.now) ≡ Some k) ⊎ (is_among k (keys notes.old.entries) ≡ true) }
{
    let (key, value) = to_made(alloc, node, maker)?;
    insert_new(alloc, node.loc(), notes, key, value)
}

// Puts what is made of one more annotation among others, or gathers the faults of all.
fn insert_next<T: Drop, E: Drop, F: Fn(Option<RcStr>, Option<Loc>) -> Result<T, AllocError>>(
    alloc: Global,
    earlier: Result<(), ConversionError<E>>,
    notes: &mut BTreeMap<AnyId, T>,
    node: &Node<Option<cst::Annotation>>,
    maker: &F,
) -> Result<(), ConversionError<E>>
    requires { F.IsAlwaysCallable maker.now }
    ensures made { (before : Option (List (Keyed Handed))) → Makes (λ done. AreMade (F.post maker.now) notes.old.entries) earlier before →
        Makes (λ done. AreMade (F.post maker.now) notes.new.entries) result
        (and_then before (λ es. and_then (placed_note node.now) (λ note. put_new note es))) }
    ensures told { IfErr result (λ error. TellsOnly error (λ kind. Told earlier kind ⊎ annotation_shows (shown_annotation node.now) kind ⊎ again_shows (keys notes.old.entries) (shown_annotation node.now) kind)) }
    ensures keys { (k : Text) → is_among k (keys notes.new.entries) ≡ true → (annotation_key (shown_annotation node.now) ≡ Some k) ⊎ (is_among k (keys notes.old.entries) ≡ true) }
{
    let next = insert_node(alloc, notes, node, maker);
    let (_, _) = flatten_tuple_2(earlier, next)?;
    Ok(())
}

/// What `maker` makes of the annotations of a policy, by their keys: of each value, which may be left out, and
/// of its place. The faults of all annotations are gathered; one too where a key stands twice. (Cedar language
/// reference, "Annotations".)
pub fn get_ast_annotations<
    T: Drop,
    E: Drop,
    F: Fn(Option<RcStr>, Option<Loc>) -> Result<T, AllocError>,
>(
    alloc: Global,
    nodes: &Vec<Node<Option<cst::Annotation>>>,
    maker: F,
) -> Result<BTreeMap<AnyId, T>, ConversionError<E>>
    requires { F.IsAlwaysCallable maker }
    ensures made { Makes (λ made. AreMade (F.post maker) made.entries) result (placed_notes nodes.now.items) }
    ensures shown { IfErr result (λ error. TellsOnly error (annotations_show (map shown_annotation nodes.now.items))) }
{
    let mut notes = BTreeMap::new(alloc);
    let mut sound = Ok(());
    'nodes: for node in nodes {
        sound = insert_next(alloc, sound, &mut notes, node, &maker);
    }
    sound?;
    Ok(notes)
}

/// The annotations of a policy; the value of one is empty where it is left out. The faults of all of them are
/// gathered; one too where a key stands twice. (Cedar language reference, "Annotations".)
pub fn to_annotations<E: Drop>(
    alloc: Global,
    nodes: &Vec<Node<Option<cst::Annotation>>>,
) -> Result<Annotations, ConversionError<E>>
    ensures annotations { Finds (λ annotations. annotations) result (notes_of (map shown_annotation nodes.now.items)) }
    ensures shown { IfErr result (λ error. TellsOnly error (annotations_show (map shown_annotation nodes.now.items))) }
{
    let maker = |value, loc| Annotation::with_optional_value(alloc, value, loc);
    let made = get_ast_annotations(alloc, nodes, maker)?;
    Ok(Annotations::from(made))
}
