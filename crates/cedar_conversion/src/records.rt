// Records.
ghost use Rattle.std.specs.Prelude.{◌≡◌, ◌⊎◌, true, [], ◌∷◌, ◌++◌, Option, Some, List, IfErr};
ghost use Rattle.std.specs.Rc.{rc_str_bytes};
ghost use Rattle.cedar_language.specs.Tree.{Tree};
ghost use Rattle.cedar_grammar.specs.Names.{is_among};
ghost use Rattle.cedar_grammar.specs.Build.{Keyed, keys};
ghost use Rattle.cedar_grammar.specs.Converting as converting;
ghost use Rattle.cedar_grammar.specs.Converting.{record_tree};
ghost use Rattle.cedar_faults.specs.Converts.{and_then, Finds};
ghost use Rattle.cedar_faults.specs.Telling.{Told, TellsOnly};
ghost use Rattle.cedar_conversion.specs.Entries.{keyed, ordered, MakesEntries, MakesEntry, Puts, repeated_key, IsRepeated, entries_show};
ghost use Rattle.cedar_conversion.specs.Heads.{MakesHead};

use crate::building::{builder_at, taken};
use crate::heads::{Head, expr_to_head};
use cedar_builders::expr_builder::ExprBuilder;
use cedar_faults::{ConversionError, ToASTErrorKind, flatten_tuple_2};
use cedar_names::places::Loc;
use cedar_trees::errors::{DuplicateKeyError, ExpressionConstructionError};
use std::alloc::Global;
use std::collections::BTreeMap;
use std::rc::RcStr;

// Puts what stands beside a key into a map that doesn't have the key; faults where it does.
fn insert_new<T: Drop, E: Drop>(
    alloc: Global,
    loc: Option<&Loc>,
    map: &mut BTreeMap<RcStr, T>,
    key: RcStr,
    expr: T,
) -> Result<(), ConversionError<E>>
    ensures put { Puts (rc_str_bytes key, expr) (keyed map.old.entries) (keyed map.new.entries) result }
    ensures shown { IfErr result (λ error. TellsOnly error (λ kind. (is_among (rc_str_bytes key) (keys (keyed map.old.entries)) ≡ true) × (repeated_key kind ≡ Some (rc_str_bytes key)))) }
{
    if map.contains_key(&key) {
        let error = DuplicateKeyError::new(key, "in record literal");
        let error = ExpressionConstructionError::DuplicateKey(error);
        let kind = ToASTErrorKind::ExpressionConstructionError(error);
        return Err(ConversionError::fault(alloc, kind, loc));
    }
    map.insert(key, expr)?;
    Ok(())
}

// The entries as a map; faults where a key stands twice.
fn map_of<T: Drop, E: Drop>(
    alloc: Global,
    loc: Option<&Loc>,
    pairs: Vec<(RcStr, T)>,
) -> Result<BTreeMap<RcStr, T>, ConversionError<E>>
    ensures map { Finds (λ map. keyed map.entries) result (ordered (keyed pairs.items)) }
    ensures shown { IfErr result (λ error. TellsOnly error (IsRepeated (keys (keyed pairs.items)))) }
{
    let mut map = BTreeMap::new(alloc);
    'pairs: for (key, expr) in pairs {
        insert_new(alloc, loc, &mut map, key, expr)?;
    }
    Ok(map)
}

// The entries of a map, by their keys in rising order.
fn pairs_of<T: Drop, E: Drop>(
    alloc: Global,
    map: BTreeMap<RcStr, T>,
) -> Result<Vec<(RcStr, T)>, ConversionError<E>>
    ensures { Finds (λ pairs. pairs.items) result (Some map.entries) }
{
    let mut pairs = Vec::new(alloc);
    'entries: for (key, expr) in map {
        pairs.push((key, expr))?;
    }
    Ok(pairs)
}

/// The record of these entries; faults where a key stands twice.
pub fn record_to_head<'a, B: ExprBuilder>(
    alloc: Global,
    loc: Option<&Loc>,
    entries: Result<Vec<(RcStr, B::Expr)>, ConversionError<B::BuildError>>,
) -> Result<Head<'a, B::Expr>, ConversionError<B::BuildError>>
    ensures head { (v : Option (List (Keyed Tree))) → MakesEntries B.operations B.meaning B.refusal entries v →
        MakesHead B.operations B.meaning B.refusal result (and_then v (λ es. and_then (record_tree es) (λ t. Some (converting.a_tree t)))) }
    ensures shown { IfErr result (λ error. TellsOnly error (λ kind. Told entries kind ⊎ entries_show entries kind)) }
{
    let entries = entries?;
    let map = map_of(alloc, loc, entries)?;
    let pairs = pairs_of(alloc, map)?;
    let builder = builder_at::<B>(alloc, loc)?;
    expr_to_head::<B>(taken::<B>(builder.record(pairs)))
}

/// One more entry at the end, or the faults of all.
pub fn pushed_entry<B: ExprBuilder>(
    made: Result<Vec<(RcStr, B::Expr)>, ConversionError<B::BuildError>>,
    next: Result<(RcStr, B::Expr), ConversionError<B::BuildError>>,
) -> Result<Vec<(RcStr, B::Expr)>, ConversionError<B::BuildError>>
    ensures entries { (v : Option (List (Keyed Tree))) (w : Option (Keyed Tree)) → MakesEntries B.operations B.meaning B.refusal made v → MakesEntry B.operations B.meaning B.refusal next w →
        MakesEntries B.operations B.meaning B.refusal result (and_then v (λ xs. and_then w (λ x. Some (xs ++ x ∷ [])))) }
    ensures shown { IfErr result (λ error. TellsOnly error (λ kind. Told made kind ⊎ Told next kind)) }
{
    let (mut made, next) = flatten_tuple_2(made, next)?;
    made.push(next)?;
    Ok(made)
}
