// What stands before another of its kind.
ghost use Rattle.std.specs.Prelude.{◌≡◌, [], ◌∷◌, ◌++◌, true, false, cond, map, reverse, IfOk, OnOk};
ghost use Rattle.std.specs.BTreeMap.{is_at};
ghost use Rattle.std.specs.BTreeSet.{contains};
ghost use Rattle.cedar_schema_grammar.specs.Faults.{repeated};
ghost use Rattle.cedar_schema_faults.specs.Views.{fault_view, faults_view};
ghost use Rattle.cedar_schema_faults.specs.Repeats.{shares_key};

use crate::kinds::SchemaError;
use std::alloc::{AllocError, Global};
use std::collections::BTreeSet;

// No keys.
fn no_keys<K: Ord>(alloc: Global) -> BTreeSet<K>
    ensures { (k : K) → contains K.cmp result k ≡ false }
{
    BTreeSet::new(alloc)
}

// Adds a key, and answers whether it was there.
fn add_key<K: Ord + Drop>(seen: &mut BTreeSet<K>, key: K) -> Result<bool, AllocError>
    ensures was { IfOk result (λ was. was ≡ contains K.cmp seen.old key) }
    ensures added { OnOk result ((k : K) → contains K.cmp seen.new k ≡ cond (is_at (K.cmp key) k) true (contains K.cmp seen.old k)) }
{
    Ok(!seen.insert(key)?)
}

// Puts an error behind others, if it is told.
fn keep_if(
    is_told: bool,
    error: SchemaError,
    errors: &mut Vec<SchemaError>,
) -> Result<(), AllocError>
    ensures { OnOk result (errors.new.items ≡ errors.old.items ++ cond is_told (error ∷ []) []) }
{
    if is_told {
        errors.push(error)?;
    }
    Ok(())
}

// The errors of those before another of the same key, the last of them first.
fn repeated_errors<K: Ord + Drop>(
    alloc: Global,
    keyed: Vec<(K, SchemaError)>,
) -> Result<Vec<SchemaError>, AllocError>
    ensures { IfOk result (λ errors. reverse errors.items ≡ map (λ p. p.1) (repeated (shares_key K.cmp) keyed.items)) }
{
    let mut left = keyed;
    let mut seen = no_keys(alloc);
    let mut errors = Vec::new(alloc);
    while let Some((key, error)) = left.pop() {
        let is_repeated = add_key(&mut seen, key)?;
        keep_if(is_repeated, error, &mut errors)?;
    }
    Ok(errors)
}

// Tells errors, the last first.
fn tell_reversed(errors: Vec<SchemaError>, told: &mut Vec<SchemaError>) -> Result<(), AllocError>
    ensures { OnOk result (told.new.items ≡ told.old.items ++ reverse errors.items) }
{
    let mut left = errors;
    while let Some(error) = left.pop() {
        told.push(error)?;
    }
    Ok(())
}

/// Tells the error of each that stands before another of the same key. It takes time linear in their number, times its logarithm.
pub(crate) fn tell_repeated<K: Ord + Drop>(
    alloc: Global,
    keyed: Vec<(K, SchemaError)>,
    told: &mut Vec<SchemaError>,
) -> Result<(), AllocError>
    ensures { OnOk result (faults_view told.new
        ≡ faults_view told.old ++ map (λ p. fault_view p.1) (repeated (shares_key K.cmp) keyed.items)) }
{
    let errors = repeated_errors(alloc, keyed)?;
    tell_reversed(errors, told)
}
