// Entities of JSON as several Cedar texts, each within a limit.
ghost use Rattle.std.specs.Prelude.{◌≡◌, ◌++◌, ◌<◌, ◌∷◌, [], map, drop, length, string_bytes, encode_utf8, encode_utf8_all, IfOk, IfErr};
ghost use Rattle.json.specs.Value.{value_view, items_view};
ghost use Rattle.cedar_json.specs.Bodies.{items_of, IsNext, IsSplit, IsTooLong, is_memory, IsTooLongBehind};
ghost use Rattle.cedar_json.specs.EntitiesWritten.{one_written};

use crate::entities_written::write_one;
use json::Value;
use std::alloc::{AllocError, AllocFailed, Global};

/// Why entities were not written as bodies.
#[derive(Clone, Copy, Debug)]
pub enum SplitError {
    /// Memory ran out.
    Memory,
    /// The text says no entities.
    Unsaid,
    /// The entity at this index of the list doesn't fit into a body.
    TooLong { index: usize },
}

impl From<AllocError> for SplitError {
    ghost use Rattle.std.specs.Prelude.{◌≡◌};
    ghost use Rattle.cedar_json.specs.declared.bodies.SplitError.TheVariants.{Memory};

    ghost from_gives = { λ _ e. e ≡ Memory };

    fn from(_error: AllocError) -> SplitError {
        SplitError::Memory
    }
}

impl<T: Drop> From<AllocFailed<T>> for SplitError {
    ghost use Rattle.std.specs.Prelude.{◌≡◌};
    ghost use Rattle.cedar_json.specs.declared.bodies.SplitError.TheVariants.{Memory};

    ghost from_gives = { λ _ e. e ≡ Memory };

    fn from(_failed: AllocFailed<T>) -> SplitError {
        SplitError::Memory
    }
}

/// An entity and a comma.
fn item_text(alloc: Global, item: &Value<'_>) -> Result<String, AllocError>
    ensures { IfOk result (λ text. string_bytes text ≡ encode_utf8_all (one_written (value_view item.now) ++ 44 ∷ [])) }
{
    let mut text = String::new(alloc);
    write_one(&mut text, item)?;
    text.push(',')?;
    Ok(text)
}

/// A body that ends, and the index behind its last entity.
fn close(mut text: String, behind: usize) -> Result<(String, usize), SplitError>
    ensures closed { IfOk result (λ x. (string_bytes x.0 ≡ string_bytes text ++ encode_utf8 93) × (x.1 ≡ behind)) }
    ensures memory { IfErr result is_memory }
{
    text.push(']')?;
    Ok((text, behind))
}

/// The longest body of the entities from an index on, and the index behind its last one.
fn next_body(
    alloc: Global,
    items: &Vec<Value<'_>>,
    from: usize,
    limit: usize,
) -> Result<(String, usize), SplitError>
    requires { from < length items.now.items }
    ensures body { IfOk result (λ x. IsNext limit (items_view (drop from items.now.items)) (items_view (drop x.1 items.now.items)) (string_bytes x.0)) }
    ensures further { IfOk result (λ x. from < x.1) }
    ensures long { IfErr result (IsTooLongBehind limit from (items_view (drop from items.now.items))) }
{
    let mut text = String::new(alloc);
    text.push('[')?;
    let mut at = from;
    'items: while at < items.len() {
        let item = &items[at];
        let one = item_text(alloc, item)?;
        if one.len() >= limit.saturating_sub(text.len()) {
            if at == from {
                return Err(SplitError::TooLong { index: from });
            }
            return close(text, at);
        }
        text.push_str(one.as_str())?;
        at += 1;
    }
    close(text, at)
}

/// The bodies of entities, in order, each within the limit and as long as it can be.
fn split_items(
    alloc: Global,
    items: &Vec<Value<'_>>,
    limit: usize,
) -> Result<Vec<String>, SplitError>
    ensures bodies { IfOk result (λ texts. IsSplit limit (map string_bytes texts.items) (items_view items.now.items)) }
    ensures long { IfErr result (IsTooLong limit (items_view items.now.items)) }
{
    let mut texts = Vec::new(alloc);
    let mut from = 0;
    'bodies: while from < items.len() {
        let next = match next_body(alloc, items, from, limit) {
            Ok(next) => next,
            Err(error) => return Err(error),
        };
        texts.push(next.0)?;
        from = next.1;
    }
    Ok(texts)
}

/// The bodies of the entities of a value.
pub fn split(alloc: Global, value: &Value<'_>, limit: usize) -> Result<Vec<String>, SplitError>
    ensures bodies { IfOk result (λ texts. IsSplit limit (map string_bytes texts.items) (items_of (value_view value.now))) }
    ensures long { IfErr result (IsTooLong limit (items_of (value_view value.now))) }
{
    match value {
        Value::Array(items) => split_items(alloc, items, limit),
        _ => Ok(Vec::new(alloc)),
    }
}
