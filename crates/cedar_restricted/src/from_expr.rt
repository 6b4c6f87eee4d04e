// Expressions as values.
ghost use Rattle.std.specs.Prelude.{◌≡◌, map, IfOk};
ghost use Rattle.cedar_language.specs.Order.{all_of};
ghost use Rattle.cedar_language.specs.Value as language;
ghost use Rattle.cedar_grammar.specs.Build.{trees, keys};
ghost use Rattle.cedar_trees.specs.Bare.{bare, bare_entries};
ghost use Rattle.cedar_values.specs.Kinds.{value_of, keys_of, values_of};
ghost use Rattle.cedar_restricted.specs.Reading.{value_in, values_in, IsRead};

use cedar_names::places::Loc;
use cedar_trees::expr::{Expr, ExprKind};
use cedar_values::values::{Value, ValueKind};
use std::alloc::{AllocError, AllocFailed, Global};
use std::collections::BTreeMap;
use std::rc::{Rc, RcStr};
use thiserror::Error;

/// Why an expression is no value. `==` compares places too.
#[derive(Debug, PartialEq, Eq, Clone, Drop, Error)]
pub enum NotValue {
    /// Some part of it is no literal, no set and no record.
    #[error("not a value")]
    NotValue {
        /// Where the first such part was read, if it was.
        loc: Option<Loc>,
    },
    /// Memory ran out.
    #[error(transparent)]
    Memory(AllocError),
}

impl From<AllocError> for NotValue {
    ghost use Rattle.cedar_restricted.specs.declared.from_expr.NotValue.TheVariants.{Memory};

    ghost from_gives = { λ error made. made ≡ Memory error };

    fn from(error: AllocError) -> NotValue {
        NotValue::Memory(error)
    }
}

impl<T: Drop> From<AllocFailed<T>> for NotValue {
    ghost use Rattle.std.specs.Prelude.{alloc_error};
    ghost use Rattle.cedar_restricted.specs.declared.from_expr.NotValue.TheVariants.{Memory};

    ghost from_gives = { λ _ made. made ≡ Memory alloc_error };

    fn from(_error: AllocFailed<T>) -> NotValue {
        NotValue::Memory(AllocError)
    }
}

/// What is read of an expression that is written out: of literals, sets and records alone.
pub trait TryFromExpr: Sized {
    // the value that it is
    ghost value: { Self → language.Value };

    /// What the expression writes, where it is made of literals, sets and records alone; else refused,
    /// or for want of memory.
    fn try_from_expr(alloc: Global, expr: &Expr) -> Result<Self, NotValue>
        ensures { IsRead Self.value (value_in (bare expr.now)) result };
}

impl TryFromExpr for Value {
    ghost value = { λ value. value };

    /// The value at the expression's place.
    fn try_from_expr(alloc: Global, expr: &Expr) -> Result<Value, NotValue> {
        read_value(alloc, expr)
    }
}

impl TryFromExpr for ValueKind {
    ghost use Rattle.cedar_values.specs.Kinds.{value_of};

    ghost value = { value_of };

    fn try_from_expr(alloc: Global, expr: &Expr) -> Result<ValueKind, NotValue> {
        read_kind(alloc, expr)
    }
}

#[cycle(read_value)]
fn read_value(alloc: Global, expr: &Expr) -> Result<Value, NotValue>
    ensures { IsRead (λ value. value) (value_in (bare expr.now)) result }
{
    let kind = read_kind(alloc, expr)?;
    Ok(Value::new(kind, place(alloc, expr)?))
}

#[cycle(read_value)]
fn read_kind(alloc: Global, expr: &Expr) -> Result<ValueKind, NotValue>
    ensures { IsRead value_of (value_in (bare expr.now)) result }
{
    match &expr.expr_kind {
        ExprKind::Lit(literal) => Ok(ValueKind::Lit(literal.clone()?)),
        ExprKind::Set(items) => Ok(ValueKind::set(alloc, read_items(alloc, items)?)?),
        ExprKind::Record(entries) => {
            let fields = read_entries(alloc, entries)?;
            Ok(ValueKind::record_arc(Rc::new(alloc, fields)?))
        }
        _ => Err(NotValue::NotValue {
            loc: place(alloc, expr)?,
        }),
    }
}

#[cycle(read_value)]
fn read_items(alloc: Global, items: &[Expr]) -> Result<Vec<Value>, NotValue>
    ensures { IsRead (λ values. all_of values.items) (values_in (trees (map bare items.now))) result }
{
    let mut values = Vec::new(alloc);
    for item in items {
        values.push(read_value(alloc, item)?)?;
    }
    Ok(values)
}

#[cycle(read_value)]
fn read_entries(
    alloc: Global,
    entries: &BTreeMap<RcStr, Expr>,
) -> Result<BTreeMap<RcStr, Value>, NotValue>
    ensures values { IsRead (λ fields. values_of fields.entries) (values_in (trees (map (λ e. e.1) (bare_entries entries.now.entries)))) result }
    ensures keys { IfOk result (λ fields. keys_of fields.entries ≡ keys (bare_entries entries.now.entries)) }
{
    let mut fields = BTreeMap::new(alloc);
    for (key, expr) in entries {
        let value = read_value(alloc, expr)?;
        fields.insert(key.clone()?, value)?;
    }
    Ok(fields)
}

// A copy of the place of an expression.
fn place(alloc: Global, expr: &Expr) -> Result<Option<Loc>, AllocError> {
    match &expr.source_loc {
        None => Ok(None),
        Some(loc) => Ok(Some(loc.clone(alloc)?)),
    }
}
