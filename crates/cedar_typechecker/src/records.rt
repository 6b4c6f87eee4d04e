// The types of records that are written.
ghost use Rattle.std.specs.Prelude.{◌≡◌, IfOk, OnOk, map, length};
ghost use Rattle.std.specs.List.Sorted.{IsStrictlySortedBy};
ghost use Rattle.cedar_language.specs.Order.{text_cmp};
ghost use Rattle.cedar_grammar.specs.Build.{keys};
ghost use Rattle.cedar_trees.specs.Bare.{bare_entries};
ghost use Rattle.cedar_typing.specs.Containers as typing;
ghost use Rattle.cedar_typechecker.specs.Records.{texts, required};
ghost use Rattle.cedar_typechecker.specs.Results.{FindsType};
ghost use Rattle.cedar_typechecker.specs.Types.{type_view, field_view};

use crate::faults::TypingError;
use crate::types::{ExprType, Field};
use cedar_schema_syntax::Presence;
use cedar_trees::expr::Expr;
use std::alloc::{AllocError, Global};
use std::collections::BTreeMap;
use std::rc::{Rc, RcStr};

// The fields at the keys of the entries, of these types in their order; refused for memory alone.
fn required_fields(
    alloc: Global,
    entries: &BTreeMap<RcStr, Expr>,
    types: Vec<ExprType>,
) -> Result<Vec<Field>, AllocError>
    requires { length types.items ≡ length entries.now.entries }
    ensures fields { IfOk result (λ fields. map field_view fields.items ≡ required (texts entries.now.entries) (map type_view types.items)) }
    ensures rise { OnOk result (IsStrictlySortedBy text_cmp (texts entries.now.entries)) }
{
    let mut fields = Vec::new(alloc);
    let mut left = types.into_iter();
    for (key, _entry) in entries {
        if let Some(expr_type) = left.next() {
            fields.push(Field {
                name: key.clone()?,
                presence: Presence::Required,
                expr_type,
            })?;
        }
    }
    Ok(fields)
}

/// The type of the record of these entries, whose expressions are of these types: each record has its fields.
pub(crate) fn record_type(
    alloc: Global,
    entries: &BTreeMap<RcStr, Expr>,
    types: Vec<ExprType>,
) -> Result<ExprType, TypingError>
    requires { length types.items ≡ length entries.now.entries }
    ensures { FindsType (typing.record_by (typing.fields_of (keys (bare_entries entries.now.entries)) (map type_view types.items))) result }
{
    let fields = required_fields(alloc, entries, types)?;
    Ok(ExprType::Record(Rc::new(alloc, fields)?))
}
