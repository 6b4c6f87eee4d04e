// The evaluation of attributes, or of tags.
ghost use Rattle.std.specs.Prelude.{◌≡◌, false};
ghost use Rattle.cedar_extensions.specs.Table.{as_table};
ghost use Rattle.cedar_restricted.specs.PartialValues.{partial_of};
ghost use Rattle.cedar_restricted.specs.Splitting.{is_residual as is_residual_part};
ghost use Rattle.cedar_world.specs.Values.{some_field};
ghost use Rattle.cedar_held.specs.Lent.{fields_in};
ghost use Rattle.cedar_held.specs.Entities.{lent_fields};
ghost use Rattle.cedar_held.specs.Fields.{unrestricted, AreEvaluated};

use crate::values::evaluated;
use cedar_extensions::extensions::Extensions;
use cedar_extensions::objects::ExtensionFunctionObject;
use cedar_replies::Refusal;
use cedar_restricted::partial_values::PartialValue;
use cedar_trees::expr::Expr;
use std::alloc::Global;
use std::collections::BTreeMap;
use std::rc::RcStr;

fn is_residual(value: &PartialValue) -> bool
    ensures { result ≡ is_residual_part (partial_of value.now) }
{
    match value {
        PartialValue::Value(_) => false,
        PartialValue::Residual(_) => true,
    }
}

/// What the trees of a record's entries are evaluated to, by their keys, or none where some of them holds an
/// unknown.
///
/// It is refused `Evaluation` where some part of a tree errs that holds no unknown, `Depth` where a tree is
/// higher than `depth`, and `Memory`. The table of functions is the one that the body was read with.
pub fn all_evaluated<F: ExtensionFunctionObject>(
    alloc: Global,
    entries: &BTreeMap<RcStr, Expr>,
    extensions: &Extensions<'_, F>,
    depth: u32,
) -> Result<Option<BTreeMap<RcStr, PartialValue>>, Refusal>
    requires { some_field unrestricted (fields_in entries.now) ≡ false }
    ensures { AreEvaluated (as_table F.answers extensions.now) depth (fields_in entries.now) result }
{
    let mut values = BTreeMap::new(alloc);
    let mut holds_unknown = false;
    // each is evaluated, also behind one that holds an unknown: an error goes before that
    for (name, expr) in entries {
        let value = evaluated(alloc, expr, extensions, depth)?;
        holds_unknown |= is_residual(&value);
        values.insert(name.clone()?, value)?;
    }
    if holds_unknown {
        Ok(None)
    } else {
        Ok(Some(values))
    }
}

// The same of fields that may be left out.
pub fn evaluated_fields<F: ExtensionFunctionObject>(
    alloc: Global,
    entries: Option<&BTreeMap<RcStr, Expr>>,
    extensions: &Extensions<'_, F>,
    depth: u32,
) -> Result<Option<BTreeMap<RcStr, PartialValue>>, Refusal>
    requires { some_field unrestricted (lent_fields entries) ≡ false }
    ensures { AreEvaluated (as_table F.answers extensions.now) depth (lent_fields entries.entry) result }
{
    match entries {
        None => Ok(Some(BTreeMap::new(alloc))),
        Some(entries) => all_evaluated(alloc, entries, extensions, depth),
    }
}
