// Extension values as the calls that make them. What nests in their arguments is followed by
// recursion, whose depth is that of the representation.
ghost use Rattle.std.specs.Prelude.{◌≡◌, true, IfOk, map};
ghost use Rattle.std.specs.Rc.{rc_str_bytes};
ghost use Rattle.cedar_grammar.specs.Build.{trees, keys};
ghost use Rattle.cedar_trees.specs.Bare.{bare, bare_entries};
ghost use Rattle.cedar_values.specs.Representations.{written, written_all, written_call};
ghost use Rattle.cedar_restricted.specs.Expressing.{is_ground, are_ground};

use cedar_trees::expr::Expr;
use cedar_values::extension_values::{Argument, RepresentableExtensionValue};
use std::alloc::{AllocError, Global};
use std::collections::BTreeMap;
use std::rc::{Rc, RcStr};

#[cycle(call_expr)]
pub fn call_expr(alloc: Global, value: &RepresentableExtensionValue) -> Result<Expr, AllocError>
    ensures { IfOk result (λ expr. (bare expr ≡ written_call value.now) × (is_ground (bare expr) ≡ true)) }
{
    let args = argument_exprs(alloc, value.args())?;
    Expr::call_extension_fn(alloc, value.func().clone(alloc)?, args)
}

#[cycle(call_expr)]
pub fn argument_expr(alloc: Global, argument: &Argument) -> Result<Expr, AllocError>
    ensures { IfOk result (λ expr. (bare expr ≡ written argument.now) × (is_ground (bare expr) ≡ true)) }
{
    match argument {
        Argument::Lit(literal) => Ok(Expr::val(literal.clone()?)),
        Argument::Set(items) => Expr::set(alloc, argument_exprs(alloc, items)?),
        Argument::Record(fields) => {
            let entries = field_exprs(alloc, fields)?;
            Ok(Expr::record_arc(Rc::new(alloc, entries)?))
        }
        Argument::ExtensionValue(value) => call_expr(alloc, value),
    }
}

#[cycle(call_expr)]
fn argument_exprs(alloc: Global, arguments: &[Argument]) -> Result<Vec<Expr>, AllocError>
    ensures written { IfOk result (λ exprs. trees (map bare exprs.items) ≡ written_all arguments.now) }
    ensures ground { IfOk result (λ exprs. are_ground (trees (map bare exprs.items)) ≡ true) }
{
    let mut exprs = Vec::new(alloc);
    for argument in arguments {
        exprs.push(argument_expr(alloc, argument)?)?;
    }
    Ok(exprs)
}

#[cycle(call_expr)]
fn field_exprs(
    alloc: Global,
    fields: &BTreeMap<RcStr, Argument>,
) -> Result<BTreeMap<RcStr, Expr>, AllocError>
    ensures keys { IfOk result (λ exprs. keys (bare_entries exprs.entries) ≡ map (λ e. rc_str_bytes e.0) fields.now.entries) }
    ensures written { IfOk result (λ exprs. trees (map (λ e. e.1) (bare_entries exprs.entries)) ≡ written_all (map (λ e. e.1) fields.now.entries)) }
    ensures ground { IfOk result (λ exprs. are_ground (trees (map (λ e. e.1) (bare_entries exprs.entries))) ≡ true) }
{
    let mut exprs = BTreeMap::new(alloc);
    for (key, argument) in fields {
        let expr = argument_expr(alloc, argument)?;
        exprs.insert(key.clone()?, expr)?;
    }
    Ok(exprs)
}
