// The names for which what is left of policies waits.
ghost use Rattle.std.specs.Prelude.{◌≡◌, ◌++◌, IfOk, OnOk, map, option_map};
ghost use Rattle.std.specs.List.{filter, filter_map};
ghost use Rattle.cedar_literals.specs.Variables.{variable_of, variable_text};
ghost use Rattle.cedar_shapes.specs.Positions.{positions};
ghost use Rattle.cedar_trees.specs.Bare.{bare};
ghost use Rattle.cedar_authoring.specs.Awaiting.{awaits, name_standing};

use cedar_literals::variables::Var;
use cedar_refusals::naming::{is_variable, stands};
use cedar_shapes::readers::ExprReaders;
use cedar_trees::expr::{Expr, ExprKind};
use std::alloc::{AllocError, Global};

/// Appends the names of the unknowns in an expression, and of the variables that stand there as they were written.
pub(crate) fn push_standing<'e>(
    alloc: Global,
    names: &mut Vec<&'e str>,
    rest: &'e Expr,
) -> Result<(), AllocError>
    ensures { OnOk result (map (λ n. n.now) names.new.items ≡ map (λ n. n.now) names.old.items ++ filter_map name_standing (positions (bare rest.now))) }
{
    for part in rest.subexpressions(alloc)? {
        if let Some(name) = name_of(part) {
            names.push(name)?;
        }
    }
    Ok(())
}

fn name_of(part: &Expr) -> Option<&str>
    ensures { option_map (λ n. n.now) result ≡ name_standing (bare part.now) }
{
    match &part.expr_kind {
        ExprKind::Unknown(unknown) => Some(unknown.name.as_str()),
        ExprKind::Var(var) => Some(written(*var)),
        _ => None,
    }
}

fn written(var: Var) -> &'static str
    ensures { result.now ≡ variable_text (variable_of var) }
{
    match var {
        Var::Principal => "principal",
        Var::Action => "action",
        Var::Resource => "resource",
        Var::Context => "context",
    }
}

/// Of these names those for which an expression waits in which the others stand: it waits for a name that stands there,
/// and where the context does, for the names of its unknowns.
pub(crate) fn awaited<'n>(
    alloc: Global,
    untold: &[&'n str],
    standing: &[&str],
) -> Result<Vec<&'n str>, AllocError>
    ensures { IfOk result (λ names. map (λ n. n.now) names.items ≡ filter (awaits (map (λ n. n.now) standing.now)) (map (λ n. n.now) untold.now)) }
{
    let mut awaited = Vec::new(alloc);
    for name in untold {
        if waits_for(standing, name) {
            awaited.push(*name)?;
        }
    }
    Ok(awaited)
}

fn waits_for(standing: &[&str], name: &str) -> bool
    ensures { result ≡ awaits (map (λ n. n.now) standing.now) name.now }
{
    stands(standing, name) || (!is_variable(name) && stands(standing, "context"))
}
