// Which variable a part of a scope speaks of.
ghost use Rattle.std.specs.Prelude.{◌≡◌, ◌⊎◌, ◌↔◌, true, Option, Some, None, IfErr, IsTrue};
ghost use Rattle.std.specs.Option.{option_map};
ghost use Rattle.cedar_literals.specs.Variables.{variable_of};
ghost use Rattle.cedar_cst.specs.LeafView.{shown_ident, shown_name};
ghost use Rattle.cedar_cst.specs.View.{shown_expr};
ghost use Rattle.cedar_policy_parts.specs.Asked.{variable_asked};
ghost use Rattle.cedar_faults.specs.Reasons.{IsFault, reason, out_of_memory};
ghost use Rattle.cedar_faults.specs.Converts.{and_then, Finds};
ghost use Rattle.cedar_conversion.specs.Words.{ident_variable};
ghost use Rattle.cedar_faults.specs.Telling.{Tells, TellsOnly};
ghost use Rattle.cedar_policy_conversion.specs.Own.{asked_of, without};
ghost use Rattle.cedar_policy_conversion.specs.PartsShow.{variable_shows, type_name_shows};
ghost use Rattle.cedar_policy_conversion.specs.PartsShow as shows;

use crate::copies::copied;
use crate::misfits::is_type_test;
use cedar_conversion::word_to_variable;
use cedar_cst::cst::{Expr, Ident, Name};
use cedar_cst::node::Node;
use cedar_faults::{ConversionError, ToASTErrorKind};
use cedar_literals::variables::Var;
use cedar_names::places::Loc;
use cedar_policy_parts::constraints::PrincipalOrResource;
use std::alloc::Global;

/// The variable that stands first in a part of a scope.
pub(crate) fn to_var<E: Drop>(
    alloc: Global,
    node: &Node<Option<Ident>>,
) -> Result<Var, ConversionError<E>>
    ensures variable { Finds variable_of result (and_then (ident_variable (shown_ident node.now)) asked_of) }
    ensures shown { IfErr result (λ error. TellsOnly error (variable_shows (shown_ident node.now))) }
{
    match word_to_variable(node) {
        Some(Var::Principal) => Ok(Var::Principal),
        Some(Var::Action) => Ok(Var::Action),
        Some(Var::Resource) => Ok(Var::Resource),
        Some(Var::Context) => Err(no_variable(alloc, node)),
        None => Err(no_variable(alloc, node)),
    }
}

fn no_variable<E: Drop>(alloc: Global, node: &Node<Option<Ident>>) -> ConversionError<E>
    ensures fault { IsFault result }
    ensures shown { and_then (ident_variable (shown_ident node.now)) asked_of ≡ None → TellsOnly result (variable_shows (shown_ident node.now)) }
{
    match &node.node {
        Some(ident) => match copied(ident) {
            Ok(ident) => {
                let kind = ToASTErrorKind::InvalidScopeVariable(ident);
                ConversionError::fault(alloc, kind, node.loc())
            }
            Err(_) => ConversionError::Memory,
        },
        None => ConversionError::missing(alloc, node.loc()),
    }
}

/// Whether the variable is this one of the two.
pub(crate) fn stands_for(var: Var, v: PrincipalOrResource) -> bool
    ensures { IsTrue result ↔ (variable_of var ≡ variable_asked v) }
{
    match (v, var) {
        (PrincipalOrResource::Principal, Var::Principal) => true,
        (PrincipalOrResource::Resource, Var::Resource) => true,
        _ => false,
    }
}

/// That no name stands behind a `:`.
pub(crate) fn no_type_name<E: Drop>(
    alloc: Global,
    name: &Option<Node<Option<Name>>>,
) -> Result<(), ConversionError<E>>
    ensures absent { Finds (λ u. u) result (without name.now) }
    ensures shown { IfErr result (λ error. TellsOnly error (type_name_shows (option_map shown_name name.now))) }
{
    match name {
        None => Ok(()),
        Some(name) => match &name.node {
            Some(_) => {
                let kind = ToASTErrorKind::TypeConstraints;
                Err(ConversionError::fault(alloc, kind, name.loc()))
            }
            None => Err(ConversionError::missing(alloc, name.loc())),
        },
    }
}

/// Why what stands behind `in` is no entity; `inverted` where it is a test of a type.
pub(crate) fn unless_inverted<E: Drop>(
    error: ConversionError<E>,
    node: &Node<Option<Expr>>,
    inverted: ConversionError<E>,
) -> ConversionError<E>
    ensures fault { IsFault error → IsFault inverted → IsFault result }
    ensures memory { reason error ≡ out_of_memory → reason result ≡ out_of_memory }
    ensures told { TellsOnly result (λ kind. Tells error kind ⊎ (shows.is_type_test (shown_expr node.now) ≡ true) × Tells inverted kind) }
{
    match &error {
        ConversionError::Faults(_) => { if is_type_test(node) { inverted } else { error } }
        ConversionError::Builder(_) => error,
        ConversionError::Memory => error,
    }
}
