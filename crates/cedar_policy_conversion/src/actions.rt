// What a scope asks of the action.
ghost use Rattle.std.specs.Prelude.{◌⊎◌, Some, IfErr};
ghost use Rattle.std.specs.Option.{option_map};
ghost use Rattle.cedar_grammar.specs.Policy.{action_within_any};
ghost use Rattle.cedar_grammar.specs.Converting.{alone, actions_among, action_asked, action_constraint};
ghost use Rattle.cedar_cst.specs.LeafView.{view_rel_op};
ghost use Rattle.cedar_cst.specs.View.{shown_expr, shown_variable_def};
ghost use Rattle.cedar_policy_parts.specs.Actions.{action_of};
ghost use Rattle.cedar_faults.specs.Converts.{and_then, Finds};
ghost use Rattle.cedar_faults.specs.Telling.{TellsOnly};
ghost use Rattle.cedar_policy_conversion.specs.PartsShow.{actions_show, type_test_shows, action_asked_shows, action_constraint_shows};

use crate::entities::{to_action, to_refs};
use crate::variables::{no_type_name, to_var, unless_inverted};
use cedar_cst::cst::{Expr, RelOp, VariableDef};
use cedar_cst::node::Node;
use cedar_faults::{ConversionError, ToASTErrorKind};
use cedar_literals::variables::Var;
use cedar_names::places::Loc;
use cedar_policy_parts::actions::ActionConstraint;
use std::alloc::Global;
use std::rc::Rc;

// That the action is in what stands behind `in`.
fn to_within<E: Drop>(
    alloc: Global,
    node: &Node<Option<Expr>>,
    loc: Option<&Loc>,
) -> Result<ActionConstraint, ConversionError<E>>
    ensures constraint { Finds action_of result (and_then (actions_among (shown_expr node.now) (alone (shown_expr node.now))) (λ us. Some (action_within_any us))) }
    ensures shown { IfErr result (λ error. TellsOnly error (λ kind. actions_show (shown_expr node.now) kind ⊎ type_test_shows (shown_expr node.now) kind)) }
{
    match to_refs(alloc, node) {
        Ok(refs) => Ok(ActionConstraint::In(refs.into_euids(alloc)?)),
        Err(error) => {
            let inverted = ConversionError::fault(alloc, ToASTErrorKind::IsInActionScope, loc);
            Err(unless_inverted(error, node, inverted))
        }
    }
}

// What is asked of the action.
fn to_asked<E: Drop>(
    alloc: Global,
    ineq: &Option<(RelOp, Node<Option<Expr>>)>,
    loc: Option<&Loc>,
) -> Result<ActionConstraint, ConversionError<E>>
    ensures constraint { Finds action_of result (action_asked (option_map (λ x. (view_rel_op x.0, shown_expr x.1)) ineq.now)) }
    ensures shown { IfErr result (λ error. TellsOnly error (action_asked_shows (option_map (λ x. (view_rel_op x.0, shown_expr x.1)) ineq.now))) }
{
    let Some((op, node)) = ineq else {
        return Ok(ActionConstraint::Any);
    };
    match op {
        RelOp::Eq => {
            let euid = to_action(alloc, node)?;
            Ok(ActionConstraint::Eq(Rc::new(alloc, euid)?))
        }
        RelOp::In => to_within(alloc, node, loc),
        RelOp::InvalidSingleEq => {
            let kind = ToASTErrorKind::InvalidSingleEq;
            Err(ConversionError::fault(alloc, kind, loc))
        }
        RelOp::Less | RelOp::LessEq | RelOp::GreaterEq | RelOp::Greater | RelOp::NotEq => {
            let kind = ToASTErrorKind::InvalidActionScopeOperator(*op);
            Err(ConversionError::fault(alloc, kind, loc))
        }
    }
}

/// What is asked of the action; faults where the part is missing or speaks of another variable, where a
/// name stands behind a `:`, where another operator than `==` and `in`, or a type, is asked for, or where
/// what it compares with has faults. (Cedar language reference, "Policy scope".)
pub fn to_action_constraint<E: Drop>(
    alloc: Global,
    node: &Node<Option<VariableDef>>,
) -> Result<ActionConstraint, ConversionError<E>>
    ensures constraint { Finds action_of result (action_constraint (shown_variable_def node.now)) }
    ensures shown { IfErr result (λ error. TellsOnly error (action_constraint_shows (shown_variable_def node.now))) }
{
    let Some(def) = &node.node else {
        return Err(ConversionError::missing(alloc, node.loc()));
    };
    let got = to_var(alloc, &def.variable)?;
    match got {
        Var::Action => {}
        Var::Principal | Var::Resource | Var::Context => {
            let expected = Var::Action;
            let kind = ToASTErrorKind::IncorrectVariable { expected, got };
            return Err(ConversionError::fault(alloc, kind, node.loc()));
        }
    }
    no_type_name(alloc, &def.unused_type_name)?;
    match &def.entity_type {
        None => to_asked(alloc, &def.ineq, node.loc()),
        Some(_) => {
            let kind = ToASTErrorKind::IsInActionScope;
            Err(ConversionError::fault(alloc, kind, node.loc()))
        }
    }
}
