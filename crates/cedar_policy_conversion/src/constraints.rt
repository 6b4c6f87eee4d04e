// What a scope asks of the principal, or of the resource.
ghost use Rattle.std.specs.Prelude.{◌≡◌, ◌⊎◌, None, IfErr};
ghost use Rattle.std.specs.Option.{option_map};
ghost use Rattle.cedar_grammar.specs.Converting.{type_of, target, compared_with, typed_within, asked, constraint};
ghost use Rattle.cedar_grammar.specs.Token.{Word};
ghost use Rattle.cedar_cst.specs.LeafView.{view_rel_op};
ghost use Rattle.cedar_cst.specs.View.{shown_expr, shown_add, shown_variable_def};
ghost use Rattle.cedar_literals.specs.Variables.{variable_of};
ghost use Rattle.cedar_policy_parts.specs.Asked.{constraint_of};
ghost use Rattle.cedar_policy_parts.specs.References.{target_of};
ghost use Rattle.cedar_faults.specs.Reasons.{IsFault};
ghost use Rattle.cedar_faults.specs.Converts.{and_then, Finds};
ghost use Rattle.cedar_faults.specs.Telling.{TellsOnly};
ghost use Rattle.cedar_conversion.specs.Shown.{type_shows};
ghost use Rattle.cedar_policy_conversion.specs.Own.{own_word};
ghost use Rattle.cedar_policy_conversion.specs.PartsShow.{operator_shows, typed_shows, type_alone_shows, compared_shows, asked_shows, asked_of_shows, constraint_shows};

use crate::references::to_ref_or_slot;
use crate::variables::{no_type_name, stands_for, to_var, unless_inverted};
use cedar_conversion::to_entity_type;
use cedar_cst::cst::{Add, Expr, RelOp, VariableDef};
use cedar_cst::node::Node;
use cedar_faults::{ConversionError, ToASTErrorKind};
use cedar_literals::uids::EntityType;
use cedar_literals::variables::Var;
use cedar_names::places::Loc;
use cedar_policy_parts::constraints::{PrincipalOrResource, PrincipalOrResourceConstraint};
use cedar_policy_parts::references::EntityReference;
use std::alloc::Global;
use std::rc::Rc;

// What is asked by an operator, without a type.
fn compared<E: Drop>(
    alloc: Global,
    op: RelOp,
    reference: EntityReference,
    loc: Option<&Loc>,
) -> Result<PrincipalOrResourceConstraint, ConversionError<E>>
    ensures constraint { Finds constraint_of result (compared_with (view_rel_op op) (target_of reference)) }
    ensures shown { IfErr result (λ error. TellsOnly error (operator_shows (view_rel_op op))) }
{
    match op {
        RelOp::Eq => Ok(PrincipalOrResourceConstraint::Eq(reference)),
        RelOp::In => Ok(PrincipalOrResourceConstraint::In(reference)),
        RelOp::InvalidSingleEq => {
            let kind = ToASTErrorKind::InvalidSingleEq;
            Err(ConversionError::fault(alloc, kind, loc))
        }
        RelOp::Less | RelOp::LessEq | RelOp::GreaterEq | RelOp::Greater | RelOp::NotEq => {
            let kind = ToASTErrorKind::InvalidScopeOperator(op);
            Err(ConversionError::fault(alloc, kind, loc))
        }
    }
}

// The type.
fn to_type<E: Drop>(
    alloc: Global,
    node: &Node<Option<Add>>,
) -> Result<Rc<EntityType>, ConversionError<E>>
    ensures named { Finds (λ entity_type. entity_type.value) result (type_of (shown_add node.now)) }
    ensures shown { IfErr result (λ error. TellsOnly error (type_shows (shown_add node.now))) }
{
    let name = to_entity_type(alloc, node)?;
    Ok(Rc::new(alloc, EntityType::from(name))?)
}

// What is asked by a type and an operator.
fn typed<E: Drop>(
    alloc: Global,
    entity_type: &Node<Option<Add>>,
    op: RelOp,
    reference: EntityReference,
    loc: Option<&Loc>,
) -> Result<PrincipalOrResourceConstraint, ConversionError<E>>
    ensures constraint { Finds constraint_of result (and_then (type_of (shown_add entity_type.now)) (λ p. typed_within p (view_rel_op op) (target_of reference))) }
    ensures shown { IfErr result (λ error. TellsOnly error (typed_shows (shown_add entity_type.now) (view_rel_op op))) }
{
    match op {
        RelOp::In => {
            let entity_type = to_type(alloc, entity_type)?;
            Ok(PrincipalOrResourceConstraint::IsIn(entity_type, reference))
        }
        RelOp::Eq => Err(ConversionError::fault(alloc, ToASTErrorKind::IsWithEq, loc)),
        RelOp::InvalidSingleEq => {
            let kind = ToASTErrorKind::InvalidSingleEq;
            Err(ConversionError::fault(alloc, kind, loc))
        }
        RelOp::Less | RelOp::LessEq | RelOp::GreaterEq | RelOp::Greater | RelOp::NotEq => {
            let kind = ToASTErrorKind::InvalidScopeOperator(op);
            Err(ConversionError::fault(alloc, kind, loc))
        }
    }
}

// What is asked by a type alone, or not at all.
fn to_typed<E: Drop>(
    alloc: Global,
    entity_type: &Option<Node<Option<Add>>>,
) -> Result<PrincipalOrResourceConstraint, ConversionError<E>>
    ensures constraint { (own : Word) → Finds constraint_of result (asked own (option_map shown_add entity_type.now) None) }
    ensures shown { IfErr result (λ error. TellsOnly error (type_alone_shows (option_map shown_add entity_type.now))) }
{
    match entity_type {
        None => Ok(PrincipalOrResourceConstraint::Any),
        Some(node) => {
            let entity_type = to_type(alloc, node)?;
            Ok(PrincipalOrResourceConstraint::Is(entity_type))
        }
    }
}

// The entity, or the slot, that an operator compares with.
fn to_reference<E: Drop>(
    alloc: Global,
    op: RelOp,
    node: &Node<Option<Expr>>,
    v: PrincipalOrResource,
    loc: Option<&Loc>,
) -> Result<EntityReference, ConversionError<E>>
    ensures target { Finds target_of result (target (own_word v) (shown_expr node.now)) }
    ensures shown { IfErr result (λ error. TellsOnly error (compared_shows (own_word v) (view_rel_op op) (shown_expr node.now))) }
{
    match to_ref_or_slot(alloc, node, v) {
        Ok(reference) => Ok(reference),
        Err(error) => match op {
            RelOp::In => {
                let inverted = ConversionError::fault(alloc, ToASTErrorKind::InvertedIsIn, loc);
                Err(unless_inverted(error, node, inverted))
            }
            RelOp::Eq
            | RelOp::Less
            | RelOp::LessEq
            | RelOp::GreaterEq
            | RelOp::Greater
            | RelOp::NotEq
            | RelOp::InvalidSingleEq => Err(error),
        },
    }
}

// What is asked of this variable.
fn to_asked<E: Drop>(
    alloc: Global,
    def: &VariableDef,
    v: PrincipalOrResource,
    loc: Option<&Loc>,
) -> Result<PrincipalOrResourceConstraint, ConversionError<E>>
    ensures constraint { Finds constraint_of result (asked (own_word v) (option_map shown_add def.now.entity_type) (option_map (λ x. (view_rel_op x.0, shown_expr x.1)) def.now.ineq)) }
    ensures shown { IfErr result (λ error. TellsOnly error (asked_shows (own_word v) (option_map shown_add def.now.entity_type) (option_map (λ x. (view_rel_op x.0, shown_expr x.1)) def.now.ineq))) }
{
    match &def.ineq {
        None => to_typed(alloc, &def.entity_type),
        Some((op, node)) => {
            let reference = to_reference(alloc, *op, node, v, loc)?;
            match &def.entity_type {
                None => compared(alloc, *op, reference, loc),
                Some(entity_type) => typed(alloc, entity_type, *op, reference, loc),
            }
        }
    }
}

// The faults of what is asked of another variable, or else that it is another one.
fn other_variable<E: Drop>(
    alloc: Global,
    def: &VariableDef,
    expected: Var,
    got: Var,
    loc: Option<&Loc>,
) -> ConversionError<E>
    ensures fault { IsFault result }
    ensures told { TellsOnly result (λ kind. (kind ≡ ToASTErrorKind.IncorrectVariable expected got)
        ⊎ asked_of_shows (variable_of got) (option_map shown_add def.now.entity_type) (option_map (λ x. (view_rel_op x.0, shown_expr x.1)) def.now.ineq) kind) }
{
    if let Ok(other) = PrincipalOrResource::try_from(got) {
        if let Err(error) = to_asked(alloc, def, other, loc) {
            return error;
        }
    }
    ConversionError::fault(
        alloc,
        ToASTErrorKind::IncorrectVariable { expected, got },
        loc,
    )
}

/// What is asked of the principal, or of the resource, as `v` says; faults where the part is missing or
/// speaks of another variable, where a name stands behind a `:`, where another operator than `==` and `in`
/// or `==` beside `is` stands there, or where a part of it has faults. (Cedar language reference, "Policy
/// scope" and "Policy templates".)
pub fn to_principal_or_resource_constraint<E: Drop>(
    alloc: Global,
    node: &Node<Option<VariableDef>>,
    v: PrincipalOrResource,
) -> Result<PrincipalOrResourceConstraint, ConversionError<E>>
    ensures constraint { Finds constraint_of result (constraint (own_word v) (shown_variable_def node.now)) }
    ensures shown { IfErr result (λ error. TellsOnly error (constraint_shows (own_word v) (shown_variable_def node.now))) }
{
    let Some(def) = &node.node else {
        return Err(ConversionError::missing(alloc, node.loc()));
    };
    let var = to_var(alloc, &def.variable)?;
    no_type_name(alloc, &def.unused_type_name)?;
    if stands_for(var, v) {
        to_asked(alloc, def, v, node.loc())
    } else {
        Err(other_variable(alloc, def, Var::from(v), var, node.loc()))
    }
}
