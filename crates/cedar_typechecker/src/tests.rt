// Types of expressions where a schema declares nothing.
use crate::{
    BoolType, EntityShape, ExprType, Field, RequestEnv, Signature, TypingError, TypingFault, typed,
};
use cedar_literals::literals::Literal;
use cedar_literals::slots::SlotId;
use cedar_literals::uids::{EntityType, EntityUID};
use cedar_literals::variables::Var;
use cedar_names::errors::ParseNameError;
use cedar_names::names::Name;
use cedar_names::reading::FromNormalizedStr;
use cedar_trees::expr::Expr;
use std::alloc::{AllocError, Global};
use std::rc::{Rc, RcStr};
use std::test::Fail;

/// A request of users, an action, and an empty context, none of which is declared.
#[derive(Drop)]
struct Undeclared {
    user: EntityType,
    action: Rc<EntityUID>,
    context: Rc<Vec<Field>>,
}

impl RequestEnv for Undeclared {
    ghost use Rattle.std.specs.Prelude.{false, None};
    ghost use Rattle.cedar_typing.specs.Schema.{Environment};
    ghost use Rattle.cedar_typechecker.specs.Types.{fields_view};

    ghost environment = { λ e. record {
      schema = record {
        entity = λ n. None;
        may_name = λ u. false;
        may_reach = λ n m. false;
        is_action = λ u. false;
        action_reaches = λ a b. false;
        applies = λ a n m. false;
        context = λ a. fields_view e.context.value.items;
        signature = λ n. None;
      };
      principal = e.user;
      action = e.action.value;
      resource = e.user;
      slot = λ s. None;
    } };

    fn entity(&self, _name: &EntityType) -> Option<&EntityShape> {
        None
    }

    fn may_name(&self, _uid: &EntityUID) -> Result<bool, AllocError> {
        Ok(false)
    }

    fn may_reach(
        &self,
        _descendant: &EntityType,
        _ancestor: &EntityType,
    ) -> Result<bool, AllocError> {
        Ok(false)
    }

    fn is_action(&self, _uid: &EntityUID) -> bool {
        false
    }

    fn action_reaches(
        &self,
        _action: &EntityUID,
        _ancestor: &EntityUID,
    ) -> Result<bool, AllocError> {
        Ok(false)
    }

    fn signature(&self, _function: &Name) -> Option<&Signature> {
        None
    }

    fn accepts(&self, _function: &Name, _text: &RcStr) -> Result<bool, AllocError> {
        Ok(false)
    }

    fn principal(&self) -> &EntityType {
        &self.user
    }

    fn action(&self) -> &Rc<EntityUID> {
        &self.action
    }

    fn resource(&self) -> &EntityType {
        &self.user
    }

    fn context(&self) -> &Rc<Vec<Field>> {
        &self.context
    }

    fn slot(&self, _slot: SlotId) -> Option<&EntityType> {
        None
    }
}

fn user(alloc: Global) -> Result<EntityType, ParseNameError> {
    Ok(EntityType::from(Name::from_normalized_str(alloc, "User")?))
}

fn environment(alloc: Global) -> Result<Undeclared, ParseNameError> {
    let action = EntityUID::with_eid_and_type(alloc, "Action", "view")?;
    Ok(Undeclared {
        user: user(alloc)?,
        action: Rc::new(alloc, action)?,
        context: Rc::new(alloc, Vec::new(alloc))?,
    })
}

/// An expression without parts.
#[derive(Clone, Copy)]
enum Leaf {
    True,
    One,
    Text,
    Principal,
    Context,
}

/// What stands before one leaf or between two.
#[derive(Clone, Copy)]
enum Operator {
    Nothing,
    Not,
    IsEmpty,
    And,
    Add,
    Less,
    Equal,
}

fn leaf_expr(alloc: Global, leaf: Leaf) -> Result<Expr, AllocError> {
    Ok(match leaf {
        Leaf::True => Expr::val(Literal::Bool(true)),
        Leaf::One => Expr::val(Literal::Long(1)),
        Leaf::Text => Expr::val(Literal::String(RcStr::from_str(alloc, "a")?)),
        Leaf::Principal => Expr::var(Var::Principal),
        Leaf::Context => Expr::var(Var::Context),
    })
}

fn expr_of(alloc: Global, operator: Operator, left: Leaf, right: Leaf) -> Result<Expr, AllocError> {
    let first = leaf_expr(alloc, left)?;
    match operator {
        Operator::Nothing => Ok(first),
        Operator::Not => Expr::not(alloc, first),
        Operator::IsEmpty => Expr::is_empty(alloc, first),
        Operator::And => Expr::and(alloc, first, leaf_expr(alloc, right)?),
        Operator::Add => Expr::add(alloc, first, leaf_expr(alloc, right)?),
        Operator::Less => Expr::less(alloc, first, leaf_expr(alloc, right)?),
        Operator::Equal => Expr::is_eq(alloc, first, leaf_expr(alloc, right)?),
    }
}

/// What is found of an expression, without what is in types.
#[derive(Clone, Copy, Debug, PartialEq, Eq)]
enum Found {
    Boolean(BoolType),
    Long,
    String,
    Entity,
    Record,
    Other,
    Nothing(TypingError),
}

fn type_found(env: &Undeclared, alloc: Global, expr: &Expr, depth: u32) -> Found {
    match typed(env, alloc, expr, &[], depth) {
        Err(error) => Found::Nothing(error),
        Ok(typed) => match &typed.expr_type {
            ExprType::Boolean(bool_type) => Found::Boolean(*bool_type),
            ExprType::Long => Found::Long,
            ExprType::String => Found::String,
            ExprType::Entity(_) => Found::Entity,
            ExprType::Record(_) => Found::Record,
            ExprType::Set(_) | ExprType::Extension(_, _) => Found::Other,
        },
    }
}

const UNSURE: Found = Found::Boolean(BoolType::Unsure);

const ALWAYS: Found = Found::Boolean(BoolType::AlwaysTrue);

const NEVER: Found = Found::Boolean(BoolType::AlwaysFalse);

const UNEXPECTED: Found = Found::Nothing(TypingError::Faulty(TypingFault::UnexpectedType));

const INCOMPATIBLE: Found = Found::Nothing(TypingError::Faulty(TypingFault::IncompatibleTypes));

const CASES: [(&str, Operator, Leaf, Leaf, Found); 15] = [
    (
        "a Boolean",
        Operator::Nothing,
        Leaf::True,
        Leaf::True,
        ALWAYS,
    ),
    (
        "a long",
        Operator::Nothing,
        Leaf::One,
        Leaf::One,
        Found::Long,
    ),
    (
        "a string",
        Operator::Nothing,
        Leaf::Text,
        Leaf::Text,
        Found::String,
    ),
    (
        "the principal",
        Operator::Nothing,
        Leaf::Principal,
        Leaf::Principal,
        Found::Entity,
    ),
    (
        "the context",
        Operator::Nothing,
        Leaf::Context,
        Leaf::Context,
        Found::Record,
    ),
    (
        "a negation turns what is known",
        Operator::Not,
        Leaf::True,
        Leaf::True,
        NEVER,
    ),
    (
        "no negation of a long",
        Operator::Not,
        Leaf::One,
        Leaf::One,
        UNEXPECTED,
    ),
    (
        "no record is a set",
        Operator::IsEmpty,
        Leaf::Context,
        Leaf::Context,
        UNEXPECTED,
    ),
    ("both", Operator::And, Leaf::True, Leaf::True, ALWAYS),
    (
        "a long on the right",
        Operator::And,
        Leaf::True,
        Leaf::One,
        UNEXPECTED,
    ),
    ("a sum", Operator::Add, Leaf::One, Leaf::One, Found::Long),
    (
        "no sum with a Boolean",
        Operator::Add,
        Leaf::One,
        Leaf::True,
        UNEXPECTED,
    ),
    (
        "an order of longs",
        Operator::Less,
        Leaf::One,
        Leaf::One,
        UNSURE,
    ),
    (
        "no order of strings",
        Operator::Less,
        Leaf::Text,
        Leaf::Text,
        UNEXPECTED,
    ),
    (
        "the context is no entity",
        Operator::Equal,
        Leaf::Context,
        Leaf::Principal,
        INCOMPATIBLE,
    ),
];

#[test]
fn expressions_have_types(rt: HostRuntime) -> Result<(), Fail> {
    let env = environment(rt.alloc())?;
    for (shows, operator, left, right, found) in CASES {
        let expr = expr_of(rt.alloc(), operator, left, right)?;
        assert_eq!(rt; type_found(&env, rt.alloc(), &expr, 9), found, "{shows}");
    }
    Ok(())
}

#[test]
fn depth_is_limited(rt: HostRuntime) -> Result<(), Fail> {
    let env = environment(rt.alloc())?;
    let sum = expr_of(rt.alloc(), Operator::Add, Leaf::One, Leaf::One)?;
    assert_eq!(rt;
        type_found(&env, rt.alloc(), &sum, 1),
        Found::Nothing(TypingError::Depth)
    );
    assert_eq!(rt; type_found(&env, rt.alloc(), &sum, 2), Found::Long);
    Ok(())
}
