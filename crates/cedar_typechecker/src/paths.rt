// The type of `has a.b.c`.
ghost use Rattle.std.specs.Prelude.{◌≡◌, ◌≢◌, ◌∷◌, List, IfOk, map};
ghost use Rattle.std.specs.Rc.{rc_str_bytes};
ghost use Rattle.cedar_language.specs.Uid.{Text};
ghost use Rattle.cedar_trees.specs.Bare.{bare};
ghost use Rattle.cedar_typing.specs.Attributes as typing;
ghost use Rattle.cedar_typing.specs.Results.{HasType};
ghost use Rattle.cedar_typing.specs.Types.{AlwaysFalse, Booleans};
ghost use Rattle.cedar_typechecker.specs.Capabilities.{capabilities_view};
ghost use Rattle.cedar_typechecker.specs.Paths.{rest_type, Advances};
ghost use Rattle.cedar_typechecker.specs.Results.{typing_view, Finds};
ghost use Rattle.cedar_typechecker.specs.Types.{bool_type_view, type_view};

use crate::attributes::{get_type, has_attribute_type};
use crate::capabilities::{Capability, joined};
use crate::environment::RequestEnv;
use crate::faults::{TypingError, TypingFault};
use crate::lazies::and_type;
use crate::results::Typed;
use crate::types::{BoolType, ExprType};
use cedar_trees::expr::{Expr, ExprKind};
use cedar_trees::unknowns::NonEmpty;
use std::alloc::{AllocError, Global};
use std::rc::{Rc, RcStr};

// How far a path has been tested: the expression that has the last attribute tested, its type, and what the tests found.
#[derive(Drop)]
struct Reached {
    of: Rc<Expr>,
    of_type: ExprType,
    found: Typed,
}

// `of.attr`; refused for memory alone.
#[tactic(auto, using(cedar_trees::proofs::Bares::bares))]
fn attribute_of(alloc: Global, of: &Rc<Expr>, attr: &RcStr) -> Result<Rc<Expr>, AllocError>
    ensures { IfOk result (λ made. bare made.value ≡ typing.get (bare of.now.value) (rc_str_bytes attr.now)) }
{
    let expr = Expr {
        expr_kind: ExprKind::GetAttr {
            expr: of.clone()?,
            attr: attr.clone()?,
        },
        source_loc: None,
        data: (),
    };
    Ok(Rc::new(alloc, expr)?)
}

// The test of the next attribute, where those before it, up to `attr`, may be true and give this.
fn test_behind<E: RequestEnv>(
    env: &E,
    alloc: Global,
    of: &Rc<Expr>,
    of_type: &ExprType,
    attr: &RcStr,
    next: &RcStr,
    bool_type: BoolType,
    given: Vec<Capability>,
    held: &[Capability],
) -> Result<Option<Reached>, TypingError>
    requires { bool_type_view bool_type ≢ AlwaysFalse }
    ensures { (bs : List Text) → Advances (rest_type (E.environment env.now) (bare of.now.value) (rc_str_bytes attr.now) (rc_str_bytes next.now ∷ bs) (capabilities_view held.now) (type_view of_type.now) (HasType (Booleans (bool_type_view bool_type)) (capabilities_view given.items)))
        (E.environment env.now) (rc_str_bytes next.now) bs (capabilities_view held.now) result }
{
    let more = joined(alloc, &given, held)?;
    let next_type = get_type(env, alloc, of_type, attr, true)?;
    let next_of = attribute_of(alloc, of, attr)?;
    let test = has_attribute_type(env, alloc, &next_of, &next_type, next, &more)?;
    let found = and_type(alloc, bool_type, given, test)?;
    Ok(Some(Reached {
        of: next_of,
        of_type: next_type,
        found,
    }))
}

// The test of the next attribute behind those up to `attr`; none where these are never true.
fn test_next<E: RequestEnv>(
    env: &E,
    alloc: Global,
    reached: Reached,
    attr: &RcStr,
    next: &RcStr,
    held: &[Capability],
) -> Result<Option<Reached>, TypingError>
    ensures { (bs : List Text) → Advances (rest_type (E.environment env.now) (bare reached.of.value) (rc_str_bytes attr.now) (rc_str_bytes next.now ∷ bs) (capabilities_view held.now) (type_view reached.of_type) (typing_view reached.found))
        (E.environment env.now) (rc_str_bytes next.now) bs (capabilities_view held.now) result }
{
    let Reached { of, of_type, found } = reached;
    let given = found.capabilities;
    match found.expr_type.as_boolean() {
        None => Err(TypingError::Faulty(TypingFault::UnexpectedType)),
        Some(BoolType::AlwaysFalse) => Ok(None),
        Some(BoolType::AlwaysTrue) => {
            let bool_type = BoolType::AlwaysTrue;
            test_behind(
                env, alloc, &of, &of_type, attr, next, bool_type, given, held,
            )
        }
        Some(BoolType::Unsure) => {
            let bool_type = BoolType::Unsure;
            test_behind(
                env, alloc, &of, &of_type, attr, next, bool_type, given, held,
            )
        }
    }
}

/// The type of `of has a.b.c`, by that of `of` and what tests say: of `of has a && of.a has b && of.a.b has c`.
pub(crate) fn has_path_type<E: RequestEnv>(
    env: &E,
    alloc: Global,
    of: &Rc<Expr>,
    of_type: &ExprType,
    attrs: &NonEmpty<RcStr>,
    held: &[Capability],
) -> Result<Typed, TypingError>
    ensures { Finds ⊥ (typing.path_type (E.environment env.now) (bare of.now.value) (rc_str_bytes attrs.now.head) (map rc_str_bytes attrs.now.tail.items) (capabilities_view held.now) (type_view of_type.now)) result }
{
    let mut attr = &attrs.head;
    let found = has_attribute_type(env, alloc, of, of_type, attr, held)?;
    let mut reached = Reached {
        of: of.clone()?,
        of_type: of_type.share(alloc)?,
        found,
    };
    for next in &attrs.tail {
        let Some(further) = test_next(env, alloc, reached, attr, next, held)? else {
            return Ok(Typed::plainly(alloc, ExprType::Boolean(BoolType::AlwaysFalse)));
        };
        reached = further;
        attr = next;
    }
    Ok(reached.found)
}
