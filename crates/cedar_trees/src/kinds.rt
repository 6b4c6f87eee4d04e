// Constructs, made of their parts. What is made of an expression lies behind an `Rc` from then on.
ghost use Rattle.std.specs.Prelude.{◌≡◌, ◌∷◌, IfOk, map};
ghost use Rattle.std.specs.Rc.{rc_str_bytes};
ghost use Rattle.cedar_language.specs.Tree as tree;
ghost use Rattle.cedar_grammar.specs.Build.{trees, unary, binary, conjunction, disjunction, has};
ghost use Rattle.cedar_literals.specs.Operators.{unary_operator_of, binary_operator_of};
ghost use Rattle.cedar_trees.specs.Bare.{bare, bare_kind, bare_entries};
ghost use Rattle.cedar_trees.specs.Shapes.{literal_boolean};
ghost use Rattle.cedar_trees.specs.Records.{MakesRecord, MakesEntries, PutsNew};

use crate::errors::{DuplicateKeyError, ExpressionConstructionError};
use crate::expr::{Expr, ExprKind};
use crate::unknowns::NonEmpty;
use cedar_literals::literals::Literal;
use cedar_literals::operators::{BinaryOp, UnaryOp};
use cedar_literals::patterns::Pattern;
use cedar_literals::uids::EntityType;
use cedar_names::names::Name;
use std::alloc::{AllocError, Global};
use std::collections::BTreeMap;
use std::rc::{Rc, RcStr};

/// `if test_expr then then_expr else else_expr`; refused for memory alone.
pub fn ite<T: Drop>(
    alloc: Global,
    test_expr: Expr<T>,
    then_expr: Expr<T>,
    else_expr: Expr<T>,
) -> Result<ExprKind<T>, AllocError>
    ensures { IfOk result (λ kind. bare_kind kind ≡
        tree.If (bare test_expr) (bare then_expr) (bare else_expr)) }
{
    Ok(ExprKind::If {
        test_expr: Rc::new(alloc, test_expr)?,
        then_expr: Rc::new(alloc, then_expr)?,
        else_expr: Rc::new(alloc, else_expr)?,
    })
}

/// `left && right`, which is a literal where both are literal Booleans; refused for memory alone.
#[tactic(auto, using(crate::proofs::Folding::conjunctions))]
pub fn and<T: Drop>(alloc: Global, left: Expr<T>, right: Expr<T>) -> Result<ExprKind<T>, AllocError>
    ensures { IfOk result (λ kind. bare_kind kind ≡ conjunction (bare left) (bare right)) }
{
    match as_bool(&left).zip(as_bool(&right)) {
        Some((a, b)) => Ok(ExprKind::Lit(Literal::Bool(a && b))),
        None => Ok(ExprKind::And {
            left: Rc::new(alloc, left)?,
            right: Rc::new(alloc, right)?,
        }),
    }
}

/// `left || right`, which is a literal where both are literal Booleans; refused for memory alone.
#[tactic(auto, using(crate::proofs::Folding::disjunctions))]
pub fn or<T: Drop>(alloc: Global, left: Expr<T>, right: Expr<T>) -> Result<ExprKind<T>, AllocError>
    ensures { IfOk result (λ kind. bare_kind kind ≡ disjunction (bare left) (bare right)) }
{
    match as_bool(&left).zip(as_bool(&right)) {
        Some((a, b)) => Ok(ExprKind::Lit(Literal::Bool(a || b))),
        None => Ok(ExprKind::Or {
            left: Rc::new(alloc, left)?,
            right: Rc::new(alloc, right)?,
        }),
    }
}

// The Boolean of a literal one.
fn as_bool<T>(expr: &Expr<T>) -> Option<bool>
    ensures { result ≡ literal_boolean (bare expr.now) }
{
    match &expr.expr_kind {
        ExprKind::Lit(Literal::Bool(b)) => Some(*b),
        _ => None,
    }
}

/// An operator's application to one operand; refused for memory alone.
pub fn unary_app<T: Drop>(
    alloc: Global,
    op: UnaryOp,
    arg: Expr<T>,
) -> Result<ExprKind<T>, AllocError>
    ensures { IfOk result (λ kind. bare_kind kind ≡ unary (unary_operator_of op) (bare arg)) }
{
    Ok(ExprKind::UnaryApp {
        op,
        arg: Rc::new(alloc, arg)?,
    })
}

/// An operator's application to two operands; refused for memory alone.
pub fn binary_app<T: Drop>(
    alloc: Global,
    op: BinaryOp,
    arg1: Expr<T>,
    arg2: Expr<T>,
) -> Result<ExprKind<T>, AllocError>
    ensures { IfOk result (λ kind. bare_kind kind ≡
        binary (binary_operator_of op) (bare arg1) (bare arg2)) }
{
    Ok(ExprKind::BinaryApp {
        op,
        arg1: Rc::new(alloc, arg1)?,
        arg2: Rc::new(alloc, arg2)?,
    })
}

/// A call of an extension function; refused for memory alone.
pub fn call_extension_fn<T: Drop>(
    alloc: Global,
    fn_name: Name,
    args: Vec<Expr<T>>,
) -> Result<ExprKind<T>, AllocError>
    ensures { IfOk result (λ kind. bare_kind kind ≡
        tree.Apply (tree.Call fn_name) (trees (map bare args.items))) }
{
    Ok(ExprKind::ExtensionFunctionApp {
        fn_name,
        args: Rc::new(alloc, args)?,
    })
}

/// `expr.attr`; refused for memory alone.
pub fn get_attr<T: Drop>(
    alloc: Global,
    expr: Expr<T>,
    attr: RcStr,
) -> Result<ExprKind<T>, AllocError>
    ensures { IfOk result (λ kind. bare_kind kind ≡
        unary (tree.GetAttr (rc_str_bytes attr)) (bare expr)) }
{
    Ok(ExprKind::GetAttr {
        expr: Rc::new(alloc, expr)?,
        attr,
    })
}

/// `expr has attr`; refused for memory alone.
pub fn has_attr<T: Drop>(
    alloc: Global,
    expr: Expr<T>,
    attr: RcStr,
) -> Result<ExprKind<T>, AllocError>
    ensures { IfOk result (λ kind. bare_kind kind ≡
        unary (tree.HasAttr (rc_str_bytes attr)) (bare expr)) }
{
    Ok(ExprKind::HasAttr {
        expr: Rc::new(alloc, expr)?,
        attr,
    })
}

/// `expr has a.b.c`; of one attribute it is what `has_attr` makes. Refused for memory alone.
pub fn extended_has_attr<T: Drop>(
    alloc: Global,
    expr: Expr<T>,
    attrs: NonEmpty<RcStr>,
) -> Result<ExprKind<T>, AllocError>
    ensures { IfOk result (λ kind. bare_kind kind ≡
        has (rc_str_bytes attrs.head ∷ map rc_str_bytes attrs.tail.items) (bare expr)) }
{
    if attrs.tail.is_empty() {
        has_attr(alloc, expr, attrs.head)
    } else {
        Ok(ExprKind::ExtHasAttr {
            expr: Rc::new(alloc, expr)?,
            attrs,
        })
    }
}

/// `expr like pattern`; refused for memory alone.
pub fn like<T: Drop>(
    alloc: Global,
    expr: Expr<T>,
    pattern: Pattern,
) -> Result<ExprKind<T>, AllocError>
    ensures { IfOk result (λ kind. bare_kind kind ≡ unary (tree.Like pattern) (bare expr)) }
{
    Ok(ExprKind::Like {
        expr: Rc::new(alloc, expr)?,
        pattern,
    })
}

/// `expr is entity_type`; refused for memory alone.
pub fn is_entity_type<T: Drop>(
    alloc: Global,
    expr: Expr<T>,
    entity_type: EntityType,
) -> Result<ExprKind<T>, AllocError>
    ensures { IfOk result (λ kind. bare_kind kind ≡ unary (tree.Is entity_type) (bare expr)) }
{
    Ok(ExprKind::Is {
        expr: Rc::new(alloc, expr)?,
        entity_type,
    })
}

/// The set of the items; refused for memory alone.
pub fn set<T: Drop>(alloc: Global, items: Vec<Expr<T>>) -> Result<ExprKind<T>, AllocError>
    ensures { IfOk result (λ kind. bare_kind kind ≡
        tree.Apply tree.MakeSet (trees (map bare items.items))) }
{
    Ok(ExprKind::Set(Rc::new(alloc, items)?))
}

/// The record of the pairs; refused for the first key that stands before it too, or for memory.
pub fn record<T: Drop>(
    alloc: Global,
    pairs: Vec<(RcStr, Expr<T>)>,
) -> Result<ExprKind<T>, ExpressionConstructionError>
    ensures { MakesRecord bare_kind (bare_entries pairs.items) result }
{
    let entries = map_of(alloc, pairs)?;
    Ok(ExprKind::Record(Rc::new(alloc, entries)?))
}

// The pairs as a map.
fn map_of<T: Drop>(
    alloc: Global,
    pairs: Vec<(RcStr, Expr<T>)>,
) -> Result<BTreeMap<RcStr, Expr<T>>, ExpressionConstructionError>
    ensures { MakesEntries (λ map. bare_entries map.entries) (bare_entries pairs.items) result }
{
    let mut map = BTreeMap::new(alloc);
    for (key, expr) in pairs {
        insert_new(&mut map, key, expr)?;
    }
    Ok(map)
}

// Puts an expression under a key that the map doesn't have.
fn insert_new<T: Drop>(
    map: &mut BTreeMap<RcStr, Expr<T>>,
    key: RcStr,
    expr: Expr<T>,
) -> Result<(), ExpressionConstructionError>
    ensures { PutsNew (rc_str_bytes key, bare expr)
        (bare_entries map.old.entries) (bare_entries map.new.entries) result }
{
    let name = key.clone()?;
    match map.insert(key, expr)? {
        None => Ok(()),
        Some(_) => {
            let error = DuplicateKeyError::new(name, "in record literal");
            Err(ExpressionConstructionError::DuplicateKey(error))
        }
    }
}
