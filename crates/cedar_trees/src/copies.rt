// Copies of expressions, which share the parts.
ghost use Rattle.std.specs.Prelude.{◌≡◌, IfOk, map};
ghost use Rattle.std.specs.Rc.{rc_str_bytes};
ghost use Rattle.cedar_language.specs.Tree as tree;
ghost use Rattle.cedar_grammar.specs.Build.{trees, unary};
ghost use Rattle.cedar_trees.specs.Bare.{bare, bare_kind, bare_entries, record_tree};

use crate::expr::{Expr, ExprKind};
use crate::unknowns::NonEmpty;
use cedar_literals::patterns::Pattern;
use cedar_literals::uids::EntityType;
use cedar_names::names::Name;
use cedar_names::places::Loc;
use std::alloc::{AllocError, Global};
use std::collections::BTreeMap;
use std::rc::{Rc, RcStr};

impl<T: Clone + Drop> Expr<T> {
    /// A copy that shares the parts; refused for memory alone. Its data is a clone.
    pub fn clone(&self, alloc: Global) -> Result<Expr<T>, AllocError>
        ensures tree { IfOk result (λ copy. bare copy ≡ bare self.now) }
        ensures data { IfOk result (λ copy. T.is_clone self.now.«data» copy.«data») }
    {
        let source_loc = copied_place(alloc, self.source_loc.as_ref())?;
        let data = self.data.clone()?;
        Ok(Expr {
            expr_kind: self.expr_kind.clone(alloc)?,
            source_loc,
            data,
        })
    }
}

fn copied_place(alloc: Global, loc: Option<&Loc>) -> Result<Option<Loc>, AllocError> {
    match loc {
        None => Ok(None),
        Some(loc) => Ok(Some(loc.clone(alloc)?)),
    }
}

impl<T: Drop> ExprKind<T> {
    /// A copy that shares the parts; refused for memory alone.
    pub fn clone(&self, alloc: Global) -> Result<ExprKind<T>, AllocError>
        ensures { IfOk result (λ copy. bare_kind copy ≡ bare_kind self.now) }
    {
        match self {
            ExprKind::Lit(literal) => Ok(ExprKind::Lit(literal.clone()?)),
            ExprKind::Var(var) => Ok(ExprKind::Var(*var)),
            ExprKind::Slot(slot) => Ok(ExprKind::Slot(*slot)),
            ExprKind::Unknown(unknown) => Ok(ExprKind::Unknown(unknown.clone()?)),
            ExprKind::If {
                test_expr,
                then_expr,
                else_expr,
            } => copied_if(test_expr, then_expr, else_expr),
            ExprKind::And { left, right } => {
                let (left, right) = copied_pair(left, right)?;
                Ok(ExprKind::And { left, right })
            }
            ExprKind::Or { left, right } => {
                let (left, right) = copied_pair(left, right)?;
                Ok(ExprKind::Or { left, right })
            }
            ExprKind::UnaryApp { op, arg } => Ok(ExprKind::UnaryApp {
                op: *op,
                arg: arg.clone()?,
            }),
            ExprKind::BinaryApp { op, arg1, arg2 } => {
                let (arg1, arg2) = copied_pair(arg1, arg2)?;
                Ok(ExprKind::BinaryApp {
                    op: *op,
                    arg1,
                    arg2,
                })
            }
            ExprKind::ExtensionFunctionApp { fn_name, args } => copied_call(alloc, fn_name, args),
            ExprKind::GetAttr { expr, attr } => copied_get(expr, attr),
            ExprKind::HasAttr { expr, attr } => copied_has(expr, attr),
            ExprKind::ExtHasAttr { expr, attrs } => copied_path(alloc, expr, attrs),
            ExprKind::Like { expr, pattern } => copied_like(expr, pattern),
            ExprKind::Is { expr, entity_type } => copied_is(alloc, expr, entity_type),
            ExprKind::Set(items) => copied_set(items),
            ExprKind::Record(entries) => copied_record(entries),
        }
    }
}

// What two operands share.
fn copied_pair<T: Drop>(
    left: &Rc<Expr<T>>,
    right: &Rc<Expr<T>>,
) -> Result<(Rc<Expr<T>>, Rc<Expr<T>>), AllocError>
    ensures left { IfOk result (λ pair. pair.0.value ≡ left.now.value) }
    ensures right { IfOk result (λ pair. pair.1.value ≡ right.now.value) }
{
    let left = left.clone()?;
    Ok((left, right.clone()?))
}

fn copied_if<T: Drop>(
    test_expr: &Rc<Expr<T>>,
    then_expr: &Rc<Expr<T>>,
    else_expr: &Rc<Expr<T>>,
) -> Result<ExprKind<T>, AllocError>
    ensures { IfOk result (λ copy. bare_kind copy ≡
        tree.If (bare test_expr.now.value) (bare then_expr.now.value) (bare else_expr.now.value)) }
{
    let test_expr = test_expr.clone()?;
    let (then_expr, else_expr) = copied_pair(then_expr, else_expr)?;
    Ok(ExprKind::If {
        test_expr,
        then_expr,
        else_expr,
    })
}

fn copied_call<T: Drop>(
    alloc: Global,
    fn_name: &Name,
    args: &Rc<Vec<Expr<T>>>,
) -> Result<ExprKind<T>, AllocError>
    ensures { IfOk result (λ copy. bare_kind copy ≡
        tree.Apply (tree.Call fn_name.now) (trees (map bare args.now.value.items))) }
{
    Ok(ExprKind::ExtensionFunctionApp {
        fn_name: fn_name.clone(alloc)?,
        args: args.clone()?,
    })
}

fn copied_path<T: Drop>(
    alloc: Global,
    expr: &Rc<Expr<T>>,
    attrs: &NonEmpty<RcStr>,
) -> Result<ExprKind<T>, AllocError>
    ensures { IfOk result (λ copy. bare_kind copy ≡
        unary (tree.HasPath (rc_str_bytes attrs.now.head) (map rc_str_bytes attrs.now.tail.items))
        (bare expr.now.value)) }
{
    Ok(ExprKind::ExtHasAttr {
        expr: expr.clone()?,
        attrs: attrs.clone(alloc)?,
    })
}

fn copied_like<T: Drop>(expr: &Rc<Expr<T>>, pattern: &Pattern) -> Result<ExprKind<T>, AllocError>
    ensures { IfOk result (λ copy. bare_kind copy ≡
        unary (tree.Like pattern.now) (bare expr.now.value)) }
{
    Ok(ExprKind::Like {
        expr: expr.clone()?,
        pattern: pattern.clone()?,
    })
}

fn copied_is<T: Drop>(
    alloc: Global,
    expr: &Rc<Expr<T>>,
    entity_type: &EntityType,
) -> Result<ExprKind<T>, AllocError>
    ensures { IfOk result (λ copy. bare_kind copy ≡
        unary (tree.Is entity_type.now) (bare expr.now.value)) }
{
    Ok(ExprKind::Is {
        expr: expr.clone()?,
        entity_type: entity_type.clone(alloc)?,
    })
}

fn copied_get<T: Drop>(expr: &Rc<Expr<T>>, attr: &RcStr) -> Result<ExprKind<T>, AllocError>
    ensures { IfOk result (λ copy. bare_kind copy ≡
        unary (tree.GetAttr (rc_str_bytes attr.now)) (bare expr.now.value)) }
{
    Ok(ExprKind::GetAttr {
        expr: expr.clone()?,
        attr: attr.clone()?,
    })
}

fn copied_has<T: Drop>(expr: &Rc<Expr<T>>, attr: &RcStr) -> Result<ExprKind<T>, AllocError>
    ensures { IfOk result (λ copy. bare_kind copy ≡
        unary (tree.HasAttr (rc_str_bytes attr.now)) (bare expr.now.value)) }
{
    Ok(ExprKind::HasAttr {
        expr: expr.clone()?,
        attr: attr.clone()?,
    })
}

fn copied_set<T: Drop>(items: &Rc<Vec<Expr<T>>>) -> Result<ExprKind<T>, AllocError>
    ensures { IfOk result (λ copy. bare_kind copy ≡
        tree.Apply tree.MakeSet (trees (map bare items.now.value.items))) }
{
    Ok(ExprKind::Set(items.clone()?))
}

fn copied_record<T: Drop>(entries: &Rc<BTreeMap<RcStr, Expr<T>>>) -> Result<ExprKind<T>, AllocError>
    ensures { IfOk result (λ copy. bare_kind copy ≡
        record_tree (bare_entries entries.now.value.entries)) }
{
    Ok(ExprKind::Record(entries.clone()?))
}
