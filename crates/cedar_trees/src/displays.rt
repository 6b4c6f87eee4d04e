// How expressions are printed: as texts of the language, whose operands stand in parentheses where
// they are operators themselves.

use crate::expr::{Expr, ExprKind};
use crate::unknowns::{NonEmpty, Unknown};
use cedar_literals::bounded_display::BoundedDisplay;
use cedar_literals::escapes::Escaped;
use cedar_literals::operators::{BinaryOp, UnaryOp};
use cedar_literals::text_bounds::one_less;
use std::collections::BTreeMap;
use std::fmt;
use std::rc::RcStr;

#[cycle(write_exprs)]
fn write_expr<T, W: fmt::Write>(
    expr: &Expr<T>,
    f: &mut fmt::Formatter<W>,
    n: Option<usize>,
) -> fmt::Result {
    match &expr.expr_kind {
        ExprKind::Lit(literal) => write!(f, "{literal}"),
        ExprKind::Var(var) => write!(f, "{var}"),
        ExprKind::Slot(slot) => write!(f, "{slot}"),
        ExprKind::Unknown(unknown) => write!(f, "{unknown}"),
        ExprKind::If {
            test_expr,
            then_expr,
            else_expr,
        } => {
            write_after("if ", test_expr, f, n)?;
            write_after(" then ", then_expr, f, n)?;
            write_after(" else ", else_expr, f, n)
        }
        ExprKind::And { left, right } => {
            write_operand(left, f, n)?;
            write_after(" && ", right, f, n)
        }
        ExprKind::Or { left, right } => {
            write_operand(left, f, n)?;
            write_after(" || ", right, f, n)
        }
        ExprKind::UnaryApp { op, arg } => write_unary(*op, arg, f, n),
        ExprKind::BinaryApp { op, arg1, arg2 } => {
            write_operand(arg1, f, n)?;
            write_second(*op, arg2, f, n)
        }
        ExprKind::ExtensionFunctionApp { fn_name, args } => {
            write!(f, "{fn_name}(")?;
            write_items(args, f, n, None)?;
            write!(f, ")")
        }
        ExprKind::Set(items) => write_set(items, f, n),
        ExprKind::Record(entries) => write_record(entries, f, n),
        ExprKind::GetAttr { expr: operand, .. }
        | ExprKind::HasAttr { expr: operand, .. }
        | ExprKind::ExtHasAttr { expr: operand, .. }
        | ExprKind::Like { expr: operand, .. }
        | ExprKind::Is { expr: operand, .. } => {
            write_operand(operand, f, n)?;
            write_asked(&expr.expr_kind, f)
        }
    }
}

// An operand behind the text that leads to it.
#[cycle(write_exprs)]
fn write_after<T, W: fmt::Write>(
    text: &str,
    expr: &Expr<T>,
    f: &mut fmt::Formatter<W>,
    n: Option<usize>,
) -> fmt::Result {
    f.write_str(text)?;
    write_operand(expr, f, n)
}

// An expression in parentheses.
#[cycle(write_exprs)]
fn write_enclosed<T, W: fmt::Write>(
    expr: &Expr<T>,
    f: &mut fmt::Formatter<W>,
    n: Option<usize>,
) -> fmt::Result {
    write!(f, "(")?;
    write_expr(expr, f, n)?;
    write!(f, ")")
}

#[cycle(write_exprs)]
fn write_unary<T, W: fmt::Write>(
    op: UnaryOp,
    arg: &Expr<T>,
    f: &mut fmt::Formatter<W>,
    n: Option<usize>,
) -> fmt::Result {
    match op {
        UnaryOp::Not => write_after("!", arg, f, n),
        // always in parentheses: a sign before a number would be a part of it
        UnaryOp::Neg => {
            write!(f, "-")?;
            write_enclosed(arg, f, n)
        }
        UnaryOp::IsEmpty => {
            write_operand(arg, f, n)?;
            write!(f, ".isEmpty()")
        }
    }
}

// An operator and its second operand.
#[cycle(write_exprs)]
fn write_second<T, W: fmt::Write>(
    op: BinaryOp,
    arg: &Expr<T>,
    f: &mut fmt::Formatter<W>,
    n: Option<usize>,
) -> fmt::Result {
    if is_method(op) {
        write!(f, ".{op}")?;
        return write_enclosed(arg, f, n);
    }
    write!(f, " {op} ")?;
    write_operand(arg, f, n)
}

// What is asked of an operand that stands before it.
fn write_asked<T, W: fmt::Write>(kind: &ExprKind<T>, f: &mut fmt::Formatter<W>) -> fmt::Result {
    match kind {
        ExprKind::GetAttr { attr, .. } => write!(f, "[\"{}\"]", Escaped::new(attr.as_str())),
        ExprKind::HasAttr { attr, .. } => write!(f, " has \"{}\"", Escaped::new(attr.as_str())),
        ExprKind::ExtHasAttr { attrs, .. } => write_path(attrs, f),
        ExprKind::Like { pattern, .. } => write!(f, " like \"{pattern}\""),
        ExprKind::Is { entity_type, .. } => write!(f, " is {entity_type}"),
        _ => Ok(()),
    }
}

// An expression inside another.
#[cycle(write_exprs)]
fn write_operand<T, W: fmt::Write>(
    expr: &Expr<T>,
    f: &mut fmt::Formatter<W>,
    n: Option<usize>,
) -> fmt::Result {
    if stands_alone(&expr.expr_kind) {
        return write_expr(expr, f, n);
    }
    write_enclosed(expr, f, n)
}

// Expressions with commas between them: no more of them than are left to be written.
#[cycle(write_exprs)]
fn write_items<T, W: fmt::Write>(
    items: &[Expr<T>],
    f: &mut fmt::Formatter<W>,
    n: Option<usize>,
    mut left: Option<usize>,
) -> fmt::Result {
    let mut is_first = true;
    for item in items {
        write_separator(is_first, f)?;
        if left == Some(0) {
            return write!(f, ".. ");
        }
        write_expr(item, f, n)?;
        left = one_less(left);
        is_first = false;
    }
    Ok(())
}

#[cycle(write_exprs)]
fn write_set<T, W: fmt::Write>(
    items: &[Expr<T>],
    f: &mut fmt::Formatter<W>,
    n: Option<usize>,
) -> fmt::Result {
    write!(f, "[")?;
    write_items(items, f, n, n)?;
    write!(f, "]")
}

#[cycle(write_exprs)]
fn write_record<T, W: fmt::Write>(
    entries: &BTreeMap<RcStr, Expr<T>>,
    f: &mut fmt::Formatter<W>,
    n: Option<usize>,
) -> fmt::Result {
    write!(f, "{{")?;
    let mut is_first = true;
    let mut left = n;
    for (key, expr) in entries {
        write_separator(is_first, f)?;
        if left == Some(0) {
            write!(f, ".. ")?;
            break;
        }
        let key = Escaped::new(key.as_str());
        write!(f, "\"{key}\": ")?;
        write_expr(expr, f, n)?;
        left = one_less(left);
        is_first = false;
    }
    write!(f, "}}")
}

fn write_separator<W: fmt::Write>(is_first: bool, f: &mut fmt::Formatter<W>) -> fmt::Result {
    if is_first {
        return Ok(());
    }
    write!(f, ", ")
}

fn write_path<W: fmt::Write>(attrs: &NonEmpty<RcStr>, f: &mut fmt::Formatter<W>) -> fmt::Result {
    let head = &attrs.head;
    write!(f, " has {head}")?;
    for attr in &attrs.tail {
        write!(f, ".{attr}")?;
    }
    Ok(())
}

// Whether it binds as tightly as a literal does.
fn stands_alone<T>(kind: &ExprKind<T>) -> bool {
    match kind {
        ExprKind::If { .. } | ExprKind::And { .. } | ExprKind::Or { .. } => false,
        ExprKind::HasAttr { .. } | ExprKind::ExtHasAttr { .. } => false,
        ExprKind::Like { .. } | ExprKind::Is { .. } => false,
        ExprKind::UnaryApp { op, .. } => *op == UnaryOp::IsEmpty,
        ExprKind::BinaryApp { op, .. } => is_method(*op),
        _ => true,
    }
}

fn is_method(op: BinaryOp) -> bool {
    match op {
        BinaryOp::Contains | BinaryOp::ContainsAll | BinaryOp::ContainsAny => true,
        BinaryOp::GetTag | BinaryOp::HasTag => true,
        _ => false,
    }
}

/// The call that names it.
impl fmt::Display for Unknown {
    fn fmt<W: fmt::Write>(&self, f: &mut fmt::Formatter<W>) -> fmt::Result {
        let name = Escaped::new(self.name.as_str());
        write!(f, "unknown(\"{name}\")")
    }
}

/// Its text in the language, with the first elements alone of each set and each record. Each construct
/// that stands in another takes some stack.
impl<T> BoundedDisplay for Expr<T> {
    ghost use Rattle.std.specs.Prelude.{None};

    ghost bounded_output = { λ expr n. None };

    fn fmt<W: fmt::Write>(&self, f: &mut fmt::Formatter<W>, n: Option<usize>) -> fmt::Result {
        write_expr(self, f, n)
    }
}

/// Its text in the language. Each construct that stands in another takes some stack.
impl<T> fmt::Display for Expr<T> {
    fn fmt<W: fmt::Write>(&self, f: &mut fmt::Formatter<W>) -> fmt::Result {
        self.fmt_unbounded(f)
    }
}

/// Its text in the language, as `Display` writes it.
impl<T> fmt::Debug for Expr<T> {
    fn fmt<W: fmt::Write>(&self, f: &mut fmt::Formatter<W>) -> fmt::Result {
        self.fmt_unbounded(f)
    }
}
