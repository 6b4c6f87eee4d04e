// Shapes of expressions, and walks of them.
use crate::stack::told_place;
use crate::{Answer, append, no_case, said};
use cedar_literals::types::Type;
use cedar_shapes::readers::ExprReaders;
use cedar_shapes::shapes::ExprShapeOnly;
use cedar_shapes::types::FunctionTypes;
use cedar_trees::expr::Expr;
use std::alloc::{AllocError, Global};

/// Whether the shapes of the two expressions on top are one.
pub fn compared(alloc: Global, stack: &[Expr]) -> Answer {
    let [.., a, b] = stack else {
        return no_case(alloc);
    };
    let one = ExprShapeOnly::new_from_borrowed(a);
    let other = ExprShapeOnly::new_from_owned(b.clone(alloc)?);
    said(alloc, one == other)
}

type Parts<'a> = Result<Vec<&'a Expr>, AllocError>;

fn parts(alloc: Global, expr: &Expr) -> Parts<'_> {
    expr.subexpressions(alloc)?.collect(alloc)
}

fn shown(alloc: Global, parts: Parts<'_>) -> Answer {
    let mut text = String::new(alloc);
    for part in &parts? {
        append(&mut text, part.to_string(alloc))?;
    }
    Ok(text)
}

fn places(alloc: Global, parts: Parts<'_>) -> Answer {
    let mut text = String::new(alloc);
    for part in &parts? {
        append(&mut text, told_place(alloc, part.source_loc()))?;
    }
    Ok(text)
}

fn told_type(alloc: Global, ty: Result<Option<Type>, AllocError>) -> Answer {
    match ty {
        Ok(Some(ty)) => ty.to_string(alloc),
        Ok(None) => String::from_str(alloc, "no type"),
        Err(error) => Err(error),
    }
}

/// What the walks of the expression on top meet.
pub fn walked<F: FunctionTypes>(alloc: Global, verb: &str, stack: &[Expr], table: &F) -> Answer {
    let Some(expr) = stack.last() else {
        return no_case(alloc);
    };
    match verb {
        "subexpressions" => shown(alloc, parts(alloc, expr)),
        "places" => places(alloc, parts(alloc, expr)),
        "contains_unknown" => said(alloc, expr.contains_unknown()),
        "try_type_of" => told_type(alloc, expr.try_type_of(alloc, table)),
        _ => no_case(alloc),
    }
}
