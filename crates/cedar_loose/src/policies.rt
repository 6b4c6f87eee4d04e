// Policies: one reader for each rule of the loose grammar.
ghost use Rattle.std.specs.Prelude.{map, ◌+◌, ◌<◌, ◌^◌};
ghost use Rattle.std.specs.Option.{option_map};
ghost use Rattle.cedar_grammar.specs.Steps.{eat, begins_annotation, is_more};
ghost use Rattle.cedar_grammar.specs.Token as token;
ghost use Rattle.cedar_grammar.specs.LooseReading.{each_of, items_of, optional, eat_is, operator_at, rel_op, compared_step, name_of, add_of, expr_at, begins_cond, annotation_of, variable_def_of, cond_of, policy_of};
ghost use Rattle.cedar_cst.specs.LeafView.{shown_str, shown_name, view_rel_op};
ghost use Rattle.cedar_cst.specs.View.{shown_add, shown_expr, shown_annotation, shown_variable_def, shown_cond, shown_policy};
ghost use Rattle.cedar_loose.specs.Gives.{Gives};
ghost use Rattle.cedar_loose.specs.Parts.{value_of, clause_of, compared_expr};

use crate::{Cursor, ReadError};
use cedar_cst::cst::{
    Add, Annotation, Cond, Expr, Name, Policy, PolicyImpl, RelOp, Str, VariableDef,
};
use cedar_cst::node::Node;
use cedar_tokens::Mark;
use std::alloc::Global;

/// Takes the value of an annotation, if one is next.
fn value(cursor: &mut Cursor<'_>, alloc: Global) -> Result<Option<Node<Option<Str>>>, ReadError>
    ensures { Gives (option_map shown_str) result cursor.new (value_of cursor.old) }
{
    if !cursor.eat(Mark::LeftParen) {
        return Ok(None);
    }
    let value = cursor.string(alloc)?;
    cursor.expect(Mark::RightParen)?;
    Ok(Some(value))
}

/// Takes an annotation, which has to be next.
fn annotation(cursor: &mut Cursor<'_>, alloc: Global) -> Result<Node<Option<Annotation>>, ReadError>
    ensures { Gives shown_annotation result cursor.new (annotation_of cursor.old) }
{
    let start = cursor.start();
    cursor.expect(Mark::At)?;
    let key = cursor.ident(alloc)?;
    let value = value(cursor, alloc)?;
    Ok(cursor.node(start, Annotation { key, value })?)
}

/// Takes all annotations that are next.
fn annotations(
    cursor: &mut Cursor<'_>,
    alloc: Global,
) -> Result<Vec<Node<Option<Annotation>>>, ReadError>
    ensures { Gives (λ v. map shown_annotation v.items) result cursor.new (each_of begins_annotation annotation_of cursor.old) }
{
    let mut parts = Vec::new(alloc);
    'each: while cursor.begins_annotation() {
        let part = annotation(cursor, alloc)?;
        parts.push(part)?;
    }
    Ok(parts)
}

/// Takes the name after a `:` that is next, if one is.
fn unused_type_name(
    cursor: &mut Cursor<'_>,
    alloc: Global,
) -> Result<Option<Node<Option<Name>>>, ReadError>
    ensures { Gives (option_map shown_name) result cursor.new (optional name_of cursor.old (eat token.Colon cursor.old)) }
{
    if !cursor.eat(Mark::Colon) {
        return Ok(None);
    }
    Ok(Some(cursor.name(alloc)?))
}

/// Takes what stands after an `is` that is next, if one is.
fn entity_type(
    cursor: &mut Cursor<'_>,
    alloc: Global,
    depth: u32,
) -> Result<Option<Node<Option<Add>>>, ReadError>
    ensures { Gives (option_map shown_add) result cursor.new (optional (add_of (expr_at depth)) cursor.old (eat_is cursor.old)) }
{
    if !cursor.eat_is() {
        return Ok(None);
    }
    Ok(Some(cursor.add(alloc, depth)?))
}

/// Takes a comparison, if its operator is next.
fn comparison(
    cursor: &mut Cursor<'_>,
    alloc: Global,
    depth: u32,
) -> Result<Option<(RelOp, Node<Option<Expr>>)>, ReadError>
    ensures { Gives (option_map compared_expr) result cursor.new (compared_step (expr_at depth) cursor.old (operator_at rel_op cursor.old)) }
{
    let Some(operator) = cursor.rel_operator() else {
        return Ok(None);
    };
    let expr = cursor.expr(alloc, depth)?;
    Ok(Some((operator, expr)))
}

/// Takes a variable with what is asked of it; less than `depth` constructs may stand round what is
/// behind `is`, and `depth` round what is compared with.
fn variable_def(
    cursor: &mut Cursor<'_>,
    alloc: Global,
    depth: u32,
) -> Result<Node<Option<VariableDef>>, ReadError>
    requires { depth + 1 < 2 ^ 32 }
    ensures { Gives shown_variable_def result cursor.new (variable_def_of depth cursor.old) }
{
    let start = cursor.start();
    let variable = cursor.ident(alloc)?;
    let unused_type_name = unused_type_name(cursor, alloc)?;
    let entity_type = entity_type(cursor, alloc, depth)?;
    let ineq = comparison(cursor, alloc, depth + 1)?;
    let definition = VariableDef {
        variable,
        unused_type_name,
        entity_type,
        ineq,
    };
    Ok(cursor.node(start, definition)?)
}

/// Takes what stands between the parentheses of a policy, and the closing one.
fn variable_defs(
    cursor: &mut Cursor<'_>,
    alloc: Global,
    depth: u32,
) -> Result<Vec<Node<Option<VariableDef>>>, ReadError>
    requires { depth + 1 < 2 ^ 32 }
    ensures { Gives (λ v. map shown_variable_def v.items) result cursor.new (items_of token.RightParen (variable_def_of depth) cursor.old) }
{
    let mut items = Vec::new(alloc);
    'items: while !cursor.eat(Mark::RightParen) {
        let item = variable_def(cursor, alloc, depth)?;
        items.push(item)?;
        if cursor.eat(Mark::RightParen) {
            return Ok(items);
        }
        cursor.expect(Mark::Comma)?;
    }
    Ok(items)
}

/// Takes what stands between the braces of a clause, and the closing one.
fn clause(
    cursor: &mut Cursor<'_>,
    alloc: Global,
    depth: u32,
) -> Result<Option<Node<Option<Expr>>>, ReadError>
    ensures { Gives (option_map shown_expr) result cursor.new (clause_of (expr_at depth) cursor.old) }
{
    if cursor.eat(Mark::RightBrace) {
        return Ok(None);
    }
    let expr = cursor.expr(alloc, depth)?;
    cursor.expect(Mark::RightBrace)?;
    Ok(Some(expr))
}

/// Takes a clause, which has to be next.
fn cond(cursor: &mut Cursor<'_>, alloc: Global, depth: u32) -> Result<Node<Option<Cond>>, ReadError>
    ensures { Gives shown_cond result cursor.new (cond_of depth cursor.old) }
{
    let start = cursor.start();
    let cond = cursor.ident(alloc)?;
    cursor.expect(Mark::LeftBrace)?;
    let expr = clause(cursor, alloc, depth)?;
    Ok(cursor.node(start, Cond { cond, expr })?)
}

/// Takes all clauses that are next.
fn conds(
    cursor: &mut Cursor<'_>,
    alloc: Global,
    depth: u32,
) -> Result<Vec<Node<Option<Cond>>>, ReadError>
    ensures { Gives (λ v. map shown_cond v.items) result cursor.new (each_of begins_cond (cond_of depth) cursor.old) }
{
    let mut parts = Vec::new(alloc);
    'each: while cursor.begins_word() {
        let part = cond(cursor, alloc, depth)?;
        parts.push(part)?;
    }
    Ok(parts)
}

/// Takes a policy, round whose tokens at most `depth` constructs stand.
pub(crate) fn policy(
    cursor: &mut Cursor<'_>,
    alloc: Global,
    depth: u32,
) -> Result<Node<Option<Policy>>, ReadError>
    requires { depth + 1 < 2 ^ 32 }
    ensures { Gives shown_policy result cursor.new (policy_of depth cursor.old) }
{
    let start = cursor.start();
    let annotations = annotations(cursor, alloc)?;
    let effect = cursor.ident(alloc)?;
    cursor.expect(Mark::LeftParen)?;
    let variables = variable_defs(cursor, alloc, depth)?;
    let conds = conds(cursor, alloc, depth + 1)?;
    cursor.expect(Mark::Semicolon)?;
    let policy = PolicyImpl {
        annotations,
        effect,
        variables,
        conds,
    };
    Ok(cursor.node(start, Policy::Policy(policy))?)
}

/// Takes policies until no token is left.
pub(crate) fn policies(
    cursor: &mut Cursor<'_>,
    alloc: Global,
    depth: u32,
) -> Result<Vec<Node<Option<Policy>>>, ReadError>
    requires { depth + 1 < 2 ^ 32 }
    ensures { Gives (λ v. map shown_policy v.items) result cursor.new (each_of is_more (policy_of depth) cursor.old) }
{
    let mut parts = Vec::new(alloc);
    'each: while cursor.is_more() {
        let part = policy(cursor, alloc, depth)?;
        parts.push(part)?;
    }
    Ok(parts)
}
