// Whole texts.
ghost use Rattle.std.specs.Prelude.{◌≡◌, IfOk, IfErr};
ghost use Rattle.cedar_grammar.specs.LooseReading.{read_policies, read_policy, read_expr, read_primary, read_ref, read_name, read_ident};
ghost use Rattle.cedar_cst.specs.LeafView.{shown_ident, shown_name, shown_ref};
ghost use Rattle.cedar_cst.specs.View.{shown_policies, shown_policy, shown_expr, shown_primary};
ghost use Rattle.cedar_loose.specs.Texts.{IsRead, IsRefused, IsOutside, Refuses, RefusesFlat, GivesAll, flat, stop_cause};

use crate::policies::{policies, policy};
use crate::refusal::refusal;
use crate::{Cursor, LooseError, ReadError};
use cedar_cst::cst::{Expr, Ident, Name, Policies, Policy, Primary, Ref};
use cedar_cst::node::Node;
use cedar_grammar::{limits_are_met_where_constructs_open, wider_limits_change_nothing};
use cedar_tokens::Tokens;
use std::alloc::Global;
use std::rc::RcStr;

/// Reads a text of policies loosely: the tree of its tokens, each node with its place.
///
/// The error is `ToCST`, with a place, where the text is none within any nesting; `Depth` where it
/// is none within a nesting of `depth`, and more than `depth` places in it open a bracket or say `if`;
/// and `Memory` for want of memory alone.
#[tactic(auto, using(crate::proofs::Telling::told_refusal))]
pub fn parse_policies(
    alloc: Global,
    text: &str,
    depth: u32,
) -> Result<Node<Option<Policies>>, LooseError>
    ensures read { IfOk result (λ tree. IsRead read_policies depth text.now (shown_policies tree)) }
    ensures refused { IfErr result (Refuses read_policies depth text.now) }
{
    let Ok(source) = RcStr::from_str(alloc, text) else {
        return Err(LooseError::Memory);
    };
    match policies_in(alloc, text, &source, depth) {
        Ok(tree) => Ok(tree),
        Err(error) => Err(refusal(alloc, error, &source)),
    }
}

/// The tree of the text.
fn policies_in(
    alloc: Global,
    text: &str,
    source: &RcStr,
    depth: u32,
) -> Result<Node<Option<Policies>>, ReadError>
    ensures read { IfOk result (λ tree. IsRead read_policies depth text.now (shown_policies tree)) }
    ensures refused { IfErr result (λ e. IsRefused read_policies depth text.now (stop_cause e)) }
{
    // These run no code: their contracts are the laws of the limit.
    wider_limits_change_nothing();
    limits_are_met_where_constructs_open();

    let tokens = Tokens::new(text)?;
    policies_of(alloc, tokens, source, depth)
}

/// The tree of the tokens.
fn policies_of(
    alloc: Global,
    tokens: Tokens<'_>,
    source: &RcStr,
    depth: u32,
) -> Result<Node<Option<Policies>>, ReadError>
    ensures { GivesAll shown_policies result (read_policies depth tokens.entry.left) }
{
    if depth == 0 {
        return Err(ReadError::Depth);
    }
    let mut cursor = Cursor::new(alloc, tokens, source);
    let start = cursor.start();
    let parts = policies(&mut cursor, alloc, depth - 1)?;
    cursor.finish()?;
    Ok(cursor.node(start, Policies(parts))?)
}

/// Reads one policy loosely: the tree of its tokens, each node with its place.
///
/// The error is `ToCST`, with a place, where the text is none within any nesting; `Depth` where it
/// is none within a nesting of `depth`, and more than `depth` places in it open a bracket or say `if`;
/// and `Memory` for want of memory alone.
#[tactic(auto, using(crate::proofs::Telling::told_refusal))]
pub fn parse_policy(
    alloc: Global,
    text: &str,
    depth: u32,
) -> Result<Node<Option<Policy>>, LooseError>
    ensures read { IfOk result (λ tree. IsRead read_policy depth text.now (shown_policy tree)) }
    ensures refused { IfErr result (Refuses read_policy depth text.now) }
{
    let Ok(source) = RcStr::from_str(alloc, text) else {
        return Err(LooseError::Memory);
    };
    match policy_in(alloc, text, &source, depth) {
        Ok(tree) => Ok(tree),
        Err(error) => Err(refusal(alloc, error, &source)),
    }
}

/// The tree of the text.
fn policy_in(
    alloc: Global,
    text: &str,
    source: &RcStr,
    depth: u32,
) -> Result<Node<Option<Policy>>, ReadError>
    ensures read { IfOk result (λ tree. IsRead read_policy depth text.now (shown_policy tree)) }
    ensures refused { IfErr result (λ e. IsRefused read_policy depth text.now (stop_cause e)) }
{
    // These run no code: their contracts are the laws of the limit.
    wider_limits_change_nothing();
    limits_are_met_where_constructs_open();

    let tokens = Tokens::new(text)?;
    policy_of(alloc, tokens, source, depth)
}

/// The tree of the tokens.
fn policy_of(
    alloc: Global,
    tokens: Tokens<'_>,
    source: &RcStr,
    depth: u32,
) -> Result<Node<Option<Policy>>, ReadError>
    ensures { GivesAll shown_policy result (read_policy depth tokens.entry.left) }
{
    if depth == 0 {
        return Err(ReadError::Depth);
    }
    let mut cursor = Cursor::new(alloc, tokens, source);
    let tree = policy(&mut cursor, alloc, depth - 1)?;
    cursor.finish()?;
    Ok(tree)
}

/// Reads one expression loosely: the tree of its tokens, each node with its place.
///
/// The error is `ToCST`, with a place, where the text is none within any nesting; `Depth` where it
/// is none within a nesting of `depth`, and more than `depth` places in it open a bracket or say `if`;
/// and `Memory` for want of memory alone.
#[tactic(auto, using(crate::proofs::Telling::told_refusal))]
pub fn parse_expr(alloc: Global, text: &str, depth: u32) -> Result<Node<Option<Expr>>, LooseError>
    ensures read { IfOk result (λ tree. IsRead read_expr depth text.now (shown_expr tree)) }
    ensures refused { IfErr result (Refuses read_expr depth text.now) }
{
    let Ok(source) = RcStr::from_str(alloc, text) else {
        return Err(LooseError::Memory);
    };
    match expr_in(alloc, text, &source, depth) {
        Ok(tree) => Ok(tree),
        Err(error) => Err(refusal(alloc, error, &source)),
    }
}

/// The tree of the text.
fn expr_in(
    alloc: Global,
    text: &str,
    source: &RcStr,
    depth: u32,
) -> Result<Node<Option<Expr>>, ReadError>
    ensures read { IfOk result (λ tree. IsRead read_expr depth text.now (shown_expr tree)) }
    ensures refused { IfErr result (λ e. IsRefused read_expr depth text.now (stop_cause e)) }
{
    // These run no code: their contracts are the laws of the limit.
    wider_limits_change_nothing();
    limits_are_met_where_constructs_open();

    let tokens = Tokens::new(text)?;
    expr_of(alloc, tokens, source, depth)
}

/// The tree of the tokens.
fn expr_of(
    alloc: Global,
    tokens: Tokens<'_>,
    source: &RcStr,
    depth: u32,
) -> Result<Node<Option<Expr>>, ReadError>
    ensures { GivesAll shown_expr result (read_expr depth tokens.entry.left) }
{
    let mut cursor = Cursor::new(alloc, tokens, source);
    let tree = cursor.expr(alloc, depth)?;
    cursor.finish()?;
    Ok(tree)
}

/// Reads an operand without signs and accesses loosely: the tree of its tokens, each node with its place.
///
/// The error is `ToCST`, with a place, where the text is none within any nesting; `Depth` where it
/// is none within a nesting of `depth`, and more than `depth` places in it open a bracket or say `if`;
/// and `Memory` for want of memory alone.
#[tactic(auto, using(crate::proofs::Telling::told_refusal))]
pub fn parse_primary(
    alloc: Global,
    text: &str,
    depth: u32,
) -> Result<Node<Option<Primary>>, LooseError>
    ensures read { IfOk result (λ tree. IsRead read_primary depth text.now (shown_primary tree)) }
    ensures refused { IfErr result (Refuses read_primary depth text.now) }
{
    let Ok(source) = RcStr::from_str(alloc, text) else {
        return Err(LooseError::Memory);
    };
    match primary_in(alloc, text, &source, depth) {
        Ok(tree) => Ok(tree),
        Err(error) => Err(refusal(alloc, error, &source)),
    }
}

/// The tree of the text.
fn primary_in(
    alloc: Global,
    text: &str,
    source: &RcStr,
    depth: u32,
) -> Result<Node<Option<Primary>>, ReadError>
    ensures read { IfOk result (λ tree. IsRead read_primary depth text.now (shown_primary tree)) }
    ensures refused { IfErr result (λ e. IsRefused read_primary depth text.now (stop_cause e)) }
{
    // These run no code: their contracts are the laws of the limit.
    wider_limits_change_nothing();
    limits_are_met_where_constructs_open();

    let tokens = Tokens::new(text)?;
    primary_of(alloc, tokens, source, depth)
}

/// The tree of the tokens.
fn primary_of(
    alloc: Global,
    tokens: Tokens<'_>,
    source: &RcStr,
    depth: u32,
) -> Result<Node<Option<Primary>>, ReadError>
    ensures { GivesAll shown_primary result (read_primary depth tokens.entry.left) }
{
    if depth == 0 {
        return Err(ReadError::Depth);
    }
    let mut cursor = Cursor::new(alloc, tokens, source);
    let tree = cursor.primary(alloc, depth - 1)?;
    cursor.finish()?;
    Ok(tree)
}

/// Reads an entity loosely: the tree of its tokens, each node with its place.
///
/// The error is `ToCST`, with a place, where the text is none, and `Memory` for want of memory alone.
#[tactic(auto, using(crate::proofs::Telling::told_outside))]
pub fn parse_ref(alloc: Global, text: &str) -> Result<Node<Option<Ref>>, LooseError>
    ensures read { IfOk result (λ tree. IsRead (flat read_ref) 0 text.now (shown_ref tree)) }
    ensures refused { IfErr result (RefusesFlat (flat read_ref) text.now) }
{
    let Ok(source) = RcStr::from_str(alloc, text) else {
        return Err(LooseError::Memory);
    };
    match ref_in(alloc, text, &source) {
        Ok(tree) => Ok(tree),
        Err(error) => Err(refusal(alloc, error, &source)),
    }
}

/// The tree of the text.
fn ref_in(alloc: Global, text: &str, source: &RcStr) -> Result<Node<Option<Ref>>, ReadError>
    ensures read { IfOk result (λ tree. IsRead (flat read_ref) 0 text.now (shown_ref tree)) }
    ensures refused { IfErr result (λ e. IsOutside (flat read_ref) text.now (stop_cause e)) }
{
    let tokens = Tokens::new(text)?;
    ref_of(alloc, tokens, source)
}

/// The tree of the tokens.
fn ref_of(alloc: Global, tokens: Tokens<'_>, source: &RcStr) -> Result<Node<Option<Ref>>, ReadError>
    ensures { GivesAll shown_ref result (read_ref tokens.entry.left) }
{
    let mut cursor = Cursor::new(alloc, tokens, source);
    let tree = cursor.entity(alloc)?;
    cursor.finish()?;
    Ok(tree)
}

/// Reads a name loosely: the tree of its tokens, each node with its place.
///
/// The error is `ToCST`, with a place, where the text is none, and `Memory` for want of memory alone.
#[tactic(auto, using(crate::proofs::Telling::told_outside))]
pub fn parse_name(alloc: Global, text: &str) -> Result<Node<Option<Name>>, LooseError>
    ensures read { IfOk result (λ tree. IsRead (flat read_name) 0 text.now (shown_name tree)) }
    ensures refused { IfErr result (RefusesFlat (flat read_name) text.now) }
{
    let Ok(source) = RcStr::from_str(alloc, text) else {
        return Err(LooseError::Memory);
    };
    match name_in(alloc, text, &source) {
        Ok(tree) => Ok(tree),
        Err(error) => Err(refusal(alloc, error, &source)),
    }
}

/// The tree of the text.
fn name_in(alloc: Global, text: &str, source: &RcStr) -> Result<Node<Option<Name>>, ReadError>
    ensures read { IfOk result (λ tree. IsRead (flat read_name) 0 text.now (shown_name tree)) }
    ensures refused { IfErr result (λ e. IsOutside (flat read_name) text.now (stop_cause e)) }
{
    let tokens = Tokens::new(text)?;
    name_of(alloc, tokens, source)
}

/// The tree of the tokens.
fn name_of(
    alloc: Global,
    tokens: Tokens<'_>,
    source: &RcStr,
) -> Result<Node<Option<Name>>, ReadError>
    ensures { GivesAll shown_name result (read_name tokens.entry.left) }
{
    let mut cursor = Cursor::new(alloc, tokens, source);
    let tree = cursor.name(alloc)?;
    cursor.finish()?;
    Ok(tree)
}

/// Reads a word loosely: the tree of its tokens, each node with its place.
///
/// The error is `ToCST`, with a place, where the text is none, and `Memory` for want of memory alone.
#[tactic(auto, using(crate::proofs::Telling::told_outside))]
pub fn parse_ident(alloc: Global, text: &str) -> Result<Node<Option<Ident>>, LooseError>
    ensures read { IfOk result (λ tree. IsRead (flat read_ident) 0 text.now (shown_ident tree)) }
    ensures refused { IfErr result (RefusesFlat (flat read_ident) text.now) }
{
    let Ok(source) = RcStr::from_str(alloc, text) else {
        return Err(LooseError::Memory);
    };
    match ident_in(alloc, text, &source) {
        Ok(tree) => Ok(tree),
        Err(error) => Err(refusal(alloc, error, &source)),
    }
}

/// The tree of the text.
fn ident_in(alloc: Global, text: &str, source: &RcStr) -> Result<Node<Option<Ident>>, ReadError>
    ensures read { IfOk result (λ tree. IsRead (flat read_ident) 0 text.now (shown_ident tree)) }
    ensures refused { IfErr result (λ e. IsOutside (flat read_ident) text.now (stop_cause e)) }
{
    let tokens = Tokens::new(text)?;
    ident_of(alloc, tokens, source)
}

/// The tree of the tokens.
fn ident_of(
    alloc: Global,
    tokens: Tokens<'_>,
    source: &RcStr,
) -> Result<Node<Option<Ident>>, ReadError>
    ensures { GivesAll shown_ident result (read_ident tokens.entry.left) }
{
    let mut cursor = Cursor::new(alloc, tokens, source);
    let tree = cursor.ident(alloc)?;
    cursor.finish()?;
    Ok(tree)
}
