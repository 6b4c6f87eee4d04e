//! Texts that are read by the loose grammar, each into the tree of its tokens. Begin with `parse_policies`, or
//! with `parse_expr` for an expression; whether a tree means something, `cst_to_ast` says.
ghost use Rattle.std.specs.Prelude.{◌≡◌, [], IfOk, IfErr};
ghost use Rattle.cedar_grammar.specs.LooseReading.{read_policies, read_policy, read_expr, read_primary, read_ref, read_name, read_ident};
ghost use Rattle.cedar_cst.specs.LeafView.{shown_ident, shown_name, shown_ref};
ghost use Rattle.cedar_cst.specs.View.{shown_policies, shown_policy, shown_expr, shown_primary};
ghost use Rattle.cedar_loose.specs.Errors as loose;
ghost use Rattle.cedar_loose.specs.Texts.{IsRead, flat};
ghost use Rattle.cedar_parser.specs.Errors.{cause_of};
ghost use Rattle.cedar_parser.specs.LooseTexts.{Refuses, RefusesFlat};

use crate::errors::{ParseError, ParseErrors};
use cedar_cst::cst::{Expr, Ident, Name, Policies, Policy, Primary, Ref};
use cedar_cst::node::Node;
use cedar_loose::LooseError;
use std::alloc::Global;

/// Reads a text of policies loosely: the tree of its tokens, each node with its place.
///
/// The first error is `ToCST`, with a place, where the text is none within any nesting; `Depth` where it
/// is none within a nesting of `depth`, and more than `depth` places in it open a bracket or say `if`;
/// and `Memory` for want of memory alone.
pub fn parse_policies(
    alloc: Global,
    text: &str,
    depth: u32,
) -> Result<Node<Option<Policies>>, ParseErrors>
    ensures read { IfOk result (λ tree. IsRead read_policies depth text.now (shown_policies tree)) }
    ensures refused { IfErr result (Refuses read_policies depth text.now) }
    ensures alone { IfErr result (λ errors. errors.0.tail.items ≡ []) }
{
    match cedar_loose::parse_policies(alloc, text, depth) {
        Ok(tree) => Ok(tree),
        Err(error) => Err(unread(alloc, error)),
    }
}

/// Reads one policy loosely: the tree of its tokens, each node with its place.
///
/// The first error is `ToCST`, with a place, where the text is none within any nesting; `Depth` where it
/// is none within a nesting of `depth`, and more than `depth` places in it open a bracket or say `if`;
/// and `Memory` for want of memory alone.
pub fn parse_policy(
    alloc: Global,
    text: &str,
    depth: u32,
) -> Result<Node<Option<Policy>>, ParseErrors>
    ensures read { IfOk result (λ tree. IsRead read_policy depth text.now (shown_policy tree)) }
    ensures refused { IfErr result (Refuses read_policy depth text.now) }
    ensures alone { IfErr result (λ errors. errors.0.tail.items ≡ []) }
{
    match cedar_loose::parse_policy(alloc, text, depth) {
        Ok(tree) => Ok(tree),
        Err(error) => Err(unread(alloc, error)),
    }
}

/// Reads one expression loosely: the tree of its tokens, each node with its place.
///
/// The first error is `ToCST`, with a place, where the text is none within any nesting; `Depth` where it
/// is none within a nesting of `depth`, and more than `depth` places in it open a bracket or say `if`;
/// and `Memory` for want of memory alone.
pub fn parse_expr(alloc: Global, text: &str, depth: u32) -> Result<Node<Option<Expr>>, ParseErrors>
    ensures read { IfOk result (λ tree. IsRead read_expr depth text.now (shown_expr tree)) }
    ensures refused { IfErr result (Refuses read_expr depth text.now) }
    ensures alone { IfErr result (λ errors. errors.0.tail.items ≡ []) }
{
    match cedar_loose::parse_expr(alloc, text, depth) {
        Ok(tree) => Ok(tree),
        Err(error) => Err(unread(alloc, error)),
    }
}

/// Reads an operand without signs and accesses loosely: the tree of its tokens, each node with its place.
///
/// The first error is `ToCST`, with a place, where the text is none within any nesting; `Depth` where it
/// is none within a nesting of `depth`, and more than `depth` places in it open a bracket or say `if`;
/// and `Memory` for want of memory alone.
pub fn parse_primary(
    alloc: Global,
    text: &str,
    depth: u32,
) -> Result<Node<Option<Primary>>, ParseErrors>
    ensures read { IfOk result (λ tree. IsRead read_primary depth text.now (shown_primary tree)) }
    ensures refused { IfErr result (Refuses read_primary depth text.now) }
    ensures alone { IfErr result (λ errors. errors.0.tail.items ≡ []) }
{
    match cedar_loose::parse_primary(alloc, text, depth) {
        Ok(tree) => Ok(tree),
        Err(error) => Err(unread(alloc, error)),
    }
}

/// Reads an entity loosely: the tree of its tokens, each node with its place.
///
/// The first error is `ToCST`, with a place, where the text is none, and `Memory` for want of memory alone.
pub fn parse_ref(alloc: Global, text: &str) -> Result<Node<Option<Ref>>, ParseErrors>
    ensures read { IfOk result (λ tree. IsRead (flat read_ref) 0 text.now (shown_ref tree)) }
    ensures refused { IfErr result (RefusesFlat (flat read_ref) text.now) }
    ensures alone { IfErr result (λ errors. errors.0.tail.items ≡ []) }
{
    match cedar_loose::parse_ref(alloc, text) {
        Ok(tree) => Ok(tree),
        Err(error) => Err(unread(alloc, error)),
    }
}

/// Reads a name loosely: the tree of its tokens, each node with its place.
///
/// The first error is `ToCST`, with a place, where the text is none, and `Memory` for want of memory alone.
pub fn parse_name(alloc: Global, text: &str) -> Result<Node<Option<Name>>, ParseErrors>
    ensures read { IfOk result (λ tree. IsRead (flat read_name) 0 text.now (shown_name tree)) }
    ensures refused { IfErr result (RefusesFlat (flat read_name) text.now) }
    ensures alone { IfErr result (λ errors. errors.0.tail.items ≡ []) }
{
    match cedar_loose::parse_name(alloc, text) {
        Ok(tree) => Ok(tree),
        Err(error) => Err(unread(alloc, error)),
    }
}

/// Reads a word loosely: the tree of its tokens, each node with its place.
///
/// The first error is `ToCST`, with a place, where the text is none, and `Memory` for want of memory alone.
pub fn parse_ident(alloc: Global, text: &str) -> Result<Node<Option<Ident>>, ParseErrors>
    ensures read { IfOk result (λ tree. IsRead (flat read_ident) 0 text.now (shown_ident tree)) }
    ensures refused { IfErr result (RefusesFlat (flat read_ident) text.now) }
    ensures alone { IfErr result (λ errors. errors.0.tail.items ≡ []) }
{
    match cedar_loose::parse_ident(alloc, text) {
        Ok(tree) => Ok(tree),
        Err(error) => Err(unread(alloc, error)),
    }
}

/// The same error, as one of a text.
pub(crate) fn unread(alloc: Global, error: LooseError) -> ParseErrors
    ensures cause { cause_of result.0.head ≡ loose.cause_of error }
    ensures alone { result.0.tail.items ≡ [] }
{
    let error = match error {
        LooseError::ToCST(error) => ParseError::ToCST(error),
        LooseError::Depth => ParseError::Depth,
        LooseError::Memory => ParseError::Memory,
    };
    ParseErrors::one(alloc, error)
}
