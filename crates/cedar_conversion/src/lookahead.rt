// What stands alone in an expression: without operators, signs and accesses.
ghost use Rattle.std.specs.Prelude.{◌≡◌, ◌<◌, length, IfOk, IfErr, IfSome, option_to_list};
ghost use Rattle.std.specs.Option.{option_map, option_copied};
ghost use Rattle.cedar_grammar.specs.Converting as converting;
ghost use Rattle.cedar_cst.specs.declared.cst.Expr.{size-Expr};
ghost use Rattle.cedar_cst.specs.declared.cst.Or.{size-Or};
ghost use Rattle.cedar_cst.specs.declared.cst.And.{size-And};
ghost use Rattle.cedar_cst.specs.declared.cst.Relation.{size-Relation};
ghost use Rattle.cedar_cst.specs.declared.cst.Add.{size-Add};
ghost use Rattle.cedar_cst.specs.declared.cst.Mult.{size-Mult};
ghost use Rattle.cedar_cst.specs.declared.cst.Unary.{size-Unary};
ghost use Rattle.cedar_cst.specs.declared.cst.Member.{size-Member};
ghost use Rattle.cedar_cst.specs.declared.cst.Primary.{size-Primary};
ghost use Rattle.cedar_cst.specs.LeafView.{shown_literal, shown_name, view_literal};
ghost use Rattle.cedar_cst.specs.View.{shown_expr, shown_or, shown_and, shown_relation, shown_add, shown_mult, shown_unary, shown_member, shown_primary};
ghost use Rattle.cedar_conversion.specs.Alone as alone;
ghost use Rattle.cedar_conversion.specs.Alone.{depth};
ghost use Rattle.cedar_faults.specs.Reasons.{IsFault, IsFaultOf};

use cedar_cst::cst::{
    Add, And, Expr, ExprData, Literal, Member, Mult, Name, Or, Primary, RelOp, Relation, Unary,
};
use cedar_cst::node::Node;
use cedar_faults::{ConversionError, ToASTErrorKind};
use cedar_names::places::Loc;
use std::alloc::Global;

/// The chain of `||` that an expression is, if it is one.
pub fn only_or(node: &Node<Option<Expr>>) -> Option<&Node<Option<Or>>>
    ensures { option_map (λ n. shown_or n.now) result ≡ alone.only_or (shown_expr node.now) }
{
    enter_or(node)
}

/// The chain of `||` that an expression is, which nests less deeply.
pub fn enter_or(node: &Node<Option<Expr>>) -> Option<&Node<Option<Or>>>
    ensures node { option_map (λ n. shown_or n.now) result ≡ alone.only_or (shown_expr node.now) }
    ensures below { IfSome result (λ n. depth size-Or n.now.node < depth size-Expr node.now.node) }
{
    match &node.node {
        None => None,
        Some(expr) => match expr {
            Expr::Expr(inner) => match &*inner.expr {
                ExprData::Or(or) => Some(or),
                ExprData::If(_, _, _) => None,
            },
        },
    }
}

/// The lone operand of a chain of `||`.
pub fn only_and(node: &Node<Option<Or>>) -> Option<&Node<Option<And>>>
    ensures { option_map (λ n. shown_and n.now) result ≡ alone.only_and (shown_or node.now) }
{
    enter_and(node)
}

// The same; it nests less deeply.
fn enter_and(node: &Node<Option<Or>>) -> Option<&Node<Option<And>>>
    ensures node { option_map (λ n. shown_and n.now) result ≡ alone.only_and (shown_or node.now) }
    ensures below { IfSome result (λ n. depth size-And n.now.node < depth size-Or node.now.node) }
{
    match &node.node {
        None => None,
        Some(or) => {
            if or.extended.is_empty() {
                Some(&or.initial)
            } else {
                None
            }
        }
    }
}

/// The lone operand of a chain of `&&`.
pub fn only_relation(node: &Node<Option<And>>) -> Option<&Node<Option<Relation>>>
    ensures { option_map (λ n. shown_relation n.now) result ≡ alone.only_relation (shown_and node.now) }
{
    enter_relation(node)
}

// The same; it nests less deeply.
fn enter_relation(node: &Node<Option<And>>) -> Option<&Node<Option<Relation>>>
    ensures node { option_map (λ n. shown_relation n.now) result ≡ alone.only_relation (shown_and node.now) }
    ensures below { IfSome result (λ n. depth size-Relation n.now.node < depth size-And node.now.node) }
{
    match &node.node {
        None => None,
        Some(and) => {
            if and.extended.is_empty() {
                Some(&and.initial)
            } else {
                None
            }
        }
    }
}

/// The lone operand of a relation.
pub fn only_add(node: &Node<Option<Relation>>) -> Option<&Node<Option<Add>>>
    ensures { option_map (λ n. shown_add n.now) result ≡ alone.only_add (shown_relation node.now) }
{
    enter_add(node)
}

/// The lone operand of a relation, which nests less deeply.
pub fn enter_add(node: &Node<Option<Relation>>) -> Option<&Node<Option<Add>>>
    ensures node { option_map (λ n. shown_add n.now) result ≡ alone.only_add (shown_relation node.now) }
    ensures below { IfSome result (λ n. depth size-Add n.now.node < depth size-Relation node.now.node) }
{
    match &node.node {
        None => None,
        Some(relation) => match relation {
            Relation::Common { initial, extended } => {
                if extended.is_empty() {
                    Some(initial)
                } else {
                    None
                }
            }
            Relation::Has { .. } => None,
            Relation::Like { .. } => None,
            Relation::IsIn { .. } => None,
        },
    }
}

/// The one comparison of a relation, if it has any. Comparisons that follow each other are the fault `AmbiguousOperators`
/// of the relation, which stands here; or memory runs out. (Cedar language reference, "Operators and functions".)
pub fn lone_comparison<'n, E: Drop>(
    alloc: Global,
    comparisons: &'n [(RelOp, Node<Option<Add>>)],
    loc: Option<&Loc>,
) -> Result<Option<&'n (RelOp, Node<Option<Add>>)>, ConversionError<E>>
    ensures lone { IfOk result (λ comparison. comparisons.now ≡ option_to_list (option_copied comparison)) }
    ensures others { IfErr result (λ error. 1 < length comparisons.now) }
    ensures fault { IfErr result IsFault }
    ensures kind { IfErr result (λ error. IsFaultOf ToASTErrorKind.AmbiguousOperators (option_copied loc.entry) error) }
{
    match comparisons.split_first() {
        None => Ok(None),
        Some((comparison, others)) => {
            if others.is_empty() {
                Ok(Some(comparison))
            } else {
                let kind = ToASTErrorKind::AmbiguousOperators;
                Err(ConversionError::fault(alloc, kind, loc))
            }
        }
    }
}

/// The lone operand of a sum.
pub fn only_mult(node: &Node<Option<Add>>) -> Option<&Node<Option<Mult>>>
    ensures { option_map (λ n. shown_mult n.now) result ≡ alone.only_mult (shown_add node.now) }
{
    enter_mult(node)
}

// The same; it nests less deeply.
fn enter_mult(node: &Node<Option<Add>>) -> Option<&Node<Option<Mult>>>
    ensures node { option_map (λ n. shown_mult n.now) result ≡ alone.only_mult (shown_add node.now) }
    ensures below { IfSome result (λ n. depth size-Mult n.now.node < depth size-Add node.now.node) }
{
    match &node.node {
        None => None,
        Some(add) => {
            if add.extended.is_empty() {
                Some(&add.initial)
            } else {
                None
            }
        }
    }
}

/// The lone operand of a product.
pub fn only_unary(node: &Node<Option<Mult>>) -> Option<&Node<Option<Unary>>>
    ensures { option_map (λ n. shown_unary n.now) result ≡ alone.only_unary (shown_mult node.now) }
{
    enter_unary(node)
}

// The same; it nests less deeply.
fn enter_unary(node: &Node<Option<Mult>>) -> Option<&Node<Option<Unary>>>
    ensures node { option_map (λ n. shown_unary n.now) result ≡ alone.only_unary (shown_mult node.now) }
    ensures below { IfSome result (λ n. depth size-Unary n.now.node < depth size-Mult node.now.node) }
{
    match &node.node {
        None => None,
        Some(mult) => {
            if mult.extended.is_empty() {
                Some(&mult.initial)
            } else {
                None
            }
        }
    }
}

/// The operand without signs.
pub fn unsigned(node: &Node<Option<Unary>>) -> Option<&Node<Option<Member>>>
    ensures { option_map (λ n. shown_member n.now) result ≡ alone.unsigned (shown_unary node.now) }
{
    enter_member(node)
}

// The same; it nests less deeply.
fn enter_member(node: &Node<Option<Unary>>) -> Option<&Node<Option<Member>>>
    ensures node { option_map (λ n. shown_member n.now) result ≡ alone.unsigned (shown_unary node.now) }
    ensures below { IfSome result (λ n. depth size-Member n.now.node < depth size-Unary node.now.node) }
{
    match &node.node {
        None => None,
        Some(unary) => match unary.op {
            None => Some(&unary.item),
            Some(_) => None,
        },
    }
}

/// The member that stands alone; it nests less deeply.
pub fn lone_member(node: &Node<Option<Add>>) -> Option<&Node<Option<Member>>>
    ensures node { option_map (λ n. shown_member n.now) result ≡ converting.lone_member (shown_add node.now) }
    ensures below { IfSome result (λ n. depth size-Member n.now.node < depth size-Add node.now.node) }
{
    match enter_mult(node) {
        None => None,
        Some(mult) => match enter_unary(mult) {
            None => None,
            Some(unary) => enter_member(unary),
        },
    }
}

/// The primary that stands without accesses.
pub fn without_accesses(node: &Node<Option<Member>>) -> Option<&Node<Option<Primary>>>
    ensures { option_map (λ n. shown_primary n.now) result ≡ converting.without_accesses (shown_member node.now) }
{
    match &node.node {
        None => None,
        Some(member) => {
            if member.access.is_empty() {
                Some(&member.item)
            } else {
                None
            }
        }
    }
}

/// The primary that stands alone.
pub fn lone_primary(node: &Node<Option<Add>>) -> Option<&Node<Option<Primary>>>
    ensures { option_map (λ n. shown_primary n.now) result ≡ converting.lone_primary (shown_add node.now) }
{
    match lone_member(node) {
        None => None,
        Some(member) => without_accesses(member),
    }
}

/// The relation that stands alone; it nests less deeply.
pub fn lone_relation(node: &Node<Option<Expr>>) -> Option<&Node<Option<Relation>>>
    ensures node { option_map (λ n. shown_relation n.now) result ≡ alone.lone_relation (shown_expr node.now) }
    ensures below { IfSome result (λ n. depth size-Relation n.now.node < depth size-Expr node.now.node) }
{
    match enter_or(node) {
        None => None,
        Some(or) => match enter_and(or) {
            None => None,
            Some(and) => enter_relation(and),
        },
    }
}

// The sum that stands alone.
fn lone_add(node: &Node<Option<Expr>>) -> Option<&Node<Option<Add>>>
    ensures { option_map (λ n. shown_add n.now) result ≡ converting.lone_add (shown_expr node.now) }
{
    match lone_relation(node) {
        None => None,
        Some(relation) => only_add(relation),
    }
}

/// The primary that an expression is.
pub fn alone(node: &Node<Option<Expr>>) -> Option<&Node<Option<Primary>>>
    ensures { option_map (λ n. shown_primary n.now) result ≡ converting.alone (shown_expr node.now) }
{
    match lone_add(node) {
        None => None,
        Some(add) => lone_primary(add),
    }
}

/// The literal that a primary is.
pub fn only_literal(node: &Node<Option<Primary>>) -> Option<&Node<Option<Literal>>>
    ensures { option_map (λ n. shown_literal n.now) result ≡ alone.only_literal (shown_primary node.now) }
{
    match &node.node {
        None => None,
        Some(primary) => match primary {
            Primary::Literal(literal) => Some(literal),
            Primary::Ref(_) => None,
            Primary::Name(_) => None,
            Primary::Slot(_) => None,
            Primary::Expr(_) => None,
            Primary::EList(_) => None,
            Primary::RInits(_) => None,
        },
    }
}

/// The expression that a primary holds in brackets; it nests less deeply.
pub fn only_expr(node: &Node<Option<Primary>>) -> Option<&Node<Option<Expr>>>
    ensures node { option_map (λ n. shown_expr n.now) result ≡ alone.only_expr (shown_primary node.now) }
    ensures below { IfSome result (λ n. depth size-Expr n.now.node < depth size-Primary node.now.node) }
{
    match &node.node {
        None => None,
        Some(primary) => match primary {
            Primary::Expr(expr) => Some(expr),
            Primary::Literal(_) => None,
            Primary::Ref(_) => None,
            Primary::Name(_) => None,
            Primary::Slot(_) => None,
            Primary::EList(_) => None,
            Primary::RInits(_) => None,
        },
    }
}

/// The name that a primary is.
pub fn only_name(node: &Node<Option<Primary>>) -> Option<&Node<Option<Name>>>
    ensures { option_map (λ n. shown_name n.now) result ≡ alone.only_name (shown_primary node.now) }
{
    match &node.node {
        None => None,
        Some(primary) => match primary {
            Primary::Name(name) => Some(name),
            Primary::Literal(_) => None,
            Primary::Ref(_) => None,
            Primary::Slot(_) => None,
            Primary::Expr(_) => None,
            Primary::EList(_) => None,
            Primary::RInits(_) => None,
        },
    }
}

// The number that a literal is.
fn number_of(node: &Node<Option<Literal>>) -> Option<u64>
    ensures { result ≡ alone.number_of (shown_literal node.now) }
{
    match &node.node {
        None => None,
        Some(literal) => match literal {
            Literal::Num(number) => Some(*number),
            Literal::True => None,
            Literal::False => None,
            Literal::Str(_) => None,
        },
    }
}

/// The number that a member is.
pub fn lone_number(node: &Node<Option<Member>>) -> Option<u64>
    ensures { result ≡ converting.lone_number (shown_member node.now) }
{
    match without_accesses(node) {
        None => None,
        Some(primary) => match only_literal(primary) {
            None => None,
            Some(literal) => number_of(literal),
        },
    }
}

/// The literal that a member is, without accesses; none where it is missing.
pub fn to_lit(node: &Node<Option<Member>>) -> Option<&Literal>
    ensures { option_map (λ literal. view_literal literal.now) result ≡ alone.lone_literal (shown_member node.now) }
{
    match without_accesses(node) {
        None => None,
        Some(primary) => match only_literal(primary) {
            None => None,
            Some(literal) => literal.node.as_ref(),
        },
    }
}
