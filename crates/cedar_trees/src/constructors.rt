// Constructors of expressions without data and place.
ghost use Rattle.std.specs.Prelude.{◌≡◌, ◌∷◌, IfOk, map};
ghost use Rattle.std.specs.Rc.{rc_str_bytes};
ghost use Rattle.cedar_language.specs.Tree as tree;
ghost use Rattle.cedar_grammar.specs.Build.{trees, unary, binary, conjunction, disjunction, has};
ghost use Rattle.cedar_literals.specs.Literals.{literal_of};
ghost use Rattle.cedar_literals.specs.Operators.{unary_operator_of, binary_operator_of};
ghost use Rattle.cedar_literals.specs.Variables.{variable_of};
ghost use Rattle.cedar_trees.specs.Bare.{bare, bare_kind, bare_entries, record_tree};
ghost use Rattle.cedar_trees.specs.Records.{MakesRecord};
ghost use Rattle.cedar_trees.specs.Unknowns.{unknown_name, unknown_type};

use crate::errors::ExpressionConstructionError;
use crate::expr::{Expr, ExprKind};
use crate::kinds;
use crate::unknowns::{NonEmpty, Unknown};
use cedar_literals::literals::Literal;
use cedar_literals::operators::{BinaryOp, UnaryOp};
use cedar_literals::patterns::Pattern;
use cedar_literals::slots::SlotId;
use cedar_literals::uids::EntityType;
use cedar_literals::variables::Var;
use cedar_names::names::Name;
use std::alloc::{AllocError, Global};
use std::collections::BTreeMap;
use std::rc::{Rc, RcStr};

impl Expr {
    // The expression of this construct, without place.
    fn of_kind(expr_kind: ExprKind) -> Expr
        ensures { bare result ≡ bare_kind expr_kind }
    {
        Expr {
            expr_kind,
            source_loc: None,
            data: (),
        }
    }

    /// A literal.
    pub fn val(literal: Literal) -> Expr
        ensures { bare result ≡ tree.Lit (literal_of literal) }
    {
        Expr::of_kind(ExprKind::Lit(literal))
    }

    /// A value that isn't known yet.
    pub fn unknown(unknown: Unknown) -> Expr
        ensures { bare result ≡ tree.Unknown (unknown_name unknown) (unknown_type unknown) }
    {
        Expr::of_kind(ExprKind::Unknown(unknown))
    }

    /// A variable of the request.
    pub fn var(var: Var) -> Expr
        ensures { bare result ≡ tree.Var (variable_of var) }
    {
        Expr::of_kind(ExprKind::Var(var))
    }

    /// A slot of a template.
    pub fn slot(slot: SlotId) -> Expr
        ensures { bare result ≡ tree.Slot slot }
    {
        Expr::of_kind(ExprKind::Slot(slot))
    }

    /// `if test_expr then then_expr else else_expr`; refused for memory alone.
    pub fn ite(
        alloc: Global,
        test_expr: Expr,
        then_expr: Expr,
        else_expr: Expr,
    ) -> Result<Expr, AllocError>
        ensures { IfOk result (λ made. bare made ≡
            tree.If (bare test_expr) (bare then_expr) (bare else_expr)) }
    {
        Ok(Expr::of_kind(kinds::ite(alloc, test_expr, then_expr, else_expr)?))
    }

    /// `if test_expr then then_expr else else_expr`, of parts that are shared; takes no memory.
    pub fn ite_arc(test_expr: Rc<Expr>, then_expr: Rc<Expr>, else_expr: Rc<Expr>) -> Expr
        ensures { bare result ≡
            tree.If (bare test_expr.value) (bare then_expr.value) (bare else_expr.value) }
    {
        Expr::of_kind(ExprKind::If {
            test_expr,
            then_expr,
            else_expr,
        })
    }

    /// `!expr`; refused for memory alone.
    pub fn not(alloc: Global, expr: Expr) -> Result<Expr, AllocError>
        ensures { IfOk result (λ made. bare made ≡ unary tree.Not (bare expr)) }
    {
        Expr::unary_app(alloc, UnaryOp::Not, expr)
    }

    /// `left == right`; refused for memory alone.
    pub fn is_eq(alloc: Global, left: Expr, right: Expr) -> Result<Expr, AllocError>
        ensures { IfOk result (λ made. bare made ≡ binary tree.Equal (bare left) (bare right)) }
    {
        Expr::binary_app(alloc, BinaryOp::Eq, left, right)
    }

    /// `left != right`, which is `!(left == right)`; refused for memory alone.
    pub fn noteq(alloc: Global, left: Expr, right: Expr) -> Result<Expr, AllocError>
        ensures { IfOk result (λ made. bare made ≡
            unary tree.Not (binary tree.Equal (bare left) (bare right))) }
    {
        Expr::not(alloc, Expr::is_eq(alloc, left, right)?)
    }

    /// `left && right`, which is a literal where both are literal Booleans; refused for memory alone.
    pub fn and(alloc: Global, left: Expr, right: Expr) -> Result<Expr, AllocError>
        ensures { IfOk result (λ made. bare made ≡ conjunction (bare left) (bare right)) }
    {
        Ok(Expr::of_kind(kinds::and(alloc, left, right)?))
    }

    /// `left || right`, which is a literal where both are literal Booleans; refused for memory alone.
    pub fn or(alloc: Global, left: Expr, right: Expr) -> Result<Expr, AllocError>
        ensures { IfOk result (λ made. bare made ≡ disjunction (bare left) (bare right)) }
    {
        Ok(Expr::of_kind(kinds::or(alloc, left, right)?))
    }

    /// `left < right`; refused for memory alone.
    pub fn less(alloc: Global, left: Expr, right: Expr) -> Result<Expr, AllocError>
        ensures { IfOk result (λ made. bare made ≡ binary tree.Less (bare left) (bare right)) }
    {
        Expr::binary_app(alloc, BinaryOp::Less, left, right)
    }

    /// `left <= right`; refused for memory alone.
    pub fn lesseq(alloc: Global, left: Expr, right: Expr) -> Result<Expr, AllocError>
        ensures { IfOk result (λ made. bare made ≡ binary tree.LessEq (bare left) (bare right)) }
    {
        Expr::binary_app(alloc, BinaryOp::LessEq, left, right)
    }

    /// `left > right`, which is `!(left <= right)`; refused for memory alone.
    pub fn greater(alloc: Global, left: Expr, right: Expr) -> Result<Expr, AllocError>
        ensures { IfOk result (λ made. bare made ≡
            unary tree.Not (binary tree.LessEq (bare left) (bare right))) }
    {
        Expr::not(alloc, Expr::lesseq(alloc, left, right)?)
    }

    /// `left >= right`, which is `!(left < right)`; refused for memory alone.
    pub fn greatereq(alloc: Global, left: Expr, right: Expr) -> Result<Expr, AllocError>
        ensures { IfOk result (λ made. bare made ≡
            unary tree.Not (binary tree.Less (bare left) (bare right))) }
    {
        Expr::not(alloc, Expr::less(alloc, left, right)?)
    }

    /// `left + right`; refused for memory alone.
    pub fn add(alloc: Global, left: Expr, right: Expr) -> Result<Expr, AllocError>
        ensures { IfOk result (λ made. bare made ≡ binary tree.Add (bare left) (bare right)) }
    {
        Expr::binary_app(alloc, BinaryOp::Add, left, right)
    }

    /// `left - right`; refused for memory alone.
    pub fn sub(alloc: Global, left: Expr, right: Expr) -> Result<Expr, AllocError>
        ensures { IfOk result (λ made. bare made ≡ binary tree.Sub (bare left) (bare right)) }
    {
        Expr::binary_app(alloc, BinaryOp::Sub, left, right)
    }

    /// `left * right`; refused for memory alone.
    pub fn mul(alloc: Global, left: Expr, right: Expr) -> Result<Expr, AllocError>
        ensures { IfOk result (λ made. bare made ≡ binary tree.Mul (bare left) (bare right)) }
    {
        Expr::binary_app(alloc, BinaryOp::Mul, left, right)
    }

    /// `-expr`; refused for memory alone.
    pub fn neg(alloc: Global, expr: Expr) -> Result<Expr, AllocError>
        ensures { IfOk result (λ made. bare made ≡ unary tree.Neg (bare expr)) }
    {
        Expr::unary_app(alloc, UnaryOp::Neg, expr)
    }

    /// `left in right`; refused for memory alone.
    pub fn is_in(alloc: Global, left: Expr, right: Expr) -> Result<Expr, AllocError>
        ensures { IfOk result (λ made. bare made ≡ binary tree.In (bare left) (bare right)) }
    {
        Expr::binary_app(alloc, BinaryOp::In, left, right)
    }

    /// `set.contains(item)`; refused for memory alone.
    pub fn contains(alloc: Global, set: Expr, item: Expr) -> Result<Expr, AllocError>
        ensures { IfOk result (λ made. bare made ≡ binary tree.Contains (bare set) (bare item)) }
    {
        Expr::binary_app(alloc, BinaryOp::Contains, set, item)
    }

    /// `left.containsAll(right)`; refused for memory alone.
    pub fn contains_all(alloc: Global, left: Expr, right: Expr) -> Result<Expr, AllocError>
        ensures { IfOk result (λ made. bare made ≡
            binary tree.ContainsAll (bare left) (bare right)) }
    {
        Expr::binary_app(alloc, BinaryOp::ContainsAll, left, right)
    }

    /// `left.containsAny(right)`; refused for memory alone.
    pub fn contains_any(alloc: Global, left: Expr, right: Expr) -> Result<Expr, AllocError>
        ensures { IfOk result (λ made. bare made ≡
            binary tree.ContainsAny (bare left) (bare right)) }
    {
        Expr::binary_app(alloc, BinaryOp::ContainsAny, left, right)
    }

    /// `expr.isEmpty()`; refused for memory alone.
    pub fn is_empty(alloc: Global, expr: Expr) -> Result<Expr, AllocError>
        ensures { IfOk result (λ made. bare made ≡ unary tree.IsEmpty (bare expr)) }
    {
        Expr::unary_app(alloc, UnaryOp::IsEmpty, expr)
    }

    /// `expr.getTag(tag)`; refused for memory alone.
    pub fn get_tag(alloc: Global, expr: Expr, tag: Expr) -> Result<Expr, AllocError>
        ensures { IfOk result (λ made. bare made ≡ binary tree.GetTag (bare expr) (bare tag)) }
    {
        Expr::binary_app(alloc, BinaryOp::GetTag, expr, tag)
    }

    /// `expr.hasTag(tag)`; refused for memory alone.
    pub fn has_tag(alloc: Global, expr: Expr, tag: Expr) -> Result<Expr, AllocError>
        ensures { IfOk result (λ made. bare made ≡ binary tree.HasTag (bare expr) (bare tag)) }
    {
        Expr::binary_app(alloc, BinaryOp::HasTag, expr, tag)
    }

    /// The set of the items; refused for memory alone.
    pub fn set(alloc: Global, items: Vec<Expr>) -> Result<Expr, AllocError>
        ensures { IfOk result (λ made. bare made ≡
            tree.Apply tree.MakeSet (trees (map bare items.items))) }
    {
        Ok(Expr::of_kind(kinds::set(alloc, items)?))
    }

    /// The record of the pairs; refused for the first key that stands before it too, or for memory.
    pub fn record(
        alloc: Global,
        pairs: Vec<(RcStr, Expr)>,
    ) -> Result<Expr, ExpressionConstructionError>
        ensures { MakesRecord bare (bare_entries pairs.items) result }
    {
        Ok(Expr::of_kind(kinds::record(alloc, pairs)?))
    }

    /// The record of a map that is shared; takes no memory.
    pub fn record_arc(entries: Rc<BTreeMap<RcStr, Expr>>) -> Expr
        ensures { bare result ≡ record_tree (bare_entries entries.value.entries) }
    {
        Expr::of_kind(ExprKind::Record(entries))
    }

    /// A call of an extension function; refused for memory alone.
    pub fn call_extension_fn(
        alloc: Global,
        fn_name: Name,
        args: Vec<Expr>,
    ) -> Result<Expr, AllocError>
        ensures { IfOk result (λ made. bare made ≡
            tree.Apply (tree.Call fn_name) (trees (map bare args.items))) }
    {
        Ok(Expr::of_kind(kinds::call_extension_fn(alloc, fn_name, args)?))
    }

    /// An operator's application to one operand; refused for memory alone.
    pub fn unary_app(alloc: Global, op: UnaryOp, arg: Expr) -> Result<Expr, AllocError>
        ensures { IfOk result (λ made. bare made ≡ unary (unary_operator_of op) (bare arg)) }
    {
        Ok(Expr::of_kind(kinds::unary_app(alloc, op, arg)?))
    }

    /// An operator's application to two operands; refused for memory alone.
    pub fn binary_app(
        alloc: Global,
        op: BinaryOp,
        arg1: Expr,
        arg2: Expr,
    ) -> Result<Expr, AllocError>
        ensures { IfOk result (λ made. bare made ≡
            binary (binary_operator_of op) (bare arg1) (bare arg2)) }
    {
        Ok(Expr::of_kind(kinds::binary_app(alloc, op, arg1, arg2)?))
    }

    /// `expr.attr`; refused for memory alone.
    pub fn get_attr(alloc: Global, expr: Expr, attr: RcStr) -> Result<Expr, AllocError>
        ensures { IfOk result (λ made. bare made ≡
            unary (tree.GetAttr (rc_str_bytes attr)) (bare expr)) }
    {
        Ok(Expr::of_kind(kinds::get_attr(alloc, expr, attr)?))
    }

    /// `expr has attr`; refused for memory alone.
    pub fn has_attr(alloc: Global, expr: Expr, attr: RcStr) -> Result<Expr, AllocError>
        ensures { IfOk result (λ made. bare made ≡
            unary (tree.HasAttr (rc_str_bytes attr)) (bare expr)) }
    {
        Ok(Expr::of_kind(kinds::has_attr(alloc, expr, attr)?))
    }

    /// `expr has a.b.c`; of one attribute it is what `has_attr` makes. Refused for memory alone.
    pub fn extended_has_attr(
        alloc: Global,
        expr: Expr,
        attrs: NonEmpty<RcStr>,
    ) -> Result<Expr, AllocError>
        ensures { IfOk result (λ made. bare made ≡
            has (rc_str_bytes attrs.head ∷ map rc_str_bytes attrs.tail.items) (bare expr)) }
    {
        Ok(Expr::of_kind(kinds::extended_has_attr(alloc, expr, attrs)?))
    }

    /// `expr like pattern`; refused for memory alone.
    pub fn like(alloc: Global, expr: Expr, pattern: Pattern) -> Result<Expr, AllocError>
        ensures { IfOk result (λ made. bare made ≡ unary (tree.Like pattern) (bare expr)) }
    {
        Ok(Expr::of_kind(kinds::like(alloc, expr, pattern)?))
    }

    /// `expr is entity_type`; refused for memory alone.
    pub fn is_entity_type(
        alloc: Global,
        expr: Expr,
        entity_type: EntityType,
    ) -> Result<Expr, AllocError>
        ensures { IfOk result (λ made. bare made ≡ unary (tree.Is entity_type) (bare expr)) }
    {
        Ok(Expr::of_kind(kinds::is_entity_type(alloc, expr, entity_type)?))
    }
}
