//! What every builder of expressions has.
ghost use Rattle.std.specs.Prelude.{◌≡◌, Option, None, map};
ghost use Rattle.std.specs.Rc.{rc_str_bytes};
ghost use Rattle.std.specs.declared.alloc.AllocError.{AllocError as OutOfMemory};
ghost use Rattle.cedar_language.specs.Tree as tree;
ghost use Rattle.cedar_literals.specs.Literals.{literal_of};
ghost use Rattle.cedar_literals.specs.Operators.{unary_operator_of, binary_operator_of};
ghost use Rattle.cedar_literals.specs.Variables.{variable_of};
ghost use Rattle.cedar_trees.specs.Unknowns.{unknown_name, unknown_type};
ghost use Rattle.cedar_builders.specs.Operations.{Operations, IsLawful, Gives, Builds, of_one, of_two};

use cedar_literals::literals::Literal;
use cedar_literals::operators::{BinaryOp, UnaryOp};
use cedar_literals::patterns::Pattern;
use cedar_literals::slots::SlotId;
use cedar_literals::uids::EntityType;
use cedar_literals::variables::Var;
use cedar_names::names::Name;
use cedar_names::places::Loc;
use cedar_trees::unknowns::{NonEmpty, Unknown};
use std::alloc::{AllocError, Global};
use std::rc::RcStr;

/// A builder of expressions: each call makes one construct of parts that are made already.
///
/// What a call gives means what `operations` says, whatever place and data the builder holds; a
/// call is refused with what `operations` says, or for want of memory. Of a lawful builder `and` and
/// `or` of two literal Booleans make the literal, `extended_has_attr` with one attribute makes what
/// `has_attr` makes, and a record whose keys all differ isn't refused.
pub trait ExprBuilder: Clone + Drop {
    /// What it builds.
    type Expr: Drop;
    /// What its owner keeps beside each expression.
    type Data;
    /// Why an expression isn't built.
    type BuildError: From<AllocError> + Drop;

    ghost Meaning: { Type 0 };

    ghost Refusal: { Type 0 };

    ghost operations: { Operations Meaning Refusal };

    ghost meaning: { Self.Expr → Meaning };
    // why a call was refused, or none for want of memory
    ghost refusal: { Self.BuildError → Option Refusal };

    /// A builder without place, of its data's default.
    fn new(alloc: Global) -> Self;

    /// A builder without place.
    fn with_data(alloc: Global, data: Self::Data) -> Self;

    /// The same builder at this place, or at none.
    fn with_maybe_source_loc(self, source_loc: Option<Loc>) -> Self;

    /// The same builder at this place.
    fn with_source_loc(self, source_loc: Loc) -> Self {
        self.with_maybe_source_loc(Some(source_loc))
    }

    /// The place of what it builds.
    fn loc(&self) -> Option<&Loc>;

    /// The data of what it builds.
    fn data(&self) -> &Self::Data;

    /// A literal.
    fn val(self, literal: Literal) -> Result<Self::Expr, Self::BuildError>
        ensures { Builds meaning refusal result (operations.val (literal_of literal)) };

    /// A value that isn't known yet.
    fn unknown(self, unknown: Unknown) -> Result<Self::Expr, Self::BuildError>
        ensures { Builds meaning refusal result (operations.unknown
            (unknown_name unknown) (unknown_type unknown)) };

    /// A variable of the request.
    fn var(self, var: Var) -> Result<Self::Expr, Self::BuildError>
        ensures { Builds meaning refusal result (operations.var (variable_of var)) };

    /// A slot of a template.
    fn slot(self, slot: SlotId) -> Result<Self::Expr, Self::BuildError>
        ensures { Builds meaning refusal result (operations.slot slot) };

    /// `if test_expr then then_expr else else_expr`.
    fn ite(
        self,
        test_expr: Self::Expr,
        then_expr: Self::Expr,
        else_expr: Self::Expr,
    ) -> Result<Self::Expr, Self::BuildError>
        ensures { Builds meaning refusal result (operations.ite
            (meaning test_expr) (meaning then_expr) (meaning else_expr)) };

    /// `!expr`.
    fn not(self, expr: Self::Expr) -> Result<Self::Expr, Self::BuildError>
        ensures { Builds meaning refusal result (of_one operations tree.Not (meaning expr)) }
    {
        self.unary_app(UnaryOp::Not, expr)
    }

    /// `left == right`.
    fn is_eq(self, left: Self::Expr, right: Self::Expr) -> Result<Self::Expr, Self::BuildError>
        ensures { Builds meaning refusal result (of_two operations tree.Equal (meaning left) (meaning right)) }
    {
        self.binary_app(BinaryOp::Eq, left, right)
    }

    /// `left != right`, which is `!(left == right)`.
    fn noteq(self, left: Self::Expr, right: Self::Expr) -> Result<Self::Expr, Self::BuildError>
        ensures { Builds meaning refusal result (of_one operations tree.Not
            (of_two operations tree.Equal (meaning left) (meaning right))) }
    {
        let turned = self.clone()?.is_eq(left, right)?;
        self.not(turned)
    }

    /// `left && right`.
    fn and(self, left: Self::Expr, right: Self::Expr) -> Result<Self::Expr, Self::BuildError>
        ensures { Builds meaning refusal result (operations.and (meaning left) (meaning right)) };

    /// `left || right`.
    fn or(self, left: Self::Expr, right: Self::Expr) -> Result<Self::Expr, Self::BuildError>
        ensures { Builds meaning refusal result (operations.or (meaning left) (meaning right)) };

    /// `left < right`.
    fn less(self, left: Self::Expr, right: Self::Expr) -> Result<Self::Expr, Self::BuildError>
        ensures { Builds meaning refusal result (of_two operations tree.Less (meaning left) (meaning right)) }
    {
        self.binary_app(BinaryOp::Less, left, right)
    }

    /// `left <= right`.
    fn lesseq(self, left: Self::Expr, right: Self::Expr) -> Result<Self::Expr, Self::BuildError>
        ensures { Builds meaning refusal result (of_two operations tree.LessEq (meaning left) (meaning right)) }
    {
        self.binary_app(BinaryOp::LessEq, left, right)
    }

    /// `left > right`, which is `!(left <= right)`.
    fn greater(self, left: Self::Expr, right: Self::Expr) -> Result<Self::Expr, Self::BuildError>
        ensures { Builds meaning refusal result (of_one operations tree.Not
            (of_two operations tree.LessEq (meaning left) (meaning right))) }
    {
        let turned = self.clone()?.lesseq(left, right)?;
        self.not(turned)
    }

    /// `left >= right`, which is `!(left < right)`.
    fn greatereq(self, left: Self::Expr, right: Self::Expr) -> Result<Self::Expr, Self::BuildError>
        ensures { Builds meaning refusal result (of_one operations tree.Not
            (of_two operations tree.Less (meaning left) (meaning right))) }
    {
        let turned = self.clone()?.less(left, right)?;
        self.not(turned)
    }

    /// `left + right`.
    fn add(self, left: Self::Expr, right: Self::Expr) -> Result<Self::Expr, Self::BuildError>
        ensures { Builds meaning refusal result (of_two operations tree.Add (meaning left) (meaning right)) }
    {
        self.binary_app(BinaryOp::Add, left, right)
    }

    /// `left - right`.
    fn sub(self, left: Self::Expr, right: Self::Expr) -> Result<Self::Expr, Self::BuildError>
        ensures { Builds meaning refusal result (of_two operations tree.Sub (meaning left) (meaning right)) }
    {
        self.binary_app(BinaryOp::Sub, left, right)
    }

    /// `left * right`.
    fn mul(self, left: Self::Expr, right: Self::Expr) -> Result<Self::Expr, Self::BuildError>
        ensures { Builds meaning refusal result (of_two operations tree.Mul (meaning left) (meaning right)) }
    {
        self.binary_app(BinaryOp::Mul, left, right)
    }

    /// `-expr`.
    fn neg(self, expr: Self::Expr) -> Result<Self::Expr, Self::BuildError>
        ensures { Builds meaning refusal result (of_one operations tree.Neg (meaning expr)) }
    {
        self.unary_app(UnaryOp::Neg, expr)
    }

    /// `left in right`.
    fn is_in(self, left: Self::Expr, right: Self::Expr) -> Result<Self::Expr, Self::BuildError>
        ensures { Builds meaning refusal result (of_two operations tree.In (meaning left) (meaning right)) }
    {
        self.binary_app(BinaryOp::In, left, right)
    }

    /// `expr.contains(item)`.
    fn contains(self, expr: Self::Expr, item: Self::Expr) -> Result<Self::Expr, Self::BuildError>
        ensures { Builds meaning refusal result (of_two operations tree.Contains (meaning expr) (meaning item)) }
    {
        self.binary_app(BinaryOp::Contains, expr, item)
    }

    /// `left.containsAll(right)`.
    fn contains_all(
        self,
        left: Self::Expr,
        right: Self::Expr,
    ) -> Result<Self::Expr, Self::BuildError>
        ensures { Builds meaning refusal result (of_two operations tree.ContainsAll (meaning left) (meaning right)) }
    {
        self.binary_app(BinaryOp::ContainsAll, left, right)
    }

    /// `left.containsAny(right)`.
    fn contains_any(
        self,
        left: Self::Expr,
        right: Self::Expr,
    ) -> Result<Self::Expr, Self::BuildError>
        ensures { Builds meaning refusal result (of_two operations tree.ContainsAny (meaning left) (meaning right)) }
    {
        self.binary_app(BinaryOp::ContainsAny, left, right)
    }

    /// `expr.isEmpty()`.
    fn is_empty(self, expr: Self::Expr) -> Result<Self::Expr, Self::BuildError>
        ensures { Builds meaning refusal result (of_one operations tree.IsEmpty (meaning expr)) }
    {
        self.unary_app(UnaryOp::IsEmpty, expr)
    }

    /// `expr.getTag(tag)`.
    fn get_tag(self, expr: Self::Expr, tag: Self::Expr) -> Result<Self::Expr, Self::BuildError>
        ensures { Builds meaning refusal result (of_two operations tree.GetTag (meaning expr) (meaning tag)) }
    {
        self.binary_app(BinaryOp::GetTag, expr, tag)
    }

    /// `expr.hasTag(tag)`.
    fn has_tag(self, expr: Self::Expr, tag: Self::Expr) -> Result<Self::Expr, Self::BuildError>
        ensures { Builds meaning refusal result (of_two operations tree.HasTag (meaning expr) (meaning tag)) }
    {
        self.binary_app(BinaryOp::HasTag, expr, tag)
    }

    /// The set of the items.
    fn set(self, items: Vec<Self::Expr>) -> Result<Self::Expr, Self::BuildError>
        ensures { Builds meaning refusal result (operations.apply tree.MakeSet (map meaning items.items)) };

    /// The record of the pairs.
    fn record(self, pairs: Vec<(RcStr, Self::Expr)>) -> Result<Self::Expr, Self::BuildError>
        ensures { Gives meaning refusal result
            (operations.record_of (map (λ p. (rc_str_bytes p.0, meaning p.1)) pairs.items)) };

    /// A call of an extension function.
    fn call_extension_fn(
        self,
        fn_name: Name,
        args: Vec<Self::Expr>,
    ) -> Result<Self::Expr, Self::BuildError>
        ensures { Gives meaning refusal result (operations.call fn_name (map meaning args.items)) };

    /// An operator's application to one operand.
    fn unary_app(self, op: UnaryOp, arg: Self::Expr) -> Result<Self::Expr, Self::BuildError>
        ensures { Builds meaning refusal result (of_one operations (unary_operator_of op) (meaning arg)) };

    /// An operator's application to two operands.
    fn binary_app(
        self,
        op: BinaryOp,
        arg1: Self::Expr,
        arg2: Self::Expr,
    ) -> Result<Self::Expr, Self::BuildError>
        ensures { Builds meaning refusal result (of_two operations (binary_operator_of op)
            (meaning arg1) (meaning arg2)) };

    /// `expr.attr`.
    fn get_attr(self, expr: Self::Expr, attr: RcStr) -> Result<Self::Expr, Self::BuildError>
        ensures { Builds meaning refusal result (of_one operations
            (tree.GetAttr (rc_str_bytes attr)) (meaning expr)) };

    /// `expr has attr`.
    fn has_attr(self, expr: Self::Expr, attr: RcStr) -> Result<Self::Expr, Self::BuildError>
        ensures { Builds meaning refusal result (of_one operations
            (tree.HasAttr (rc_str_bytes attr)) (meaning expr)) };

    /// `expr has a.b.c`.
    fn extended_has_attr(
        self,
        expr: Self::Expr,
        attrs: NonEmpty<RcStr>,
    ) -> Result<Self::Expr, Self::BuildError>
        ensures { Builds meaning refusal result (of_one operations
            (tree.HasPath (rc_str_bytes attrs.head) (map rc_str_bytes attrs.tail.items)) (meaning expr)) };

    /// `expr like pattern`.
    fn like(self, expr: Self::Expr, pattern: Pattern) -> Result<Self::Expr, Self::BuildError>
        ensures { Builds meaning refusal result (of_one operations (tree.Like pattern) (meaning expr)) };

    /// `expr is entity_type`.
    fn is_entity_type(
        self,
        expr: Self::Expr,
        entity_type: EntityType,
    ) -> Result<Self::Expr, Self::BuildError>
        ensures { Builds meaning refusal result (of_one operations (tree.Is entity_type) (meaning expr)) };

    /// `expr is entity_type in in_entity`, which is `expr is entity_type && expr in in_entity`.
    fn is_in_entity_type(
        self,
        expr: Self::Expr,
        entity_type: EntityType,
        in_entity: Self::Expr,
    ) -> Result<Self::Expr, Self::BuildError>
        ensures { Builds meaning refusal result (operations.and
            (of_one operations (tree.Is entity_type) (meaning expr))
            (of_two operations tree.In (meaning expr) (meaning in_entity))) };

    ghost lawful: { IsLawful operations };

    ghost memory: { (a : OutOfMemory) (e : Self.BuildError)
        → Self.BuildError.from_gives a e → refusal e ≡ None };
}
