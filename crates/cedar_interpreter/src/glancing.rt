// Expressions that are told at a glance: on values that are lent, without memory and without an error. What
// isn't told so is left to the full evaluation.
ghost use Rattle.std.specs.Prelude.{◌≡◌, ◌≤◌, ◌+◌, Bool, IfSome, map};
ghost use Rattle.std.specs.Rc.{rc_str_bytes};
ghost use Rattle.cedar_policy_parts.specs.Bindings.{Bindings};
ghost use Rattle.cedar_grammar.specs.Build.{trees, unary, binary};
ghost use Rattle.cedar_language.specs.Facts.{Facts};
ghost use Rattle.cedar_language.specs.Tree as tree;
ghost use Rattle.cedar_language.specs.Tree.{Boolean, Long};
ghost use Rattle.cedar_language.specs.Value.{Plain};
ghost use Rattle.cedar_literals.specs.Operators.{unary_operator_of, binary_operator_of};
ghost use Rattle.cedar_literals.specs.Variables.{variable_of};
ghost use Rattle.cedar_operators.specs.Store.{HasFacts};
ghost use Rattle.cedar_partial_evaluation.specs.Partial.{Evaluated, partial_in};
ghost use Rattle.cedar_trees.specs.Bare.{bare};
ghost use Rattle.cedar_interpreter.specs.Forms.{unary_operator};
ghost use Rattle.cedar_interpreter.specs.Glancing.{value_lent, least_depth, Tells};
ghost use Rattle.cedar_interpreter.specs.Holding.{held_by, variable_held, depth_of};
ghost use Rattle.cedar_interpreter.specs.Naming.{naming_in};

use crate::evaluator::Evaluator;
use crate::lent::Lent;
use crate::lent_lookups::{attribute_lent, attribute_of_held};
use crate::lent_operators::{long_of_two, negative_lent, test_of_one, test_of_two};
use crate::operands::UnaryOperator;
use crate::written_sets::are_literals;
use cedar_literals::literals::Integer;
use cedar_literals::operators::{BinaryOp, UnaryOp};
use cedar_literals::variables::Var;
use cedar_trees::expr::{Expr, ExprKind};
use std::rc::RcStr;

impl<'s, 'e, 'f, F> Evaluator<'s, 'e, 'f, F> {
    /// The Boolean that an expression is, where that is told at a glance: by literals, variables that are
    /// known, attributes, and the operators that most conditions are made of, over a store that isn't
    /// partial. It is what [`Evaluator::partial_interpret`] gives, whatever slots are bound to.
    ///
    /// `None` says nothing of the expression: it may err, be no Boolean, wait for what is unknown, nest
    /// deeper than the limit, or hold a construct that isn't told so. Takes no memory.
    pub fn glance(&self, expr: &Expr) -> Option<bool>
        ensures told { (facts : Facts) (slots : Bindings) → HasFacts self.now.entities.now facts →
            IfSome result (λ b. partial_in facts (held_by self.now slots) (bare expr.now) ≡ Evaluated (Plain (Boolean b))) }
        ensures named { (naming : Bool) (facts : Facts) (slots : Bindings) → HasFacts self.now.entities.now facts →
            IfSome result (λ b. naming_in naming facts (held_by self.now slots) (bare expr.now) ≡ Evaluated (Plain (Boolean b))) }
        ensures limit { IfSome result (λ b. least_depth (bare expr.now) ≤ depth_of self.now) }
    {
        if self.entities.is_partial() {
            return None;
        }
        let told = (&*self).glance_test(&*expr, self.depth)?;
        Some(told)
    }

    // The Boolean that an expression is.
    #[cycle(glance)]
    #[tactic(auto, using(crate::proofs::Glanced::tells_same, crate::proofs::Glanced::test_as))]
    fn glance_test<'a>(&'a self, expr: &'a Expr, depth: u32) -> Option<bool>
        ensures { IfSome result (λ b. Tells self.now depth (bare expr.now) (Plain (Boolean b))) }
    {
        match &expr.expr_kind {
            ExprKind::Lit(_) | ExprKind::Var(_) | ExprKind::If { .. } | ExprKind::GetAttr { .. } =>
                {
                    let lent = self.glance_within(expr, depth)?;
                    let told = lent.truth()?;
                    Some(told)
                }
            _ => {
                let below = depth.checked_sub(1)?;
                self.glance_operator(expr, below)
            }
        }
    }

    // The value that an expression is.
    #[cycle(glance)]
    #[tactic(auto, using(crate::proofs::Glanced::tells_as, crate::proofs::Glanced::leaf_tells, crate::proofs::Glanced::tells_at))]
    fn glance_within<'a>(&'a self, expr: &'a Expr, depth: u32) -> Option<Lent<'a>>
        ensures { IfSome result (λ lent. Tells self.now depth (bare expr.now) (value_lent lent)) }
    {
        let below = depth.checked_sub(1)?;
        match &expr.expr_kind {
            ExprKind::Lit(_) | ExprKind::Var(_) => self.glance_leaf(expr),
            ExprKind::If {
                test_expr,
                then_expr,
                else_expr,
            } => self.glance_if(test_expr, then_expr, else_expr, below),
            ExprKind::GetAttr { expr, attr } => self.glance_attribute(expr, attr, below),
            ExprKind::UnaryApp { op, arg } => self.glance_of_one(*op, arg, below),
            ExprKind::BinaryApp { op, arg1, arg2 } => self.glance_of_two(*op, arg1, arg2, below),
            ExprKind::Set(members) => self.glance_set(members, below),
            _ => {
                let told = self.glance_operator(expr, below)?;
                Some(Lent::Bool(told))
            }
        }
    }

    // What an operator gives that gives a Boolean, its operands being at this depth.
    #[cycle(glance)]
    #[inline(always)]
    #[tactic(auto, using(crate::proofs::Glanced::test_as))]
    fn glance_operator<'a>(&'a self, expr: &'a Expr, depth: u32) -> Option<bool>
        ensures { IfSome result (λ b. Tells self.now (depth + 1) (bare expr.now) (Plain (Boolean b))) }
    {
        match &expr.expr_kind {
            ExprKind::And { left, right } => self.glance_and(left, right, depth),
            ExprKind::Or { left, right } => self.glance_or(left, right, depth),
            ExprKind::UnaryApp { op, arg } => self.glance_unary(*op, arg, depth),
            ExprKind::BinaryApp { op, arg1, arg2 } => self.glance_two(*op, arg1, arg2, depth),
            ExprKind::HasAttr { expr, attr } => {
                self.glance_one(UnaryOperator::Has(attr), expr, depth)
            }
            ExprKind::Like { expr, pattern } => {
                self.glance_one(UnaryOperator::Like(pattern), expr, depth)
            }
            ExprKind::Is { expr, entity_type } => {
                self.glance_one(UnaryOperator::Is(entity_type), expr, depth)
            }
            _ => None,
        }
    }

    #[cycle(glance)]
    #[tactic(auto, using(crate::proofs::Glanced::if_yes, crate::proofs::Glanced::if_no))]
    fn glance_if<'a>(
        &'a self,
        test: &'a Expr,
        yes: &'a Expr,
        no: &'a Expr,
        depth: u32,
    ) -> Option<Lent<'a>>
        ensures { IfSome result (λ lent. Tells self.now (depth + 1) (tree.If (bare test.now) (bare yes.now) (bare no.now)) (value_lent lent)) }
    {
        let holds = self.glance_test(test, depth)?;
        if holds {
            self.glance_within(yes, depth)
        } else {
            self.glance_within(no, depth)
        }
    }

    #[cycle(glance)]
    #[tactic(auto, using(crate::proofs::Glanced::and_stops, crate::proofs::Glanced::and_goes_on))]
    fn glance_and<'a>(&'a self, left: &'a Expr, right: &'a Expr, depth: u32) -> Option<bool>
        ensures { IfSome result (λ b. Tells self.now (depth + 1) (tree.And (bare left.now) (bare right.now)) (Plain (Boolean b))) }
    {
        let holds = self.glance_test(left, depth)?;
        if holds {
            let also = self.glance_test(right, depth)?;
            Some(also)
        } else {
            Some(false)
        }
    }

    #[cycle(glance)]
    #[tactic(auto, using(crate::proofs::Glanced::or_stops, crate::proofs::Glanced::or_goes_on))]
    fn glance_or<'a>(&'a self, left: &'a Expr, right: &'a Expr, depth: u32) -> Option<bool>
        ensures { IfSome result (λ b. Tells self.now (depth + 1) (tree.Or (bare left.now) (bare right.now)) (Plain (Boolean b))) }
    {
        let decided = self.glance_test(left, depth)?;
        if decided {
            Some(true)
        } else {
            let other = self.glance_test(right, depth)?;
            Some(other)
        }
    }

    #[cycle(glance)]
    #[tactic(auto, using(crate::proofs::Glanced::not_tells))]
    fn glance_unary<'a>(&'a self, op: UnaryOp, of: &'a Expr, depth: u32) -> Option<bool>
        ensures { IfSome result (λ b. Tells self.now (depth + 1) (unary (unary_operator_of op) (bare of.now)) (Plain (Boolean b))) }
    {
        match op {
            UnaryOp::Not => {
                let holds = self.glance_test(of, depth)?;
                Some(!holds)
            }
            UnaryOp::Neg | UnaryOp::IsEmpty => None,
        }
    }

    // What an operator of one operand gives: `-` a long, and `!` a Boolean.
    #[cycle(glance)]
    #[tactic(auto, using(crate::proofs::Glanced::negative_tells))]
    fn glance_of_one<'a>(&'a self, op: UnaryOp, of: &'a Expr, depth: u32) -> Option<Lent<'a>>
        ensures { IfSome result (λ lent. Tells self.now (depth + 1) (unary (unary_operator_of op) (bare of.now)) (value_lent lent)) }
    {
        match op {
            UnaryOp::Neg => {
                let lent = self.glance_operand(of, depth)?;
                let negative = negative_lent(lent)?;
                Some(Lent::Long(negative))
            }
            UnaryOp::Not | UnaryOp::IsEmpty => {
                let told = self.glance_unary(op, of, depth)?;
                Some(Lent::Bool(told))
            }
        }
    }

    #[cycle(glance)]
    #[tactic(auto, using(crate::proofs::Glanced::tells_within))]
    fn glance_attribute<'a>(&'a self, of: &'a Expr, attr: &'a RcStr, depth: u32) -> Option<Lent<'a>>
        ensures { IfSome result (λ lent. Tells self.now (depth + 1) (unary (tree.GetAttr (rc_str_bytes attr.now)) (bare of.now)) (value_lent lent)) }
    {
        if let ExprKind::Var(var) = &of.expr_kind {
            let _level = depth.checked_sub(1)?;
            return self.glance_attribute_of(*var, attr.as_str());
        }
        let lent = self.glance_within(of, depth)?;
        attribute_lent(self.entities, lent, attr.as_str())
    }

    // An operand: most are literals, which are read at once, and attributes.
    #[cycle(glance)]
    #[inline(always)]
    #[tactic(auto, using(crate::proofs::Glanced::literal_within, crate::proofs::Glanced::tells_as))]
    fn glance_operand<'a>(&'a self, expr: &'a Expr, depth: u32) -> Option<Lent<'a>>
        ensures { IfSome result (λ lent. Tells self.now depth (bare expr.now) (value_lent lent)) }
    {
        match &expr.expr_kind {
            ExprKind::Lit(literal) => {
                let _below = depth.checked_sub(1)?;
                Some(Lent::of_literal(literal))
            }
            ExprKind::GetAttr { expr, attr } => {
                let below = depth.checked_sub(1)?;
                self.glance_attribute(expr, attr, below)
            }
            _ => self.glance_within(expr, depth),
        }
    }

    #[cycle(glance)]
    #[tactic(auto, using(crate::proofs::Glanced::one_tells))]
    fn glance_one<'a>(&'a self, op: UnaryOperator<'a>, of: &'a Expr, depth: u32) -> Option<bool>
        ensures { IfSome result (λ b. Tells self.now (depth + 1) (unary (unary_operator op.entry) (bare of.now)) (Plain (Boolean b))) }
    {
        let lent = self.glance_operand(of, depth)?;
        let told = test_of_one(self.entities, op, lent)?;
        Some(told)
    }

    #[cycle(glance)]
    #[tactic(auto, using(crate::proofs::Glanced::two_tells))]
    fn glance_two<'a>(
        &'a self,
        op: BinaryOp,
        left: &'a Expr,
        right: &'a Expr,
        depth: u32,
    ) -> Option<bool>
        ensures { IfSome result (λ b. Tells self.now (depth + 1) (binary (binary_operator_of op) (bare left.now) (bare right.now)) (Plain (Boolean b))) }
    {
        let first = self.glance_operand(left, depth)?;
        let second = self.glance_operand(right, depth)?;
        let told = test_of_two(self.entities, op, first, second)?;
        Some(told)
    }

    // What an operator of two operands gives: arithmetic a long, and each other a Boolean.
    #[cycle(glance)]
    fn glance_of_two<'a>(
        &'a self,
        op: BinaryOp,
        left: &'a Expr,
        right: &'a Expr,
        depth: u32,
    ) -> Option<Lent<'a>>
        ensures { IfSome result (λ lent. Tells self.now (depth + 1) (binary (binary_operator_of op) (bare left.now) (bare right.now)) (value_lent lent)) }
    {
        match op {
            BinaryOp::Add | BinaryOp::Sub | BinaryOp::Mul => {
                let told = self.glance_long(op, left, right, depth)?;
                Some(Lent::Long(told))
            }
            _ => {
                let told = self.glance_two(op, left, right, depth)?;
                Some(Lent::Bool(told))
            }
        }
    }

    // The long that arithmetic gives; what is no long is left to the full evaluation, which reports the error.
    #[cycle(glance)]
    fn glance_long<'a>(
        &'a self,
        op: BinaryOp,
        left: &'a Expr,
        right: &'a Expr,
        depth: u32,
    ) -> Option<Integer>
        ensures { IfSome result (λ n. Tells self.now (depth + 1) (binary (binary_operator_of op) (bare left.now) (bare right.now)) (Plain (Long n))) }
    {
        let first = self.glance_operand(left, depth)?;
        let second = self.glance_operand(right, depth)?;
        long_of_two(op, first, second)
    }

    // What an expression without parts is.
    fn glance_leaf<'a>(&'a self, expr: &'a Expr) -> Option<Lent<'a>>
        ensures { IfSome result (λ lent. Tells self.now 1 (bare expr.now) (value_lent lent)) }
    {
        match &expr.expr_kind {
            ExprKind::Lit(literal) => Some(Lent::of_literal(literal)),
            ExprKind::Var(var) => {
                let lent = self.glance_variable(*var)?;
                Some(lent)
            }
            _ => None,
        }
    }

    // The set of members that are literals alone: any other may err.
    fn glance_set<'a>(&'a self, members: &'a Vec<Expr>, depth: u32) -> Option<Lent<'a>>
        ensures { IfSome result (λ lent. Tells self.now (depth + 1) (tree.Apply tree.MakeSet (trees (map bare members.now.items))) (value_lent lent)) }
    {
        let _level = depth.checked_sub(1)?;
        if are_literals(members) {
            Some(Lent::Written(members))
        } else {
            None
        }
    }

    // What an attribute of a variable is.
    fn glance_attribute_of<'a>(&'a self, var: Var, attr: &str) -> Option<Lent<'a>>
        ensures { IfSome result (λ lent. Tells self.now 2 (unary (tree.GetAttr attr.now) (tree.Var (variable_of var))) (value_lent lent)) }
    {
        match self.given(var) {
            Some(given) => attribute_of_held(given.entity?, attr),
            None => {
                let lent = self.glance_variable(var)?;
                attribute_lent(self.entities, lent, attr)
            }
        }
    }

    fn glance_variable(&self, var: Var) -> Option<Lent<'_>>
        ensures { IfSome result (λ lent. variable_held self.now (variable_of var) ≡ Evaluated (value_lent lent)) }
    {
        let lent = Lent::of_partial(self.variables.get().part(var))?;
        Some(lent)
    }
}
