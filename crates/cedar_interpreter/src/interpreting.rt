// The evaluation of expressions.
ghost use Rattle.std.specs.Prelude.{true, ◌≡◌, ⊤, suc, map, length, IfOk};
ghost use Rattle.std.specs.Rc.{rc_str_bytes};
ghost use Rattle.cedar_language.specs.Facts.{Facts};
ghost use Rattle.cedar_language.specs.Tree as tree;
ghost use Rattle.cedar_grammar.specs.Build.{unary};
ghost use Rattle.cedar_trees.specs.Bare.{bare};
ghost use Rattle.cedar_interpreter.specs.Forms.{IsOperands};
ghost use Rattle.cedar_interpreter.specs.Holding.{held_by, Knows, is_naming, NestsBeyond, SomeNestsBeyond};
ghost use Rattle.cedar_interpreter.specs.Meeting.{MeetsAt, MeetEachAt, IsLimit};
ghost use Rattle.cedar_interpreter.specs.Naming.{naming_in};

use crate::attributes::{Projected, attribute};
use crate::evaluator::Evaluator;
use crate::forms::Form;
use crate::lazy::{Tested, last_of_and, last_of_or, open_and, open_if, open_or, test_answer};
use crate::nodes::truth;
use crate::operands::Operands;
use crate::operating::{operate_on_list, operate_on_one, operate_on_two};
use crate::parts::listed;
use crate::places::at_place;
use cedar_extensions::evaluation_error::EvaluationError;
use cedar_extensions::objects::ExtensionFunctionObject;
use cedar_names::places::Loc;
use cedar_policy_parts::bindings::SlotEnv;
use cedar_restricted::partial_values::PartialValue;
use cedar_trees::expr::Expr;
use std::alloc::Global;
use std::rc::{Rc, RcStr};

impl<'s, 'e, 'f, F: ExtensionFunctionObject> Evaluator<'s, 'e, 'f, F> {
    /// The value of an expression, or what is left of it.
    #[cycle(interpret)]
    #[tactic(none)]
    pub(crate) fn interpret_within(
        &self,
        alloc: Global,
        expr: &Expr,
        slots: &SlotEnv,
        depth: u32,
    ) -> Result<PartialValue, EvaluationError>
        ensures found { (facts : Facts) → Knows F.answers self.now facts → MeetsAt ⊤ (naming_in (is_naming F.answers self.now) facts (held_by self.now slots.now) (bare expr.now)) result }
        ensures limit { IsLimit result → NestsBeyond F.answers self.now slots.now depth (bare expr.now) }
    {
        at_place(alloc, self.interpret_form(alloc, expr, slots, depth), expr)
    }

    #[cycle(interpret)]
    #[tactic(none)]
    #[inline(never)]
    fn interpret_form(
        &self,
        alloc: Global,
        expr: &Expr,
        slots: &SlotEnv,
        depth: u32,
    ) -> Result<PartialValue, EvaluationError>
        ensures found { (facts : Facts) → Knows F.answers self.now facts → MeetsAt ⊤ (naming_in (is_naming F.answers self.now) facts (held_by self.now slots.now) (bare expr.now)) result }
        ensures limit { IsLimit result → NestsBeyond F.answers self.now slots.now depth (bare expr.now) }
    {
        let Some(below) = depth.checked_sub(1) else {
            return Err(EvaluationError::recursion_limit(None));
        };
        match Form::of(expr) {
            Form::Leaf => self.leaf(alloc, expr, slots),
            Form::If { test, yes, no } => self.interpret_if(alloc, test, yes, no, slots, below),
            Form::And { left, right } => self.interpret_and(alloc, left, right, slots, below),
            Form::Or { left, right } => self.interpret_or(alloc, left, right, slots, below),
            Form::GetAttr { of, attr } => self.interpret_attribute(
                alloc,
                of,
                attr,
                expr.source_loc(),
                slots,
                below,
            ),
            Form::Strict(operands) => { self.interpret_strict(alloc, expr, operands, slots, below) }
        }
    }

    #[cycle(interpret)]
    #[tactic(none)]
    fn interpret_if(
        &self,
        alloc: Global,
        test: &Expr,
        yes: &Rc<Expr>,
        no: &Rc<Expr>,
        slots: &SlotEnv,
        depth: u32,
    ) -> Result<PartialValue, EvaluationError>
        ensures found { (facts : Facts) → Knows F.answers self.now facts → MeetsAt ⊤ (naming_in (is_naming F.answers self.now) facts (held_by self.now slots.now) (tree.If (bare test.now) (bare yes.now.value) (bare no.now.value))) result }
        ensures limit { IsLimit result → NestsBeyond F.answers self.now slots.now (suc depth) (tree.If (bare test.now) (bare yes.now.value) (bare no.now.value)) }
    {
        match test_answer(alloc, self.interpret_within(alloc, test, slots, depth))? {
            Tested::Yes => self.interpret_within(alloc, yes, slots, depth),
            Tested::No => self.interpret_within(alloc, no, slots, depth),
            Tested::Open(rest) => {
                let yes_answer = self.interpret_within(alloc, yes, slots, depth);
                let no_answer = self.interpret_within(alloc, no, slots, depth);
                open_if(alloc, rest, yes_answer, yes, no_answer, no)
            }
        }
    }

    #[cycle(interpret)]
    #[tactic(none)]
    fn interpret_and(
        &self,
        alloc: Global,
        left: &Expr,
        right: &Rc<Expr>,
        slots: &SlotEnv,
        depth: u32,
    ) -> Result<PartialValue, EvaluationError>
        ensures found { (facts : Facts) → Knows F.answers self.now facts → MeetsAt ⊤ (naming_in (is_naming F.answers self.now) facts (held_by self.now slots.now) (tree.And (bare left.now) (bare right.now.value))) result }
        ensures limit { IsLimit result → NestsBeyond F.answers self.now slots.now (suc depth) (tree.And (bare left.now) (bare right.now.value)) }
    {
        match test_answer(alloc, self.interpret_within(alloc, left, slots, depth))? {
            Tested::No => Ok(truth(false)),
            Tested::Yes => last_of_and(alloc, self.interpret_within(alloc, right, slots, depth)),
            Tested::Open(rest) => {
                let answer = self.interpret_within(alloc, right, slots, depth);
                open_and(alloc, rest, answer, right)
            }
        }
    }

    #[cycle(interpret)]
    #[tactic(none)]
    fn interpret_or(
        &self,
        alloc: Global,
        left: &Expr,
        right: &Rc<Expr>,
        slots: &SlotEnv,
        depth: u32,
    ) -> Result<PartialValue, EvaluationError>
        ensures found { (facts : Facts) → Knows F.answers self.now facts → MeetsAt ⊤ (naming_in (is_naming F.answers self.now) facts (held_by self.now slots.now) (tree.Or (bare left.now) (bare right.now.value))) result }
        ensures limit { IsLimit result → NestsBeyond F.answers self.now slots.now (suc depth) (tree.Or (bare left.now) (bare right.now.value)) }
    {
        match test_answer(alloc, self.interpret_within(alloc, left, slots, depth))? {
            Tested::Yes => Ok(truth(true)),
            Tested::No => last_of_or(alloc, self.interpret_within(alloc, right, slots, depth)),
            Tested::Open(rest) => {
                let answer = self.interpret_within(alloc, right, slots, depth);
                open_or(alloc, rest, answer, right)
            }
        }
    }

    #[cycle(interpret)]
    #[tactic(none)]
    fn interpret_attribute(
        &self,
        alloc: Global,
        of: &Expr,
        attr: &RcStr,
        loc: Option<&Loc>,
        slots: &SlotEnv,
        depth: u32,
    ) -> Result<PartialValue, EvaluationError>
        ensures found { (facts : Facts) → Knows F.answers self.now facts → MeetsAt ⊤ (naming_in (is_naming F.answers self.now) facts (held_by self.now slots.now) (unary (tree.GetAttr (rc_str_bytes attr.now)) (bare of.now))) result }
        ensures limit { IsLimit result → NestsBeyond F.answers self.now slots.now (suc depth) (unary (tree.GetAttr (rc_str_bytes attr.now)) (bare of.now)) }
    {
        let part = self.interpret_within(alloc, of, slots, depth)?;
        match attribute(alloc, part, attr, loc, self.entities)? {
            Projected::Done(answer) => Ok(answer),
            Projected::Entry(entry) => self.interpret_within(alloc, &entry, slots, depth),
        }
    }

    #[cycle(interpret)]
    fn interpret_strict(
        &self,
        alloc: Global,
        expr: &Expr,
        operands: Operands<'_>,
        slots: &SlotEnv,
        depth: u32,
    ) -> Result<PartialValue, EvaluationError>
        requires { IsOperands (bare expr.now) operands }
        ensures found { (facts : Facts) → Knows F.answers self.now facts → MeetsAt ⊤ (naming_in (is_naming F.answers self.now) facts (held_by self.now slots.now) (bare expr.now)) result }
        ensures limit { IsLimit result → NestsBeyond F.answers self.now slots.now (suc depth) (bare expr.now) }
    {
        match operands {
            Operands::One(op, of) => {
                let part = self.interpret_within(alloc, of, slots, depth)?;
                operate_on_one(alloc, op, part, expr.source_loc(), self.entities)
            }
            Operands::Two(op, left, right) => {
                let left = self.interpret_within(alloc, left, slots, depth)?;
                let right = self.interpret_within(alloc, right, slots, depth)?;
                let loc = expr.source_loc();
                operate_on_two(alloc, op, left, right, loc, self.entities, self.extensions)
            }
            Operands::List => {
                let listed = listed(alloc, expr)?;
                let parts = self.interpret_parts(alloc, &listed, slots, depth)?;
                operate_on_list(alloc, expr, parts, self.extensions, self.told)
            }
        }
    }

    #[cycle(interpret)]
    #[inline(never)]
    fn interpret_parts(
        &self,
        alloc: Global,
        parts: &[&Expr],
        slots: &SlotEnv,
        depth: u32,
    ) -> Result<Vec<PartialValue>, EvaluationError>
        ensures found { (facts : Facts) → Knows F.answers self.now facts → MeetEachAt facts (map (naming_in (is_naming F.answers self.now) facts (held_by self.now slots.now)) (map (λ e. bare e.now) parts.now)) result }
        ensures limit { IsLimit result → SomeNestsBeyond F.answers self.now slots.now depth (map (λ e. bare e.now) parts.now) }
        ensures count { IfOk result (λ answers. length answers.items ≡ length (map (λ e. bare e.now) parts.now)) }
    {
        let mut answers = Vec::new(alloc);
        for part in parts {
            let answer = self.interpret_within(alloc, part, slots, depth)?;
            answers.push(answer)?;
        }
        Ok(answers)
    }
}
