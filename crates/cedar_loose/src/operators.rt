// Operators between operands, and signs before them.
ghost use Rattle.std.specs.Prelude.{◌≡◌, min};
ghost use Rattle.std.specs.Option.{option_map};
ghost use Rattle.cedar_tokens.specs.View.{mark_view};
ghost use Rattle.cedar_grammar.specs.Steps.{signs_of};
ghost use Rattle.cedar_grammar.specs.Loose.{Expr, unary};
ghost use Rattle.cedar_grammar.specs.LooseReading.{Reader, mapped, operator_at, or_op, and_op, rel_op, add_op, mult_op, member_of, unary_of};
ghost use Rattle.cedar_cst.specs.LeafView.{view_rel_op, view_add_op, view_mult_op, view_neg_op};
ghost use Rattle.cedar_loose.specs.Gives.{TakesOperator};

use crate::cursor::Cursor;
use cedar_cst::cst::{AddOp, MultOp, NegOp, RelOp};
use cedar_tokens::{Kinds, Mark, TokenKind, Word};

impl<'t> Cursor<'t> {
    /// Takes `||`, if it is next.
    pub(crate) fn or_operator(&mut self) -> Option<()>
        ensures { TakesOperator (λ _. tt) result self.new (operator_at or_op self.old) self.old }
    {
        if self.eat(Mark::OrOr) { Some(()) } else { None }
    }

    /// Takes `&&`, if it is next.
    pub(crate) fn and_operator(&mut self) -> Option<()>
        ensures { TakesOperator (λ _. tt) result self.new (operator_at and_op self.old) self.old }
    {
        if self.eat(Mark::AndAnd) {
            Some(())
        } else {
            None
        }
    }

    /// Takes an operator of comparison, if one is next.
    pub fn rel_operator(&mut self) -> Option<RelOp>
        ensures { TakesOperator view_rel_op result self.new (operator_at rel_op self.old) self.old }
    {
        self.note(Kinds::REL_OPERATORS);
        let operator = match self.kind()? {
            TokenKind::Mark(Mark::Less) => RelOp::Less,
            TokenKind::Mark(Mark::LessEqual) => RelOp::LessEq,
            TokenKind::Mark(Mark::GreaterEqual) => RelOp::GreaterEq,
            TokenKind::Mark(Mark::Greater) => RelOp::Greater,
            TokenKind::Mark(Mark::NotEqual) => RelOp::NotEq,
            TokenKind::Mark(Mark::EqualEqual) => RelOp::Eq,
            TokenKind::Word(Word::In) => RelOp::In,
            TokenKind::Mark(Mark::Equal) => RelOp::InvalidSingleEq,
            _ => return None,
        };
        self.skip();
        Some(operator)
    }

    /// Takes an operator of sums, if one is next.
    pub(crate) fn add_operator(&mut self) -> Option<AddOp>
        ensures { TakesOperator view_add_op result self.new (operator_at add_op self.old) self.old }
    {
        self.note(Kinds::ADD_OPERATORS);
        let operator = match self.kind()? {
            TokenKind::Mark(Mark::Plus) => AddOp::Plus,
            TokenKind::Mark(Mark::Minus) => AddOp::Minus,
            _ => return None,
        };
        self.skip();
        Some(operator)
    }

    /// Takes an operator of products, if one is next.
    pub(crate) fn mult_operator(&mut self) -> Option<MultOp>
        ensures { TakesOperator view_mult_op result self.new (operator_at mult_op self.old) self.old }
    {
        self.note(Kinds::MULT_OPERATORS);
        let operator = match self.kind()? {
            TokenKind::Mark(Mark::Star) => MultOp::Times,
            TokenKind::Mark(Mark::Slash) => MultOp::Divide,
            TokenKind::Mark(Mark::Percent) => MultOp::Mod,
            _ => return None,
        };
        self.skip();
        Some(operator)
    }

    /// Takes the signs before an operand.
    #[inline(never)]
    pub(crate) fn signs(&mut self) -> Option<NegOp>
        ensures { (inner : Reader Expr) → unary_of inner self.old ≡ mapped (unary (option_map view_neg_op result)) (member_of inner self.new) }
    {
        let bangs = self.count(Mark::Bang);
        if bangs > 4 {
            return Some(NegOp::OverBang);
        }
        if bangs > 0 {
            return Some(NegOp::Bang(bangs));
        }
        let dashes = self.count(Mark::Minus);
        if dashes > 4 {
            return Some(NegOp::OverDash);
        }
        if dashes > 0 {
            return Some(NegOp::Dash(dashes));
        }
        None
    }

    /// Takes all marks of this kind that are next, and counts them up to 255.
    fn count(&mut self, mark: Mark) -> u8
        ensures count { result ≡ min (signs_of (mark_view mark) self.old).0 255 }
        ensures after { self.new ≡ (signs_of (mark_view mark) self.old).1 }
    {
        let mut found: u8 = 0;
        'marks: while self.eat(mark) {
            found = found.saturating_add(1);
        }
        found
    }
}
