// Expressions: one reader for each rule of the loose grammar. They stand on the stack once for each level of
// nested brackets, so what they hand on stands in boxes, and nothing that they call is inlined.
ghost use Rattle.std.specs.Prelude.{map};
ghost use Rattle.cedar_tokens.specs.View.{mark_view};
ghost use Rattle.cedar_grammar.specs.Token as token;
ghost use Rattle.cedar_grammar.specs.Loose as loose;
ghost use Rattle.cedar_grammar.specs.LooseReading.{mapped, each_of, items_of, begins_access, expr_at, choice_of, or_of, and_of, relation_of, add_of, mult_of, unary_of, member_of, access_of, primary_of, rec_init_of};
ghost use Rattle.cedar_cst.specs.View.{shown_expr, shown_and, shown_relation, shown_add, shown_mult, shown_unary, shown_member, shown_mem_access, shown_primary, shown_rec_init};
ghost use Rattle.cedar_loose.specs.Gives.{Gives};
ghost use Rattle.cedar_loose.specs.Steps.{is_of, comparisons_of};

use crate::cursor::Cursor;
use crate::error::ReadError;
use crate::lists::{add, add_boxed, add_link};
use cedar_cst::cst::{Add, And, Expr, MemAccess, Member, Mult, Primary, RecInit, Relation, Unary};
use cedar_cst::node::Node;
use cedar_tokens::Mark;
use std::alloc::Global;

impl<'t> Cursor<'t> {
    /// Takes an expression, round whose tokens less than `depth` constructs stand.
    #[cycle(expression)]
    #[inline(never)]
    pub fn expr(&mut self, alloc: Global, depth: u32) -> Result<Node<Option<Expr>>, ReadError>
        ensures { Gives shown_expr result self.new (expr_at depth self.old) }
    {
        if depth == 0 {
            return Err(ReadError::Depth);
        }
        let start = self.start();
        if self.eat_if() {
            self.choice(alloc, depth - 1, start)
        } else {
            self.or(alloc, depth - 1, start)
        }
    }

    /// Takes what follows `if`.
    #[tactic(auto, unfolding(cedar_grammar::specs::LooseReading::choice_of))]
    #[cycle(expression)]
    #[inline(never)]
    fn choice(
        &mut self,
        alloc: Global,
        depth: u32,
        start: usize,
    ) -> Result<Node<Option<Expr>>, ReadError>
        ensures { Gives shown_expr result self.new (choice_of (expr_at depth) self.old) }
    {
        let test = self.expr(alloc, depth)?;
        self.expect_then()?;
        let then = self.expr(alloc, depth)?;
        self.expect_else()?;
        let other = self.expr(alloc, depth)?;
        Ok(self.if_expr(alloc, start, test, then, other)?)
    }

    /// Takes a chain of `||`.
    #[cycle(expression)]
    #[inline(never)]
    fn or(
        &mut self,
        alloc: Global,
        depth: u32,
        start: usize,
    ) -> Result<Node<Option<Expr>>, ReadError>
        ensures { Gives shown_expr result self.new (mapped loose.or_expr (or_of (expr_at depth) self.old)) }
    {
        let first = self.and(alloc, depth)?;
        let mut extended = Vec::new(alloc);
        'links: while let Some(()) = self.or_operator() {
            let next = self.and(alloc, depth)?;
            add_boxed(&mut extended, next)?;
        }
        Ok(self.or_expr(alloc, start, first, extended)?)
    }

    /// Takes a chain of `&&`.
    #[cycle(expression)]
    #[inline(never)]
    fn and(&mut self, alloc: Global, depth: u32) -> Result<Box<Node<Option<And>>>, ReadError>
        ensures { Gives (λ b. shown_and b.value) result self.new (and_of (expr_at depth) self.old) }
    {
        let start = self.start();
        let first = self.relation(alloc, depth)?;
        let mut extended = Vec::new(alloc);
        'links: while let Some(()) = self.and_operator() {
            let next = self.relation(alloc, depth)?;
            add_boxed(&mut extended, next)?;
        }
        Ok(self.and_node(start, first, extended)?)
    }

    /// Takes a comparison, or another relation.
    #[cycle(expression)]
    #[inline(never)]
    fn relation(
        &mut self,
        alloc: Global,
        depth: u32,
    ) -> Result<Box<Node<Option<Relation>>>, ReadError>
        ensures { Gives (λ b. shown_relation b.value) result self.new (relation_of (expr_at depth) self.old) }
    {
        let start = self.start();
        let target = self.operand(alloc, depth)?;
        if self.eat_has() {
            let field = self.operand(alloc, depth)?;
            Ok(self.has_relation(start, target, field)?)
        } else if self.eat_like() {
            let pattern = self.operand(alloc, depth)?;
            Ok(self.like_relation(start, target, pattern)?)
        } else if self.eat_is() {
            self.is(alloc, depth, start, target)
        } else {
            self.comparisons(alloc, depth, start, target)
        }
    }

    /// Takes what follows `target is`.
    #[cycle(expression)]
    #[inline(never)]
    fn is(
        &mut self,
        alloc: Global,
        depth: u32,
        start: usize,
        target: Box<Node<Option<Add>>>,
    ) -> Result<Box<Node<Option<Relation>>>, ReadError>
        ensures { Gives (λ b. shown_relation b.value) result self.new (is_of (expr_at depth) (shown_add target.value) self.old) }
    {
        let entity_type = self.operand(alloc, depth)?;
        if self.eat_in() {
            let entity = self.operand(alloc, depth)?;
            Ok(self.is_in_relation(start, target, entity_type, entity)?)
        } else {
            Ok(self.is_relation(start, target, entity_type)?)
        }
    }

    /// Takes what `target` is compared with.
    #[cycle(expression)]
    #[inline(never)]
    fn comparisons(
        &mut self,
        alloc: Global,
        depth: u32,
        start: usize,
        target: Box<Node<Option<Add>>>,
    ) -> Result<Box<Node<Option<Relation>>>, ReadError>
        ensures { Gives (λ b. shown_relation b.value) result self.new (comparisons_of (expr_at depth) (shown_add target.value) self.old) }
    {
        let mut extended = Vec::new(alloc);
        'links: while let Some(operator) = self.rel_operator() {
            let next = self.operand(alloc, depth)?;
            add_link(&mut extended, operator, next)?;
        }
        Ok(self.common_relation(start, target, extended)?)
    }

    /// Takes a chain of `+` and `-`.
    pub fn add(&mut self, alloc: Global, depth: u32) -> Result<Node<Option<Add>>, ReadError>
        ensures { Gives shown_add result self.new (add_of (expr_at depth) self.old) }
    {
        Ok(Box::into_inner(self.operand(alloc, depth)?))
    }

    /// Takes an operand of a relation: a chain of `+` and `-`.
    #[cycle(expression)]
    #[inline(never)]
    fn operand(&mut self, alloc: Global, depth: u32) -> Result<Box<Node<Option<Add>>>, ReadError>
        ensures { Gives (λ b. shown_add b.value) result self.new (add_of (expr_at depth) self.old) }
    {
        let start = self.start();
        let first = self.mult(alloc, depth)?;
        let mut extended = Vec::new(alloc);
        'links: while let Some(operator) = self.add_operator() {
            let next = self.mult(alloc, depth)?;
            add_link(&mut extended, operator, next)?;
        }
        Ok(self.add_node(start, first, extended)?)
    }

    /// Takes a chain of `*`, `/` and `%`.
    #[cycle(expression)]
    #[inline(never)]
    fn mult(&mut self, alloc: Global, depth: u32) -> Result<Box<Node<Option<Mult>>>, ReadError>
        ensures { Gives (λ b. shown_mult b.value) result self.new (mult_of (expr_at depth) self.old) }
    {
        let start = self.start();
        let first = self.unary(alloc, depth)?;
        let mut extended = Vec::new(alloc);
        'links: while let Some(operator) = self.mult_operator() {
            let next = self.unary(alloc, depth)?;
            add_link(&mut extended, operator, next)?;
        }
        Ok(self.mult_node(start, first, extended)?)
    }

    /// Takes an operand and the signs before it.
    #[cycle(expression)]
    #[inline(never)]
    fn unary(&mut self, alloc: Global, depth: u32) -> Result<Box<Node<Option<Unary>>>, ReadError>
        ensures { Gives (λ b. shown_unary b.value) result self.new (unary_of (expr_at depth) self.old) }
    {
        let start = self.start();
        let op = self.signs();
        let item = self.member(alloc, depth)?;
        Ok(self.unary_node(start, op, item)?)
    }

    /// Takes a primary and what is accessed of it.
    #[cycle(expression)]
    #[inline(never)]
    fn member(&mut self, alloc: Global, depth: u32) -> Result<Node<Option<Member>>, ReadError>
        ensures { Gives shown_member result self.new (member_of (expr_at depth) self.old) }
    {
        let start = self.start();
        let item = self.item(alloc, depth)?;
        let access = self.accesses(alloc, depth)?;
        Ok(self.member_node(start, item, access)?)
    }

    /// Takes all accesses that are next.
    #[cycle(expression)]
    #[inline(never)]
    fn accesses(
        &mut self,
        alloc: Global,
        depth: u32,
    ) -> Result<Vec<Node<Option<MemAccess>>>, ReadError>
        ensures { Gives (λ v. map shown_mem_access v.items) result self.new (each_of begins_access (access_of (expr_at depth)) self.old) }
    {
        let mut access = Vec::new(alloc);
        'links: while self.begins_access() {
            let next = self.access(alloc, depth)?;
            add_boxed(&mut access, next)?;
        }
        Ok(access)
    }

    /// Takes an access, which has to be next.
    #[cycle(expression)]
    #[inline(never)]
    fn access(
        &mut self,
        alloc: Global,
        depth: u32,
    ) -> Result<Box<Node<Option<MemAccess>>>, ReadError>
        ensures { Gives (λ b. shown_mem_access b.value) result self.new (access_of (expr_at depth) self.old) }
    {
        let start = self.start();
        if self.eat(Mark::Dot) {
            self.field(alloc, start)
        } else if self.eat(Mark::LeftParen) {
            let arguments = self.exprs(alloc, depth, Mark::RightParen)?;
            Ok(self.call_access(start, arguments)?)
        } else {
            self.expect(Mark::LeftBracket)?;
            let index = self.expr(alloc, depth)?;
            self.close_index(start, index)
        }
    }

    /// Takes an operand without signs and accesses.
    pub fn primary(&mut self, alloc: Global, depth: u32) -> Result<Node<Option<Primary>>, ReadError>
        ensures { Gives shown_primary result self.new (primary_of (expr_at depth) self.old) }
    {
        Ok(Box::into_inner(self.item(alloc, depth)?))
    }

    /// Takes what signs and accesses stand round.
    #[cycle(expression)]
    #[inline(never)]
    fn item(&mut self, alloc: Global, depth: u32) -> Result<Box<Node<Option<Primary>>>, ReadError>
        ensures { Gives (λ b. shown_primary b.value) result self.new (primary_of (expr_at depth) self.old) }
    {
        let start = self.start();
        if self.eat(Mark::LeftParen) {
            let expr = self.expr(alloc, depth)?;
            self.close_group(start, expr)
        } else if self.eat(Mark::LeftBracket) {
            let items = self.exprs(alloc, depth, Mark::RightBracket)?;
            Ok(self.list_primary(start, items)?)
        } else if self.eat(Mark::LeftBrace) {
            let entries = self.rec_inits(alloc, depth)?;
            Ok(self.record_primary(start, entries)?)
        } else {
            self.leaf(alloc)
        }
    }

    /// Takes expressions with a comma between each two, up to the mark that closes them.
    #[cycle(expression)]
    #[inline(never)]
    fn exprs(
        &mut self,
        alloc: Global,
        depth: u32,
        close: Mark,
    ) -> Result<Vec<Node<Option<Expr>>>, ReadError>
        ensures { Gives (λ v. map shown_expr v.items) result self.new (items_of (mark_view close) (expr_at depth) self.old) }
    {
        let mut items = Vec::new(alloc);
        'items: while !self.eat(close) {
            let item = self.expr(alloc, depth)?;
            add(&mut items, item)?;
            if self.eat(close) {
                return Ok(items);
            }
            self.expect(Mark::Comma)?;
        }
        Ok(items)
    }

    /// Takes entries up to the brace that closes their record.
    #[cycle(expression)]
    #[inline(never)]
    fn rec_inits(
        &mut self,
        alloc: Global,
        depth: u32,
    ) -> Result<Vec<Node<Option<RecInit>>>, ReadError>
        ensures { Gives (λ v. map shown_rec_init v.items) result self.new (items_of token.RightBrace (rec_init_of (expr_at depth)) self.old) }
    {
        let mut items = Vec::new(alloc);
        'items: while !self.eat(Mark::RightBrace) {
            let item = self.rec_init(alloc, depth)?;
            add_boxed(&mut items, item)?;
            if self.eat(Mark::RightBrace) {
                return Ok(items);
            }
            self.expect(Mark::Comma)?;
        }
        Ok(items)
    }

    /// Takes an entry of a record.
    #[tactic(auto, unfolding(cedar_grammar::specs::LooseReading::rec_init_of))]
    #[cycle(expression)]
    #[inline(never)]
    fn rec_init(
        &mut self,
        alloc: Global,
        depth: u32,
    ) -> Result<Box<Node<Option<RecInit>>>, ReadError>
        ensures { Gives (λ b. shown_rec_init b.value) result self.new (rec_init_of (expr_at depth) self.old) }
    {
        let start = self.start();
        let key = self.expr(alloc, depth)?;
        self.expect(Mark::Colon)?;
        let value = self.expr(alloc, depth)?;
        Ok(self.rec_init_node(start, key, value)?)
    }
}
