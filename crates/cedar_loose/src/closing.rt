// What ends a group or an access, behind the expression in it, if there is one.
ghost use Rattle.cedar_grammar.specs.Steps.{eat, word_read};
ghost use Rattle.cedar_grammar.specs.Token as token;
ghost use Rattle.cedar_grammar.specs.Loose as loose;
ghost use Rattle.cedar_grammar.specs.LooseReading.{mapped, needed};
ghost use Rattle.cedar_cst.specs.View.{shown_expr, shown_primary, shown_mem_access};
ghost use Rattle.cedar_loose.specs.Gives.{Gives};
ghost use Rattle.cedar_loose.specs.Steps.{closed_by};

use crate::cursor::Cursor;
use crate::error::ReadError;
use cedar_cst::cst::{Expr, MemAccess, Primary};
use cedar_cst::node::Node;
use cedar_tokens::Mark;
use std::alloc::Global;

impl<'t> Cursor<'t> {
    /// Takes the `)` behind an expression.
    #[inline(never)]
    pub(crate) fn close_group(
        &mut self,
        start: usize,
        expr: Node<Option<Expr>>,
    ) -> Result<Box<Node<Option<Primary>>>, ReadError>
        ensures { Gives (λ b. shown_primary b.value) result self.new (closed_by token.RightParen (loose.expr (shown_expr expr)) self.old) }
    {
        self.expect(Mark::RightParen)?;
        Ok(self.expr_primary(start, expr)?)
    }

    /// Takes the `]` behind an index.
    #[inline(never)]
    pub(crate) fn close_index(
        &mut self,
        start: usize,
        index: Node<Option<Expr>>,
    ) -> Result<Box<Node<Option<MemAccess>>>, ReadError>
        ensures { Gives (λ b. shown_mem_access b.value) result self.new (closed_by token.RightBracket (loose.index (shown_expr index)) self.old) }
    {
        self.expect(Mark::RightBracket)?;
        Ok(self.index_access(start, index)?)
    }

    /// Takes the word behind a dot.
    #[inline(never)]
    pub(crate) fn field(
        &mut self,
        alloc: Global,
        start: usize,
    ) -> Result<Box<Node<Option<MemAccess>>>, ReadError>
        ensures { Gives (λ b. shown_mem_access b.value) result self.new (mapped loose.field (mapped loose.ident (needed (word_read self.old)))) }
    {
        let field = self.ident(alloc)?;
        Ok(self.field_access(start, field)?)
    }
}
