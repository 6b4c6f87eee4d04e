// Declarations, namespaces and whole schemas.
ghost use Rattle.std.specs.Prelude.{◌≡◌, ◌≤◌, map, length, None, Ok, Some};
ghost use Rattle.cedar_schema_grammar.specs.Reading.{declaration_at, declarations_at, schema_at};
ghost use Rattle.cedar_schema_syntax.specs.View.{declaration_view, namespace_view, schema_view};
ghost use Rattle.cedar_schema_text.specs.Gives.{left, bound, AdvancesIfOk, Gives, GivesAll};
ghost use Rattle.cedar_schema_text.specs.Parts.{common_type_at, annotated_at, namespace_at, lone_at, unannotated_at, block_at};

use crate::read_error::ReadError;
use crate::reader::Reader;
use crate::tokens::Mark;
use cedar_schema_syntax::{CommonTypeSyntax, Declaration, Namespace, SchemaSyntax};

impl<'t> Reader<'t> {
    /// Takes what follows the `type` of a declaration.
    fn common_type(&self, at: &mut usize) -> Result<Declaration, ReadError>
        ensures gives { Gives declaration_view result (left self.now at.new) (common_type_at (bound self.now) (left self.now at.old)) }
        ensures onward { at.old ≤ at.new }
    {
        let name = self.id_name(at)?;
        self.expect(Mark::Equal, at)?;
        let written = self.type_syntax(at)?;
        self.expect(Mark::Semicolon, at)?;
        Ok(Declaration::CommonType(CommonTypeSyntax { name, written }))
    }

    /// Takes a declaration, behind its annotations.
    #[tactic(auto, unfolding(cedar_schema_grammar::specs::Reading::declaration_at))]
    fn declaration(&self, at: &mut usize) -> Result<Declaration, ReadError>
        ensures gives { Gives declaration_view result (left self.now at.new) (declaration_at (bound self.now) (left self.now at.old)) }
        ensures onward { at.old ≤ at.new }
        ensures advances { AdvancesIfOk self.now result at.old at.new }
    {
        if self.eat_word("entity", at) {
            return self.entity(at);
        }
        if self.eat_word("action", at) {
            return self.action(at);
        }
        self.expect_word("type", at)?;
        self.common_type(at)
    }

    /// Takes a declaration with its annotations.
    fn annotated(&self, at: &mut usize) -> Result<Declaration, ReadError>
        ensures gives { Gives declaration_view result (left self.now at.new) (annotated_at (bound self.now) (left self.now at.old)) }
        ensures onward { at.old ≤ at.new }
        ensures advances { AdvancesIfOk self.now result at.old at.new }
    {
        self.annotations(at)?;
        self.declaration(at)
    }

    /// Takes declarations up to the brace that closes their namespace.
    fn declarations(&self, at: &mut usize) -> Result<Vec<Declaration>, ReadError>
        ensures gives { Gives (λ v. map declaration_view v.items) result (left self.now at.new)
            (declarations_at (bound self.now) (bound self.now) (left self.now at.old)) }
        ensures onward { at.old ≤ at.new }
    {
        let mut declarations = Vec::new(self.alloc);
        'declarations: while !self.eat(Mark::RightBrace, at) {
            let declaration = self.annotated(at)?;
            declarations.push(declaration)?;
        }
        Ok(declarations)
    }

    /// Takes what follows the word `namespace`.
    fn namespace(&self, at: &mut usize) -> Result<Namespace, ReadError>
        ensures gives { Gives namespace_view result (left self.now at.new) (namespace_at (bound self.now) (left self.now at.old)) }
        ensures onward { at.old ≤ at.new }
    {
        let path = self.path(at)?;
        self.expect(Mark::LeftBrace, at)?;
        let declarations = self.declarations(at)?;
        Ok(Namespace {
            path: Some(path),
            declarations,
        })
    }

    /// Takes a declaration that stands in no namespace, behind its annotations.
    fn lone(&self, at: &mut usize) -> Result<Namespace, ReadError>
        ensures gives { Gives namespace_view result (left self.now at.new) (lone_at (bound self.now) (left self.now at.old)) }
        ensures onward { at.old ≤ at.new }
        ensures advances { AdvancesIfOk self.now result at.old at.new }
    {
        let declaration = self.declaration(at)?;
        let mut declarations = Vec::new(self.alloc);
        declarations.push(declaration)?;
        Ok(Namespace {
            path: None,
            declarations,
        })
    }

    /// Takes a namespace or a declaration that stands in none, with its annotations.
    fn block(&self, at: &mut usize) -> Result<Namespace, ReadError>
        ensures gives { Gives namespace_view result (left self.now at.new) (block_at (bound self.now) (left self.now at.old)) }
        ensures onward { at.old ≤ at.new }
        ensures advances { AdvancesIfOk self.now result at.old at.new }
    {
        self.annotations(at)?;
        if self.eat_word("namespace", at) {
            self.namespace(at)
        } else {
            self.lone(at)
        }
    }

    /// Takes all tokens.
    pub fn schema(&self) -> Result<SchemaSyntax, ReadError>
        ensures { GivesAll schema_view result (schema_at (bound self.now) (bound self.now) (left self.now 0)) }
    {
        let mut at = 0;
        let mut namespaces = Vec::new(self.alloc);
        'all: while self.is_more(at) {
            let namespace = self.block(&mut at)?;
            namespaces.push(namespace)?;
        }
        Ok(SchemaSyntax { namespaces })
    }
}
