// Names and entities.
ghost use Rattle.std.specs.Prelude.{◌≡◌, map, None};
ghost use Rattle.cedar_grammar.specs.Steps.{eat};
ghost use Rattle.cedar_grammar.specs.Loose.{Expr};
ghost use Rattle.cedar_grammar.specs.LooseReading.{Reader, primary_of, name_of, ref_init_of, items_of, ref_rest, ref_of, named_of};
ghost use Rattle.cedar_grammar.specs.Token as token;
ghost use Rattle.cedar_cst.specs.LeafView.{shown_name, shown_ref, shown_ref_init};
ghost use Rattle.cedar_cst.specs.View.{shown_primary};
ghost use Rattle.cedar_loose.specs.Gives.{Gives};

use crate::cursor::Cursor;
use crate::error::ReadError;
use cedar_cst::cst::{Name, Primary, Ref, RefInit};
use cedar_cst::node::Node;
use cedar_tokens::{Kinds, Mark};
use std::alloc::Global;

impl<'t> Cursor<'t> {
    /// Takes a name, which has to be next: all words that follow each other with `::` between them.
    pub fn name(&mut self, alloc: Global) -> Result<Node<Option<Name>>, ReadError>
        ensures { Gives shown_name result self.new (name_of self.old) }
    {
        let start = self.start();
        let mut name = self.ident(alloc)?;
        let mut path = Vec::new(alloc);
        'words: while self.eat_separator() {
            let next = self.ident(alloc)?;
            path.push(name)?;
            name = next;
        }
        Ok(self.node(start, Name { path, name })?)
    }

    /// Takes an entry of an entity that is named by attributes, which has to be next.
    #[tactic(auto, unfolding(cedar_grammar::specs::LooseReading::ref_init_of))]
    fn ref_init(&mut self, alloc: Global) -> Result<Node<Option<RefInit>>, ReadError>
        ensures { Gives shown_ref_init result self.new (ref_init_of self.old) }
    {
        let start = self.start();
        let key = self.ident(alloc)?;
        self.expect(Mark::Colon)?;
        let value = self.literal(alloc)?;
        Ok(self.node(start, RefInit(key, value))?)
    }

    /// Takes entries up to the brace that closes an entity.
    fn ref_inits(&mut self, alloc: Global) -> Result<Vec<Node<Option<RefInit>>>, ReadError>
        ensures { Gives (λ v. map shown_ref_init v.items) result self.new (items_of token.RightBrace ref_init_of self.old) }
    {
        let mut items = Vec::new(alloc);
        'items: while !self.eat(Mark::RightBrace) {
            let item = self.ref_init(alloc)?;
            items.push(item)?;
            if self.eat(Mark::RightBrace) {
                return Ok(items);
            }
            self.expect(Mark::Comma)?;
        }
        Ok(items)
    }

    /// Takes what follows a type and `::`: a string, or attributes.
    #[tactic(auto, unfolding(cedar_grammar::specs::LooseReading::ref_rest))]
    fn ref_rest(
        &mut self,
        alloc: Global,
        start: usize,
        path: Node<Option<Name>>,
    ) -> Result<Node<Option<Ref>>, ReadError>
        ensures { Gives shown_ref result self.new (ref_rest (shown_name path) self.old) }
    {
        // A word that stood here would have been a part of the name.
        self.note(Kinds::WORDS);
        if self.eat(Mark::LeftBrace) {
            let rinits = self.ref_inits(alloc)?;
            Ok(self.node(start, Ref::Ref { path, rinits })?)
        } else {
            let eid = self.string(alloc)?;
            Ok(self.node(start, Ref::Uid { path, eid })?)
        }
    }

    /// Takes an entity, which has to be next.
    #[tactic(auto, unfolding(cedar_grammar::specs::LooseReading::ref_of))]
    pub fn entity(&mut self, alloc: Global) -> Result<Node<Option<Ref>>, ReadError>
        ensures { Gives shown_ref result self.new (ref_of self.old) }
    {
        let start = self.start();
        let path = self.name(alloc)?;
        self.expect(Mark::ColonColon)?;
        self.ref_rest(alloc, start, path)
    }

    /// Takes a name or an entity, one of which has to be next.
    #[tactic(auto, unfolding(cedar_grammar::specs::LooseReading::named_of))]
    pub(crate) fn named(&mut self, alloc: Global) -> Result<Box<Node<Option<Primary>>>, ReadError>
        ensures { Gives (λ b. shown_primary b.value) result self.new (named_of self.old) }
    {
        let start = self.start();
        let path = self.name(alloc)?;
        if self.eat(Mark::ColonColon) {
            let entity = self.ref_rest(alloc, start, path)?;
            Ok(self.entity_primary(alloc, start, entity)?)
        } else {
            Ok(self.name_primary(alloc, start, path)?)
        }
    }

    /// Takes a literal, a name, an entity or a slot, one of which has to be next.
    #[inline(never)]
    pub(crate) fn leaf(&mut self, alloc: Global) -> Result<Box<Node<Option<Primary>>>, ReadError>
        ensures { (inner : Reader Expr) → eat token.LeftParen self.old ≡ None → eat token.LeftBracket self.old ≡ None → eat token.LeftBrace self.old ≡ None → Gives (λ b. shown_primary b.value) result self.new (primary_of inner self.old) }
    {
        let start = self.start();
        if self.begins_literal() {
            let literal = self.literal(alloc)?;
            Ok(self.literal_primary(start, literal)?)
        } else if self.begins_name() {
            self.named(alloc)
        } else {
            let slot = self.slot(alloc)?;
            Ok(self.slot_primary(start, slot)?)
        }
    }
}
