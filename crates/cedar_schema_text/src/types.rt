// Types.
ghost use Rattle.std.specs.Prelude.{◌≡◌, ◌≤◌};
ghost use Rattle.cedar_schema_grammar.specs.Grammar.{eat_set};
ghost use Rattle.cedar_schema_grammar.specs.Reading.{presence_read, key_at, type_at, attributes_at};
ghost use Rattle.cedar_schema_syntax.specs.View.{presence_view, attribute_view, attributes_view, type_view};
ghost use Rattle.cedar_schema_text.specs.Gives.{left, bound, key_view, Advances, Eats, Gives};
ghost use Rattle.cedar_schema_text.specs.Parts.{attribute_at};

use crate::read_error::ReadError;
use crate::reader::Reader;
use crate::tokens::Mark;
use cedar_schema_syntax::{Attribute, Name, Presence, TypeSyntax};

impl<'t> Reader<'t> {
    /// Takes `:` or `?:`, one of which has to be next.
    fn presence(&self, at: &mut usize) -> Result<Presence, ReadError>
        ensures gives { Gives presence_view result (left self.now at.new) (presence_read (left self.now at.old)) }
        ensures onward { at.old ≤ at.new }
    {
        if self.eat(Mark::Colon, at) {
            return Ok(Presence::Required);
        }
        self.expect(Mark::Question, at)?;
        self.expect(Mark::Colon, at)?;
        Ok(Presence::Optional)
    }

    /// Takes the annotations and the name of an attribute, and whether it may be missing.
    #[tactic(auto, unfolding(cedar_schema_grammar::specs::Reading::key_at))]
    fn attribute_key(&self, at: &mut usize) -> Result<(Name, Presence), ReadError>
        ensures gives { Gives key_view result (left self.now at.new) (key_at (bound self.now) (left self.now at.old)) }
        ensures onward { at.old ≤ at.new }
    {
        self.annotations(at)?;
        let name = self.name(at)?;
        let presence = self.presence(at)?;
        Ok((name, presence))
    }

    /// Takes `Set<`, if it is next.
    fn eat_set(&self, at: &mut usize) -> bool
        ensures eats { Eats result (left self.now at.new) (eat_set (left self.now at.old)) (left self.now at.old) }
        ensures onward { at.old ≤ at.new }
        ensures advances { Advances self.now result at.old at.new }
    {
        let mut behind = *at;
        let found = self.eat_word("Set", &mut behind) && self.eat(Mark::LeftAngle, &mut behind);
        if found {
            *at = behind;
        }
        found
    }

    /// Takes a type, which has to be next.
    #[cycle(type_syntax)]
    pub fn type_syntax(&self, at: &mut usize) -> Result<TypeSyntax, ReadError>
        ensures gives { Gives type_view result (left self.now at.new) (type_at (bound self.now) (left self.now at.old)) }
        ensures onward { at.old ≤ at.new }
    {
        if self.eat(Mark::LeftBrace, at) {
            let attributes = self.attributes(at)?;
            return Ok(TypeSyntax::Record(attributes));
        }
        if self.eat_set(at) {
            let element = self.type_syntax(at)?;
            self.expect(Mark::RightAngle, at)?;
            let boxed = Box::new(self.alloc, element)?;
            return Ok(TypeSyntax::Set(boxed));
        }
        let path = self.path(at)?;
        Ok(TypeSyntax::Named(path))
    }

    /// Takes attributes up to the brace that closes their record.
    #[cycle(type_syntax)]
    pub fn attributes(&self, at: &mut usize) -> Result<Vec<Attribute>, ReadError>
        ensures gives { Gives (λ v. attributes_view v.items) result (left self.now at.new)
            (attributes_at (bound self.now) (left self.now at.old)) }
        ensures onward { at.old ≤ at.new }
    {
        let mut attributes = Vec::new(self.alloc);
        'attributes: while !self.eat(Mark::RightBrace, at) {
            let attribute = self.attribute(at)?;
            attributes.push(attribute)?;
            if !self.eat(Mark::Comma, at) {
                self.expect(Mark::RightBrace, at)?;
                return Ok(attributes);
            }
        }
        Ok(attributes)
    }

    /// Takes an attribute, with its annotations.
    #[cycle(type_syntax)]
    fn attribute(&self, at: &mut usize) -> Result<Attribute, ReadError>
        ensures gives { Gives attribute_view result (left self.now at.new) (attribute_at (bound self.now) (left self.now at.old)) }
        ensures onward { at.old ≤ at.new }
    {
        let (name, presence) = self.attribute_key(at)?;
        let written = self.type_syntax(at)?;
        Ok(Attribute {
            name,
            presence,
            written,
        })
    }
}
