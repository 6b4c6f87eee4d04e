// Annotations, which mean nothing.
ghost use Rattle.std.specs.Prelude.{◌≡◌, ◌≤◌, IfOk};
ghost use Rattle.cedar_schema_grammar.specs.Reading.{any_word, annotations_at};
ghost use Rattle.cedar_schema_text.specs.Gives.{left, bound, Gives, Leaves};
ghost use Rattle.cedar_schema_text.specs.Parts.{after_value, annotation_read};

use crate::read_error::{ReadError, SyntaxFault};
use crate::reader::Reader;
use crate::tokens::{Mark, TokenKind};
use std::collections::BTreeSet;

impl<'t> Reader<'t> {
    /// Takes the value of an annotation, if one is next.
    fn annotation_value(&self, at: &mut usize) -> Result<(), ReadError>
        ensures leaves { Leaves result (left self.now at.new) (after_value (left self.now at.old)) }
        ensures onward { at.old ≤ at.new }
    {
        if !self.eat(Mark::LeftParen, at) {
            return Ok(());
        }
        let _value = self.string(at)?;
        self.expect(Mark::RightParen, at)
    }

    /// Takes a word, which has to be next.
    fn any_word(&self, at: &mut usize) -> Result<&'t str, ReadError>
        ensures gives { Gives (λ word. word.now) result (left self.now at.new) (any_word (left self.now at.old)) }
        ensures onward { at.old ≤ at.new }
    {
        let Some(TokenKind::Word(word)) = self.kind(*at) else {
            return Err(self.unexpected(*at));
        };
        *at += 1;
        Ok(word)
    }

    /// Takes what follows the `@` of an annotation, and gives its key.
    fn annotation(&self, at: &mut usize) -> Result<&'t str, ReadError>
        ensures gives { Gives (λ key. key.now) result (left self.now at.new) (annotation_read (left self.now at.old)) }
        ensures onward { at.old ≤ at.new }
    {
        let key = self.any_word(at)?;
        self.annotation_value(at)?;
        Ok(key)
    }

    /// Takes all annotations that are next. None of them may stand twice.
    pub fn annotations(&self, at: &mut usize) -> Result<(), ReadError>
        ensures leaves { Leaves result (left self.now at.new) (annotations_at (bound self.now) (left self.now at.old)) }
        ensures onward { at.old ≤ at.new }
    {
        let mut keys = BTreeSet::new(self.alloc);
        'keys: while self.eat(Mark::At, at) {
            let place = self.place(*at);
            let key = self.annotation(at)?;
            if !keys.insert(key)? {
                return Err(ReadError::Syntax {
                    fault: SyntaxFault::DuplicateAnnotation,
                    place,
                });
            }
        }
        Ok(())
    }
}
