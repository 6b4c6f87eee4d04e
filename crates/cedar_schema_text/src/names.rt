// Identifiers, strings and paths.
ghost use Rattle.std.specs.Prelude.{◌≡◌, ◌≤◌, IfOk, map};
ghost use Rattle.std.specs.Rc.{rc_str_bytes};
ghost use Rattle.cedar_schema_grammar.specs.Tokens.{is_word};
ghost use Rattle.cedar_schema_grammar.specs.Reading.{id_read, string_read, name_read, path_at, several_at};
ghost use Rattle.cedar_schema_syntax.specs.View.{name_view, names_view, path_view};
ghost use Rattle.cedar_schema_text.specs.Gives.{left, bound, Advances, Eats, Gives};
ghost use Rattle.cedar_schema_text.specs.Parts.{eat_separator};

use crate::read_error::{ReadError, SyntaxFault};
use crate::reader::Reader;
use crate::texts::is_reserved;
use crate::tokens::{Mark, TokenKind};
use cedar_schema_syntax::{Name, Path};
use cedar_tokens::{UnescapeError, to_unescaped_string};
use std::rc::RcStr;

impl<'t> Reader<'t> {
    /// Takes an identifier, which has to be next.
    pub fn id(&self, at: &mut usize) -> Result<RcStr, ReadError>
        ensures gives { Gives rc_str_bytes result (left self.now at.new) (id_read (left self.now at.old)) }
        ensures onward { at.old ≤ at.new }
    {
        match self.kind(*at) {
            Some(TokenKind::Word(word)) if !is_reserved(word) => {
                *at += 1;
                Ok(RcStr::from_str(self.alloc, word)?)
            }
            _ => Err(self.unexpected(*at)),
        }
    }

    /// Takes a string, which has to be next: the text that it stands for.
    pub fn string(&self, at: &mut usize) -> Result<RcStr, ReadError>
        ensures gives { Gives rc_str_bytes result (left self.now at.new) (string_read (left self.now at.old)) }
        ensures onward { at.old ≤ at.new }
    {
        let Some(TokenKind::Text(raw)) = self.kind(*at) else {
            return Err(self.unexpected(*at));
        };
        match to_unescaped_string(self.alloc, raw) {
            Ok(text) => {
                *at += 1;
                Ok(text)
            }
            Err(UnescapeError::Invalid { place: _ }) => Err(ReadError::Syntax {
                fault: SyntaxFault::WrongEscape,
                place: self.place(*at),
            }),
            Err(UnescapeError::Memory) => Err(ReadError::Memory),
        }
    }

    /// Takes an identifier or a string, one of which has to be next.
    fn id_or_string(&self, at: &mut usize) -> Result<RcStr, ReadError>
        ensures gives { Gives rc_str_bytes result (left self.now at.new) (name_read (left self.now at.old)) }
        ensures onward { at.old ≤ at.new }
    {
        if self.begins_word(*at) {
            self.id(at)
        } else {
            self.string(at)
        }
    }

    /// Takes an identifier, which has to be next, with its place.
    pub fn id_name(&self, at: &mut usize) -> Result<Name, ReadError>
        ensures gives { Gives name_view result (left self.now at.new) (id_read (left self.now at.old)) }
        ensures onward { at.old ≤ at.new }
    {
        let place = self.place(*at);
        let text = self.id(at)?;
        Ok(Name { text, place })
    }

    /// Takes an identifier or a string, one of which has to be next, with its place.
    pub fn name(&self, at: &mut usize) -> Result<Name, ReadError>
        ensures gives { Gives name_view result (left self.now at.new) (name_read (left self.now at.old)) }
        ensures onward { at.old ≤ at.new }
    {
        let place = self.place(*at);
        let text = self.id_or_string(at)?;
        Ok(Name { text, place })
    }

    /// Whether the token is a word.
    pub fn begins_word(&self, at: usize) -> bool
        ensures { result ≡ is_word (left self.now at) }
    {
        matches!(self.kind(at), Some(TokenKind::Word(_)))
    }

    /// Takes `::`, if it is next and a word follows.
    fn eat_separator(&self, at: &mut usize) -> bool
        ensures eats { Eats result (left self.now at.new) (eat_separator (left self.now at.old)) (left self.now at.old) }
        ensures onward { at.old ≤ at.new }
        ensures advances { Advances self.now result at.old at.new }
    {
        let mut behind = *at;
        let found = self.eat(Mark::ColonColon, &mut behind) && self.begins_word(behind);
        if found {
            *at = behind;
        }
        found
    }

    /// Takes a path, which has to be next: all identifiers that follow each other with `::` between them.
    pub fn path(&self, at: &mut usize) -> Result<Path, ReadError>
        ensures gives { Gives path_view result (left self.now at.new) (path_at (bound self.now) (left self.now at.old)) }
        ensures onward { at.old ≤ at.new }
    {
        let place = self.place(*at);
        let first = self.id(at)?;
        let mut words = Vec::new(self.alloc);
        words.push(first)?;
        'words: while self.eat_separator(at) {
            let word = self.id(at)?;
            words.push(word)?;
        }
        Ok(Path { words, place })
    }

    /// Takes identifiers with a comma between each two.
    pub fn ids(&self, at: &mut usize) -> Result<Vec<Name>, ReadError>
        ensures gives { Gives (λ v. names_view v.items) result (left self.now at.new)
            (several_at id_read (bound self.now) (left self.now at.old)) }
        ensures onward { at.old ≤ at.new }
    {
        let first = self.id_name(at)?;
        let mut names = Vec::new(self.alloc);
        names.push(first)?;
        'names: while self.eat(Mark::Comma, at) {
            let name = self.id_name(at)?;
            names.push(name)?;
        }
        Ok(names)
    }

    /// Takes identifiers and strings with a comma between each two.
    pub fn names(&self, at: &mut usize) -> Result<Vec<Name>, ReadError>
        ensures gives { Gives (λ v. names_view v.items) result (left self.now at.new)
            (several_at name_read (bound self.now) (left self.now at.old)) }
        ensures onward { at.old ≤ at.new }
    {
        let first = self.name(at)?;
        let mut names = Vec::new(self.alloc);
        names.push(first)?;
        'names: while self.eat(Mark::Comma, at) {
            let name = self.name(at)?;
            names.push(name)?;
        }
        Ok(names)
    }
}
