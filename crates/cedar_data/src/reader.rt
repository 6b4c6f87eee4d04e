// What of a text is left to read.
ghost use Rattle.std.specs.Prelude.{◌≡◌, [], ◌↔◌, IfOk, Some, true, slice_index, IsTrue};
ghost use Rattle.std.specs.Char.{is_ascii_digit};
ghost use Rattle.std.specs.Rc.{rc_str_bytes};
ghost use Rattle.std.specs.Str.{chars};
ghost use Rattle.std.specs.Str.Parse.{digits_value};
ghost use Rattle.cedar_grammar.specs.Escape.{string_of};
ghost use Rattle.cedar_grammar.specs.Token.{word, number, text as string_token, mark, Colon, ColonColon, word_of};
ghost use Rattle.cedar_data.specs.Classes.{mark_of};
ghost use Rattle.cedar_data.specs.Data.{ReadsString};
ghost use Rattle.cedar_data.specs.Takes.{Skips, Takes, Ate};

use crate::quoted::split_quoted;
use crate::texts::{
    Sign, byte_at, skip_blank, split_colon, split_digits, split_separator, split_sign,
    split_string, split_word,
};
use crate::unread::Unread;
use cedar_tokens::{UnescapeError, to_unescaped_string};
use std::alloc::Global;
use std::marker::Model;
use std::rc::RcStr;

/// What of a text is left to read.
#[derive(Drop)]
pub struct Reader<'t> {
    rest: &'t str,
}

impl<'t> Model for Reader<'t> {
    ghost use Rattle.std.specs.Str.{IsUtf8};
    ghost use Rattle.cedar_language.specs.Uid.{Text};

    ghost Value = { Text };

    ghost view = { λ r. r.rest.now };

    ghost invariant = { λ r. IsUtf8 r.rest.now };
}

impl<'t> Reader<'t> {
    /// All of the text.
    pub fn new(text: &'t str) -> Reader<'t>
        ensures { Skips text.now result }
    {
        Reader {
            rest: skip_blank(text),
        }
    }

    /// Whether nothing is left.
    pub fn is_at_end(&self) -> bool
        ensures { IsTrue result ↔ (self.now ≡ []) }
    {
        self.rest.is_empty()
    }

    /// The next byte; 0 where nothing is left.
    pub fn next_byte(&self) -> u8
        ensures { result ≡ slice_index self.now 0 }
    {
        byte_at(self.rest, 0)
    }

    /// Takes the mark, if it is next.
    pub fn eat(&mut self, sign: Sign) -> bool
        ensures { Ate result (mark (mark_of sign)) self.old self.new }
    {
        match split_sign(self.rest, sign) {
            Some(rest) => {
                self.rest = rest;
                true
            }
            None => false,
        }
    }

    /// Takes `::`, if it is next.
    pub fn eat_separator(&mut self) -> bool
        ensures { Ate result (mark ColonColon) self.old self.new }
    {
        match split_separator(self.rest) {
            Some(rest) => {
                self.rest = rest;
                true
            }
            None => false,
        }
    }

    /// Takes the mark, which has to be next.
    pub fn expect(&mut self, sign: Sign) -> Result<(), Unread>
        ensures { IfOk result (λ _. Takes (mark (mark_of sign)) self.old self.new) }
    {
        if self.eat(sign) {
            Ok(())
        } else {
            Err(Unread::Other)
        }
    }

    /// Takes `:`, which has to be next.
    pub fn expect_colon(&mut self) -> Result<(), Unread>
        ensures { IfOk result (λ _. Takes (mark Colon) self.old self.new) }
    {
        let Some(rest) = split_colon(self.rest) else {
            return Err(Unread::Other);
        };
        self.rest = rest;
        Ok(())
    }

    /// Takes a word, which has to be next.
    pub fn word(&mut self) -> Result<&'t str, Unread>
        ensures { IfOk result (λ spelling. Takes (word (word_of spelling.now)) self.old self.new) }
    {
        let Some((word, rest)) = split_word(self.rest) else {
            return Err(Unread::Other);
        };
        self.rest = rest;
        Ok(word)
    }

    /// Takes the digits of a number, which has to be next.
    pub fn digits(&mut self) -> Result<&'t str, Unread>
        ensures taken { IfOk result (λ digits. Takes (number (digits_value 10 digits.now)) self.old self.new) }
        ensures digits { IfOk result (λ digits. is_ascii_digit (slice_index digits.now 0) ≡ true) }
    {
        let Some((digits, rest)) = split_digits(self.rest) else {
            return Err(Unread::Other);
        };
        self.rest = rest;
        Ok(digits)
    }

    /// Takes a string without escapes, which has to be next: what stands between its quotes.
    pub fn plain_string(&mut self) -> Result<&'t str, Unread>
        ensures taken { IfOk result (λ raw. Takes (string_token (chars raw.now)) self.old self.new) }
        ensures plain { IfOk result (λ raw. string_of (chars raw.now) ≡ Some raw.now) }
    {
        let Some((raw, rest)) = split_string(self.rest) else {
            return Err(Unread::Other);
        };
        self.rest = rest;
        Ok(raw)
    }

    // Takes a string with escapes, which has to be next: the text that it stands for.
    fn escaped_string(&mut self, alloc: Global) -> Result<RcStr, Unread>
        ensures { IfOk result (λ text. ReadsString self.old (rc_str_bytes text) self.new) }
    {
        let Some((raw, rest)) = split_quoted(self.rest) else {
            return Err(Unread::Other);
        };
        match to_unescaped_string(alloc, raw) {
            Ok(text) => {
                self.rest = rest;
                Ok(text)
            }
            Err(UnescapeError::Invalid { .. }) => Err(Unread::Other),
            Err(UnescapeError::Memory) => Err(Unread::Memory),
        }
    }

    /// Takes a string, which has to be next: the text that it stands for. (Cedar language reference, "Data types": String.)
    pub fn string(&mut self, alloc: Global) -> Result<RcStr, Unread>
        ensures { IfOk result (λ text. ReadsString self.old (rc_str_bytes text) self.new) }
    {
        match split_string(self.rest) {
            Some((plain, rest)) => {
                self.rest = rest;
                Ok(RcStr::from_str(alloc, plain)?)
            }
            None => Ok(self.escaped_string(alloc)?),
        }
    }
}
