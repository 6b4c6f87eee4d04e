// How a text is written between quotes.
ghost use Rattle.std.specs.Prelude.{◌≡◌};
ghost use Rattle.std.specs.Fmt.{WritesOnOk};
ghost use Rattle.cedar_literals.specs.Escapes as escapes;

use std::fmt;
use std::marker::Model;

/// A text as it stands between quotes: quotes, backslashes and ASCII's control characters as escapes,
/// all other characters as they are. Contracts see the text.
#[derive(Drop)]
pub struct Escaped<'a> {
    text: &'a str,
}

impl<'a> Model for Escaped<'a> {
    ghost use Rattle.cedar_language.specs.Uid.{Text};

    ghost Value = { Text };

    ghost view = { λ a. a.text.now };
}

impl<'a> Escaped<'a> {
    /// This text between quotes.
    pub fn new(text: &'a str) -> Escaped<'a>
        ensures { result ≡ text.now }
    {
        Escaped { text }
    }
}

impl fmt::Display for Escaped<'_> {
    ghost use Rattle.std.specs.Prelude.{Some};
    ghost use Rattle.cedar_literals.specs.Escapes.{escaped};

    ghost output = { λ text. Some (escaped text) };

    fn fmt<W: fmt::Write>(&self, f: &mut fmt::Formatter<W>) -> fmt::Result {
        write_escaped(self.text, f)
    }
}

fn write_escaped<W: fmt::Write>(text: &str, f: &mut fmt::Formatter<W>) -> fmt::Result
    ensures { WritesOnOk W.write_str_gives f.old result (escapes.escaped text.now) f.new }
{
    for c in text.chars() {
        let escaped = EscapedChar::new(c);
        write!(f, "{escaped}")?;
    }
    Ok(())
}

/// A character as it stands between quotes. Contracts see the character.
#[derive(Clone, Copy)]
pub struct EscapedChar {
    c: char,
}

impl Model for EscapedChar {
    ghost use Rattle.std.specs.Prelude.{ℕ};

    ghost Value = { ℕ };

    ghost view = { λ a. a.c };

    ghost inverse = { λ c. record { c = c } };
}

impl EscapedChar {
    /// This character between quotes.
    pub fn new(c: char) -> EscapedChar
        ensures { result ≡ c }
    {
        EscapedChar { c }
    }
}

impl fmt::Display for EscapedChar {
    ghost use Rattle.std.specs.Prelude.{Some};
    ghost use Rattle.cedar_literals.specs.Escapes.{escaped_char};

    ghost output = { λ c. Some (escaped_char c) };

    fn fmt<W: fmt::Write>(&self, f: &mut fmt::Formatter<W>) -> fmt::Result {
        let c = self.c;
        match c {
            '\0' => write!(f, "\\0"),
            '\t' => write!(f, "\\t"),
            '\n' => write!(f, "\\n"),
            '\r' => write!(f, "\\r"),
            '"' => write!(f, "\\\""),
            '\'' => write!(f, "\\'"),
            '\\' => write!(f, "\\\\"),
            _ if is_control(c) => write!(f, "\\u{{{:x}}}", c as u32),
            _ => write!(f, "{c}"),
        }
    }
}

pub(crate) fn is_control(c: char) -> bool
    ensures { result ≡ escapes.is_control c }
{
    (c as u32) < 32 || c as u32 == 127
}
