// The characters at the start of a text.
ghost use Rattle.std.specs.Prelude.{◌≡◌, ◌==◌, [], ◌++◌, MatchOption};
ghost use Rattle.std.specs.Str.{chars, IsUtf8};
ghost use Rattle.cedar_grammar.specs.Tokens.{Stops, run_of, after_blank};
ghost use Rattle.cedar_tokens.specs.Rest.{StartsWith, IsRest};
ghost use Rattle.cedar_tokens.specs.Class.{test_of};

/// The characters that a run of a token is made of.
#[derive(Clone, Copy)]
pub enum Class {
    /// An ASCII letter, an ASCII digit or `_`.
    Word,
    /// An ASCII digit.
    Digit,
    /// Any character that ends no line.
    Line,
}

impl Class {
    /// Whether the character is of the class.
    pub fn contains(self, c: char) -> bool
        ensures { result ≡ test_of self c }
    {
        match self {
            Class::Word => c.is_ascii_alphanumeric() || c == '_',
            Class::Digit => c.is_ascii_digit(),
            Class::Line => !(c == '\n' || c == '\r'),
        }
    }
}

/// The first character, and what follows it.
pub fn next_char(text: &str) -> Option<(char, &str)>
    ensures { MatchOption result (chars text.now ≡ []) (λ x. StartsWith text.now x.0 x.1.now) }
{
    match text.as_bytes().first() {
        Some(first) if first.is_ascii() => Some((char::from(*first), &text[1..])),
        _ => next_decoded(text),
    }
}

/// The same for any character; [`next_char`] is quicker for ASCII.
fn next_decoded(text: &str) -> Option<(char, &str)>
    ensures { MatchOption result (chars text.now ≡ []) (λ x. StartsWith text.now x.0 x.1.now) }
{
    let mut characters = text.chars();
    let first = characters.next()?;
    Some((first, characters.as_str()))
}

/// What follows this character, if the text begins with it.
pub fn strip_char(text: &str, expected: char) -> Option<&str>
    ensures { MatchOption result (Stops (λ c. c == expected) (chars text.now))
        (λ rest. StartsWith text.now expected rest.now) }
{
    let (c, rest) = next_char(text)?;
    if c == expected { Some(rest) } else { None }
}

/// The longest run of characters of a class, and what follows it.
pub fn split_run(text: &str, class: Class) -> (&str, &str)
    ensures run { run_of (test_of class) (chars text.now) ≡ (chars result.0.now, chars result.1.now) }
    ensures utf8 { IsUtf8 result.0.now }
    ensures whole { text.now ≡ result.0.now ++ result.1.now }
    ensures rest { IsRest text.now result.1.now }
{
    let mut rest = text;
    'run: while let Some((c, after)) = next_char(rest) {
        if !class.contains(c) {
            break;
        }
        rest = after;
    }
    (&text[..text.len() - rest.len()], rest)
}

/// What follows white space and comments.
pub fn skip_blank(text: &str) -> &str
    ensures blank { chars result.now ≡ after_blank (chars text.now) }
    ensures rest { IsRest text.now result.now }
{
    let mut rest = text;
    'blank: while let Some((c, after)) = next_char(rest) {
        if c.is_whitespace() {
            rest = after;
        } else if c == '/' {
            let Some(comment) = strip_char(after, '/') else {
                break;
            };
            rest = split_run(comment, Class::Line).1;
        } else {
            break;
        }
    }
    rest
}
