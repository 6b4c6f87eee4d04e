// The marks of Cedar.
ghost use Rattle.std.specs.Prelude.{◌≡◌, ◌≢◌, [], ◌∷◌, MatchOption};
ghost use Rattle.std.specs.Str.{chars};
ghost use Rattle.cedar_grammar.specs.Token.{Mark as GrammarMark, mark_spelled};
ghost use Rattle.cedar_grammar.specs.Tokens.{all_marks, mark_among};
ghost use Rattle.cedar_tokens.specs.Marks.{StartsNoComment, StartsWithNone, StartsWithMark, ReadsMark};
ghost use Rattle.cedar_tokens.specs.View.{mark_view};

use crate::characters::next_char;
use crate::tokens::Mark;

/// The mark that is written by this character.
fn single_mark(c: char) -> Option<Mark>
    ensures { MatchOption result ((m : GrammarMark) → mark_spelled m ≢ c ∷ [])
        (λ m. mark_spelled (mark_view m) ≡ c ∷ []) }
{
    match c {
        '(' => Some(Mark::LeftParen),
        ')' => Some(Mark::RightParen),
        '[' => Some(Mark::LeftBracket),
        ']' => Some(Mark::RightBracket),
        '{' => Some(Mark::LeftBrace),
        '}' => Some(Mark::RightBrace),
        ',' => Some(Mark::Comma),
        ';' => Some(Mark::Semicolon),
        ':' => Some(Mark::Colon),
        '.' => Some(Mark::Dot),
        '@' => Some(Mark::At),
        '<' => Some(Mark::Less),
        '>' => Some(Mark::Greater),
        '+' => Some(Mark::Plus),
        '-' => Some(Mark::Minus),
        '*' => Some(Mark::Star),
        '!' => Some(Mark::Bang),
        '/' => Some(Mark::Slash),
        '%' => Some(Mark::Percent),
        '=' => Some(Mark::Equal),
        _ => None,
    }
}

/// The mark that is written by these two characters.
fn double_mark(first: char, second: char) -> Option<Mark>
    ensures { MatchOption result ((m : GrammarMark) → mark_spelled m ≢ first ∷ second ∷ [])
        (λ m. mark_spelled (mark_view m) ≡ first ∷ second ∷ []) }
{
    match (first, second) {
        (':', ':') => Some(Mark::ColonColon),
        ('&', '&') => Some(Mark::AndAnd),
        ('|', '|') => Some(Mark::OrOr),
        ('=', '=') => Some(Mark::EqualEqual),
        ('!', '=') => Some(Mark::NotEqual),
        ('<', '=') => Some(Mark::LessEqual),
        ('>', '=') => Some(Mark::GreaterEqual),
        _ => None,
    }
}

/// The mark of two characters at the start of the text, and what follows it.
fn split_double(text: &str) -> Option<(Mark, &str)>
    ensures { MatchOption result (StartsWithNone 2 (chars text.now))
        (λ x. StartsWithMark 2 text.now (mark_view x.0) x.1.now) }
{
    let (first, rest) = next_char(text)?;
    let (second, rest) = next_char(rest)?;
    let mark = double_mark(first, second)?;
    Some((mark, rest))
}

/// The mark of one character at the start of the text, and what follows it.
fn split_single(text: &str) -> Option<(Mark, &str)>
    ensures { MatchOption result (StartsWithNone 1 (chars text.now))
        (λ x. StartsWithMark 1 text.now (mark_view x.0) x.1.now) }
{
    let (first, rest) = next_char(text)?;
    let mark = single_mark(first)?;
    Some((mark, rest))
}

/// The longest mark at the start of the text, and what follows it.
pub fn split_mark(text: &str) -> Option<(Mark, &str)>
    requires { StartsNoComment (chars text.now) }
    ensures { MatchOption result (mark_among all_marks (chars text.now) ≡ None)
        (λ x. ReadsMark text.now (mark_view x.0) x.1.now) }
{
    match split_double(text) {
        Some(found) => Some(found),
        None => split_single(text),
    }
}
