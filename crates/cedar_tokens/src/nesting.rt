// How deep a text is nested that the grammar doesn't hold.
ghost use Rattle.std.specs.Prelude.{◌≡◌};
ghost use Rattle.cedar_grammar.specs.Nesting.{loose_nesting};

use crate::characters::next_char;

/// One, and one more for each place where a round, square or curly bracket opens or `if` stands, also
/// inside words, strings and comments. It takes no memory, and time linear in the text.
pub fn loose_nesting(text: &str) -> usize
    ensures { result ≡ loose_nesting text.now }
{
    let mut nesting = 1;
    let mut after_i = false;
    let mut rest = text;
    'places: while let Some((c, after)) = next_char(rest) {
        if matches!(c, '(' | '[' | '{') || after_i && c == 'f' {
            nesting += 1;
        }
        after_i = c == 'i';
        rest = after;
    }
    nesting
}
