// Numbers and names, as JSON spells them.
ghost use Rattle.std.specs.Prelude.{◌≡◌, is_some};
ghost use Rattle.cedar_world.specs.Bodies.{name_spelled};
ghost use Rattle.cedar_json.specs.Values.{long_in};

use cedar_names::identifiers::is_normalized_ident;

/// Whether digits, perhaps behind a minus sign, are a long.
pub fn is_long(text: &str) -> bool
    ensures { result ≡ is_some (long_in text.now) }
{
    if text.is_empty() {
        return false;
    }
    let first = text.as_bytes()[0];
    if first == b'+' {
        return false;
    }
    match text.parse::<i64>() {
        Ok(_) => true,
        Err(_) => false,
    }
}

/// Whether a text spells a name: identifiers that aren't reserved, with `::` between them and no white
/// space.
pub fn is_name(text: &str) -> bool
    ensures { result ≡ is_some (name_spelled text.now) }
{
    let mut rest = text;
    'words: while let Some((word, behind)) = rest.split_once(':') {
        if behind.is_empty() {
            return false;
        }
        if behind.as_bytes()[0] != b':' {
            return false;
        }
        if !is_normalized_ident(word) {
            return false;
        }
        rest = &behind[1..];
    }
    is_normalized_ident(rest)
}
