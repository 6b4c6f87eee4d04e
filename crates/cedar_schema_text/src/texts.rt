// Words compared.
ghost use Rattle.std.specs.Prelude.{◌≡◌};
ghost use Rattle.cedar_language.specs.Order.{same_text};
ghost use Rattle.cedar_schema_grammar.specs.Grammar.{is_reserved};

/// Whether a text is this word. The first byte that differs decides, mostly the first of all.
pub fn is_written(text: &str, word: &str) -> bool
    ensures { result ≡ same_text text.now word.now }
{
    let (bytes, expected) = (text.as_bytes(), word.as_bytes());
    if bytes.len() != expected.len() {
        return false;
    }
    for at in 0..bytes.len() {
        if bytes[at] != expected[at] {
            return false;
        }
    }
    true
}

/// Whether the word is no identifier.
pub fn is_reserved(text: &str) -> bool
    ensures { result ≡ is_reserved text.now }
{
    match text {
        _ if is_written(text, "true") => true,
        _ if is_written(text, "false") => true,
        _ if is_written(text, "if") => true,
        _ if is_written(text, "then") => true,
        _ if is_written(text, "else") => true,
        _ if is_written(text, "in") => true,
        _ if is_written(text, "is") => true,
        _ if is_written(text, "like") => true,
        _ if is_written(text, "has") => true,
        _ => false,
    }
}
