// Runs of bytes at the start of a text.
ghost use Rattle.std.specs.Prelude.{◌≡◌};
ghost use Rattle.cedar_data.specs.Runs.{run_length, is_blank, is_plain};
ghost use Rattle.cedar_data.specs.Classes.{test_of};
ghost use Rattle.cedar_grammar.specs.Tokens.{begins_word, is_in_word};

/// The bytes that a run is made of.
#[derive(Clone, Copy)]
pub enum Class {
    /// White space of ASCII.
    Blank,
    /// ASCII letters, ASCII digits and `_`.
    Word,
    /// ASCII digits.
    Digit,
    /// What stands for itself in a string.
    Plain,
}

impl Class {
    fn contains(self, byte: u8) -> bool
        ensures { result ≡ test_of self byte }
    {
        match self {
            Class::Blank => is_blank(byte),
            Class::Word => is_in_word(byte),
            Class::Digit => byte.is_ascii_digit(),
            Class::Plain => is_plain(byte),
        }
    }
}

fn is_blank(byte: u8) -> bool
    ensures { result ≡ is_blank byte }
{
    byte == b' ' || byte == b'\t' || byte == b'\n' || byte == b'\r'
}

fn is_in_word(byte: u8) -> bool
    ensures { result ≡ is_in_word byte }
{
    byte.is_ascii_alphanumeric() || byte == b'_'
}

fn is_plain(byte: u8) -> bool
    ensures { result ≡ is_plain byte }
{
    byte != b'"' && byte != b'\\' && byte != b'\r'
}

/// Whether a word may begin with the byte.
pub fn begins_word(byte: u8) -> bool
    ensures { result ≡ begins_word byte }
{
    byte.is_ascii_alphabetic() || byte == b'_'
}

/// How many bytes from the first on are of the class.
pub fn run_length(bytes: &[u8], class: Class) -> usize
    ensures { result ≡ run_length (test_of class) bytes.now }
{
    for (i, byte) in bytes.iter().enumerate() {
        if !class.contains(*byte) {
            return i;
        }
    }
    bytes.len()
}
