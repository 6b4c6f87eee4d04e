// Parts of the texts of values.
ghost use Rattle.std.specs.Prelude.{◌≡◌};
ghost use Rattle.std.specs.Fmt.{WritesOnOk};
ghost use Rattle.cedar_values.specs.Texts as texts;

use cedar_literals::escapes::Escaped;
use cedar_names::identifiers::is_normalized_ident;
use std::fmt;

/// Writes the key of an attribute, with what stands before the value. An identifier has no quotes.
pub fn write_key<W: fmt::Write>(key: &str, f: &mut fmt::Formatter<W>) -> fmt::Result
    ensures { WritesOnOk W.write_str_gives f.old result (texts.key_text key.now) f.new }
{
    if is_normalized_ident(key) {
        return write!(f, "{key}: ");
    }
    let escaped = Escaped::new(key);
    write!(f, "\"{escaped}\": ")
}

/// Writes what stands before an element.
pub fn write_separator<W: fmt::Write>(is_first: bool, f: &mut fmt::Formatter<W>) -> fmt::Result
    ensures { WritesOnOk W.write_str_gives f.old result (texts.separator is_first) f.new }
{
    if is_first {
        return Ok(());
    }
    write!(f, ", ")
}
