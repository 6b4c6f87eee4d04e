// Entities as Cedar writes them, in a string of JSON.
ghost use Rattle.std.specs.Prelude.{◌∷◌, [], ◌++◌, ◌≡◌, Some, None, MatchOption};
ghost use Rattle.std.specs.Str.{chars};
ghost use Rattle.cedar_grammar.specs.Escape.{string_of};
ghost use Rattle.cedar_grammar.specs.Token.{id_of};
ghost use Rattle.cedar_grammar.specs.Tokens.{quote, tokens_of};
ghost use Rattle.cedar_tokens.specs.Spelling.{IsSpelledWord};
ghost use Rattle.cedar_tokens.specs.View.{word_view};
ghost use Rattle.cedar_json.specs.Appended.{Appends};
ghost use Rattle.cedar_json.specs.Questions.{string_alone, path_in, uid_told, uid_read};
ghost use Rattle.cedar_json.specs.QuestionsWritten.{told_written, read_written};
ghost use Rattle.cedar_json.specs.Said.{Tells};
ghost use Rattle.cedar_json.specs.Told.{IsIdentifier, GoesOn};

use crate::reading::Unread;
use crate::writing::write_text;
use cedar_tokens::{Mark, TokenKind, Tokens, UnescapeError, Word, to_unescaped_string};
use std::alloc::Global;

/// The identifier that a word is, unless it is reserved.
fn identifier(word: Word<'_>) -> Option<&str>
    requires { IsSpelledWord word }
    ensures { MatchOption result (id_of (word_view word.entry) ≡ None) (λ name. IsIdentifier name.now (word_view word.entry)) }
{
    match word {
        Word::Permit => Some("permit"),
        Word::Forbid => Some("forbid"),
        Word::When => Some("when"),
        Word::Unless => Some("unless"),
        Word::Principal => Some("principal"),
        Word::Action => Some("action"),
        Word::Resource => Some("resource"),
        Word::Context => Some("context"),
        Word::Other(text) => Some(text),
        Word::True
        | Word::False
        | Word::If
        | Word::Then
        | Word::Else
        | Word::In
        | Word::Like
        | Word::Has
        | Word::Is
        | Word::Cedar => None,
    }
}

/// Takes an identifier and the `::` behind it, where these stand in front.
fn take_word<'t>(tokens: &mut Tokens<'t>) -> Option<&'t str>
    ensures { MatchOption result (path_in tokens.old.left ≡ None)
        (λ word. GoesOn word.now tokens.old.left tokens.new.left) }
{
    let TokenKind::Word(word) = tokens.first()?.kind else {
        return None;
    };
    let name = identifier(word)?;
    tokens.skip();
    let TokenKind::Mark(Mark::ColonColon) = tokens.first()?.kind else {
        return None;
    };
    tokens.skip();
    Some(name)
}

/// The string that is left, where nothing else is.
fn last_string<'t>(tokens: &Tokens<'t>) -> Option<&'t str>
    ensures { MatchOption result (string_alone tokens.now.left ≡ None)
        (λ raw. string_alone tokens.now.left ≡ Some ([], chars raw.now)) }
{
    let TokenKind::Text(raw) = tokens.first()?.kind else {
        return None;
    };
    match tokens.behind().first() {
        Some(_) => None,
        None => Some(raw),
    }
}

/// Appends a string as it stood between its quotes.
fn write_string(alloc: Global, out: &mut String, raw: &str) -> Result<(), Unread>
    ensures told { Tells result (string_of (chars raw.now)) }
    ensures written { Appends result out.old out.new (quote ∷ (chars raw.now ++ quote ∷ [])) }
{
    match to_unescaped_string(alloc, raw) {
        Ok(_) => {}
        Err(UnescapeError::Memory) => return Err(Unread::Memory),
        Err(UnescapeError::Invalid { place: _ }) => return Err(Unread::Unsaid),
    }
    out.push('"')?;
    write_text(out, raw)?;
    out.push('"')?;
    Ok(())
}

/// Appends the entity that tokens are: a name, `::` and a string.
fn write_path(alloc: Global, out: &mut String, mut tokens: Tokens<'_>) -> Result<(), Unread>
    ensures told { Tells result (uid_told (path_in tokens.entry.left)) }
    ensures written { Appends result out.old out.new (told_written (path_in tokens.entry.left)) }
{
    'words: loop {
        let Some(word) = take_word(&mut tokens) else {
            return Err(Unread::Unsaid);
        };
        out.push_str(word)?;
        out.push_str("::")?;
        if let Some(raw) = last_string(&tokens) {
            return write_string(alloc, out, raw);
        }
    }
}

/// Appends the entity that a text is, as `A::B::"x"`.
pub fn write_told(alloc: Global, out: &mut String, text: &str) -> Result<(), Unread>
    ensures told { Tells result (uid_read text.now) }
    ensures written { Appends result out.old out.new (read_written (tokens_of (chars text.now))) }
{
    match Tokens::new(text) {
        Ok(tokens) => write_path(alloc, out, tokens),
        Err(_) => Err(Unread::Unsaid),
    }
}
