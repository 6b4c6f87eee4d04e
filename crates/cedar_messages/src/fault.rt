// What is wrong with a text, as data.
ghost use Rattle.std.specs.Prelude.{◌≡◌, string_bytes};
ghost use Rattle.std.specs.Option.{option_map};
ghost use Rattle.cedar_messages.specs.Faults.{reach};
ghost use Rattle.cedar_messages.specs.Json.{expected_in, help_in, kind_in, message_in};
ghost use Rattle.cedar_messages.specs.Places.{extent_at};

use crate::marking::{Underline, mark_at};
use crate::places::{Extent, extent_in};
use cedar_names::places::Span;

/// What is wrong with a text, and where.
#[derive(Debug, Drop)]
pub struct Fault {
    pub(crate) extent: Option<Extent>,
    pub(crate) kind: &'static str,
    pub(crate) message: String,
    pub(crate) mark: Option<Underline>,
    pub(crate) expected: Option<String>,
    pub(crate) help: Option<String>,
}

impl Fault {
    /// The fault of a part of a text, if it is known which bytes that is. Its first character is what is marked.
    pub fn of_part(text: &str, span: Option<Span>, kind: &'static str, message: String) -> Fault
        ensures place { reach result ≡ option_map (extent_at text.now) span }
        ensures kind { kind_in result ≡ kind.now }
        ensures message { message_in result ≡ string_bytes message }
    {
        let extent = match span {
            Some(span) => Some(extent_in(text, span)),
            None => None,
        };
        Fault {
            extent,
            kind,
            message,
            mark: mark_at(extent, span),
            expected: None,
            help: None,
        }
    }

    /// The fault of what no line of a text shows.
    pub fn unmarked(extent: Option<Extent>, kind: &'static str, message: String) -> Fault
        ensures place { reach result ≡ extent }
        ensures kind { kind_in result ≡ kind.now }
        ensures message { message_in result ≡ string_bytes message }
    {
        Fault {
            extent,
            kind,
            message,
            mark: None,
            expected: None,
            help: None,
        }
    }

    /// From where to where it reaches in the text, in lines and characters from 1; none where no place is known.
    pub fn extent(&self) -> Option<Extent>
        ensures { result ≡ reach self.now }
    {
        self.extent
    }

    /// Its kind: the name that the error of the text has (`InvalidSingleEq`), or else the refusal (`Shape`).
    pub fn kind(&self) -> &'static str
        ensures { result.now ≡ kind_in self.now }
    {
        self.kind
    }

    /// What is wrong, in a sentence. It may have line feeds and other control characters.
    pub fn message(&self) -> &str
        ensures { result.now ≡ message_in self.now }
    {
        self.message.as_str()
    }

    /// The tokens of which one was expected, as `expected a, b, or c`, where that is known.
    pub fn expected(&self) -> Option<&str>
        ensures { option_map (λ t. t.now) result ≡ expected_in self.now }
    {
        match &self.expected {
            Some(tokens) => Some(tokens.as_str()),
            None => None,
        }
    }

    /// What helps against it, where something does.
    pub fn help(&self) -> Option<&str>
        ensures { option_map (λ t. t.now) result ≡ help_in self.now }
    {
        match &self.help {
            Some(sentence) => Some(sentence.as_str()),
            None => None,
        }
    }
}
