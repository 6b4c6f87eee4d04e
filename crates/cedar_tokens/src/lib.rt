//! Tokens of Cedar texts, what they spell, and which of them may be expected at a place.
#![tactic(auto)]

mod characters;
mod error;
mod escapes;
mod expected;
mod expected_kinds;
mod kinds;
mod marks;
mod nesting;
mod reader;
mod strings;
mod tokenizer;
mod tokens;
mod words;

pub use characters::{Class, next_char, skip_blank, split_run, strip_char};
pub use error::{TokenError, UnescapeError};
pub use escapes::Part;
pub use expected::{ExpectedTokenConfig, POLICY_TOKEN_CONFIG, expected_to_string};
pub use expected_kinds::{KIND_NAMES, Kinds};
pub use nesting::loose_nesting;
pub use reader::Tokens;
pub use strings::{split_inside, to_unescaped_string, unescape_parts};
pub use tokenizer::tokenize;
pub use tokens::{Mark, Span, Token, TokenKind, Word};
