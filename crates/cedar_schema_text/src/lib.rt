//! Texts of schemas: their tokens, and their syntax.
#![tactic(auto)]

mod actions;
mod annotations;
mod declarations;
mod entities;
mod kinds;
mod marks;
mod names;
mod nesting;
mod parse;
mod read_error;
mod reader;
mod syntax_error;
#[cfg(test)]
mod tests;
mod texts;
mod tokenizer;
mod tokens;
mod types;

pub use parse::parse_schema;
pub use read_error::SyntaxFault;
pub use syntax_error::SchemaSyntaxError;
pub use tokenizer::tokenize;
pub use tokens::{Mark, Token, TokenKind};
