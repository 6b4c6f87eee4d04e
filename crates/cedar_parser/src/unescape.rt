//! What strings stand for: `to_unescaped_string` takes what is written between the quotes, and says by an
//! `UnescapeError` of `err` where that stands for no text.

pub use cedar_tokens::to_unescaped_string;
