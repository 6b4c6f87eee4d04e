// Tokens of texts, and what raw strings stand for.
use cedar_rows::{Answer, no_case, spell, tell};
use cedar_tokens::{loose_nesting, to_unescaped_string, tokenize, unescape_parts};
use std::alloc::Global;

pub(crate) fn answer(alloc: Global, verb: &str, text: &str) -> Answer {
    match verb {
        "all" => spell(alloc, tokenize(alloc, text)),
        "levels" => tell(alloc, loose_nesting(text)),
        "unescaped" => spell(alloc, to_unescaped_string(alloc, text)),
        "parts" => spell(alloc, unescape_parts(alloc, text)),
        _ => no_case(alloc),
    }
}
