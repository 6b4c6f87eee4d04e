//! The conversion of loose trees to expressions: of words, names, strings, patterns, literals and entities, and
//! of whole expressions through any builder.
#![tactic(auto)]

mod applying;
mod building;
mod calls;
mod expressions;
mod heads;
mod laws;
mod literals;
mod lookahead;
mod meanings;
mod names;
mod primaries;
mod records;
mod relations;
mod signs;
mod strings;
mod variables;

pub use applying::{Joint, join};
pub use building::pushed;
pub use calls::call;
pub use heads::{
    Head, attribute, entity_to_head, expr_to_head, head_to_expr, index, literal_to_head,
    set_to_head, slot_to_head,
};
pub use laws::{calls_are_named, trees_are_built};
pub use literals::{to_literal, to_ref};
pub use lookahead::{
    alone, lone_comparison, lone_number, only_add, only_and, only_mult, only_or, only_relation,
    only_unary, to_lit, unsigned, without_accesses,
};
pub use meanings::{primary_to_expr, to_expr};
pub use names::{spelling, to_any_ident, to_name, to_unreserved_ident, to_valid_ident};
pub use primaries::{
    to_entity_type, to_fields, to_index, to_key, to_like_pattern, to_slot, to_string_literal,
};
pub use records::{pushed_entry, record_to_head};
pub use relations::{has, is_type, is_type_in, ite, like};
pub use signs::{Sign, negative, signed};
pub use strings::{to_pattern, to_text};
pub use variables::{to_variable, word_to_variable};
