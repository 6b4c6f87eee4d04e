//! Texts that are read by the strict grammar: each call reads a whole text and gives what it writes, or why it
//! is refused. Begin with `parse_policyset` for policies, by a table of functions,
//! or with `parse_expr_strict` for an expression, by the names that it may call.

pub use crate::expressions::parse_expr_strict;
pub use crate::leaves::parse_euid_strict;
pub use crate::literals::parse_literal_strict;
pub use crate::restricted::parse_restrictedexpr;
pub use crate::sets::{parse_policyset, parse_policyset_strict};
