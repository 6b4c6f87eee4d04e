//! The conversion of loose trees to what they write, or to the faults of those that mean nothing. Begin with
//! `to_policyset` for a whole text, with `to_policy_or_template` for one policy, or with `to_expr` for an
//! expression, which any builder builds; the others convert parts of these.

pub use cedar_conversion::{
    to_any_ident, to_expr, to_lit, to_ref, to_string_literal, to_valid_ident,
};
pub use cedar_faults::{flatten_tuple_2, flatten_tuple_3, flatten_tuple_4};
pub use cedar_policy_conversion::{
    NumberedPolicies, OneOrMultipleRefs, extract_scope, get_ast_annotations, to_kv_pair, to_policy,
    to_policy_or_template, to_policy_template, to_policyset, to_ref_or_slot, to_refs, to_template,
    with_generated_policyids,
};
