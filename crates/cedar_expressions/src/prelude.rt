//! The traits whose methods the items of this library have, for a caller to import together: conversions
//! that take memory (`FromIn`, `FromNormalizedStr`), types of values (`StaticallyTyped`), what is read of
//! an expression (`ExprReaders`, `ExprShape`, `ExprValidation`, `FunctionTypes`), expressions built again
//! (`IntoExpr`, `Substitute`, `SubstituteExprs`, `SubstitutionFunction`), and values written as expressions
//! and read of them (`ToExpr`, `TryFromExpr`). The two traits of bounded texts are left to `ast`, since their
//! methods have the names of those of `Display` and `ToString`, and so are the builders' to `expr_builder`.

pub use cedar_extensions::validation::ExprValidation;
pub use cedar_literals::types::StaticallyTyped;
pub use cedar_names::conversions::FromIn;
pub use cedar_names::reading::FromNormalizedStr;
pub use cedar_restricted::from_expr::TryFromExpr;
pub use cedar_restricted::to_expr::ToExpr;
pub use cedar_shapes::readers::ExprReaders;
pub use cedar_shapes::shapes::ExprShape;
pub use cedar_shapes::types::FunctionTypes;
pub use cedar_substitution::functions::SubstitutionFunction;
pub use cedar_substitution::into_expr::IntoExpr;
pub use cedar_substitution::substitution::SubstituteExprs;
pub use cedar_substitution::told_values::Substitute;
