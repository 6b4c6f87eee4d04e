// Laws of substitution.
ghost use Rattle.cedar_substitution.specs.Laws.{SubstitutedIsBuiltAlike, SubstitutedValuesAreBuiltAlike};

use cedar_builders::expr_builder::ExprBuilder;

/// What any builder makes of an expression that was substituted is what it makes where it substitutes
/// while it builds.
pub fn substituted_is_built_alike<B: ExprBuilder>()
    ensures { SubstitutedIsBuiltAlike B.operations }
{}

/// Of what `substitute` answers, any builder gives by `into_expr` exactly what it may give by
/// `substitute_into_expr` with the same values told: the same meaning, or the same refusal.
pub fn substituted_values_are_built_alike<B: ExprBuilder>()
    ensures { SubstitutedValuesAreBuiltAlike B.operations B.meaning B.refusal }
{}
