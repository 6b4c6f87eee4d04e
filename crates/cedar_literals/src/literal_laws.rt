// Laws of literals, types and patterns.
ghost use Rattle.std.specs.Cmp.{IsTotalOrder};
ghost use Rattle.std.specs.FinMap.{IsAntisymmetric};
ghost use Rattle.cedar_names.specs.Laws.{TestsSame};
ghost use Rattle.cedar_literals.specs.Literals.{literal_cmp, same_literal};
ghost use Rattle.cedar_literals.specs.Operators.{UnaryOperatorsAreToldApart, BinaryOperatorsAreToldApart};
ghost use Rattle.cedar_literals.specs.Patterns.{pattern_cmp, same_pattern, PatternsAreToldApart};
ghost use Rattle.cedar_literals.specs.Types.{type_cmp, same_type};
ghost use Rattle.cedar_literals.specs.Variables.{VariablesAreToldApart};

/// `==` holds of literals, of types and of patterns exactly where they are the same; no place counts.
pub fn equality_is_sameness()
    ensures literals { TestsSame same_literal }
    ensures types { TestsSame same_type }
    ensures patterns { TestsSame same_pattern }
{}

/// Literals, types and patterns are each in a total order, in which the same ones alone tie.
pub fn orders_are_total()
    ensures literals { IsTotalOrder literal_cmp }
    ensures same_literals { IsAntisymmetric literal_cmp }
    ensures types { IsTotalOrder type_cmp }
    ensures same_types { IsAntisymmetric type_cmp }
    ensures patterns { IsTotalOrder pattern_cmp }
    ensures same_patterns { IsAntisymmetric pattern_cmp }
{}

/// Each pattern is written in its own way: a star that stands for itself isn't written as a wildcard.
pub fn patterns_are_told_apart()
    ensures { PatternsAreToldApart }
{}

/// Each variable and each operator is one of the language's own, so `==` holds exactly where those are
/// the same.
pub fn operators_are_told_apart()
    ensures variables { VariablesAreToldApart }
    ensures unary { UnaryOperatorsAreToldApart }
    ensures binary { BinaryOperatorsAreToldApart }
{}
