// What Cedar's expressions mean, and what policies answer, in definitions and their laws.
#![tactic(auto)]

ghost use Rattle.std.specs.Cmp.{IsTotalOrder};
ghost use Rattle.std.specs.FinMap.{IsAntisymmetric};
ghost use Rattle.cedar_language.specs.Answering.{RulesAreFair, RulesAreSharp, RulesAreExact, SessionsKeep};
ghost use Rattle.cedar_language.specs.Authorization.{StandingsAreMeant};
ghost use Rattle.cedar_language.specs.Height.{LinkingKeepsHeight};
ghost use Rattle.cedar_language.specs.Means.{MeaningIsMeant};
ghost use Rattle.cedar_language.specs.Order.{value_cmp};
ghost use Rattle.cedar_language.specs.Pattern.{DecidesMatches};
ghost use Rattle.cedar_language.specs.Sets.{SetsAreFinite};

/// Values are in a total order, in which equal ones alone tie.
pub fn values_are_ordered()
    ensures total { IsTotalOrder value_cmp }
    ensures same { IsAntisymmetric value_cmp }
{}

/// Each tree means one thing: what it means by cases is what the function gives.
pub fn meaning_is_meant()
    ensures { MeaningIsMeant }
{}

/// Whether characters match a pattern is decided.
pub fn decides_matches()
    ensures { DecidesMatches }
{}

/// A policy is satisfied, or errs with a kind, by what its condition means.
pub fn standings_are_meant()
    ensures { StandingsAreMeant }
{}

/// Decision, must and may of open answers hold under each filling.
pub fn rules_are_fair()
    ensures { RulesAreFair }
{}

/// What a session keeps of its answers holds where each of them does, and the last one says all.
pub fn sessions_keep()
    ensures { SessionsKeep }
{}

/// A set of values is determined by its members.
pub fn sets_are_finite()
    ensures { SetsAreFinite }
{}

/// Fewer open policies give an answer that is as sharp.
pub fn rules_are_sharp()
    ensures { RulesAreSharp }
{}

/// Where no policy is open, decision and reasons are those under the filling.
pub fn rules_are_exact()
    ensures { RulesAreExact }
{}

/// A policy with the entities written in the places of its slots is as high as with its slots.
pub fn linking_keeps_height()
    ensures { LinkingKeepsHeight }
{}
