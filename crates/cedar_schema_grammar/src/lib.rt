//! The syntax of schemas: tokens, the strict grammar, and the schema that a text is. Definitions, and the laws that they are one.
#![tactic(auto)]

ghost use Rattle.cedar_schema_grammar.specs.Environments.{EnvironmentsAreListed};
ghost use Rattle.cedar_schema_grammar.specs.Laws.{TokensAreRead, TextsAreRead, OneSchema, GroupsAreTransitive, ParentsAreTransitive, CyclesAreFound, CommonTypesSettle, CommonTypesUnfold, NothingIsLeftOut, ContextsAreWhole, AncestorsConform, ActionsConform};

use cedar_typing::parents_are_enough;

/// The reading functions give what the grammar says of tokens, and of a text, and nothing else.
pub fn reading_gives_the_syntax()
    ensures tokens { TokensAreRead }
    ensures texts { TextsAreRead }
{}

/// A text says one thing at most, so that it is one schema at most.
pub fn texts_are_one_schema()
    ensures { OneSchema }
{}

/// What a schema says of groups and parents is what one or more edges lead to, and a common type is told to be in a cycle
/// exactly where references lead from it to itself.
pub fn hierarchies_are_transitive()
    ensures groups { GroupsAreTransitive }
    ensures parents { ParentsAreTransitive }
    ensures cycles { CyclesAreFound }
{}

/// Where no common type is within itself, each is the type that is written for it, also of a text with other faults.
pub fn common_types_settle()
    ensures { CommonTypesSettle }
{}

/// Of a text without faults each common type is the type that is written for it, and nothing is left out that is written of an
/// entity type or of a context.
pub fn schemas_say_all_that_is_written()
    ensures common_types { CommonTypesUnfold }
    ensures entity_types { NothingIsLeftOut }
    ensures contexts { ContextsAreWhole }
{}

/// Facts have the hierarchies that a schema asks for where each direct parent is of a type that may stand there, and those of each
/// declared action are its groups.
pub fn direct_parents_conform()
    ensures ancestors { AncestorsConform }
    ensures actions { ActionsConform }
{
    parents_are_enough();
}

/// The environments of a schema that a text is are finitely many, but for slots: those of the actions and the types that they
/// apply to.
pub fn environments_are_listed()
    ensures { EnvironmentsAreListed }
{}
