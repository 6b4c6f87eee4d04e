// What is answered while parts of a question are unknown: settling, partial evaluation and telling, in definitions and their laws.
#![tactic(auto)]

ghost use Rattle.cedar_partial_evaluation.specs.Mentions.{KnownTreesSettle, NamesDontMatter, WithoutUnknowns};
ghost use Rattle.cedar_partial_evaluation.specs.Leaves.{KnownIsNeverLeft, LeavesDontMatter, MentionedIsMeant};
ghost use Rattle.cedar_partial_evaluation.specs.Errors.{SettlingIsOne};
ghost use Rattle.cedar_partial_evaluation.specs.Alike.{ProjectingIsEvaluating, GatheredAlwaysSplits};
ghost use Rattle.cedar_partial_evaluation.specs.ReadUnknowns.{UnknownsAreRead};
ghost use Rattle.cedar_partial_evaluation.specs.DataErrors.{DataErrsInParts};
ghost use Rattle.cedar_partial_evaluation.specs.EarlyRows.{EarlyRows};
ghost use Rattle.cedar_partial_evaluation.specs.LinkingEarly.{LinkingIsWritingEarly};
ghost use Rattle.cedar_partial_evaluation.specs.Linking.{LinkingIsWriting};
ghost use Rattle.cedar_partial_evaluation.specs.Partial.{KnownIsMeaning};
ghost use Rattle.cedar_partial_evaluation.specs.Prompt.{IsPrompt, KindsAreMeant};
ghost use Rattle.cedar_partial_evaluation.specs.Filling.{FilledIsMeant, AnswersAreFair, AnswersArePrompt};
ghost use Rattle.cedar_partial_evaluation.specs.Question.{TellingCarries};
ghost use Rattle.cedar_partial_evaluation.specs.Seam.{ResidualsSettle};
ghost use Rattle.cedar_partial_evaluation.specs.Telling.{ToldAreRead, SettledIsMeant, LaterAnswersAreFair, LaterAnswersArePrompt, ContextsStay};
ghost use Rattle.cedar_partial_evaluation.specs.Early.{EarlyAnswersAreFair, EarlyAnswersArePrompt, EarlyKindsAreSettled, AllToldIsKnown, LastAnswersAreExact, FilledIsKnown};
ghost use Rattle.cedar_partial_evaluation.specs.Reauthorizing.{ReauthorizingIsFair, ReauthorizingIsSharp, ErrorsAreNamed, ReauthorizingIsExact};
ghost use Rattle.cedar_partial_evaluation.specs.Settling.{MeaningIsSettled};
ghost use Rattle.cedar_partial_evaluation.specs.UnboundSeam.{UnboundResidualsSettle, UnboundAnswersArePrompt};
ghost use Rattle.cedar_partial_evaluation.specs.Unbound.{UnboundAnswersAreFair};
ghost use Rattle.cedar_partial_evaluation.specs.Waiting.{WhatIsLeftWaits, WaitingIsAnsweredAlike};

/// Where everything is known, what is settled of a tree is what it means.
pub fn meaning_is_settled()
    ensures { MeaningIsSettled }
{}

/// Where everything is known, the kind of error to which a tree settles is the one that it means.
pub fn kinds_are_meant()
    ensures { KindsAreMeant }
{}

/// Where everything is known, the answer is what the tree means, the kind of an error included.
pub fn known_is_meaning()
    ensures { KnownIsMeaning }
{}

/// Each answer is a result to which its tree settles, where there is one.
pub fn answers_are_prompt()
    ensures { IsPrompt }
{}

/// Once more values are told, what an answer left settles wherever its tree does.
pub fn residuals_settle()
    ensures { ResidualsSettle }
{}

/// Telling more values carries on what is settled.
pub fn telling_carries()
    ensures { TellingCarries }
{}

/// Under each filling of a question an answer means what its tree means.
pub fn question_answers_are_fair()
    ensures { AnswersAreFair }
{}

/// Of a question an answer is a result to which its tree settles, where there is one.
pub fn question_answers_are_prompt()
    ensures { AnswersArePrompt }
{}

/// What is settled under a filling is what the known question means that it makes.
pub fn filled_is_meant()
    ensures { FilledIsMeant }
{}

/// A told value of the stated type is the unknown's value, and another one is a `TypeError`.
pub fn told_are_read()
    ensures { ToldAreRead }
{}

/// What is settled of a tree is what it means under each filling.
pub fn settled_is_meant()
    ensures { SettledIsMeant }
{}

/// A residual evaluated again means what its tree means.
pub fn later_answers_are_fair()
    ensures { LaterAnswersAreFair }
{}

/// A residual evaluated again settles wherever its tree does.
pub fn later_answers_are_prompt()
    ensures { LaterAnswersArePrompt }
{}

/// A context evaluated again is the context evaluated with all values told.
pub fn contexts_stay()
    ensures { ContextsStay }
{}

/// An early answer holds under each filling.
pub fn early_answers_are_fair()
    ensures { EarlyAnswersAreFair }
{}

/// An early answer is as sharp as the one by what is settled of the policies.
pub fn early_answers_are_prompt()
    ensures { EarlyAnswersArePrompt }
{}

/// A policy that settles to an error errs in the early answer, with a kind to which it settles.
pub fn early_kinds_are_settled()
    ensures { EarlyKindsAreSettled }
{}

/// A tree that mentions nothing unknown settles.
pub fn known_trees_settle()
    ensures { KnownTreesSettle }
{}

/// A policy with its slots bound means what it means with the entities written in their places.
pub fn linking_is_writing()
    ensures { LinkingIsWriting }
{}

/// Once all is told, the answer is what the tree means, kinds of errors included.
pub fn all_told_is_known()
    ensures { AllToldIsKnown }
{}

/// A policy without unknowns stands under a filling as it stands to the known question.
pub fn filled_is_known()
    ensures { FilledIsKnown }
{}

/// Once all is told, a residual's answer is what its tree means.
pub fn last_answers_are_exact()
    ensures { LastAnswersAreExact }
{}

/// A residual evaluated again without slots means what its tree means with them.
pub fn unbound_answers_are_fair()
    ensures { UnboundAnswersAreFair }
{}

/// What an answer left settles without slots wherever its tree does with them.
pub fn unbound_residuals_settle()
    ensures { UnboundResidualsSettle }
{}

/// A residual evaluated again without slots settles wherever its tree does with them.
pub fn unbound_answers_are_prompt()
    ensures { UnboundAnswersArePrompt }
{}

/// What stands for unknown names has nothing to do with a tree in which none stands.
pub fn names_dont_matter()
    ensures { NamesDontMatter }
{}

/// The answer to policies that are taken up again, once more values are told, holds under each filling.
pub fn reauthorizing_is_fair()
    ensures { ReauthorizingIsFair }
{}

/// The answer to policies that are taken up again is as sharp as the one by what is settled of the policies.
pub fn reauthorizing_is_sharp()
    ensures { ReauthorizingIsSharp }
{}

/// A policy that settles to an error once more values are told erred at first, or errs when it is taken up again.
pub fn errors_are_named()
    ensures { ErrorsAreNamed }
{}

/// Once all is told, the answer to policies that are taken up again has the decision and the reasons of the known question.
pub fn reauthorizing_is_exact()
    ensures { ReauthorizingIsExact }
{}

/// What is left of a tree stays left until a name that stands in it has a value.
pub fn what_is_left_waits()
    ensures { WhatIsLeftWaits }
{}

/// Policies that are taken up again are answered alike until a name that stands in what is left of one has a value.
pub fn waiting_is_answered_alike()
    ensures { WaitingIsAnsweredAlike }
{}

/// Where no unknown stands in a tree, any values give each of its unknowns one.
pub fn without_unknowns()
    ensures { WithoutUnknowns }
{}

/// A tree that mentions only what is known is never left.
pub fn known_is_never_left()
    ensures { KnownIsNeverLeft }
{}

/// Leaves that a tree doesn't mention have nothing to do with what is answered, settled and meant of it.
pub fn leaves_dont_matter()
    ensures { LeavesDontMatter }
{}

/// A tree that mentions nothing missing is answered by what it means, whatever stands for what is missing.
pub fn mentioned_is_meant()
    ensures { MentionedIsMeant }
{}

/// A tree settles to an error exactly where it settles to some kind of it.
pub fn settling_is_one()
    ensures { SettlingIsOne }
{}

/// An entry that is projected is what its tree is evaluated to again.
pub fn projecting_is_evaluating()
    ensures { ProjectingIsEvaluating }
{}

/// What is split off evaluated operands is what is gathered of them.
pub fn gathered_splits()
    ensures { GatheredAlwaysSplits }
{}

/// With its slots bound, a policy stands early, and errs, as it does with the entities written in their places.
pub fn linking_is_writing_early()
    ensures { LinkingIsWritingEarly }
{}

/// Calls of `unknown` are read as unknowns: once, in data as anywhere, and nothing else is changed.
pub fn unknowns_are_read()
    ensures { UnknownsAreRead }
{}

/// Data is refused once values are told exactly where some part of it errs, all of whose names are told.
pub fn data_errs_in_parts()
    ensures { DataErrsInParts }
{}

/// Worked rows: what is answered and settled of small trees at small questions.
pub fn early_rows()
    ensures { EarlyRows }
{}
