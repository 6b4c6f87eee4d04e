//! The laws of the functions of these types: each is a function without a body whose contract is the law, so that a
//! caller's proof can cite it by a call.
ghost use Rattle.cedar_extension_types.specs.Answers.{datetime_value, duration_value};
ghost use Rattle.cedar_extension_types.specs.Laws.{AnswersAreFlat, NamesCallTheirFunctions, UnknownIsCalled};
ghost use Rattle.cedar_extension_types.specs.Laws.{NumbersAreRead, RangesAreRead, AreOrdered, DecimalsHaveNoOrder};
ghost use Rattle.cedar_extension_types.specs.Laws.{WrittenNumbersAreAnswered, WrittenRangesAreAnswered, EpochIsAnswered};

/// Each answer of these functions is a literal or an extension value, so its height is 2 at most.
#[tactic(auto, using(crate::proofs::Flat::answers_are_flat))]
pub fn answers_are_flat()
    ensures { AnswersAreFlat }
{}

/// In the table of the standard types and of `unknown`, each of their names calls the function of that name.
#[tactic(auto, using(crate::proofs::Calling::names_call, crate::proofs::Calling::unknown_called))]
pub fn names_call_their_functions()
    ensures standard { NamesCallTheirFunctions }
    ensures unknown { UnknownIsCalled }
{}

/// What these functions make is what they read: the number or range of a value is the one of which it was made.
#[tactic(auto, using(crate::proofs::Reading::numbers_read, crate::proofs::Reading::ranges_read))]
pub fn values_are_read()
    ensures numbers { NumbersAreRead }
    ensures ranges { RangesAreRead }
{}

/// `<` and `<=` of instants, and of durations, are those of their numbers. Decimals have no order.
pub fn operators_go_as_numbers()
    ensures instants { AreOrdered datetime_value }
    ensures durations { AreOrdered duration_value }
    ensures decimals { DecimalsHaveNoOrder }
{}

/// The function of a type answers the value to the text that is written of it; an instant, which not always has a
/// text, is the offset from 1970 by its milliseconds.
#[tactic(auto, using(crate::proofs::Writing::ranges_answered, crate::proofs::Writing::epoch_answered))]
pub fn written_values_are_answered()
    ensures numbers { WrittenNumbersAreAnswered }
    ensures ranges { WrittenRangesAreAnswered }
    ensures epoch { EpochIsAnswered }
{}
