//! The laws of these types: each is a function without a body whose contract is the law, so that a caller's proof can
//! cite it by a call.
ghost use Rattle.cedar_scalars.specs.Laws.{KeysAreRead, RangeKeysAreRead, KeysGoAsLongs, DecimalsAreRead, DecimalsAreReadBack};
ghost use Rattle.cedar_scalars.specs.Laws.{DurationsAreRead, DurationsAreReadBack, RangesAreReadBack, RangesOfTextsAreProper};
ghost use Rattle.cedar_scalars.specs.Laws.{OffsetsAdd, OffsetsAreBetween, TimesAreOfOneDay, InstantsAreTheirParts, MidnightsStay};
ghost use Rattle.cedar_scalars.specs.Laws.{DaysGoAsDates, DaysHaveDates};
ghost use Rattle.cedar_scalars.specs.Laws.{RangesAreWithinThemselves, RangesAreNested, RangesAreTheirAddresses};

/// The long of a key is the one whose key it is, so keys are equal exactly where the longs are.
#[tactic(auto, using(crate::proofs::KeyLaws::keys_read))]
pub fn keys_are_read()
    ensures { KeysAreRead }
{}

/// The range of a key is the one whose key it is, so keys are equal exactly where the ranges are.
pub fn range_keys_are_read()
    ensures { RangeKeysAreRead }
{}

/// Byte by byte, keys are ordered as their longs.
#[tactic(auto, using(crate::proofs::KeyOrder::keys_go))]
pub fn keys_go_as_longs()
    ensures { KeysGoAsLongs }
{}

/// A text is a decimal exactly where it is a sign, digits, a point and one to four digits, and the number that these
/// say is a long of ten thousandth parts.
pub fn decimals_are_read()
    ensures { DecimalsAreRead }
{}

/// What `Decimal::print` writes is read back, whatever the number.
#[tactic(auto, using(crate::proofs::Printing::decimal_back))]
pub fn decimals_are_read_back()
    ensures { DecimalsAreReadBack }
{}

/// A text is a duration exactly where it is a sign, then numbers of days, hours, minutes, seconds and milliseconds with
/// their units, in this order, some but not all left out, and the milliseconds that these say are a long.
pub fn durations_are_read()
    ensures { DurationsAreRead }
{}

/// What `Duration::print` writes is read back, whatever the number.
#[tactic(auto, using(crate::proofs::Printing::duration_back))]
pub fn durations_are_read_back()
    ensures { DurationsAreReadBack }
{}

/// What `IpRange::print` writes is read back, where the prefix has no more bits than the address.
pub fn ranges_are_read_back()
    ensures { RangesAreReadBack }
{}

/// A range of a text has an address as there are, and no more bits than it has: so its key is read, and what is
/// written of it read back.
pub fn ranges_of_texts_are_proper()
    ensures { RangesOfTextsAreProper }
{}

/// An offset and a further one are that by the sum of both, wherever the first has an instant.
#[tactic(auto, using(crate::proofs::Reckoning::offsets_add))]
pub fn offsets_add()
    ensures { OffsetsAdd }
{}

/// The time between an instant and an offset of it is what it was offset by.
#[tactic(auto, using(crate::proofs::Reckoning::offsets_between))]
pub fn offsets_are_between()
    ensures { OffsetsAreBetween }
{}

/// An instant is its midnight and its time of day, which is from 0 on and less than a day; a midnight is its own.
#[tactic(auto, using(crate::proofs::Reckoning::times_of_one_day, crate::proofs::Reckoning::parts_of_instants, crate::proofs::Reckoning::midnights))]
pub fn instants_are_their_parts()
    ensures times { TimesAreOfOneDay }
    ensures parts { InstantsAreTheirParts }
    ensures midnights { MidnightsStay }
{}

/// Days go as their dates do, by years, then months, then days of the month.
pub fn days_go_as_dates()
    ensures { DaysGoAsDates }
{}

/// Each day from the first of year 0 on is that of a date: of one, since days go as their dates do.
pub fn days_have_dates()
    ensures { DaysHaveDates }
{}

/// Each range is within itself, and what is within a range is within all that this is within.
#[tactic(auto, using(crate::proofs::Nesting::within_itself, crate::proofs::Nesting::nested))]
pub fn ranges_are_nested()
    ensures itself { RangesAreWithinThemselves }
    ensures nested { RangesAreNested }
{}

/// A range is within another of its version exactly where each address of it, by its bits, is one of the other.
pub fn ranges_are_their_addresses()
    ensures { RangesAreTheirAddresses }
{}
