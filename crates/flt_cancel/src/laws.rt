//! The consequences of the rule: laws of the pads between any two steps.
ghost use Rattle.flt_cancel.specs.Laws.{NoneIsInvented, NoneIsLost, OneHistory};

/// Between any two steps each serial was collected at most as often as it was asked, counting its present bit as one collection more; and a
/// serial that was asked was collected or is present.
pub fn none_invented()
    ensures { NoneIsInvented }
{}

/// Each single ask is answered: some step after it collected the serial, or its bit is still present.
pub fn none_lost()
    ensures { NoneIsLost }
{}

/// The steps that the contracts of the seats speak of are those of one list, which leaves the words as they are.
pub fn one_history()
    ensures { OneHistory }
{}
