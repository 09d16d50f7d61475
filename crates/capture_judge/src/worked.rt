ghost use Rattle.capture_judge.specs.Worked.{HurriedIsUnsafe, LeftOutIsClean, LoweredIsClean, ReversedIsContradictory};

/// Worked examples of what the definitions say of chains. A lease for writes may have been lowered in time before another client
/// got one; and a change that may have happened, and would have delayed the next one, may be left out. Does nothing.
pub fn doubts_are_in_favor()
    ensures lowered { LoweredIsClean }
    ensures left_out { LeftOutIsClean }
{}

/// A change that can be late by its own bounds, and comes before one that can't, clashes with what another client caches then.
/// Does nothing.
pub fn later_changes_hurry_earlier_ones()
    ensures { HurriedIsUnsafe }
{}

/// A change that begins after the last position of the next one can't be placed. Does nothing.
pub fn contradictions_have_no_placement()
    ensures { ReversedIsContradictory }
{}
