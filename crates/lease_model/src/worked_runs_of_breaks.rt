ghost use Rattle.lease_model.specs.worked.RunsOfBreaks.{WholeBreak, LateBreak, LateBreakAfter, ParkedHandleBreak};
ghost use Rattle.lease_model.specs.worked.RunsOfBreaks.{UsedHandleBreak, Timer};

/// Runs in which leases are broken: the break of cached writes, one that comes late, the two of
/// cached handles, and one whose timer runs out.
pub fn runs_of_breaks()
    ensures whole_break { WholeBreak }
    ensures late_break { LateBreak }
    ensures late_break_after { LateBreakAfter }
    ensures parked_handle_break { ParkedHandleBreak }
    ensures used_handle_break { UsedHandleBreak }
    ensures timer { Timer }
{}
