ghost use Rattle.lease_model.specs.worked.RunsOfCuts.{PlainCut, CutInFlush, RepliesLost, RepliesLostAfter, KeptOpenBroken};
ghost use Rattle.lease_model.specs.worked.RunsOfCuts.{BreakingCut, BreakingCutAlone, ScavengedOpen, CreatedLost, NoBaseKept};

/// Runs in which connections are lost: without a durable open, in a flush, with replies lost, with a
/// kept open that is broken or scavenged, and with a reply to a create lost.
pub fn runs_of_cuts()
    ensures plain_cut { PlainCut }
    ensures cut_in_flush { CutInFlush }
    ensures replies_lost { RepliesLost }
    ensures replies_lost_after { RepliesLostAfter }
    ensures kept_open_broken { KeptOpenBroken }
    ensures breaking_cut { BreakingCut }
    ensures breaking_cut_alone { BreakingCutAlone }
    ensures scavenged_open { ScavengedOpen }
    ensures created_lost { CreatedLost }
    ensures no_base_kept { NoBaseKept }
{}
