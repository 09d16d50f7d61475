ghost use Rattle.lease_model.specs.worked.RunsOfReads.{Staleness, OwnWrites, NoEvent};

/// Runs of cached reads: staleness, own writes, and a setup with no event.
pub fn runs_of_reads()
    ensures staleness { Staleness }
    ensures own_writes { OwnWrites }
    ensures no_event { NoEvent }
{}
