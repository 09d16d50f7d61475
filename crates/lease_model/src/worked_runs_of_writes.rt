ghost use Rattle.lease_model.specs.worked.RunsOfWrites.{CrossingWrites, TwoWrites, BreakToReads};

/// Runs of writes that meet leases of others: two that cross, two that need one break, and one that
/// a break to R holds.
pub fn runs_of_writes()
    ensures crossing_writes { CrossingWrites }
    ensures two_writes { TwoWrites }
    ensures break_to_reads { BreakToReads }
{}
