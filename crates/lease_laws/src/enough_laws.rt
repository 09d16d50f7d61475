ghost use Rattle.lease_laws.specs.server.Enough.{TriesEnd, ThreeRoundsAreEnough, PassesEnd, PassesAreEnough};

/// A try of a request ends in three rounds, and the passes over the requests held on a file end in
/// one more than are held: what ends them is never the number that they are allowed.
pub fn rounds_and_passes_end()
    ensures tries_end { TriesEnd }
    ensures three_rounds { ThreeRoundsAreEnough }
    ensures passes_end { PassesEnd }
    ensures enough_passes { PassesAreEnough }
{}
