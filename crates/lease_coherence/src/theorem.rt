ghost use Rattle.lease_coherence.specs.Parts.{EveryRunIsSafe};

/// Every run is safe: for every allowed setup (no more files, no longer ones and no more clients
/// than docs/PROFILE.md allows, and no two clients with one ClientGuid) and every list of events,
/// the record of the run is safe. It is well formed; where a client that the server has, that never
/// strayed and let no break timer run out since it connected, believes that it may cache writes of
/// a file, no other such client believes that it may cache anything of it; a cached read of such a
/// client gives the file as it stood when the message that the client took last was sent, with its
/// own unanswered writes; no buffered write is accepted after another client opened or changed its
/// file; and no write is settled as done that wasn't accepted. There is no other premise. Does
/// nothing.
pub fn coherent()
    ensures safe { EveryRunIsSafe }
{}
