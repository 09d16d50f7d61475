ghost use Rattle.lease_coherence.specs.Agreement.{AcknowledgmentsAreDue, BasesAreCurrent, BeliefsAreHeld, BeliefsRiseByGrants};
ghost use Rattle.lease_coherence.specs.Agreement.{BelieversAreNotHeld, BreakingIsAnswered, ClosedOpensStayClosed};
ghost use Rattle.lease_coherence.specs.Agreement.{FlushedBeforeAcknowledgments, FlushedBeforeCloses, GoodClientsAreTimely};
ghost use Rattle.lease_coherence.specs.Agreement.{HeldWritesAreThrough, KeptIsUntouched, OfAllowedRuns, Timely};
ghost use Rattle.lease_coherence.specs.Agreement.{WritersAreNotHeld};
ghost use Rattle.lease_coherence.specs.Parts.{OfRuns};

/// What clients and the server know of each other in every run, apart from its safety. This holds
/// of each client that never strayed, while its link is up, and each file of it whose break timer
/// didn't run out since it connected (so of all files of every good client, as `good` defines it):
///
/// - while the file's lease is breaking, its break is on its way, carries the state that the lease
///   is broken to, and meets a live entry of the client once that has taken what comes before it;
///   or the acknowledgment or a Close of one of its opens is on its way. An acknowledgment is on
///   its way only while its lease is breaking, and keeps no more than the state that it is broken
///   to;
/// - after an acknowledgment that gives writes up there is no buffered write of the file, whether
///   or not its open is there, and none is unsent or kept; after a Close there is no write of its
///   open, and no live entry under it;
/// - what a live entry believes the lease holds, or a break of a lease of reads alone is on its way;
/// - where the client would still hold a base after taking its whole queue, that base is the server's content;
/// - where a live entry believes that it may cache writes, nothing that the client asks of the file
///   is held, and so no second create of it is; no write of it that is held was buffered.
///
/// Of every client that never strayed: where the lease of its file holds writes, nothing that it
/// asks of the file is held. This holds also of clients that were cut or let a timer run out: an
/// open that is gone never comes back, so that no later write under its FileId is accepted; and
/// where an entry that is offline or reconnecting has an open left whose lease holds writes, no
/// other client opened or changed the file since the connection was lost. Of every client machine,
/// whatever reaches it: a belief rises by a reply that grants a state while no break is in
/// progress, and by nothing else. Does nothing.
pub fn clients_and_server_agree()
    ensures good { GoodClientsAreTimely }
    ensures breaking { OfRuns (Timely BreakingIsAnswered) }
    ensures acknowledgments { OfRuns (Timely AcknowledgmentsAreDue) }
    ensures flushed { OfAllowedRuns (Timely FlushedBeforeAcknowledgments) }
    ensures closed { OfAllowedRuns (Timely FlushedBeforeCloses) }
    ensures beliefs { OfRuns (Timely BeliefsAreHeld) }
    ensures bases { OfAllowedRuns (Timely BasesAreCurrent) }
    ensures writers { OfRuns WritersAreNotHeld }
    ensures believers { OfRuns (Timely BelieversAreNotHeld) }
    ensures through { OfAllowedRuns (Timely HeldWritesAreThrough) }
    ensures gone { ClosedOpensStayClosed }
    ensures kept { OfRuns KeptIsUntouched }
    ensures rises { BeliefsRiseByGrants }
{}
