ghost use Rattle.lease_model.specs.worked.ClientCalls.{ClientSteps, NeverConnected};
ghost use Rattle.lease_model.specs.worked.ClientRefusals.{Refusals, WriterRefusals, ParkedRefusals, UnknownFile, UsedUp};
ghost use Rattle.lease_model.specs.worked.ClientAsking.{Asking, AskingReads, AskingWriter, AskingRefusedForSharing, ParkedAsks};
ghost use Rattle.lease_model.specs.worked.ClientAsking.{ClosedWhileAsking, NoticedWhileAsking, ThroughAndBuffered};
ghost use Rattle.lease_model.specs.worked.ClientReplies.{PatchedBase, OldFileIdClosed, FirstBeliefs, LaterBeliefs};
ghost use Rattle.lease_model.specs.worked.ClientReplies.{BreaksAnswered, LongReads};

/// A client opens a file, buffers two writes, reads once from the server and once from its cache,
/// and meets a break to RH: it sends the writes before the acknowledgment.
pub fn client_of_one_file()
    ensures { ClientSteps }
{}

/// A client that was never connected sends nothing.
pub fn client_never_connected()
    ensures { NeverConnected }
{}

/// Which commands are refused in each state of an entry, and which refusal goes first.
pub fn client_refusals()
    ensures refusals { Refusals }
    ensures writer { WriterRefusals }
    ensures parked { ParkedRefusals }
    ensures unknown_file { UnknownFile }
    ensures used_up { UsedUp }
{}

/// An entry that is asked for more: what it sends, what is refused until it is answered, and what
/// its answer, a failure, FILE_CLOSED and a lost connection do to it.
pub fn client_asks_for_more()
    ensures asking { Asking }
    ensures reads { AskingReads }
    ensures writer { AskingWriter }
    ensures sharing { AskingRefusedForSharing }
    ensures parked { ParkedAsks }
    ensures closed { ClosedWhileAsking }
    ensures noticed { NoticedWhileAsking }
    ensures through { ThroughAndBuffered }
{}

/// What replies and breaks do to an entry: the file as it knows it, its FileId, what it believes,
/// and which breaks it answers.
pub fn client_takes_replies()
    ensures base { PatchedBase }
    ensures old_file_id { OldFileIdClosed }
    ensures first_beliefs { FirstBeliefs }
    ensures later_beliefs { LaterBeliefs }
    ensures breaks { BreaksAnswered }
{}

/// A reply to a Read with more bytes than a file may have changes nothing, for every such reply.
pub fn client_passes_long_reads_over()
    ensures { LongReads }
{}
