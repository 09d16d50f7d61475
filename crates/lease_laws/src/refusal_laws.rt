ghost use Rattle.lease_laws.specs.server.Refusals.{CallsOfRefusedAcknowledgments, CallsRefusedAsTheyCome, CallsRefusedByReply};
ghost use Rattle.lease_laws.specs.server.Refusals.{CallsRefusedOnceTried, ClosesAreRefusedAsTheyCome, HeldAreRefusedByReply};
ghost use Rattle.lease_laws.specs.server.Refusals.{PassesAreOfHeld, RefusedAcknowledgments, RefusedAsTheyCome, RefusedByReply};
ghost use Rattle.lease_laws.specs.server.Refusals.{RefusedOnceTried};

/// A request that is refused changes no content, and takes away no open but those that its own
/// breaks closed: those that aren't connected and whose key is wanted in a round of its try. So it
/// is for every try in which a refusal is sent, the create that finds no FileId left among them, as
/// the request comes and once it was held. One that is refused as it comes changes nothing at all,
/// and every Close that is refused is refused as it comes; an acknowledgment that is refused
/// changes nothing either. The same is true of whole calls: where a Close or an acknowledgment is
/// refused, the call reports that and makes the passes over held requests, over the server as it
/// was. Whatever passes change, a held request did: a content changes only by a held write, and an
/// open goes only where a held Close closes it, or a break for a held request did. Does nothing.
pub fn refusals_leave_files_alone()
    ensures as_they_come { RefusedAsTheyCome }
    ensures once_tried { RefusedOnceTried }
    ensures closes { ClosesAreRefusedAsTheyCome }
    ensures acknowledgments { RefusedAcknowledgments }
    ensures calls_as_they_come { CallsRefusedAsTheyCome }
    ensures calls_of_acknowledgments { CallsOfRefusedAcknowledgments }
    ensures calls_once_tried { CallsRefusedOnceTried }
    ensures passes { PassesAreOfHeld }
    ensures by_reply { RefusedByReply }
    ensures held_by_reply { HeldAreRefusedByReply }
    ensures calls_by_reply { CallsRefusedByReply }
{}
