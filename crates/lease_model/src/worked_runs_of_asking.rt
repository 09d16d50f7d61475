ghost use Rattle.lease_model.specs.worked.RunsOfAsking.{Promotion, AskingWhileBroken, TimerWhileAsking, TimerWhileAskingAfter};

/// Runs in which a client asks for more under the key of a file that it has open: it is given more, a
/// break is on its way, and a timer runs out, after which nothing late is accepted.
pub fn runs_of_asking()
    ensures promotion { Promotion }
    ensures while_broken { AskingWhileBroken }
    ensures timer { TimerWhileAsking }
    ensures timer_after { TimerWhileAskingAfter }
{}
