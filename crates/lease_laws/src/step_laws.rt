ghost use Rattle.lease_laws.specs.server.Changes.{BreaksComeFirst};
ghost use Rattle.lease_laws.specs.server.SmallSteps.{CallsGoBySteps, CallsBeginInSilence};
ghost use Rattle.lease_laws.specs.server.StepLaws.{LeasesOfSteps, BreaksOfSteps, BreaksAreTold, RepliesFindTheirClients};
ghost use Rattle.lease_laws.specs.server.StepLaws.{ChangesAreShort, StepsKeepTheLaws};

/// Every call of a server goes by small steps, each of which is taken only where its guard holds: a
/// write, say, changes its file only where each other key on it holds nothing or is breaking to
/// nothing. A request of a connected client is answered, held or judged by exactly one of them, and has its
/// turn there: no earlier one of its client is held on its file. What comes before the first step gives
/// nothing out, and each step keeps the laws of servers. Does nothing.
pub fn calls_go_by_steps()
    ensures steps { CallsGoBySteps }
    ensures silence { CallsBeginInSilence }
    ensures kept { StepsKeepTheLaws }
{}

/// What small steps do to leases, and which breaks they give out. A lease is lowered, or begins to
/// break, only by a step that names it and gives out its Break, with the state that it had and the
/// one that it is lowered to. So at any point of a call, what is breaking was breaking when the
/// call began, or its Break was given out already.
///
/// Among the outs of any call, with its passes, a Break stands before the Changed that needed it:
/// where a change of a file stands, every other key with an open on the file has given up what it
/// cached, and each that cached something at an earlier point of the call had its Break to nothing
/// given out since, before the change; or its opens were all closed since, or the call is its own
/// acknowledgment of nothing. Does nothing.
pub fn breaks_of_steps()
    ensures leases { LeasesOfSteps }
    ensures told { BreaksOfSteps }
    ensures always_told { BreaksAreTold }
    ensures changes { BreaksComeFirst }
{}

/// What any call gives out: each reply goes to a client whose connection the server has after the call, and
/// each change ends within the limit of a file. Does nothing.
pub fn outs_reach_and_fit()
    ensures replies { RepliesFindTheirClients }
    ensures changes { ChangesAreShort }
{}
