ghost use Rattle.lease_model.specs.worked.ServerCalls.{SharedCalls, SharedAllowed, LaterCalls, LaterAllowed, Acknowledgments};
ghost use Rattle.lease_model.specs.worked.ServerCalls.{OddStates, TakenBack, TwoPasses};
ghost use Rattle.lease_model.specs.worked.ServerBreaks.{KeysInOrder, OwnLeaseBroken, ReadsBrokenAtOnce, OneBreakForTwoWrites};
ghost use Rattle.lease_model.specs.worked.ServerBreaks.{WriteHeldByBreakToReads, OneConflictBroken, HeldInOrder};
ghost use Rattle.lease_model.specs.worked.ServerBreaks.{ExpiredUntilJoined};
ghost use Rattle.lease_model.specs.worked.ServerRefusals.{RefusedOnArrival, DeniedBreaksNothing, FileIdsUsedUp};
ghost use Rattle.lease_model.specs.worked.ServerDurable.{AskedInVain, DurableWhileBreaking, RefusedReconnects, ConnectedNotScavenged};
ghost use Rattle.lease_model.specs.worked.ServerDurable.{LeftAndKept, LeftWhileWaiting};
ghost use Rattle.lease_model.specs.worked.ServerGivingUp.{GivesUp, IsGivenUpOnceAcknowledged, LeftIsGivenUp, ReadsAreGivenUpAtOnce};

/// Two clients and two files: a lease is broken for another client's create, acknowledged, and the
/// create answered; then a denied write, two closes and refused creates. What the server would
/// allow is asked in between, and once opens are closed.
pub fn one_list_of_opens()
    ensures shared { SharedCalls }
    ensures allowed { SharedAllowed }
    ensures later { LaterCalls }
    ensures later_allowed { LaterAllowed }
{}

/// Acknowledgments of a lease that is breaking from RWH to RH.
pub fn acknowledgments()
    ensures { Acknowledgments }
{}

/// Creates that ask for states without reads, and for every bit.
pub fn odd_states()
    ensures { OddStates }
{}

/// Held requests are tried again in passes, until a pass answers nothing.
pub fn two_passes()
    ensures { TwoPasses }
{}

/// A request that waits is taken back, and the one behind it has its turn.
pub fn requests_taken_back()
    ensures { TakenBack }
{}

/// Which leases are broken, in which order, what goes on or waits while they are breaking, and what
/// a break whose timer ran out leaves.
pub fn breaks_of_servers()
    ensures keys { KeysInOrder }
    ensures own_lease { OwnLeaseBroken }
    ensures reads { ReadsBrokenAtOnce }
    ensures one_break { OneBreakForTwoWrites }
    ensures held_write { WriteHeldByBreakToReads }
    ensures one_conflict { OneConflictBroken }
    ensures held_in_order { HeldInOrder }
    ensures expired { ExpiredUntilJoined }
{}

/// What a server refuses, in which order, and that it breaks nothing for that.
pub fn refusals_of_servers()
    ensures arrival { RefusedOnArrival }
    ensures denied { DeniedBreaksNothing }
    ensures file_ids { FileIdsUsedUp }
{}

/// When an open is durable, which reconnects are refused, and what a scavenge closes.
pub fn durable_opens()
    ensures grants { DurableWhileBreaking }
    ensures in_vain { AskedInVain }
    ensures reconnects { RefusedReconnects }
    ensures scavenged { ConnectedNotScavenged }
{}

/// What becomes of the opens that a client leaves while it stays, and of its requests that wait.
pub fn opens_left()
    ensures opens { LeftAndKept }
    ensures waiting { LeftWhileWaiting }
{}

/// Other keys on a file give up handles, or all that they cache, by one break each; when that is done; and an open that waits
/// for its client is closed for it.
pub fn leases_given_up()
    ensures calls { GivesUp }
    ensures acknowledged { IsGivenUpOnceAcknowledged }
    ensures reads { ReadsAreGivenUpAtOnce }
    ensures left { LeftIsGivenUp }
{}
