ghost use Rattle.manager_model.specs.Worked.{GivingUpIsTold, LeavingIsTold, LeftIsTold, NoneIsWithdrawn, SharedIsTold};
ghost use Rattle.manager_model.specs.Worked.{WithdrawnIsTold};
ghost use Rattle.manager_model.specs.Worked.{WriteIsThere};
ghost use Rattle.manager_model.specs.WorkedOpens.{AccessesKeepOthersOut, EachIsConnectedAlone, SharesKeepOthersOut};

/// Two clients share a file: the second one's create waits until the first one has flushed and has acknowledged the break of its
/// lease. Each is answered under its tag, and the host's file has the flushed byte. Does nothing.
pub fn managers_tell_by_tags()
    ensures told { SharedIsTold }
    ensures bytes { WriteIsThere }
{}

/// A create that waits is withdrawn: a decision says so, and none follows for it. One that doesn't wait isn't. Does nothing.
pub fn managers_withdraw()
    ensures told { WithdrawnIsTold }
    ensures none { NoneIsWithdrawn }
{}

/// An open that its client didn't close ends: one whose client was cut, when another client opens the file, and one that isn't
/// durable, when its client is cut. Does nothing.
pub fn managers_tell_what_ends()
    ensures ends { LeftIsTold }
{}

/// A client leaves two opens and a create that waits, and stays connected: one open waits for it, one ends, and the create is
/// forgotten. Does nothing.
pub fn managers_tell_what_is_left()
    ensures { LeavingIsTold }
{}

/// A lease gives up all that it caches by one break, for a change without an open. Does nothing.
pub fn managers_tell_what_is_given_up()
    ensures { GivingUpIsTold }
{}

/// What an open does, and what it lets others do, is kept as it was asked: another open is refused where one of them does what
/// the other doesn't let it do, and only there. A durable open that is connected again is there; another of its client isn't.
/// Does nothing.
pub fn managers_keep_opens()
    ensures shares { SharesKeepOthersOut }
    ensures accesses { AccessesKeepOthersOut }
    ensures connected { EachIsConnectedAlone }
{}
