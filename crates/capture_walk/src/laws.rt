ghost use Rattle.capture_walk.specs.Laws.{OpensAreMade};
ghost use Rattle.capture_walk.specs.Worked.{GrantedBeside, LoweredByAcknowledgment, EndedByTimer, TakenByBreak};
ghost use Rattle.capture_walk.specs.Worked.{GivenUpByClose, LostWithConnection, UnsureBehindGap};

/// The opens that the walk goes by are those that some message made and none has ended since. Does nothing.
pub fn opens_are_made()
    ensures { OpensAreMade }
{}

/// Worked examples of what the server is seen to hold: a lease that is granted beside another one; one that is lowered by an
/// acknowledgment, taken by a break, given up by a CLOSE; and those that may have ended by a timer, with a connection, or
/// behind a gap. Does nothing.
pub fn tables_are_as_worked()
    ensures granted_beside { GrantedBeside }
    ensures lowered { LoweredByAcknowledgment }
    ensures timer { EndedByTimer }
    ensures taken { TakenByBreak }
    ensures given_up { GivenUpByClose }
    ensures connection { LostWithConnection }
    ensures gap { UnsureBehindGap }
{}
