ghost use Rattle.lease_coherence.specs.Parts.{
  CachedReadsAreFresh,
  NoWriteIsLate,
  NothingIsFalselyDone,
  RunsAreWellFormed,
  RunsHaveOneWriteCache,
};

/// Where the setup is allowed, the record of every run is well formed: a file is started once and before any other fact
/// names it, a message that is taken was sent before, a patch ends within the limit of a file, and a client uses the
/// number of a write once. Does nothing.
pub fn runs_are_well_formed()
    ensures facts { RunsAreWellFormed }
{}

/// At every place of the record of every run, with no premise: where a client that the server has, that never strayed and
/// let no break timer run out since it connected, believes that it may cache writes of a file, no other such client
/// believes that it may cache anything of that file. Does nothing.
pub fn runs_have_one_write_cache()
    ensures facts { RunsHaveOneWriteCache }
{}

/// Where the setup is allowed, a cached read of a run gives the file as it stood when the message that the client took last
/// was sent, with the client's unanswered writes, if the server has the client, it never strayed and let no break timer run
/// out since it connected. Does nothing.
pub fn cached_reads_are_fresh()
    ensures facts { CachedReadsAreFresh }
{}

/// Where the setup is allowed, a buffered write of a client that hasn't strayed is accepted in a run only if no other
/// client opened or changed its file since it was buffered. This holds of clients that were cut or expired too, and of
/// writes that were sent again after a reconnect. Does nothing.
pub fn no_write_is_late()
    ensures facts { NoWriteIsLate }
{}

/// Where the setup is allowed, a write of a client that hasn't strayed is settled as done in a run only if the server
/// accepted it, on its file and with its patch. This holds of clients that were cut or expired too. Does nothing.
pub fn nothing_is_falsely_done()
    ensures facts { NothingIsFalselyDone }
{}
