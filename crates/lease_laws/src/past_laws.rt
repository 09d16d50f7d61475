ghost use Rattle.lease_laws.specs.records.Runs.{RunsStartFirst, ContentNow, ContentWhenSent, WritesNow, RunsGiveFirst};
ghost use Rattle.lease_laws.specs.records.Runs.{ClientsOfRunsAreSound};

/// In the record of a run every file is started before anything else happens. So a file's content,
/// now and where a message was sent, is found fact by fact, with no look at what came later.
pub fn contents_of_runs()
    ensures starts { RunsStartFirst }
    ensures now { ContentNow }
    ensures when_sent { ContentWhenSent }
{}

/// In the record of a run no write is settled before it is given, and every client is sound. So a
/// client's unanswered writes are found fact by fact.
pub fn writes_of_runs()
    ensures gives_first { RunsGiveFirst }
    ensures sound { ClientsOfRunsAreSound }
    ensures now { WritesNow }
{}
