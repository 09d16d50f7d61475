ghost use Rattle.manager_model.specs.Answering.{AnswersComeOnce, NoneIsDropped, WaitersWereAsked, WithdrawnAreGone};
ghost use Rattle.manager_model.specs.Ending.{EndsAreExact, EndsAreTold};
ghost use Rattle.manager_model.specs.Laws.{BytesDecideNothing, FilesAreEnough, HostsAreServers, PassesAnswer, PassesAreEnough};
ghost use Rattle.manager_model.specs.Laws.{RunsOfHosts};

/// The calls of a server decide nothing by the bytes of files, nor by those of writes or their numbers, but whether a write ends
/// within the limit of a file: each does to a server that has forgotten them what it does to the server itself, and gives out the
/// same without them. Does nothing.
pub fn law_of_bytes()
    ensures { BytesDecideNothing }
{}

/// Passes of a manager over the requests that wait on a file end by themselves, and only files where requests wait need any. Does
/// nothing.
pub fn law_of_passes()
    ensures answer { PassesAnswer }
    ensures enough { PassesAreEnough }
    ensures files { FilesAreEnough }
{}

/// A manager and a host that carries out its decisions, in their order, are the server of the rules: whatever comes, the host
/// sends what the server sends, and its files have the bytes that the server's have. The host keeps what it asked under each tag,
/// and of each open the file; `GoesOn` copies the bytes of a file or patches them, and nothing else changes one. Does nothing.
pub fn law_of_hosts()
    ensures calls { HostsAreServers }
    ensures runs { RunsOfHosts }
{}

/// A host learns which opens are no more: of each that is there before a call and isn't after it, a decision says that it
/// ended, or that a close is done that was asked for it. It learns of no other: in a sound server an open that either names is
/// there no longer, and is named once. Does nothing.
pub fn law_of_ends()
    ensures told { EndsAreTold }
    ensures exact { EndsAreExact }
{}

/// A request is answered under its tag at most once, and waits no longer then, and what waits was asked: a host that carried out a
/// decision for a tag lets go of what it asked under it. None is dropped: a call answers a request, leaves it waiting, takes it
/// back or cuts its client. Tags under which requests wait are distinct. Does nothing.
pub fn law_of_answers()
    ensures once { AnswersComeOnce }
    ensures dropped { NoneIsDropped }
    ensures asked { WaitersWereAsked }
    ensures withdrawn { WithdrawnAreGone }
{}
