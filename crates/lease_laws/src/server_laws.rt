ghost use Rattle.std.specs.Prelude.{true, List, ℕ, ◌≡◌, Some, None};
ghost use Rattle.lease_state.specs.declared.rules.Rules.{Rules};
ghost use Rattle.lease_model.specs.server.Answers.{concluded};
ghost use Rattle.lease_model.specs.server.Attempt.{Outcome, tried};
ghost use Rattle.lease_model.specs.server.Calls.{Call, called, receive};
ghost use Rattle.lease_state.specs.declared.patch.Patch.{Patch};
ghost use Rattle.lease_model.specs.values.Keys.{Key};
ghost use Rattle.lease_model.specs.server.Progress.{Progress};
ghost use Rattle.lease_model.specs.messages.Requests.{FileRequest, Request};
ghost use Rattle.lease_laws.specs.server.Laws.{Among, IsSound, IsBlocked, HasToWait};
ghost use Rattle.lease_laws.specs.server.Outs.{EachOut, IsFlaggedRightly, ArePaired, IsBreak, IsNoBreak, GoOn, AreBreaksFirst};
ghost use Rattle.lease_laws.specs.server.Outs.{IsAlone, CachesAlone};
ghost use Rattle.lease_model.specs.server.State.{Server, Open, new_server_under, has_key};
ghost use Rattle.lease_laws.specs.server.Durable.{DurableIsTold};
ghost use Rattle.lease_laws.specs.server.GivingUp.{OthersGiveUp};
ghost use Rattle.lease_laws.specs.server.Waiting.{NothingWaitsIdly, WaitsWell, WritersDontWait};
ghost use Rattle.lease_laws.specs.server.Wanted.{WantsAreExact};
ghost use Rattle.lease_model.specs.server.Findings.{connected_open};

/// The laws of every server hold of the first one, and every call keeps them.
pub fn laws_of_servers()
    ensures first { (rules : Rules) (contents : List (List ℕ)) → IsSound (new_server_under rules contents) }
    ensures kept { (server : Server) (call : Call) → IsSound server → IsSound (called server call).server }
{}

/// The laws of waiting hold of the first server, and every call keeps them: who is connected, on which
/// file requests are held, and that the first held request of each client there waits for a break of
/// another key, a write for one that leaves something. So where a key that holds W has an open, no first
/// held request of a client stands under it; and on a file of which no lease is breaking nothing is held.
pub fn waiting_of_servers()
    ensures first { (rules : Rules) (contents : List (List ℕ)) → WaitsWell (new_server_under rules contents) }
    ensures kept { (server : Server) (call : Call) → IsSound server → WaitsWell server → WaitsWell (called server call).server }
    ensures writers { WritersDontWait }
    ensures idly { NothingWaitsIdly }
{}

/// A client knows which of its opens last: one is durable only where the answer to its create says so, whatever its lease is
/// granted later. Does nothing.
pub fn durable_opens_are_answered()
    ensures { DurableIsTold }
{}

/// Other keys on a file give up handles, or all that they cache: what one of them still holds of it, once that is asked, is
/// breaking. Does nothing.
pub fn others_give_up()
    ensures { OthersGiveUp }
{}

/// What a call gives out. Breaks are flagged rightly. A Changed stands directly before its
/// WriteDone. The Breaks for a request stand before its answer, and so before its Changed: a try
/// gives out Breaks alone, and the end of a try none; so it is in the whole of a call that tries
/// one request. Once a write is ready to be done, each other key on its file holds nothing or is
/// breaking to nothing.
pub fn outs_of_calls()
    ensures flagged { (server : Server) (call : Call) → EachOut IsFlaggedRightly (called server call).outs }
    ensures paired { (server : Server) (call : Call) → ArePaired None (called server call).outs }
    ensures tries { (client : ℕ) (request : FileRequest) (progress : Progress)
        → GoOn IsBreak progress.outs (tried client request progress).progress.outs }
    ensures answers { (client : ℕ) (request : FileRequest) (progress : Progress) (outcome : Outcome)
        → GoOn IsNoBreak progress.outs (concluded client request progress outcome).outs }
    ensures received { (server : Server) (client : ℕ) (request : FileRequest) → IsAlone request
        → AreBreaksFirst (receive server client (Request.OnFile request)).outs }
    ensures written { (client : ℕ) (file_id : ℕ) (number : ℕ) (patch : Patch) (progress : Progress) (one : Open)
        → IsSound progress.server
        → (tried client (FileRequest.Write file_id number patch) progress).outcome ≡ Outcome.Ready
        → connected_open (tried client (FileRequest.Write file_id number patch) progress).progress.server client file_id
        ≡ Some one
        → CachesAlone (tried client (FileRequest.Write file_id number patch) progress).progress.server one }
{}

/// A try waits only where the request has to: on its file another key is breaking. Does nothing.
pub fn waits_of_tries()
    ensures { (client : ℕ) (request : FileRequest) (progress : Progress) → IsSound progress.server
        → (tried client request progress).outcome ≡ Outcome.Waits
        → HasToWait (tried client request progress).progress.server client request }
{}

/// What is wanted of a test on opens: the keys of those that pass, each once, strictly in order of client,
/// then of the key's bytes, each with the state that it is to be lowered to. Does nothing.
pub fn wants_are_exact()
    ensures { WantsAreExact }
{}
