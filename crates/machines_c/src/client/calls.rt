ghost use Rattle.std.specs.Prelude.{◌≡◌, ◌≢◌, Some, None, true, MatchOption, MatchResult, IsSomeAnd, IfSome, IfOk};
ghost use Rattle.lease_client.specs.Answers.{command_of};
ghost use Rattle.lease_client.specs.Calls.{is_idle};
ghost use Rattle.lease_client.specs.Known.{client_of};
ghost use Rattle.lease_model.specs.client.Connection.{noticed, connection_made};
ghost use Rattle.lease_model.specs.client.State as clients;
ghost use Rattle.lease_model.specs.client.Step.{quiet_step};
ghost use Rattle.lease_model.specs.messages.FromBytes.{reply_of};
ghost use Rattle.lease_client.specs.Steps.{IsStep};
ghost use Rattle.machines_c.specs.handles.Outcomes.{IsCall, code_of};
ghost use Rattle.machines_c.specs.declared.handles.outcome.Outcome.TheVariants as outcomes;
ghost use Rattle.lease_state.specs.State.{bits_of_state};
ghost use Rattle.machines_c.specs.client.Calls.{Commanded, MayBeLostBy, Took, TookWith, Linked, Always, Never};

use crate::client::handle::ClientHandle;
use crate::client::stepping::Stepping;
use crate::client::values::ClientGuid;
use crate::handles::Outcome;
use crate::values::KeyBytes;
use lease_client::{Answer, Client, Command, Step, lease_key};
use lease_state::{FileNo, Memory, Reply};
use std::alloc::Global;

// A client with this, that was asked nothing yet.
fn asked_nothing(alloc: Global, client: Client) -> Step
    ensures { IsStep result (quiet_step (client_of client)) }
{
    Step {
        client,
        answer: Answer::Quiet,
        requests: Vec::new(alloc),
        notes: Vec::new(alloc),
    }
}

// What stands in the place of a client while it is called: a client with no file, for which nothing
// is allocated.
fn placeholder(alloc: Global) -> Stepping {
    let client = Client::new(alloc, [0; 16], 0).unwrap();
    Stepping {
        step: asked_nothing(alloc, client),
        code: 0,
    }
}

impl ClientHandle {
    // The client that is held, and room for its next step. Nothing is held then.
    fn take_client(&mut self, alloc: Global) -> Option<(Client, Box<Stepping>)>
        ensures taken { MatchOption result (self.old.held ≡ None)
            (λ taken. IsSomeAnd self.old.held (λ one. one.step.client ≡ taken.0)) }
        ensures none { self.new.held ≡ None }
    {
        match self.take(alloc) {
            None => None,
            Some(mut room) => {
                let Stepping { step, .. } = Box::replace(&mut room, placeholder(alloc));
                let Step { client, .. } = step;
                Some((client, room))
            }
        }
    }

    // What a call came to is held from now on, with the status of the reply that it took; where it ran out of memory nothing is.
    fn keep(
        &mut self,
        alloc: Global,
        mut room: Box<Stepping>,
        came: Result<Step, Memory>,
        code: u32,
    ) -> Outcome
        requires { self.old.held ≡ None }
        ensures { MatchResult came (λ step. (self.new.held ≡ Some (record { step = step; code = code })) × (result ≡ outcomes.Done))
            (λ _. (self.new.held ≡ None) × (result ≡ outcomes.Lost)) }
    {
        match came {
            Ok(step) => {
                let _old = Box::replace(&mut room, Stepping { step, code });
                self.put(alloc, room);
                Outcome::Done
            }
            Err(_) => Outcome::Lost,
        }
    }

    /// A command comes from the application.
    pub(crate) fn app(&mut self, alloc: Global, command: Command) -> Outcome
        ensures call { IsCall (Commanded (command_of command)) (MayBeLostBy (command_of command))
            (code_of result) self.old.held self.new.held }
        ensures memory { code_of result ≢ 1 }
        ensures number { code_of result ≢ 4 }
    {
        match self.take_client(alloc) {
            None => Outcome::Nothing,
            Some((client, room)) => self.keep(alloc, room, client.app(command), 0),
        }
    }

    /// A message comes from the server that refuses nothing.
    pub(crate) fn hear(&mut self, alloc: Global, reply: Reply) -> Outcome
        ensures call { IsCall (Took (reply_of reply)) Always (code_of result) self.old.held self.new.held }
        ensures idle { is_idle reply ≡ true → IsCall (Took (reply_of reply)) Never (code_of result) self.old.held self.new.held }
        ensures memory { code_of result ≢ 1 }
    {
        self.hear_with(alloc, reply, 0)
    }

    /// A message comes from the server, with this status: 0 where it refuses nothing.
    pub(crate) fn hear_with(&mut self, alloc: Global, reply: Reply, code: u32) -> Outcome
        ensures call { IsCall (TookWith code (reply_of reply)) Always (code_of result) self.old.held self.new.held }
        ensures idle { is_idle reply ≡ true
            → IsCall (TookWith code (reply_of reply)) Never (code_of result) self.old.held self.new.held }
        ensures memory { code_of result ≢ 1 }
    {
        match self.take_client(alloc) {
            None => Outcome::Nothing,
            Some((client, room)) => self.keep(alloc, room, client.take(reply), code),
        }
    }
}

/// A client of this ClientGuid with files from 1 to `files`, that was never connected: no file is
/// open. What the handle held is freed.
///
/// Returns 0, or 1 where there is no memory; then nothing changed.
#[unsafe(no_mangle)]
pub extern "C" fn smblease_client_new(
    alloc: Global,
    client: &mut ClientHandle,
    guid: &ClientGuid,
    files: u8,
) -> u32
    ensures new { result ≡ 0 → IsSomeAnd client.new.held
        (λ one. IsStep one.step (quiet_step (clients.new_client guid.now.bytes files))) }
    ensures unchanged { result ≢ 0 → (result ≡ 1) × (client.new.held ≡ client.old.held) }
{
    match fresh(alloc, guid, files) {
        Ok(stepping) => {
            client.put(alloc, stepping);
            Outcome::Done.code()
        }
        Err(_) => Outcome::NoMemory.code(),
    }
}

// A new client in a box.
fn fresh(alloc: Global, guid: &ClientGuid, files: u8) -> Result<Box<Stepping>, Memory>
    ensures { IfOk result (λ one. IsStep one.value.step (quiet_step (clients.new_client guid.now.bytes files))) }
{
    let client = Client::new(alloc, guid.bytes, files)?;
    let step = asked_nothing(alloc, client);
    Ok(Box::new(alloc, Stepping { step, code: 0 })?)
}

/// Frees the machine and what its last call gave out; the handle holds none then. Where it holds
/// none nothing is done.
#[unsafe(no_mangle)]
pub extern "C" fn smblease_client_free(alloc: Global, client: &mut ClientHandle)
    ensures { client.new.held ≡ None }
{
    drop(client.take(alloc));
}

/// The client connects (MS-SMB2 3.2.4.4): a create is sent for each open that waits for it.
///
/// Returns 0; 2 where memory ran out, and the machine is lost; 3 where there is none.
#[unsafe(no_mangle)]
pub extern "C" fn smblease_client_connect(alloc: Global, client: &mut ClientHandle) -> u32
    ensures { IsCall (Linked connection_made) Always result client.old.held client.new.held }
{
    match client.take_client(alloc) {
        None => Outcome::Nothing.code(),
        Some((machine, room)) => client.keep(alloc, room, machine.connect(), 0).code(),
    }
}

/// The client notices that its connection is lost (MS-SMB2 3.2.7.1). Live durable opens wait for
/// the next one, with their buffered writes where writes may be cached; any other open is closed.
///
/// Returns 0; 2 where memory ran out, and the machine is lost; 3 where there is none.
#[unsafe(no_mangle)]
pub extern "C" fn smblease_client_notice(alloc: Global, client: &mut ClientHandle) -> u32
    ensures { IsCall (Linked noticed) Always result client.old.held client.new.held }
{
    match client.take_client(alloc) {
        None => Outcome::Nothing.code(),
        Some((machine, room)) => client.keep(alloc, room, machine.notice(), 0).code(),
    }
}

/// What the client believes of the lease of a file (MS-SMB2 3.2.1.5, LeaseState): the bits of
/// LeaseState. 0 where the file isn't open, or there is no machine.
#[unsafe(no_mangle)]
pub extern "C" fn smblease_client_belief(alloc: Global, client: &mut ClientHandle, file: u8) -> u32
    ensures state { IfSome client.old.held (λ one. result ≡ bits_of_state (clients.belief (client_of one.step.client) file)) }
    ensures none { client.old.held ≡ None → result ≡ 0 }
    ensures same { client.new.held ≡ client.old.held }
{
    match client.take(alloc) {
        None => 0,
        Some(stepping) => {
            let bits = stepping.step.client.belief(FileNo(file)).to_wire();
            client.put(alloc, stepping);
            bits
        }
    }
}

/// The LeaseKey under which the client of a ClientGuid opens a file (3.2.4.3.8), into `key`.
#[unsafe(no_mangle)]
pub extern "C" fn smblease_client_key(guid: &ClientGuid, file: u8, key: &mut KeyBytes)
    ensures { key.new.bytes ≡ clients.lease_key guid.now.bytes file }
{
    let found = lease_key(guid.bytes, FileNo(file));
    let bytes = found.0;
    key.bytes = bytes;
}
