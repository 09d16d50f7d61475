ghost use Rattle.std.specs.Prelude.{◌≡◌, ◌≢◌, None, true, not, MatchOption, MatchResult, IsSomeAnd};
ghost use Rattle.lease_model.specs.messages.FromBytes.{request_of};
ghost use Rattle.lease_model.specs.server.Calls as rules;
ghost use Rattle.lease_model.specs.server.Naming.{key_of};
ghost use Rattle.machines_c.specs.handles.Outcomes.{IsCall, code_of};
ghost use Rattle.machines_c.specs.declared.handles.outcome.Outcome.TheVariants as outcomes;
ghost use Rattle.machines_c.specs.server.Asked.{is_present, is_absent, is_settled, is_gone};
ghost use Rattle.machines_c.specs.server.Served.{running, Served, MayBeLostUnless};

use crate::handles::Outcome;
use crate::server::handle::{Hosted, ServerHandle};
use crate::values::KeyBytes;
use lease_state::{ClientNo, FileId, LeaseKey, Memory, Request};
use share_server::{Out, Server};
use std::alloc::Global;

impl ServerHandle {
    // The server that is held, and room for it. Nothing is held then.
    fn take_server(&mut self, alloc: Global) -> Option<(Server, Box<Hosted>)>
        ensures taken { MatchOption result (running self.old.held ≡ None)
            (λ taken. IsSomeAnd (running self.old.held) (λ one. one.server ≡ taken.0)) }
        ensures none { self.new.held ≡ None }
    {
        let mut room = self.take(alloc)?;
        let nothing = Hosted {
            server: None,
            outs: Vec::new(alloc),
        };
        let Hosted { server, .. } = Box::replace(&mut room, nothing);
        Some((server?, room))
    }

    // What a call came to is held from now on; where it ran out of memory nothing is.
    fn keep(
        &mut self,
        alloc: Global,
        mut room: Box<Hosted>,
        came: Result<(Server, Vec<Out>), Memory>,
    ) -> Outcome
        requires { self.old.held ≡ None }
        ensures { MatchResult came (λ r. (running self.new.held ≡ Some (record { server = r.0; outs = r.1.items }))
            × (result ≡ outcomes.Done)) (λ _. (self.new.held ≡ None) × (result ≡ outcomes.Lost)) }
    {
        match came {
            Ok((server, outs)) => {
                let server = Some(server);
                let _old = Box::replace(&mut room, Hosted { server, outs });
                self.put(alloc, room);
                Outcome::Done
            }
            Err(_) => Outcome::Lost,
        }
    }

    /// A request of a client comes.
    pub(crate) fn hear(&mut self, alloc: Global, client: u8, request: Request) -> Outcome
        ensures call { IsCall (Served (λ server. rules.receive server client (request_of request)))
            (MayBeLostUnless (is_absent client)) (code_of result) (running self.old.held) (running self.new.held) }
        ensures memory { code_of result ≢ 1 }
        ensures number { code_of result ≢ 4 }
    {
        match self.take_server(alloc) {
            None => Outcome::Nothing,
            Some((server, room)) => {
                self.keep(alloc, room, server.receive(ClientNo(client), request))
            }
        }
    }
}

/// A client connects (MS-SMB2 3.3.5.1). Where it is connected nothing changes.
///
/// Returns 0; 2 where memory ran out, and the machine is lost, which is never where nothing
/// changes; 3 where there is none.
#[unsafe(no_mangle)]
pub extern "C" fn smblease_server_join(alloc: Global, server: &mut ServerHandle, client: u8) -> u32
    ensures { IsCall (Served (λ server. rules.join server client)) (MayBeLostUnless (is_present client))
        result (running server.old.held) (running server.new.held) }
{
    match server.take_server(alloc) {
        None => Outcome::Nothing.code(),
        Some((machine, room)) => server
            .keep(alloc, room, machine.join(ClientNo(client)))
            .code(),
    }
}

/// A client's connection is lost (3.3.7.1). Where it isn't connected nothing changes. The outcomes
/// are those of `smblease_server_join`.
#[unsafe(no_mangle)]
pub extern "C" fn smblease_server_cut(alloc: Global, server: &mut ServerHandle, client: u8) -> u32
    ensures { IsCall (Served (λ server. rules.cut server client)) (MayBeLostUnless (is_absent client))
        result (running server.old.held) (running server.new.held) }
{
    match server.take_server(alloc) {
        None => Outcome::Nothing.code(),
        Some((machine, room)) => server
            .keep(alloc, room, machine.cut(ClientNo(client)))
            .code(),
    }
}

/// The timer of the break of a client's lease runs out (3.3.6.5). Where no break of it waits for its
/// acknowledgment nothing changes. The outcomes are those of `smblease_server_join`.
#[unsafe(no_mangle)]
pub extern "C" fn smblease_server_expire(
    alloc: Global,
    server: &mut ServerHandle,
    client: u8,
    key: &KeyBytes,
) -> u32
    ensures { IsCall (Served (λ server. rules.expire server (key_of client key.now.bytes)))
        (MayBeLostUnless (is_settled client key.now.bytes)) result (running server.old.held) (running server.new.held) }
{
    match server.take_server(alloc) {
        None => Outcome::Nothing.code(),
        Some((machine, room)) => server
            .keep(
                alloc,
                room,
                machine.expire(ClientNo(client), LeaseKey(key.bytes)),
            )
            .code(),
    }
}

/// The timer of a durable open runs out (3.3.6.2). Where no such open waits for its client nothing
/// changes. The outcomes are those of `smblease_server_join`.
#[unsafe(no_mangle)]
pub extern "C" fn smblease_server_scavenge(
    alloc: Global,
    server: &mut ServerHandle,
    file_id: u64,
) -> u32
    ensures { IsCall (Served (λ server. rules.scavenge server file_id)) (MayBeLostUnless (is_gone file_id))
        result (running server.old.held) (running server.new.held) }
{
    match server.take_server(alloc) {
        None => Outcome::Nothing.code(),
        Some((machine, room)) => server
            .keep(alloc, room, machine.scavenge(FileId(file_id)))
            .code(),
    }
}
