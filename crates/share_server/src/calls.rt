ghost use Rattle.std.specs.Prelude.{◌≡◌, [], true, false, IsOk, OnOk};
ghost use Rattle.std.specs.List.{list_any};
ghost use Rattle.std.specs.Option.{option_map};
ghost use Rattle.lease_manager.specs.Outs.{decisions};
ghost use Rattle.lease_manager.specs.Requests.{lease_asked};
ghost use Rattle.lease_manager.specs.Table.{manager_of, server_of};
ghost use Rattle.lease_model.specs.messages.FromBytes.{acknowledged_in, ask_found, request_of};
ghost use Rattle.lease_model.specs.messages.Requests as model;
ghost use Rattle.lease_model.specs.server.Calls as rules;
ghost use Rattle.lease_model.specs.server.Calls.{is_left_behind};
ghost use Rattle.lease_model.specs.server.Naming.{key_of};
ghost use Rattle.lease_model.specs.server.State.{is_breaking};
ghost use Rattle.lease_wire.specs.Gathering.{value_of};
ghost use Rattle.lease_wire.specs.declared.create.Direction.{Direction};
ghost use Rattle.manager_model.specs.Hosting.{call_of};
ghost use Rattle.share_server.specs.Calling.{IsUnderWay};
ghost use Rattle.share_server.specs.Coming.{applies, call_asked};
ghost use Rattle.share_server.specs.Requests.{file_request_of};
ghost use Rattle.share_server.specs.Table.{IsCalled, IsServer, table_of};

use crate::host::Host;
use crate::outs::Outs;
use crate::values::coming::Coming;
use crate::values::number::client_no;
use crate::values::request::FileRequest;
use lease_laws::{bytes_laws, laws_of_servers};
use lease_manager::{CreateAsk, Decision, Manager, Tag};
use lease_state::{
    Access, Bytes, ClientNo, FileId, FileNo, LeaseKey, LeaseState, Memory, Request, Share, Status,
};
use lease_wire::{Acknowledgment, read_create};
use manager_model::{law_of_answers, law_of_hosts};

/// Something comes to a server.
pub fn handle(
    manager: &mut Manager,
    host: &mut Host,
    told: &mut Vec<Decision>,
    outs: &mut Outs,
    coming: Coming,
) -> Result<(), Memory>
    requires given { outs.old ≡ [] }
    requires server { IsServer (table_of manager.old host.old) }
    ensures step { OnOk result (IsCalled (table_of manager.old host.old) (call_asked coming)
        (table_of manager.new host.new) outs.new) }
    ensures idle { applies coming manager.old ≡ false → IsOk result }
{
    match coming {
        Coming::Joins(client) => join(manager, host, outs, client),
        Coming::Asks(client, request) => receive(manager, host, told, outs, client, request),
        Coming::IsCut(client) => cut(manager, host, told, outs, client),
        Coming::Expires(client, key) => expire(manager, host, told, outs, client, key),
        Coming::Scavenges(fid) => scavenge(manager, host, told, outs, fid),
    }
}

/// A client connects.
pub fn join(
    manager: &mut Manager,
    host: &mut Host,
    outs: &mut Outs,
    client: ClientNo,
) -> Result<(), Memory>
    requires given { outs.old ≡ [] }
    requires server { IsServer (table_of manager.old host.old) }
    ensures step { OnOk result (IsCalled (table_of manager.old host.old) (rules.Call.Join client.0)
        (table_of manager.new host.new) outs.new) }
    ensures idle { (server_of manager.old).present client.0 ≡ true → IsOk result }
{
    if !manager.is_connected(client_no(client)) {
        manager.join(client_no(client))?;
        settle(manager, host, &[], outs)?;
    }
    Ok(())
}

/// A request of a client comes.
pub fn receive(
    manager: &mut Manager,
    host: &mut Host,
    told: &mut Vec<Decision>,
    outs: &mut Outs,
    client: ClientNo,
    request: Request,
) -> Result<(), Memory>
    requires given { outs.old ≡ [] }
    requires server { IsServer (table_of manager.old host.old) }
    ensures step { OnOk result (IsCalled (table_of manager.old host.old) (rules.Call.Receive client.0 (request_of request))
        (table_of manager.new host.new) outs.new) }
    ensures idle { (server_of manager.old).present client.0 ≡ false → IsOk result }
{
    if manager.is_connected(client_no(client)) {
        arrive(manager, host, told, outs, client, request)?;
    }
    Ok(())
}

// A request of a connected client comes.
fn arrive(
    manager: &mut Manager,
    host: &mut Host,
    told: &mut Vec<Decision>,
    outs: &mut Outs,
    client: ClientNo,
    request: Request,
) -> Result<(), Memory>
    requires given { outs.old ≡ [] }
    requires server { IsServer (table_of manager.old host.old) }
    requires present { (server_of manager.old).present client.0 ≡ true }
    ensures { OnOk result (IsCalled (table_of manager.old host.old) (rules.Call.Receive client.0 (request_of request))
        (table_of manager.new host.new) outs.new) }
{
    match request {
        Request::Create {
            file,
            access,
            share,
            contexts,
        } => create(
            manager, host, told, outs, client, file, access, share, contexts,
        ),
        Request::Read { fid } => ask(manager, host, told, outs, client, FileRequest::Read { fid }),
        Request::Write { fid, number, patch } => {
            ask(
                manager,
                host,
                told,
                outs,
                client,
                FileRequest::Write { fid, number, patch },
            )
        }
        Request::Close { fid } => ask(
            manager,
            host,
            told,
            outs,
            client,
            FileRequest::Close { fid },
        ),
        Request::Ack(bytes) => acknowledge(manager, host, told, outs, client, &bytes),
    }
}

// A create comes, whose contexts are read.
fn create(
    manager: &mut Manager,
    host: &mut Host,
    told: &mut Vec<Decision>,
    outs: &mut Outs,
    client: ClientNo,
    file: FileNo,
    access: Access,
    share: Share,
    contexts: Bytes,
) -> Result<(), Memory>
    requires given { outs.old ≡ [] }
    requires server { IsServer (table_of manager.old host.old) }
    requires present { (server_of manager.old).present client.0 ≡ true }
    ensures { OnOk result (IsCalled (table_of manager.old host.old) (rules.Call.Receive client.0 (model.Request.OnFile
        (model.FileRequest.Create file.0 access share (ask_found (value_of Direction.Request contexts)))))
        (table_of manager.new host.new) outs.new) }
{
    match read_create(contexts.as_slice()) {
        Ok(given) => {
            let request = FileRequest::Create {
                file,
                access,
                share,
                ask: CreateAsk {
                    lease: given.lease,
                    durable: given.durable,
                    reconnect: given.reconnect,
                },
            };
            ask(manager, host, told, outs, client, request)?;
            Ok(())
        }
        Err(_) => {
            outs.refuse_create(client, file, Status::InvalidParameter)?;
            Ok(())
        }
    }
}

// The manager is asked under a new tag.
fn ask(
    manager: &mut Manager,
    host: &mut Host,
    told: &mut Vec<Decision>,
    outs: &mut Outs,
    client: ClientNo,
    request: FileRequest,
) -> Result<(), Memory>
    requires given { outs.old ≡ [] }
    requires server { IsServer (table_of manager.old host.old) }
    ensures { OnOk result (IsCalled (table_of manager.old host.old)
        (rules.Call.Receive client.0 (model.Request.OnFile (file_request_of request))) (table_of manager.new host.new) outs.new) }
{
    let asked = request.ask();
    let tag = host.ask(request)?;
    manager.ask(client_no(client), Tag(tag), asked, told)?;
    settle(manager, host, told, outs)?;
    Ok(())
}

// An acknowledgment comes, and is read.
fn acknowledge(
    manager: &mut Manager,
    host: &mut Host,
    told: &mut Vec<Decision>,
    outs: &mut Outs,
    client: ClientNo,
    bytes: &[u8],
) -> Result<(), Memory>
    requires given { outs.old ≡ [] }
    requires server { IsServer (table_of manager.old host.old) }
    ensures { OnOk result (IsCalled (table_of manager.old host.old)
        (rules.Call.Receive client.0 (model.Request.Acknowledge (acknowledged_in bytes.now))) (table_of manager.new host.new) outs.new) }
{
    match acknowledged(bytes) {
        Some((key, state)) => {
            manager.acknowledge(client_no(client), key, state, told)?;
            settle(manager, host, told, outs)?;
            Ok(())
        }
        None => {
            manager.acknowledge_malformed(client_no(client), told)?;
            settle(manager, host, told, outs)?;
            Ok(())
        }
    }
}

// What is acknowledged by these bytes (MS-SMB2 2.2.24.2).
fn acknowledged(bytes: &[u8]) -> Option<(LeaseKey, LeaseState)>
    ensures { option_map lease_asked result ≡ acknowledged_in bytes.now }
{
    bytes_laws();
    match Acknowledgment::decode(bytes) {
        Ok((given, _)) => Some((given.key, given.state)),
        Err(_) => None,
    }
}

/// A client's connection is lost.
pub fn cut(
    manager: &mut Manager,
    host: &mut Host,
    told: &mut Vec<Decision>,
    outs: &mut Outs,
    client: ClientNo,
) -> Result<(), Memory>
    requires given { outs.old ≡ [] }
    requires server { IsServer (table_of manager.old host.old) }
    ensures step { OnOk result (IsCalled (table_of manager.old host.old) (rules.Call.Cut client.0)
        (table_of manager.new host.new) outs.new) }
    ensures idle { (server_of manager.old).present client.0 ≡ false → IsOk result }
{
    if manager.is_connected(client_no(client)) {
        manager.cut(client_no(client), told)?;
        settle(manager, host, told, outs)?;
    }
    Ok(())
}

/// The timer of a lease break runs out.
pub fn expire(
    manager: &mut Manager,
    host: &mut Host,
    told: &mut Vec<Decision>,
    outs: &mut Outs,
    client: ClientNo,
    key: LeaseKey,
) -> Result<(), Memory>
    requires given { outs.old ≡ [] }
    requires server { IsServer (table_of manager.old host.old) }
    ensures step { OnOk result (IsCalled (table_of manager.old host.old) (rules.Call.Expire (key_of client.0 key.0))
        (table_of manager.new host.new) outs.new) }
    ensures idle { is_breaking ((server_of manager.old).leases (key_of client.0 key.0)) ≡ false → IsOk result }
{
    if manager.is_breaking(client_no(client), key) {
        manager.expire(client_no(client), key, told)?;
        settle(manager, host, told, outs)?;
    }
    Ok(())
}

/// The timer of a durable open runs out.
pub fn scavenge(
    manager: &mut Manager,
    host: &mut Host,
    told: &mut Vec<Decision>,
    outs: &mut Outs,
    fid: FileId,
) -> Result<(), Memory>
    requires given { outs.old ≡ [] }
    requires server { IsServer (table_of manager.old host.old) }
    ensures step { OnOk result (IsCalled (table_of manager.old host.old) (rules.Call.Scavenge fid.0)
        (table_of manager.new host.new) outs.new) }
    ensures idle { list_any (is_left_behind fid.0) (server_of manager.old).opens ≡ false → IsOk result }
{
    if manager.has_left_behind(fid) {
        manager.scavenge(fid, told)?;
        settle(manager, host, told, outs)?;
    }
    Ok(())
}

// Carries out what the manager decided of what came.
fn settle(
    manager: &Manager,
    host: &mut Host,
    told: &[Decision],
    outs: &mut Outs,
) -> Result<(), Memory>
    requires given { outs.old ≡ [] }
    requires way { IsUnderWay manager.now (decisions told.now) host.old }
    ensures { OnOk result ((way : IsUnderWay manager.now (decisions told.now) host.old)
        → IsCalled way.old (call_of (manager_of way.old.manager) way.coming)
        (table_of manager.now host.new) outs.new) }
{
    law_of_hosts();
    law_of_answers();
    laws_of_servers();
    host.settle(manager, told, outs)?;
    Ok(())
}
