ghost use Rattle.std.specs.Prelude.{◌≡◌, ◌≢◌, None, IfSome, MatchOption, length};
ghost use Rattle.std.specs.List.{list_any};
ghost use Rattle.lease_state.specs.State.{state_of_bits, bits_of_state};
ghost use Rattle.lease_model.specs.server.Allowed as grants;
ghost use Rattle.lease_model.specs.server.Calls as rules;
ghost use Rattle.lease_model.specs.server.Naming.{key_of, key_under};
ghost use Rattle.lease_model.specs.server.Queries as queries;
ghost use Rattle.share_server.specs.Table.{server_of};
ghost use Rattle.machines_c.specs.handles.Outcomes.{IsFilled};
ghost use Rattle.machines_c.specs.handles.Codes.{flag_of};
ghost use Rattle.machines_c.specs.declared.handles.outcome.Outcome.TheVariants as outcomes;
ghost use Rattle.std.specs.Option.{option_map};
ghost use Rattle.machines_c.specs.Values.{key_given};
ghost use Rattle.machines_c.specs.server.Served.{running};

use crate::handles::{Outcome, fill, write_id};
use crate::server::handle::ServerHandle;
use crate::values::{KeyBytes, MaybeKey};
use lease_state::{ClientNo, FileId, FileNo, LeaseKey, LeaseState};
use std::alloc::Global;

/// What the server may grant: the bits of a LeaseState (profile). 0 where there is no machine.
#[unsafe(no_mangle)]
pub extern "C" fn smblease_server_allowed(
    alloc: Global,
    server: &mut ServerHandle,
    client: u8,
    key: &MaybeKey,
    file: u8,
    want: u32,
) -> u32
    ensures state { IfSome (running server.old.held) (λ one. result ≡ bits_of_state (grants.allowed (server_of one.server)
        (key_under client (key_given key.now)) file (state_of_bits want))) }
    ensures none { running server.old.held ≡ None → result ≡ 0 }
    ensures same { running server.new.held ≡ running server.old.held }
{
    match server.take(alloc) {
        None => 0,
        Some(hosted) => {
            let bits = match &hosted.server {
                Some(one) => one
                    .allowed(
                        ClientNo(client),
                        key.key(),
                        FileNo(file),
                        LeaseState::from_wire(want),
                    )
                    .to_wire(),
                None => 0,
            };
            server.put(alloc, hosted);
            bits
        }
    }
}

/// 1 where the client is connected (MS-SMB2 3.3.1.7, ConnectionList), and else 0.
#[unsafe(no_mangle)]
pub extern "C" fn smblease_server_connected(
    alloc: Global,
    server: &mut ServerHandle,
    client: u8,
) -> u32
    ensures some { IfSome (running server.old.held) (λ one. result ≡ flag_of ((server_of one.server).present client)) }
    ensures none { running server.old.held ≡ None → result ≡ 0 }
    ensures same { running server.new.held ≡ running server.old.held }
{
    match server.take(alloc) {
        None => 0,
        Some(hosted) => {
            let is_connected = match &hosted.server {
                Some(one) => one.is_connected(ClientNo(client)),
                None => false,
            };
            server.put(alloc, hosted);
            u32::from(is_connected)
        }
    }
}

/// 1 where a break of the client's lease of this key waits for its acknowledgment (3.3.1.12,
/// Breaking), and else 0.
#[unsafe(no_mangle)]
pub extern "C" fn smblease_server_breaking(
    alloc: Global,
    server: &mut ServerHandle,
    client: u8,
    key: &KeyBytes,
) -> u32
    ensures some { IfSome (running server.old.held) (λ one. result
        ≡ flag_of (queries.breaking (server_of one.server) (key_of client key.now.bytes))) }
    ensures none { running server.old.held ≡ None → result ≡ 0 }
    ensures same { running server.new.held ≡ running server.old.held }
{
    match server.take(alloc) {
        None => 0,
        Some(hosted) => {
            let is_breaking = match &hosted.server {
                Some(one) => one.breaking(ClientNo(client), LeaseKey(key.bytes)),
                None => false,
            };
            server.put(alloc, hosted);
            u32::from(is_breaking)
        }
    }
}

/// 1 where an open of this FileId waits for its client to connect again (3.3.1.10, IsDurable), and
/// else 0.
#[unsafe(no_mangle)]
pub extern "C" fn smblease_server_left_behind(
    alloc: Global,
    server: &mut ServerHandle,
    file_id: u64,
) -> u32
    ensures some { IfSome (running server.old.held) (λ one. result
        ≡ flag_of (list_any (rules.is_left_behind file_id) (server_of one.server).opens)) }
    ensures none { running server.old.held ≡ None → result ≡ 0 }
    ensures same { running server.new.held ≡ running server.old.held }
{
    match server.take(alloc) {
        None => 0,
        Some(hosted) => {
            let is_left = match &hosted.server {
                Some(one) => one.has_left_behind(FileId(file_id)),
                None => false,
            };
            server.put(alloc, hosted);
            u32::from(is_left)
        }
    }
}

/// The FileId of the client's oldest durable open on the file that waits to be connected again
/// (profile), into `file_id`.
///
/// Returns 0; 3 where there is no machine; 4 where there is no such open. Then nothing is written.
#[unsafe(no_mangle)]
pub extern "C" fn smblease_server_kept(
    alloc: Global,
    server: &mut ServerHandle,
    client: u8,
    file: u8,
    file_id: &mut u64,
) -> u32
    ensures some { IfSome (running server.old.held) (λ one. MatchOption (queries.kept (server_of one.server) client file)
        ((result ≡ 4) × (file_id.new ≡ file_id.old)) (λ id. (result ≡ 0) × (file_id.new ≡ id))) }
    ensures none { running server.old.held ≡ None → (result ≡ 3) × (file_id.new ≡ file_id.old) }
    ensures same { running server.new.held ≡ running server.old.held }
{
    match server.take(alloc) {
        None => Outcome::Nothing.code(),
        Some(hosted) => {
            let outcome = match &hosted.server {
                Some(one) => write_id(one.kept(ClientNo(client), FileNo(file)), file_id),
                None => Outcome::Nothing,
            };
            server.put(alloc, hosted);
            outcome.code()
        }
    }
}

// How many bytes there are is written into `count`, and they to the front of `room` where they fit.
fn write_bytes(found: Option<&[u8]>, count: &mut u64, room: &mut [u8]) -> Outcome
    ensures some { IfSome (option_map (λ bytes. bytes.now) found.entry) (λ bytes. (result ≡ outcomes.Done)
        × (count.new ≡ length bytes) × IsFilled bytes room.old room.new) }
    ensures none { found.entry ≡ None → (result ≡ outcomes.NoSuch) × (count.new ≡ count.old) × (room.new ≡ room.old) }
{
    match found {
        Some(bytes) => {
            *count = fill(room, bytes) as u64;
            Outcome::Done
        }
        None => Outcome::NoSuch,
    }
}

/// The bytes of a file, to the front of `room` where they fit; else nothing is written there. How many
/// there are is written into `count`.
///
/// Returns 0; 3 where there is no machine; 4 where the server has no file of this number. Then
/// nothing is written.
#[unsafe(no_mangle)]
pub extern "C" fn smblease_server_content(
    alloc: Global,
    server: &mut ServerHandle,
    file: u8,
    count: &mut u64,
    room: &mut [u8],
) -> u32
    ensures some { IfSome (running server.old.held) (λ one. MatchOption (queries.content (server_of one.server) file)
        ((result ≡ 4) × (count.new ≡ count.old) × (room.new ≡ room.old))
        (λ bytes. (result ≡ 0) × (count.new ≡ length bytes) × IsFilled bytes room.old room.new)) }
    ensures none { running server.old.held ≡ None → (result ≡ 3) × (count.new ≡ count.old) × (room.new ≡ room.old) }
    ensures same { running server.new.held ≡ running server.old.held }
{
    match server.take(alloc) {
        None => Outcome::Nothing.code(),
        Some(hosted) => {
            let outcome = match &hosted.server {
                Some(one) => write_bytes(one.content(FileNo(file)), count, room),
                None => Outcome::Nothing,
            };
            server.put(alloc, hosted);
            outcome.code()
        }
    }
}
