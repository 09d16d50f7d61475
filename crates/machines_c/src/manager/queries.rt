ghost use Rattle.std.specs.Prelude.{◌≡◌, ◌||◌, None, IfSome, length, ◌==◌};
ghost use Rattle.std.specs.List.{list_any};
ghost use Rattle.lease_model.specs.server.Calls.{is_left_behind};
ghost use Rattle.lease_model.specs.server.Naming.{key_of};
ghost use Rattle.lease_model.specs.server.Queries as queries;
ghost use Rattle.lease_model.specs.messages.Requests.{FileRequest};
ghost use Rattle.lease_manager.specs.Questions.{goes_at_once, write_within};
ghost use Rattle.machines_c.specs.handles.Codes.{flag_of};
ghost use Rattle.lease_manager.specs.Table.{queue_at, server_of};
ghost use Rattle.manager_model.specs.Handling.{is_under};
ghost use Rattle.waiting_changes.specs.Changes.{asks_as};

use crate::manager::handle::ManagerHandle;
use crate::values::KeyBytes;
use lease_manager::{ClientNo, FileNo, Tag};
use lease_state::{FileId, LeaseKey};
use std::alloc::Global;

/// 1 where the client is connected (MS-SMB2 3.3.1.7, ConnectionList), and else 0.
#[unsafe(no_mangle)]
pub extern "C" fn smblease_manager_connected(
    alloc: Global,
    manager: &mut ManagerHandle,
    client: u64,
) -> u32
    ensures some { IfSome manager.old.held (λ one. result ≡ flag_of ((server_of one.manager).present client)) }
    ensures none { manager.old.held ≡ None → result ≡ 0 }
    ensures same { manager.new.held ≡ manager.old.held }
{
    match manager.take(alloc) {
        None => 0,
        Some(managing) => {
            let is_connected = managing.manager.is_connected(ClientNo(client));
            manager.put(alloc, managing);
            u32::from(is_connected)
        }
    }
}

/// 1 where a break of the client's lease of this key waits for its acknowledgment (3.3.1.12,
/// Breaking), and else 0.
#[unsafe(no_mangle)]
pub extern "C" fn smblease_manager_breaking(
    alloc: Global,
    manager: &mut ManagerHandle,
    client: u64,
    key: &KeyBytes,
) -> u32
    ensures some { IfSome manager.old.held (λ one. result
        ≡ flag_of (queries.breaking (server_of one.manager) (key_of client key.now.bytes))) }
    ensures none { manager.old.held ≡ None → result ≡ 0 }
    ensures same { manager.new.held ≡ manager.old.held }
{
    match manager.take(alloc) {
        None => 0,
        Some(managing) => {
            let key = LeaseKey(key.bytes);
            let is_breaking = managing.manager.is_breaking(ClientNo(client), key);
            manager.put(alloc, managing);
            u32::from(is_breaking)
        }
    }
}

/// 1 where a request or a change of the client waits on the file under the tag, and else 0.
#[unsafe(no_mangle)]
pub extern "C" fn smblease_manager_waiting(
    alloc: Global,
    manager: &mut ManagerHandle,
    client: u64,
    tag: u64,
    file: u64,
) -> u32
    ensures some { IfSome manager.old.held (λ one. result
        ≡ flag_of (list_any (is_under client tag) (queue_at one.manager.queues file)
        || list_any (asks_as file client tag) one.changes)) }
    ensures none { manager.old.held ≡ None → result ≡ 0 }
    ensures same { manager.new.held ≡ manager.old.held }
{
    match manager.take(alloc) {
        None => 0,
        Some(managing) => {
            let (file, client, tag) = (FileNo(file), ClientNo(client), Tag(tag));
            let is_waiting = managing.manager.is_waiting(file, client, tag)
                || managing.changes.is_waiting(file, client, tag);
            manager.put(alloc, managing);
            u32::from(is_waiting)
        }
    }
}

/// 1 where an open of this FileId waits for its client to connect again (3.3.1.10, IsDurable), and
/// else 0.
#[unsafe(no_mangle)]
pub extern "C" fn smblease_manager_left_behind(
    alloc: Global,
    manager: &mut ManagerHandle,
    file_id: u64,
) -> u32
    ensures some { IfSome manager.old.held (λ one. result
        ≡ flag_of (list_any (is_left_behind file_id) (server_of one.manager).opens)) }
    ensures none { manager.old.held ≡ None → result ≡ 0 }
    ensures same { manager.new.held ≡ manager.old.held }
{
    match manager.take(alloc) {
        None => 0,
        Some(managing) => {
            let is_left = managing.manager.has_left_behind(FileId(file_id));
            manager.put(alloc, managing);
            u32::from(is_left)
        }
    }
}

/// 1 where there is an open of this FileId, connected or not, and else 0.
#[unsafe(no_mangle)]
pub extern "C" fn smblease_manager_has_open(
    alloc: Global,
    manager: &mut ManagerHandle,
    file_id: u64,
) -> u32
    ensures some { IfSome manager.old.held (λ one. result
        ≡ flag_of (list_any (λ other. other.file_id == file_id) (server_of one.manager).opens)) }
    ensures none { manager.old.held ≡ None → result ≡ 0 }
    ensures same { manager.new.held ≡ manager.old.held }
{
    match manager.take(alloc) {
        None => 0,
        Some(managing) => {
            let has_open = managing.manager.has_open(FileId(file_id));
            manager.put(alloc, managing);
            u32::from(has_open)
        }
    }
}

/// How many opens there are, those that wait for their clients too; 0 where there is no manager.
#[unsafe(no_mangle)]
pub extern "C" fn smblease_manager_open_count(alloc: Global, manager: &mut ManagerHandle) -> usize
    ensures some { IfSome manager.old.held (λ one. result ≡ length (server_of one.manager).opens) }
    ensures none { manager.old.held ≡ None → result ≡ 0 }
    ensures same { manager.new.held ≡ manager.old.held }
{
    match manager.take(alloc) {
        None => 0,
        Some(managing) => {
            let count = managing.manager.open_count();
            manager.put(alloc, managing);
            count
        }
    }
}

/// 1 where a read by this FileId of the client would be done at once (3.3.5.12): its open is connected and may read, and no
/// earlier request goes first. Else 0.
#[unsafe(no_mangle)]
pub extern "C" fn smblease_manager_may_read(
    alloc: Global,
    manager: &mut ManagerHandle,
    client: u64,
    file_id: u64,
) -> u32
    ensures some { IfSome manager.old.held (λ one. result
        ≡ flag_of (goes_at_once (server_of one.manager) client (FileRequest.Read file_id))) }
    ensures none { manager.old.held ≡ None → result ≡ 0 }
    ensures same { manager.new.held ≡ manager.old.held }
{
    match manager.take(alloc) {
        None => 0,
        Some(managing) => {
            let may_read = managing.manager.may_read(FileId(file_id), ClientNo(client));
            manager.put(alloc, managing);
            u32::from(may_read)
        }
    }
}

/// 1 where a write by this FileId of the client that ends within what its host allows of a file would be done at once (3.3.5.13):
/// its open is connected and may write, no lease of another key has to be broken, and no earlier request goes first. Else 0.
#[unsafe(no_mangle)]
pub extern "C" fn smblease_manager_may_write(
    alloc: Global,
    manager: &mut ManagerHandle,
    client: u64,
    file_id: u64,
) -> u32
    ensures some { IfSome manager.old.held (λ one. result
        ≡ flag_of (goes_at_once (server_of one.manager) client (write_within file_id))) }
    ensures none { manager.old.held ≡ None → result ≡ 0 }
    ensures same { manager.new.held ≡ manager.old.held }
{
    match manager.take(alloc) {
        None => 0,
        Some(managing) => {
            let may_write = managing
                .manager
                .may_write(FileId(file_id), ClientNo(client));
            manager.put(alloc, managing);
            u32::from(may_write)
        }
    }
}
