ghost use Rattle.std.specs.Prelude.{◌≡◌, ◌≢◌, None, Some, IfSome};
ghost use Rattle.lease_model.specs.messages.Requests.{FileRequest};
ghost use Rattle.machines_c.specs.handles.Outcomes.{IsCall};
ghost use Rattle.lease_manager.specs.Requests.{request_like};
ghost use Rattle.manager_model.specs.Handling as rules;
ghost use Rattle.lease_model.specs.server.Naming.{key_of};
ghost use Rattle.machines_c.specs.manager.About.{at_key, if_present, nowhere};
ghost use Rattle.machines_c.specs.manager.Asked.{create_asked, write_asked, kept_by, is_absent};
ghost use Rattle.machines_c.specs.manager.Calls.{Asked, Handled, MayBeLostUnless};

use crate::handles::{Outcome, access_of, share_of};
use crate::manager::coming::Coming;
use crate::manager::handle::ManagerHandle;
use crate::manager::values::{AckFields, CreateFields};
use lease_manager::{Ask, ClientNo, FileNo, Tag};
use lease_state::{FileId, LeaseKey, LeaseState};
use std::alloc::Global;

/// A client asks to open a file (MS-SMB2 3.3.5.9), or to connect a durable open again (3.3.5.9.7).
/// Where it isn't connected nothing changes.
///
/// Returns 0; 4 where the number of the access or of the share stands for nothing: then nothing
/// changed; 2 where memory ran out, and the manager is lost, which is never where the client isn't
/// connected; 3 where there is none.
#[unsafe(no_mangle)]
pub extern "C" fn smblease_manager_create(
    alloc: Global,
    manager: &mut ManagerHandle,
    client: u64,
    tag: u64,
    file: u64,
    access: u8,
    share: u8,
    ask: &CreateFields,
) -> u32
    ensures call { IfSome (create_asked file access share ask.now) (λ request.
        IsCall (Asked client tag request) (MayBeLostUnless (is_absent client))
        result manager.old.held manager.new.held) }
    ensures number { create_asked file access share ask.now ≡ None → (result ≡ 4) × (manager.new.held ≡ manager.old.held) }
{
    let (Some(access), Some(share)) = (access_of(access), share_of(share)) else {
        return Outcome::NoSuch.code();
    };
    let create = Ask::Create {
        file: FileNo(file),
        access,
        share,
        ask: ask.ask(),
    };
    manager
        .call(alloc, Coming::Asks(ClientNo(client), Tag(tag), create))
        .code()
}

/// A client asks to read by an open (3.3.5.12). Where it isn't connected nothing changes.
///
/// Returns 0; 2 where memory ran out, and the manager is lost, which is never where the client
/// isn't connected; 3 where there is none.
#[unsafe(no_mangle)]
pub extern "C" fn smblease_manager_read(
    alloc: Global,
    manager: &mut ManagerHandle,
    client: u64,
    tag: u64,
    file_id: u64,
) -> u32
    ensures { IsCall (Asked client tag (FileRequest.Read file_id))
        (MayBeLostUnless (is_absent client)) result manager.old.held manager.new.held }
{
    let fid = FileId(file_id);
    manager
        .call(
            alloc,
            Coming::Asks(ClientNo(client), Tag(tag), Ask::Read { fid }),
        )
        .code()
}

/// A client asks to write by an open (3.3.5.13), within what the host allows of a file (any number
/// but 0), or past it. The outcomes are those of `smblease_manager_read`.
#[unsafe(no_mangle)]
pub extern "C" fn smblease_manager_write(
    alloc: Global,
    manager: &mut ManagerHandle,
    client: u64,
    tag: u64,
    file_id: u64,
    fits: u8,
) -> u32
    ensures { IsCall (Asked client tag (write_asked file_id fits))
        (MayBeLostUnless (is_absent client)) result manager.old.held manager.new.held }
{
    let write = Ask::Write {
        fid: FileId(file_id),
        fits: fits != 0,
    };
    manager
        .call(alloc, Coming::Asks(ClientNo(client), Tag(tag), write))
        .code()
}

/// A client asks to close an open (3.3.5.10). The outcomes are those of `smblease_manager_read`.
#[unsafe(no_mangle)]
pub extern "C" fn smblease_manager_close(
    alloc: Global,
    manager: &mut ManagerHandle,
    client: u64,
    tag: u64,
    file_id: u64,
) -> u32
    ensures { IsCall (Asked client tag (FileRequest.Close file_id))
        (MayBeLostUnless (is_absent client)) result manager.old.held manager.new.held }
{
    let fid = FileId(file_id);
    manager
        .call(
            alloc,
            Coming::Asks(ClientNo(client), Tag(tag), Ask::Close { fid }),
        )
        .code()
}

/// A client acknowledges the break of a lease (3.3.5.22.2). The outcomes are those of
/// `smblease_manager_read`.
#[unsafe(no_mangle)]
pub extern "C" fn smblease_manager_acknowledge(
    alloc: Global,
    manager: &mut ManagerHandle,
    client: u64,
    given: &AckFields,
) -> u32
    ensures { IsCall (Handled (if_present client (at_key (key_of client given.now.key)))
        (λ one. rules.acknowledge one client (Some (kept_by given.now))))
        (MayBeLostUnless (is_absent client)) result manager.old.held manager.new.held }
{
    let (key, state) = (LeaseKey(given.key), LeaseState::from_wire(given.state));
    manager
        .call(alloc, Coming::Acknowledges(ClientNo(client), key, state))
        .code()
}

/// A client sends an acknowledgment that can't be read. The outcomes are those of
/// `smblease_manager_read`.
#[unsafe(no_mangle)]
pub extern "C" fn smblease_manager_acknowledge_malformed(
    alloc: Global,
    manager: &mut ManagerHandle,
    client: u64,
) -> u32
    ensures { IsCall (Handled nowhere (λ one. rules.acknowledge one client None))
        (MayBeLostUnless (is_absent client)) result manager.old.held manager.new.held }
{
    manager
        .call(alloc, Coming::IsMalformed(ClientNo(client)))
        .code()
}
