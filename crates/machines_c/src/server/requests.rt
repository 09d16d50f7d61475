ghost use Rattle.std.specs.Prelude.{◌≡◌, ◌≢◌, None, IfSome};
ghost use Rattle.lease_model.specs.server.Calls as rules;
ghost use Rattle.machines_c.specs.handles.Outcomes.{IsCall};
ghost use Rattle.machines_c.specs.server.Asked.{create_asked, read_asked, write_asked, close_asked, acknowledged, is_absent};
ghost use Rattle.machines_c.specs.server.Served.{running, Served, MayBeLostUnless};

use crate::handles::{Outcome, access_of, copied, share_of};
use crate::server::handle::ServerHandle;
use crate::values::AckMessage;
use lease_state::{FileId, FileNo, Patch, Request};
use std::alloc::Global;

/// A client asks to open a file (MS-SMB2 3.3.5.9). `contexts` are the create contexts of the request
/// (2.2.13.2), or no bytes; they are copied. Where the client isn't connected nothing changes.
///
/// Returns 0; 1 where there is no memory for the copy, and 4 where the number of the access or of
/// the share stands for nothing: then nothing changed; 2 where memory ran out later, and the
/// machine is lost, which is never where the client isn't connected; 3 where there is none.
#[unsafe(no_mangle)]
pub extern "C" fn smblease_server_receive_create(
    alloc: Global,
    server: &mut ServerHandle,
    client: u8,
    file: u8,
    access: u8,
    share: u8,
    contexts: &[u8],
) -> u32
    ensures call { result ≢ 1 → IfSome (create_asked file access share contexts.now) (λ request.
        IsCall (Served (λ server. rules.receive server client request)) (MayBeLostUnless (is_absent client))
        result (running server.old.held) (running server.new.held)) }
    ensures unchanged { result ≡ 1 → server.new.held ≡ server.old.held }
    ensures number { create_asked file access share contexts.now ≡ None → (result ≡ 4) × (server.new.held ≡ server.old.held) }
{
    let (Some(access), Some(share)) = (access_of(access), share_of(share)) else {
        return Outcome::NoSuch.code();
    };
    match copied(alloc, contexts) {
        Ok(contexts) => {
            let file = FileNo(file);
            let request = Request::Create {
                file,
                access,
                share,
                contexts,
            };
            server.hear(alloc, client, request).code()
        }
        Err(_) => Outcome::NoMemory.code(),
    }
}

/// A client asks to read the whole file of an open (3.3.5.12). Where it isn't connected nothing
/// changes.
///
/// Returns 0; 2 where memory ran out, and the machine is lost, which is never where the client
/// isn't connected; 3 where there is none.
#[unsafe(no_mangle)]
pub extern "C" fn smblease_server_receive_read(
    alloc: Global,
    server: &mut ServerHandle,
    client: u8,
    file_id: u64,
) -> u32
    ensures { IsCall (Served (λ server. rules.receive server client (read_asked file_id)))
        (MayBeLostUnless (is_absent client)) result (running server.old.held) (running server.new.held) }
{
    let fid = FileId(file_id);
    server.hear(alloc, client, Request::Read { fid }).code()
}

/// A client asks to write the file of an open (3.3.5.13): its write of this number, and where the
/// bytes go. They are copied. Where the client isn't connected nothing changes.
///
/// Returns 0; 1 where there is no memory for the copy, and nothing changed; 2 where memory ran out
/// later, and the machine is lost, which is never where the client isn't connected; 3 where there
/// is none.
#[unsafe(no_mangle)]
pub extern "C" fn smblease_server_receive_write(
    alloc: Global,
    server: &mut ServerHandle,
    client: u8,
    file_id: u64,
    number: u64,
    offset: u32,
    bytes: &[u8],
) -> u32
    ensures call { result ≢ 1 → IsCall
        (Served (λ server. rules.receive server client (write_asked file_id number offset bytes.now)))
        (MayBeLostUnless (is_absent client)) result (running server.old.held) (running server.new.held) }
    ensures unchanged { result ≡ 1 → server.new.held ≡ server.old.held }
{
    match copied(alloc, bytes) {
        Ok(bytes) => {
            let (fid, patch) = (FileId(file_id), Patch { offset, bytes });
            let request = Request::Write { fid, number, patch };
            server.hear(alloc, client, request).code()
        }
        Err(_) => Outcome::NoMemory.code(),
    }
}

/// A client asks to close an open (3.3.5.10). The outcomes are those of
/// `smblease_server_receive_read`.
#[unsafe(no_mangle)]
pub extern "C" fn smblease_server_receive_close(
    alloc: Global,
    server: &mut ServerHandle,
    client: u8,
    file_id: u64,
) -> u32
    ensures { IsCall (Served (λ server. rules.receive server client (close_asked file_id)))
        (MayBeLostUnless (is_absent client)) result (running server.old.held) (running server.new.held) }
{
    let fid = FileId(file_id);
    server.hear(alloc, client, Request::Close { fid }).code()
}

/// A client acknowledges the break of a lease (3.3.5.22.2): the 36 bytes of 2.2.24.2. Bytes that are
/// none are refused. The outcomes are those of `smblease_server_receive_read`.
#[unsafe(no_mangle)]
pub extern "C" fn smblease_server_receive_ack(
    alloc: Global,
    server: &mut ServerHandle,
    client: u8,
    message: &AckMessage,
) -> u32
    ensures { IsCall (Served (λ server. rules.receive server client (acknowledged message.now.bytes)))
        (MayBeLostUnless (is_absent client)) result (running server.old.held) (running server.new.held) }
{
    server
        .hear(alloc, client, Request::Ack(message.bytes))
        .code()
}
