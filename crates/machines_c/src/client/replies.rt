ghost use Rattle.std.specs.Prelude.{◌≡◌, ◌≢◌};
ghost use Rattle.machines_c.specs.handles.Outcomes.{IsCall};
ghost use Rattle.machines_c.specs.handles.Codes as codes;
ghost use Rattle.lease_model.specs.messages.FromBytes.{notice_in, acknowledged_in};
ghost use Rattle.lease_model.specs.messages.Replies as told;
ghost use Rattle.machines_c.specs.client.Asked.{created};
ghost use Rattle.machines_c.specs.client.Calls.{Took, TookWith, Always, Never};

use crate::client::handle::ClientHandle;
use crate::client::values::BreakMessage;
use crate::handles::{Outcome, copied, status_of};
use crate::values::AckMessage;
use lease_state::{FileId, FileNo, Reply};
use std::alloc::Global;

/// The server opened a file (MS-SMB2 3.2.5.7). `contexts` are the create contexts of the response
/// (2.2.14.2), or no bytes; they are copied.
///
/// Returns 0; 1 where there is no memory for the copy, and nothing changed; 2 where memory ran out
/// later, and the machine is lost; 3 where there is none.
#[unsafe(no_mangle)]
pub extern "C" fn smblease_client_take_created(
    alloc: Global,
    client: &mut ClientHandle,
    file: u8,
    file_id: u64,
    contexts: &[u8],
) -> u32
    ensures call { result ≢ 1 → IsCall (Took (created file file_id contexts.now)) Always
        result client.old.held client.new.held }
    ensures unchanged { result ≡ 1 → client.new.held ≡ client.old.held }
{
    match copied(alloc, contexts) {
        Ok(contexts) => {
            let (file, fid) = (FileNo(file), FileId(file_id));
            client
                .hear(
                    alloc,
                    Reply::Created {
                        file,
                        fid,
                        contexts,
                    },
                )
                .code()
        }
        Err(_) => Outcome::NoMemory.code(),
    }
}

/// The server opened no file. A status that the machines have no name for is to them that of a request
/// that failed, here and below; an answer that fails by it tells it as it came.
///
/// Returns 0; 2 where memory ran out, and the machine is lost; 3 where there is none.
#[unsafe(no_mangle)]
pub extern "C" fn smblease_client_take_create_failed(
    alloc: Global,
    client: &mut ClientHandle,
    file: u8,
    status: u32,
) -> u32
    ensures { IsCall (TookWith status (told.Reply.CreateFailed file (codes.status_of status))) Always
        result client.old.held client.new.held }
{
    let (file, code, status) = (FileNo(file), status, status_of(status));
    client
        .hear_with(alloc, Reply::CreateFailed { file, status }, code)
        .code()
}

/// The server read a whole file (3.2.5.11). The bytes are copied. The outcomes are those of
/// `smblease_client_take_created`.
#[unsafe(no_mangle)]
pub extern "C" fn smblease_client_take_read_done(
    alloc: Global,
    client: &mut ClientHandle,
    file_id: u64,
    bytes: &[u8],
) -> u32
    ensures call { result ≢ 1 → IsCall (Took (told.Reply.ReadDone file_id bytes.now)) Always
        result client.old.held client.new.held }
    ensures unchanged { result ≡ 1 → client.new.held ≡ client.old.held }
{
    match copied(alloc, bytes) {
        Ok(bytes) => {
            let fid = FileId(file_id);
            client.hear(alloc, Reply::ReadDone { fid, bytes }).code()
        }
        Err(_) => Outcome::NoMemory.code(),
    }
}

/// The server read nothing. The outcomes are those of `smblease_client_take_create_failed`.
#[unsafe(no_mangle)]
pub extern "C" fn smblease_client_take_read_failed(
    alloc: Global,
    client: &mut ClientHandle,
    file_id: u64,
    status: u32,
) -> u32
    ensures { IsCall (TookWith status (told.Reply.ReadFailed file_id (codes.status_of status))) Always
        result client.old.held client.new.held }
{
    let (fid, code, status) = (FileId(file_id), status, status_of(status));
    client
        .hear_with(alloc, Reply::ReadFailed { fid, status }, code)
        .code()
}

/// The server did the write of this number (3.2.5.12). The outcomes are those of
/// `smblease_client_take_create_failed`.
#[unsafe(no_mangle)]
pub extern "C" fn smblease_client_take_write_done(
    alloc: Global,
    client: &mut ClientHandle,
    file_id: u64,
    number: u64,
) -> u32
    ensures { IsCall (Took (told.Reply.WriteDone file_id number)) Always result client.old.held client.new.held }
{
    let fid = FileId(file_id);
    client.hear(alloc, Reply::WriteDone { fid, number }).code()
}

/// The server didn't do the write of this number. The outcomes are those of
/// `smblease_client_take_create_failed`.
#[unsafe(no_mangle)]
pub extern "C" fn smblease_client_take_write_failed(
    alloc: Global,
    client: &mut ClientHandle,
    file_id: u64,
    number: u64,
    status: u32,
) -> u32
    ensures { IsCall (TookWith status (told.Reply.WriteFailed file_id number (codes.status_of status))) Always
        result client.old.held client.new.held }
{
    let (fid, code, status) = (FileId(file_id), status, status_of(status));
    let reply = Reply::WriteFailed {
        fid,
        number,
        status,
    };
    client.hear_with(alloc, reply, code).code()
}

/// The server closed an open. Returns 0, or 3 where there is no machine; the machine is never lost.
#[unsafe(no_mangle)]
pub extern "C" fn smblease_client_take_closed(
    alloc: Global,
    client: &mut ClientHandle,
    file_id: u64,
) -> u32
    ensures { IsCall (Took (told.Reply.Closed file_id)) Never result client.old.held client.new.held }
{
    let fid = FileId(file_id);
    client.hear(alloc, Reply::Closed { fid }).code()
}

/// The server closed no open. The outcomes are those of `smblease_client_take_closed`.
#[unsafe(no_mangle)]
pub extern "C" fn smblease_client_take_close_failed(
    alloc: Global,
    client: &mut ClientHandle,
    file_id: u64,
    status: u32,
) -> u32
    ensures { IsCall (TookWith status (told.Reply.CloseFailed file_id (codes.status_of status))) Never
        result client.old.held client.new.held }
{
    let (fid, code, status) = (FileId(file_id), status, status_of(status));
    client
        .hear_with(alloc, Reply::CloseFailed { fid, status }, code)
        .code()
}

/// The server breaks a lease (3.2.5.19.2): the 44 bytes of the notification (2.2.23.2). Bytes that
/// are none are passed over. The outcomes are those of `smblease_client_take_create_failed`.
#[unsafe(no_mangle)]
pub extern "C" fn smblease_client_take_break(
    alloc: Global,
    client: &mut ClientHandle,
    message: &BreakMessage,
) -> u32
    ensures { IsCall (Took (told.Reply.Break (notice_in message.now.bytes))) Always
        result client.old.held client.new.held }
{
    client.hear(alloc, Reply::Break(message.bytes)).code()
}

/// The server answers an acknowledgment: the 36 bytes of 2.2.25.2. The outcomes are those of
/// `smblease_client_take_closed`.
#[unsafe(no_mangle)]
pub extern "C" fn smblease_client_take_ack_done(
    alloc: Global,
    client: &mut ClientHandle,
    message: &AckMessage,
) -> u32
    ensures { IsCall (Took (told.Reply.AckDone (acknowledged_in message.now.bytes))) Never
        result client.old.held client.new.held }
{
    client.hear(alloc, Reply::AckDone(message.bytes)).code()
}

/// The server refused an acknowledgment. The outcomes are those of `smblease_client_take_closed`.
#[unsafe(no_mangle)]
pub extern "C" fn smblease_client_take_ack_failed(
    alloc: Global,
    client: &mut ClientHandle,
    status: u32,
) -> u32
    ensures { IsCall (TookWith status (told.Reply.AckFailed (codes.status_of status))) Never
        result client.old.held client.new.held }
{
    let (code, status) = (status, status_of(status));
    client
        .hear_with(alloc, Reply::AckFailed { status }, code)
        .code()
}
