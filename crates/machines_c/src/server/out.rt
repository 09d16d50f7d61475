ghost use Rattle.std.specs.Prelude.{◌≡◌, ◌≢◌, None, IfSome, length, slice_get};
ghost use Rattle.std.specs.Option.{option_map};
ghost use Rattle.machines_c.specs.handles.Outcomes.{IsFilled};
ghost use Rattle.machines_c.specs.declared.handles.outcome.Outcome.TheVariants as outcomes;
ghost use Rattle.machines_c.specs.server.Served.{running, outs_given};
ghost use Rattle.machines_c.specs.server.Fields.{about, reply_fields, reply_bytes, out_fields, out_bytes};

use crate::handles::{Outcome, fill};
use crate::server::handle::ServerHandle;
use lease_state::Reply;
use share_server::Out;
use std::alloc::Global;

/// What a server gives out: `smblease_server_out`. What has no meaning for the kind is 0.
#[repr(C)]
#[derive(Clone, Copy, Debug, PartialEq, Eq)]
pub struct ServerOut {
    /// The FileId of the open.
    pub file_id: u64,
    /// The number of the write.
    pub number: u64,
    /// How many bytes there are: create contexts, those of a file, a write or a break message.
    pub length: u64,
    /// 1 to 11 a message to the client: created, create failed, read done, read failed, write done,
    /// write failed, closed, close failed, break, acknowledgment done, acknowledgment failed; 12 the
    /// file was opened for the client; 13 the file was changed by the client's write.
    pub kind: u32,
    /// The NTSTATUS of a message that refuses.
    pub status: u32,
    /// Where the bytes of the write go.
    pub offset: u32,
    /// The number of the client.
    pub client: u8,
    /// The number of the file.
    pub file: u8,
    /// Room for later versions: 0.
    pub reserved: [u8; 26],
}

// The bytes of a message.
fn bytes_of(reply: &Reply) -> &[u8]
    ensures { result.now ≡ reply_bytes reply.now }
{
    match reply {
        Reply::Created { contexts, .. } => contexts.as_slice(),
        Reply::ReadDone { bytes, .. } => bytes.as_slice(),
        Reply::Break(bytes) => bytes.as_slice(),
        Reply::AckDone(bytes) => bytes.as_slice(),
        _ => b"",
    }
}

// The bytes of what was given out.
fn bytes_given(out: &Out) -> &[u8]
    ensures { result.now ≡ out_bytes out.now }
{
    match out {
        Out::Sent(_, reply) => bytes_of(reply),
        Out::Changed(_, _, _, patch) => patch.bytes.as_slice(),
        Out::Opened(_, _) => b"",
    }
}

impl ServerOut {
    // What is said about an open.
    fn about(kind: u32, file_id: u64) -> ServerOut
        ensures { result ≡ about kind file_id }
    {
        ServerOut {
            file_id,
            number: 0,
            length: 0,
            kind,
            status: 0,
            offset: 0,
            client: 0,
            file: 0,
            reserved: [0; 26],
        }
    }

    // A refusal about an open.
    fn refused(kind: u32, file_id: u64, status: u32) -> ServerOut
        ensures { result ≡ record (about kind file_id) { status = status } }
    {
        ServerOut {
            status,
            ..ServerOut::about(kind, file_id)
        }
    }

    // Something with so many bytes.
    fn with_bytes(kind: u32, file_id: u64, length: usize) -> ServerOut
        ensures { result ≡ record (about kind file_id) { length = length } }
    {
        ServerOut {
            length: length as u64,
            ..ServerOut::about(kind, file_id)
        }
    }

    // The fields that hold a message.
    fn of_reply(reply: &Reply) -> ServerOut
        ensures { result ≡ reply_fields reply.now }
    {
        match reply {
            Reply::Created {
                file,
                fid,
                contexts,
            } => ServerOut {
                file: file.0,
                ..ServerOut::with_bytes(1, fid.0, contexts.len())
            },
            Reply::CreateFailed { file, status } => ServerOut {
                file: file.0,
                ..ServerOut::refused(2, 0, status.code())
            },
            Reply::ReadDone { fid, bytes } => ServerOut::with_bytes(3, fid.0, bytes.len()),
            Reply::ReadFailed { fid, status } => ServerOut::refused(4, fid.0, status.code()),
            Reply::WriteDone { fid, number } => ServerOut {
                number: *number,
                ..ServerOut::about(5, fid.0)
            },
            Reply::WriteFailed {
                fid,
                number,
                status,
            } => ServerOut {
                number: *number,
                ..ServerOut::refused(6, fid.0, status.code())
            },
            Reply::Closed { fid } => ServerOut::about(7, fid.0),
            Reply::CloseFailed { fid, status } => ServerOut::refused(8, fid.0, status.code()),
            Reply::Break(_) => ServerOut::with_bytes(9, 0, 44),
            Reply::AckDone(_) => ServerOut::with_bytes(10, 0, 36),
            Reply::AckFailed { status } => ServerOut::refused(11, 0, status.code()),
        }
    }

    // The fields that hold what was given out.
    fn holding(out: &Out) -> ServerOut
        ensures { result ≡ out_fields out.now }
    {
        match out {
            Out::Sent(client, reply) => ServerOut {
                client: client.0,
                ..ServerOut::of_reply(reply)
            },
            Out::Opened(file, client) => ServerOut {
                client: client.0,
                file: file.0,
                ..ServerOut::about(12, 0)
            },
            Out::Changed(file, client, number, patch) => ServerOut {
                number: *number,
                offset: patch.offset,
                client: client.0,
                file: file.0,
                ..ServerOut::with_bytes(13, 0, patch.bytes.len())
            },
        }
    }
}

// Writes what is there into `out`, and its bytes to the front of `room` where they fit.
fn tell(given: Option<&Out>, out: &mut ServerOut, room: &mut [u8]) -> Outcome
    ensures some { IfSome (option_map (λ one. one.now) given.entry) (λ one. (result ≡ outcomes.Done)
        × (out.new ≡ out_fields one) × IsFilled (out_bytes one) room.old room.new) }
    ensures none { given.entry ≡ None → (result ≡ outcomes.NoSuch) × (out.new ≡ out.old) × (room.new ≡ room.old) }
{
    match given {
        Some(given) => {
            *out = ServerOut::holding(given);
            fill(room, bytes_given(given));
            Outcome::Done
        }
        None => Outcome::NoSuch,
    }
}

/// How much the last call gave out; 0 where there is no machine.
#[unsafe(no_mangle)]
pub extern "C" fn smblease_server_out_count(alloc: Global, server: &mut ServerHandle) -> usize
    ensures count { result ≡ length (outs_given (running server.old.held)) }
    ensures same { running server.new.held ≡ running server.old.held }
{
    match server.take(alloc) {
        None => 0,
        Some(hosted) => {
            let count = if hosted.server.is_some() {
                hosted.outs.len()
            } else {
                0
            };
            server.put(alloc, hosted);
            count
        }
    }
}

/// What the last call gave out at this index, from 0. Its bytes are written to the front of `room`
/// where they fit, and else nothing is written there.
///
/// Returns 0; 3 where there is no machine; 4 where nothing has the index. Then nothing is written.
#[unsafe(no_mangle)]
pub extern "C" fn smblease_server_out_at(
    alloc: Global,
    server: &mut ServerHandle,
    index: usize,
    out: &mut ServerOut,
    room: &mut [u8],
) -> u32
    ensures same { running server.new.held ≡ running server.old.held }
    ensures given { IfSome (slice_get (outs_given (running server.old.held)) index) (λ one. (result ≡ 0)
        × (out.new ≡ out_fields one) × IsFilled (out_bytes one) room.old room.new) }
    ensures nothing { slice_get (outs_given (running server.old.held)) index ≡ None
        → (out.new ≡ out.old) × (room.new ≡ room.old) }
    ensures no_index { running server.old.held ≢ None
        → slice_get (outs_given (running server.old.held)) index ≡ None → result ≡ 4 }
    ensures none { running server.old.held ≡ None → result ≡ 3 }
{
    match server.take(alloc) {
        None => Outcome::Nothing.code(),
        Some(hosted) => {
            let outcome = if hosted.server.is_some() {
                tell(hosted.outs.get(index), out, room)
            } else {
                Outcome::Nothing
            };
            server.put(alloc, hosted);
            outcome.code()
        }
    }
}
