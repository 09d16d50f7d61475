ghost use Rattle.std.specs.Prelude.{◌≡◌, ◌≢◌, None, IfSome, length, slice_get};
ghost use Rattle.std.specs.Option.{option_map};
ghost use Rattle.machines_c.specs.handles.Outcomes.{IsFilled};
ghost use Rattle.machines_c.specs.declared.handles.outcome.Outcome.TheVariants as outcomes;
ghost use Rattle.machines_c.specs.client.Fields.{request_fields, request_bytes, request_on, requests_of};

use crate::client::handle::ClientHandle;
use crate::handles::{Outcome, fill};
use lease_state::Request;
use std::alloc::Global;

/// A request that goes to the server: `smblease_client_request`. What has no meaning for the kind is 0.
#[repr(C)]
#[derive(Clone, Copy, Debug, PartialEq, Eq)]
pub struct ClientRequest {
    /// The FileId of the open.
    pub file_id: u64,
    /// The number of the write.
    pub number: u64,
    /// How many bytes there are: create contexts, those of a write, or of an acknowledgment.
    pub length: u64,
    /// 1 create, 2 read, 3 write, 4 close, 5 acknowledgment.
    pub kind: u32,
    /// Where the bytes of the write go.
    pub offset: u32,
    /// The number of the file.
    pub file: u8,
    /// 1 for reading, plus 2 for writing.
    pub access: u8,
    /// What other opens may do: 1 for reading, plus 2 for writing.
    pub share: u8,
    /// Room for later versions: 0.
    pub reserved: [u8; 29],
}

// The bytes of a request.
fn bytes_of(request: &Request) -> &[u8]
    ensures { result.now ≡ request_bytes request.now }
{
    match request {
        Request::Create { contexts, .. } => contexts.as_slice(),
        Request::Write { patch, .. } => patch.bytes.as_slice(),
        Request::Ack(bytes) => bytes.as_slice(),
        Request::Read { .. } | Request::Close { .. } => b"",
    }
}

impl ClientRequest {
    // A request of a kind about an open.
    fn on(kind: u32, file_id: u64) -> ClientRequest
        ensures { result ≡ request_on kind file_id }
    {
        ClientRequest {
            file_id,
            number: 0,
            length: 0,
            kind,
            offset: 0,
            file: 0,
            access: 0,
            share: 0,
            reserved: [0; 29],
        }
    }

    // The fields that hold a request.
    fn holding(request: &Request) -> ClientRequest
        ensures { result ≡ request_fields request.now }
    {
        match request {
            Request::Create {
                file,
                access,
                share,
                contexts,
            } => ClientRequest {
                length: contexts.len() as u64,
                file: file.0,
                access: access.bits(),
                share: share.bits(),
                ..ClientRequest::on(1, 0)
            },
            Request::Read { fid } => ClientRequest::on(2, fid.0),
            Request::Write { fid, number, patch } => ClientRequest {
                number: *number,
                length: patch.bytes.len() as u64,
                offset: patch.offset,
                ..ClientRequest::on(3, fid.0)
            },
            Request::Close { fid } => ClientRequest::on(4, fid.0),
            Request::Ack(bytes) => ClientRequest {
                length: bytes.len() as u64,
                ..ClientRequest::on(5, 0)
            },
        }
    }
}

// Writes a request that is there into `out`, and its bytes to the front of `room` where they fit.
fn tell(request: Option<&Request>, out: &mut ClientRequest, room: &mut [u8]) -> Outcome
    ensures some { IfSome (option_map (λ one. one.now) request.entry) (λ one. (result ≡ outcomes.Done)
        × (out.new ≡ request_fields one) × IsFilled (request_bytes one) room.old room.new) }
    ensures none { request.entry ≡ None → (result ≡ outcomes.NoSuch) × (out.new ≡ out.old) × (room.new ≡ room.old) }
{
    match request {
        Some(request) => {
            *out = ClientRequest::holding(request);
            fill(room, bytes_of(request));
            Outcome::Done
        }
        None => Outcome::NoSuch,
    }
}

/// How many requests the last call gave out; 0 where there is no machine.
#[unsafe(no_mangle)]
pub extern "C" fn smblease_client_request_count(alloc: Global, client: &mut ClientHandle) -> usize
    ensures count { result ≡ length (requests_of client.old.held) }
    ensures same { client.new.held ≡ client.old.held }
{
    match client.take(alloc) {
        None => 0,
        Some(stepping) => {
            let count = stepping.step.requests.len();
            client.put(alloc, stepping);
            count
        }
    }
}

/// The request of this index, from 0, that the last call gave out. Its bytes are written to the
/// front of `room` where they fit, and else nothing is written there.
///
/// Returns 0; 3 where there is no machine; 4 where there is no request of the index. Then nothing
/// is written.
#[unsafe(no_mangle)]
pub extern "C" fn smblease_client_request_at(
    alloc: Global,
    client: &mut ClientHandle,
    index: usize,
    out: &mut ClientRequest,
    room: &mut [u8],
) -> u32
    ensures same { client.new.held ≡ client.old.held }
    ensures request { IfSome (slice_get (requests_of client.old.held) index) (λ request. (result ≡ 0)
        × (out.new ≡ request_fields request) × IsFilled (request_bytes request) room.old room.new) }
    ensures no_request { slice_get (requests_of client.old.held) index ≡ None → (out.new ≡ out.old) × (room.new ≡ room.old) }
    ensures no_index { client.old.held ≢ None → slice_get (requests_of client.old.held) index ≡ None → result ≡ 4 }
    ensures none { client.old.held ≡ None → result ≡ 3 }
{
    match client.take(alloc) {
        None => Outcome::Nothing.code(),
        Some(stepping) => {
            let outcome = tell(stepping.step.requests.get(index), out, room);
            client.put(alloc, stepping);
            outcome.code()
        }
    }
}
