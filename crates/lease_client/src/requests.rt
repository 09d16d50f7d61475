ghost use Rattle.std.specs.Prelude.{◌≡◌, ◌++◌, [], ◌∷◌, map, IfOk, OnOk, if◌then◌else◌};
ghost use Rattle.lease_state.specs.State.{state_of};
ghost use Rattle.lease_wire.specs.Canonical.{canonical_text};
ghost use Rattle.lease_wire.specs.Create.{ask_of};
ghost use Rattle.lease_wire.specs.declared.create.Direction.{Direction};
ghost use Rattle.lease_model.specs.client.Step.{write_requests};
ghost use Rattle.lease_model.specs.messages.ToBytes.{request_written};
ghost use Rattle.lease_model.specs.client.Requests as rules;
ghost use Rattle.lease_client.specs.Terms.{terms_of};

use crate::entry::{Parted, Pending};
use crate::writes::queue::Writes;
use lease_state::{Access, Bytes, FileId, FileNo, LeaseKey, LeaseState, Memory, Request, Share};
use lease_wire::{Acknowledgment, CreateAsk, write_create_ask};
use std::alloc::Global;

/// How a file is to be opened.
#[derive(Clone, Copy, Debug)]
pub struct Terms {
    pub access: Access,
    pub share: Share,
    pub want: LeaseState,
    pub durable: bool,
}

/// The write as a request (MS-SMB2 2.2.21) under a FileId. The entry keeps the write until it is
/// answered, so the request has a copy.
///
/// # Errors
///
/// `Memory` where there is none left for the copy.
fn write_request(file_id: FileId, write: &Pending) -> Result<Request, Memory>
    ensures { IfOk result (λ request. request ≡ request_written (rules.write_request file_id.0 write.now)) }
{
    Ok(Request::Write {
        fid: file_id,
        number: write.number,
        patch: write.patch.try_copy()?,
    })
}

/// Sends the writes under a FileId, after the requests that there are.
///
/// # Errors
///
/// `Memory` where there is none left for the requests.
#[tactic(auto, using(crate::proofs::Views::requested_more))]
pub fn push_writes(
    requests: &mut Vec<Request>,
    file_id: FileId,
    writes: &Writes,
) -> Result<(), Memory>
    ensures { OnOk result (requests.new.items
        ≡ requests.old.items ++ map request_written (write_requests file_id.0 writes.now)) }
{
    let (first, rest) = writes.as_slices();
    push_each_write(requests, file_id, first)?;
    push_each_write(requests, file_id, rest)
}

fn push_each_write(
    requests: &mut Vec<Request>,
    file_id: FileId,
    writes: &[Pending],
) -> Result<(), Memory>
    ensures { OnOk result (requests.new.items
        ≡ requests.old.items ++ map request_written (write_requests file_id.0 writes.now)) }
{
    for write in writes {
        let request = write_request(file_id, write)?;
        requests.push(request)?;
    }
    Ok(())
}

/// To close an open (2.2.15).
pub fn close(file_id: FileId) -> Request
    ensures { result ≡ request_written (rules.close_request file_id.0) }
{
    Request::Close { fid: file_id }
}

/// To acknowledge the break of a lease (2.2.24.2).
pub fn acknowledge(key: LeaseKey, state: LeaseState) -> Request
    ensures { result ≡ request_written (rules.acknowledge_request key.0 (state_of state)) }
{
    Request::Ack(Acknowledgment { key, state }.encode())
}

/// To open a file under its key (2.2.13): RqLs with the wanted state, and DHnQ where a durable open is
/// wanted.
///
/// # Errors
///
/// `Memory` where there is none left for the create contexts.
pub fn open(alloc: Global, file: FileNo, key: LeaseKey, terms: Terms) -> Result<Request, Memory>
    ensures { IfOk result (λ request.
        request ≡ request_written (rules.open_request key.0 file.0 (terms_of terms))) }
{
    let ask = CreateAsk {
        lease: Some((key, terms.want)),
        durable: terms.durable,
        reconnect: None,
    };
    Ok(Request::Create {
        file,
        access: terms.access,
        share: terms.share,
        contexts: contexts(alloc, &ask)?,
    })
}

/// To connect an open again (2.2.13): RqLs with no state (profile), and DHnC.
///
/// # Errors
///
/// `Memory` where there is none left for the create contexts.
pub fn connect_again(
    alloc: Global,
    file: FileNo,
    key: LeaseKey,
    parted: &Parted,
) -> Result<Request, Memory>
    ensures { IfOk result (λ request.
        request ≡ request_written (rules.again_request key.0 file.0 parted.now)) }
{
    let ask = CreateAsk {
        lease: Some((key, LeaseState::NONE)),
        durable: false,
        reconnect: Some(parted.file_id),
    };
    Ok(Request::Create {
        file,
        access: parted.access,
        share: parted.share,
        contexts: contexts(alloc, &ask)?,
    })
}

fn contexts(alloc: Global, ask: &CreateAsk) -> Result<Bytes, Memory>
    ensures { IfOk result (λ bytes. bytes ≡ canonical_text Direction.Request (ask_of ask.now)) }
{
    let mut text = Vec::new(alloc);
    write_create_ask(ask, &mut text)?;
    Ok(Bytes::new(text))
}
