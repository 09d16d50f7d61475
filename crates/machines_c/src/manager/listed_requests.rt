ghost use Rattle.std.specs.Prelude.{◌≡◌, ◌≢◌, ◌≤◌, None, IfSome, slice_get, IsSomeAnd};
ghost use Rattle.machines_c.specs.declared.handles.outcome.Outcome.TheVariants as outcomes;
ghost use Rattle.lease_manager.specs.Listings.{waiting_of};
ghost use Rattle.lease_manager.specs.Requests.{ask_of};
ghost use Rattle.machines_c.specs.manager.Fields.{request_fields, request_of_kind, with_ask};
ghost use Rattle.machines_c.specs.manager.Listed.{AreRequestsListed, requests_listed};

use crate::handles::Outcome;
use crate::manager::handle::ManagerHandle;
use crate::manager::listed::Listing;
use lease_manager::{Ask, CreateAsk, ListedRequest};
use std::alloc::Global;

/// A request that waits: `struct smblease_listed_request`. What has no meaning for its kind is 0.
#[repr(C)]
#[derive(Clone, Copy, Debug, PartialEq, Eq)]
pub struct RequestFields {
    /// The number of the file that it waits on.
    pub file: u64,
    /// The number of its client.
    pub client: u64,
    /// The tag under which it came.
    pub tag: u64,
    /// The open of a read, a write or a close, and of a create the one that is to be connected again, where
    /// `has_reconnect` is set.
    pub file_id: u64,
    /// The lease key of a create, where `has_lease` is set.
    pub key: [u8; 16],
    /// The state that a create wants, where `has_lease` is set: the bits of LeaseState.
    pub state: u32,
    /// 1 create, 2 read, 3 write, 4 close.
    pub kind: u32,
    /// What a create wants to do.
    pub access: u8,
    /// What a create lets others do.
    pub share: u8,
    /// A create asks for a lease.
    pub has_lease: u8,
    /// A create asks for a durable open.
    pub durable: u8,
    /// A create asks for a durable open again.
    pub has_reconnect: u8,
    /// Room for later versions: 0.
    pub reserved: [u8; 27],
}

impl RequestFields {
    // The fields of a request of this kind, by the open of this FileId.
    fn of_kind(one: &ListedRequest, kind: u32, file_id: u64) -> RequestFields
        ensures { result ≡ request_of_kind kind file_id (waiting_of one.now) }
    {
        RequestFields {
            file: one.file.0,
            client: one.client.0,
            tag: one.tag.0,
            file_id,
            key: [0; 16],
            state: 0,
            kind,
            access: 0,
            share: 0,
            has_lease: 0,
            durable: 0,
            has_reconnect: 0,
            reserved: [0; 27],
        }
    }

    // With what the contexts of a create ask for.
    fn with_ask(self, ask: CreateAsk) -> RequestFields
        ensures { result ≡ with_ask (Some (ask_of ask)) self }
    {
        let mut fields = self;
        fields.durable = u8::from(ask.durable);
        if let Some((key, state)) = ask.lease {
            let bytes = key.0;
            fields.key = bytes;
            fields.state = state.to_wire();
            fields.has_lease = 1;
        }
        if let Some(fid) = ask.reconnect {
            fields.file_id = fid.0;
            fields.has_reconnect = 1;
        }
        fields
    }

    // The fields that hold a request.
    fn holding(one: &ListedRequest) -> RequestFields
        ensures { result ≡ request_fields (waiting_of one.now) }
    {
        match one.ask {
            Ask::Create {
                access,
                share,
                ask,
                ..
            } => {
                let mut fields = RequestFields::of_kind(one, 1, 0);
                fields.access = access.bits();
                fields.share = share.bits();
                fields.with_ask(ask)
            }
            Ask::Read { fid } => RequestFields::of_kind(one, 2, fid.0),
            Ask::Write { fid, .. } => RequestFields::of_kind(one, 3, fid.0),
            Ask::Close { fid } => RequestFields::of_kind(one, 4, fid.0),
        }
    }
}

/// Lists all requests that wait (3.3.4.2), in order of their files' numbers, and on each file in order of arrival. What the
/// last call decided stays.
///
/// Returns 0; 1 where there is no memory for the list, and nothing changed; 3 where there is no
/// manager.
#[unsafe(no_mangle)]
pub extern "C" fn smblease_manager_list_requests(alloc: Global, manager: &mut ManagerHandle) -> u32
    ensures listed { result ≡ 0 → IfSome manager.old.held (λ old. IsSomeAnd manager.new.held (AreRequestsListed old)) }
    ensures unchanged { result ≢ 0 → manager.new.held ≡ manager.old.held }
    ensures some { manager.old.held ≢ None → result ≤ 1 }
    ensures none { manager.old.held ≡ None → result ≡ 3 }
{
    manager.list(alloc, Listing::Requests).code()
}

// Writes the request at the index into `out`.
fn tell(requests: &[ListedRequest], index: usize, out: &mut RequestFields) -> Outcome
    ensures given { IfSome (slice_get requests.now index) (λ one. (result ≡ outcomes.Done)
        × (out.new ≡ request_fields (waiting_of one))) }
    ensures nothing { slice_get requests.now index ≡ None → (result ≡ outcomes.NoSuch) × (out.new ≡ out.old) }
{
    match requests.get(index) {
        Some(one) => {
            *out = RequestFields::holding(one);
            Outcome::Done
        }
        None => Outcome::NoSuch,
    }
}

/// The request that was listed at this index, from 0.
///
/// Returns 0; 3 where there is no manager; 4 where nothing has the index, or a call of the manager
/// came since the requests were listed. Then nothing is written.
#[unsafe(no_mangle)]
pub extern "C" fn smblease_manager_listed_request_at(
    alloc: Global,
    manager: &mut ManagerHandle,
    index: usize,
    out: &mut RequestFields,
) -> u32
    ensures same { manager.new.held ≡ manager.old.held }
    ensures given { IfSome (slice_get (requests_listed manager.old.held) index) (λ one. (result ≡ 0)
        × (out.new ≡ request_fields (waiting_of one))) }
    ensures nothing { slice_get (requests_listed manager.old.held) index ≡ None → out.new ≡ out.old }
    ensures no_index { manager.old.held ≢ None → slice_get (requests_listed manager.old.held) index ≡ None → result ≡ 4 }
    ensures none { manager.old.held ≡ None → result ≡ 3 }
{
    match manager.take(alloc) {
        None => Outcome::Nothing.code(),
        Some(managing) => {
            let outcome = tell(managing.listed.requests.as_slice(), index, out);
            manager.put(alloc, managing);
            outcome.code()
        }
    }
}
