ghost use Rattle.std.specs.Prelude.{◌≡◌, ◌≢◌, ◌≤◌, None, IfSome, slice_get, IsSomeAnd};
ghost use Rattle.machines_c.specs.declared.handles.outcome.Outcome.TheVariants as outcomes;
ghost use Rattle.lease_manager.specs.Listing.{open_of};
ghost use Rattle.machines_c.specs.manager.Listed.{AreOpensListed, opens_listed};
ghost use Rattle.machines_c.specs.manager.Fields.{open_fields};

use crate::handles::Outcome;
use crate::manager::handle::ManagerHandle;
use crate::manager::listed::Listing;
use lease_manager::ListedOpen;
use std::alloc::Global;

/// An open: `struct smblease_listed_open`.
#[repr(C)]
#[derive(Clone, Copy, Debug, PartialEq, Eq)]
pub struct OpenFields {
    /// Its FileId.
    pub file_id: u64,
    /// The number of its client.
    pub client: u64,
    /// The number of its file.
    pub file: u64,
    /// Its lease key, where `has_key` is set.
    pub key: [u8; 16],
    /// It was asked for with a lease key.
    pub has_key: u8,
    /// What it may do.
    pub access: u8,
    /// What it lets others do.
    pub share: u8,
    /// It is durable.
    pub durable: u8,
    /// Its client is connected.
    pub connected: u8,
    /// Room for later versions: 0.
    pub reserved: [u8; 27],
}

impl OpenFields {
    // The fields that hold an open.
    fn holding(one: &ListedOpen) -> OpenFields
        ensures { result ≡ open_fields (open_of one.now) }
    {
        let key = match one.lease_key {
            Some(key) => key.0,
            None => [0; 16],
        };
        OpenFields {
            file_id: one.file_id.0,
            client: one.client.0,
            file: one.file.0,
            key,
            has_key: u8::from(one.lease_key.is_some()),
            access: one.access.bits(),
            share: one.share.bits(),
            durable: u8::from(one.durable),
            connected: u8::from(one.connected),
            reserved: [0; 27],
        }
    }
}

/// Lists all opens as they stand, in the order of their FileIds. What the last call decided stays.
///
/// Returns 0; 1 where there is no memory for the list, and nothing changed; 3 where there is no
/// manager.
#[unsafe(no_mangle)]
pub extern "C" fn smblease_manager_list_opens(alloc: Global, manager: &mut ManagerHandle) -> u32
    ensures listed { result ≡ 0 → IfSome manager.old.held (λ old. IsSomeAnd manager.new.held (AreOpensListed old)) }
    ensures unchanged { result ≢ 0 → manager.new.held ≡ manager.old.held }
    ensures some { manager.old.held ≢ None → result ≤ 1 }
    ensures none { manager.old.held ≡ None → result ≡ 3 }
{
    manager.list(alloc, Listing::Opens).code()
}

// Writes the open at the index into `out`.
fn tell(opens: &[ListedOpen], index: usize, out: &mut OpenFields) -> Outcome
    ensures given { IfSome (slice_get opens.now index) (λ one. (result ≡ outcomes.Done)
        × (out.new ≡ open_fields (open_of one))) }
    ensures nothing { slice_get opens.now index ≡ None → (result ≡ outcomes.NoSuch) × (out.new ≡ out.old) }
{
    match opens.get(index) {
        Some(one) => {
            *out = OpenFields::holding(one);
            Outcome::Done
        }
        None => Outcome::NoSuch,
    }
}

/// The open that was listed at this index, from 0.
///
/// Returns 0; 3 where there is no manager; 4 where nothing has the index, or a call of the manager
/// came since the opens were listed. Then nothing is written.
#[unsafe(no_mangle)]
pub extern "C" fn smblease_manager_listed_at(
    alloc: Global,
    manager: &mut ManagerHandle,
    index: usize,
    out: &mut OpenFields,
) -> u32
    ensures same { manager.new.held ≡ manager.old.held }
    ensures given { IfSome (slice_get (opens_listed manager.old.held) index) (λ one. (result ≡ 0)
        × (out.new ≡ open_fields (open_of one))) }
    ensures nothing { slice_get (opens_listed manager.old.held) index ≡ None → out.new ≡ out.old }
    ensures no_index { manager.old.held ≢ None → slice_get (opens_listed manager.old.held) index ≡ None → result ≡ 4 }
    ensures none { manager.old.held ≡ None → result ≡ 3 }
{
    match manager.take(alloc) {
        None => Outcome::Nothing.code(),
        Some(managing) => {
            let outcome = tell(managing.listed.opens.as_slice(), index, out);
            manager.put(alloc, managing);
            outcome.code()
        }
    }
}
