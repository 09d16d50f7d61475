ghost use Rattle.std.specs.Prelude.{◌≡◌, ◌≢◌, ◌≤◌, None, IfSome, slice_get, IsSomeAnd};
ghost use Rattle.machines_c.specs.declared.handles.outcome.Outcome.TheVariants as outcomes;
ghost use Rattle.machines_c.specs.manager.Fields.{listed_lease_fields};
ghost use Rattle.machines_c.specs.manager.Listed.{AreLeasesListed, leases_listed};

use crate::handles::Outcome;
use crate::manager::handle::ManagerHandle;
use crate::manager::listed::Listing;
use lease_manager::ListedLease;
use std::alloc::Global;

/// A lease: `struct smblease_listed_lease`.
#[repr(C)]
#[derive(Clone, Copy, Debug, PartialEq, Eq)]
pub struct ListedLeaseFields {
    /// The number of its client.
    pub client: u64,
    /// The number of the file that its opens are on.
    pub file: u64,
    /// How many opens it has.
    pub opens: u64,
    /// Its key, which is the client's.
    pub key: [u8; 16],
    /// What it holds: the bits of LeaseState.
    pub state: u32,
    /// What it is broken to, where `breaking` is set.
    pub broken_to: u32,
    /// A break of it waits for its acknowledgment.
    pub breaking: u8,
    /// Room for later versions: 0.
    pub reserved: [u8; 31],
}

impl ListedLeaseFields {
    // The fields that hold a lease.
    fn holding(one: &ListedLease) -> ListedLeaseFields
        ensures { result ≡ listed_lease_fields one.now }
    {
        let broken_to = match one.broken_to {
            Some(state) => state.to_wire(),
            None => 0,
        };
        let key = one.key.0;
        ListedLeaseFields {
            client: one.client.0,
            file: one.file.0,
            opens: one.opens,
            key,
            state: one.state.to_wire(),
            broken_to,
            breaking: u8::from(one.broken_to.is_some()),
            reserved: [0; 31],
        }
    }
}

/// Lists all leases as they stand (3.3.1.12), in order of their clients' numbers, then of their keys' bytes. What the
/// last call decided stays.
///
/// Returns 0; 1 where there is no memory for the list, and nothing changed; 3 where there is no
/// manager.
#[unsafe(no_mangle)]
pub extern "C" fn smblease_manager_list_leases(alloc: Global, manager: &mut ManagerHandle) -> u32
    ensures listed { result ≡ 0 → IfSome manager.old.held (λ old. IsSomeAnd manager.new.held (AreLeasesListed old)) }
    ensures unchanged { result ≢ 0 → manager.new.held ≡ manager.old.held }
    ensures some { manager.old.held ≢ None → result ≤ 1 }
    ensures none { manager.old.held ≡ None → result ≡ 3 }
{
    manager.list(alloc, Listing::Leases).code()
}

// Writes the lease at the index into `out`.
fn tell(leases: &[ListedLease], index: usize, out: &mut ListedLeaseFields) -> Outcome
    ensures given { IfSome (slice_get leases.now index) (λ one. (result ≡ outcomes.Done)
        × (out.new ≡ listed_lease_fields one)) }
    ensures nothing { slice_get leases.now index ≡ None → (result ≡ outcomes.NoSuch) × (out.new ≡ out.old) }
{
    match leases.get(index) {
        Some(one) => {
            *out = ListedLeaseFields::holding(one);
            Outcome::Done
        }
        None => Outcome::NoSuch,
    }
}

/// The lease that was listed at this index, from 0.
///
/// Returns 0; 3 where there is no manager; 4 where nothing has the index, or a call of the manager
/// came since the leases were listed. Then nothing is written.
#[unsafe(no_mangle)]
pub extern "C" fn smblease_manager_listed_lease_at(
    alloc: Global,
    manager: &mut ManagerHandle,
    index: usize,
    out: &mut ListedLeaseFields,
) -> u32
    ensures same { manager.new.held ≡ manager.old.held }
    ensures given { IfSome (slice_get (leases_listed manager.old.held) index) (λ one. (result ≡ 0)
        × (out.new ≡ listed_lease_fields one)) }
    ensures nothing { slice_get (leases_listed manager.old.held) index ≡ None → out.new ≡ out.old }
    ensures no_index { manager.old.held ≢ None → slice_get (leases_listed manager.old.held) index ≡ None → result ≡ 4 }
    ensures none { manager.old.held ≡ None → result ≡ 3 }
{
    match manager.take(alloc) {
        None => Outcome::Nothing.code(),
        Some(managing) => {
            let outcome = tell(managing.listed.leases.as_slice(), index, out);
            manager.put(alloc, managing);
            outcome.code()
        }
    }
}
