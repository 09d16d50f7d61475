ghost use Rattle.std.specs.Prelude.{◌≡◌, None, IfSome, MatchOption};
ghost use Rattle.lease_state.specs.State.{state_of_bits, bits_of_state};
ghost use Rattle.lease_model.specs.server.Allowed as grants;
ghost use Rattle.lease_model.specs.server.Naming.{key_of, key_under};
ghost use Rattle.lease_model.specs.server.Queries as queries;
ghost use Rattle.machines_c.specs.declared.handles.outcome.Outcome.TheVariants as outcomes;
ghost use Rattle.lease_manager.specs.Leases.{lease_of};
ghost use Rattle.lease_manager.specs.Table.{server_of};
ghost use Rattle.machines_c.specs.Values.{key_given};
ghost use Rattle.machines_c.specs.manager.Fields.{lease_fields};

use crate::handles::{Outcome, write_id};
use crate::manager::handle::ManagerHandle;
use crate::values::{KeyBytes, MaybeKey};
use lease_manager::{ClientNo, FileNo, HeldLease};
use lease_state::{LeaseKey, LeaseState};
use std::alloc::Global;

/// A lease: `struct smblease_held_lease`.
#[repr(C)]
#[derive(Clone, Copy, Debug, PartialEq, Eq)]
pub struct LeaseFields {
    /// What it holds: the bits of LeaseState.
    pub state: u32,
    /// What it is broken to, where `breaking` is set.
    pub broken_to: u32,
    /// A break of it waits for its acknowledgment.
    pub breaking: u8,
    /// Room for later versions: 0.
    pub reserved: [u8; 23],
}

impl LeaseFields {
    // The fields that hold a lease.
    fn holding(lease: HeldLease) -> LeaseFields
        ensures { result ≡ lease_fields (lease_of lease) }
    {
        let broken_to = match lease.broken_to {
            Some(state) => state.to_wire(),
            None => 0,
        };
        LeaseFields {
            state: lease.state.to_wire(),
            broken_to,
            breaking: u8::from(lease.broken_to.is_some()),
            reserved: [0; 23],
        }
    }
}

/// What may be granted to the client of the state that it wants: the bits of a LeaseState (profile).
/// 0 where there is no manager.
#[unsafe(no_mangle)]
pub extern "C" fn smblease_manager_allowed(
    alloc: Global,
    manager: &mut ManagerHandle,
    client: u64,
    key: &MaybeKey,
    file: u64,
    want: u32,
) -> u32
    ensures state { IfSome manager.old.held (λ one. result ≡ bits_of_state (grants.allowed (server_of one.manager)
        (key_under client (key_given key.now)) file (state_of_bits want))) }
    ensures none { manager.old.held ≡ None → result ≡ 0 }
    ensures same { manager.new.held ≡ manager.old.held }
{
    match manager.take(alloc) {
        None => 0,
        Some(managing) => {
            let want = LeaseState::from_wire(want);
            let state = managing
                .manager
                .allowed(ClientNo(client), key.key(), FileNo(file), want);
            manager.put(alloc, managing);
            state.to_wire()
        }
    }
}

/// The lease of the client's key (3.3.1.12), into `lease`; that of a key that no open has holds
/// nothing.
///
/// Returns 0; 3 where there is no manager, and nothing is written.
#[unsafe(no_mangle)]
pub extern "C" fn smblease_manager_lease(
    alloc: Global,
    manager: &mut ManagerHandle,
    client: u64,
    key: &KeyBytes,
    lease: &mut LeaseFields,
) -> u32
    ensures some { IfSome manager.old.held (λ one. (result ≡ 0)
        × (lease.new ≡ lease_fields ((server_of one.manager).leases (key_of client key.now.bytes)))) }
    ensures none { manager.old.held ≡ None → (result ≡ 3) × (lease.new ≡ lease.old) }
    ensures same { manager.new.held ≡ manager.old.held }
{
    match manager.take(alloc) {
        None => Outcome::Nothing.code(),
        Some(managing) => {
            let key = LeaseKey(key.bytes);
            *lease = LeaseFields::holding(managing.manager.lease(ClientNo(client), key));
            manager.put(alloc, managing);
            Outcome::Done.code()
        }
    }
}

/// The FileId of the client's oldest durable open on the file that waits to be connected again
/// (profile), into `file_id`.
///
/// Returns 0; 3 where there is no manager; 4 where there is no such open. Then nothing is written.
#[unsafe(no_mangle)]
pub extern "C" fn smblease_manager_kept(
    alloc: Global,
    manager: &mut ManagerHandle,
    client: u64,
    file: u64,
    file_id: &mut u64,
) -> u32
    ensures some { IfSome manager.old.held (λ one. MatchOption (queries.kept (server_of one.manager) client file)
        ((result ≡ 4) × (file_id.new ≡ file_id.old)) (λ id. (result ≡ 0) × (file_id.new ≡ id))) }
    ensures none { manager.old.held ≡ None → (result ≡ 3) × (file_id.new ≡ file_id.old) }
    ensures same { manager.new.held ≡ manager.old.held }
{
    match manager.take(alloc) {
        None => Outcome::Nothing.code(),
        Some(managing) => {
            let kept = managing.manager.kept(ClientNo(client), FileNo(file));
            let outcome = write_id(kept, file_id);
            manager.put(alloc, managing);
            outcome.code()
        }
    }
}
