ghost use Rattle.std.specs.Prelude.{◌≡◌, false, None, IfSome};
ghost use Rattle.lease_model.specs.server.GivingUp.{is_given_up};
ghost use Rattle.lease_model.specs.server.Naming.{key_under};
ghost use Rattle.lease_manager.specs.Table.{server_of};
ghost use Rattle.machines_c.specs.Values.{key_given};
ghost use Rattle.machines_c.specs.handles.Codes.{extent_given, flag_of};
ghost use Rattle.machines_c.specs.handles.Outcomes.{IsCall};
ghost use Rattle.machines_c.specs.manager.About.{at};
ghost use Rattle.machines_c.specs.manager.Calls.{Handled, MayBeLostUnless};
ghost use Rattle.manager_model.specs.Handling as rules;

use crate::handles::{Outcome, extent_of};
use crate::manager::coming::Coming;
use crate::manager::handle::ManagerHandle;
use crate::values::MaybeKey;
use lease_manager::{ClientNo, FileNo};
use std::alloc::Global;

/// Other keys on a file than this one of the client's give up handles (1), or all that they cache (2); with no key each gives up
/// (own).
///
/// Returns 0; 4 where the extent stands for nothing: then nothing changed; 2 where memory ran out, and the manager is lost; 3
/// where there is none.
#[unsafe(no_mangle)]
pub extern "C" fn smblease_manager_give_up(
    alloc: Global,
    manager: &mut ManagerHandle,
    client: u64,
    key: &MaybeKey,
    file: u64,
    extent: u32,
) -> u32
    ensures call { IfSome (extent_given extent) (λ given. IsCall
        (Handled (at file) (λ one. rules.give_up one (key_under client (key_given key.now)) file given))
        (MayBeLostUnless (λ one. false)) result manager.old.held manager.new.held) }
    ensures number { extent_given extent ≡ None → (result ≡ 4) × (manager.new.held ≡ manager.old.held) }
{
    match extent_of(extent) {
        Some(extent) => manager
            .call(
                alloc,
                Coming::GivesUp(ClientNo(client), key.key(), FileNo(file), extent),
            )
            .code(),
        None => Outcome::NoSuch.code(),
    }
}

/// 1 where no other key on the file than this one of the client's holds handles (1), or is in the way of a change (2), and else
/// 0; with no key each other key counts (own). 0 where the extent stands for nothing.
#[unsafe(no_mangle)]
pub extern "C" fn smblease_manager_given_up(
    alloc: Global,
    manager: &mut ManagerHandle,
    client: u64,
    key: &MaybeKey,
    file: u64,
    extent: u32,
) -> u32
    ensures some { IfSome manager.old.held (λ one. IfSome (extent_given extent) (λ given. result
        ≡ flag_of (is_given_up (server_of one.manager) (key_under client (key_given key.now)) file given))) }
    ensures number { extent_given extent ≡ None → result ≡ 0 }
    ensures none { manager.old.held ≡ None → result ≡ 0 }
    ensures same { manager.new.held ≡ manager.old.held }
{
    let Some(extent) = extent_of(extent) else {
        return 0;
    };
    match manager.take(alloc) {
        None => 0,
        Some(managing) => {
            let is_given_up = managing
                .manager
                .is_given_up(ClientNo(client), key.key(), FileNo(file), extent);
            manager.put(alloc, managing);
            u32::from(is_given_up)
        }
    }
}
