ghost use Rattle.std.specs.Prelude.{◌≡◌, ◌≢◌, ◌⊎◌, [], None, Err, IfErr, IfNone, IfOk, IfSome, IsSomeAnd};
ghost use Rattle.break_timers.specs.Timers.{no_timers, timers_of};
ghost use Rattle.kept_opens.specs.Kept.{HoldsNone};
ghost use Rattle.kept_opens.specs.Managers.{BreaksALaw, IsImport};
ghost use Rattle.lease_manager.specs.Table.{manager_of, server_of};
ghost use Rattle.machines_c.specs.declared.handles.outcome.Outcome.TheVariants as outcomes;
ghost use Rattle.machines_c.specs.handles.Rules.{rules_given};
ghost use Rattle.machines_c.specs.manager.Listed.{IsUnlisted};
ghost use Rattle.machines_c.specs.manager.Restarting.{IsExportedTo};

use crate::handles::{Outcome, fill, rules_of};
use crate::manager::handle::ManagerHandle;
use crate::manager::managing::Managing;
use crate::manager::setting_up::managing;
use kept_opens::{ImportError, export, import};
use lease_manager::FileNo;
use lease_state::Rules;
use std::alloc::Global;

/// The bytes of what a host keeps over a restart of its own: the opens that would be there were each client cut now (MS-SMB2
/// 3.3.7.1), with what their leases hold, and the FileId given last. They are written to the front of `room` where they fit, and
/// else nothing is written there; their number is written to `length`.
///
/// Returns 0; 1 where there is no memory for the bytes; 3 where there is no manager. After 1 and 3 nothing is written.
#[unsafe(no_mangle)]
pub extern "C" fn smblease_manager_export(
    alloc: Global,
    manager: &mut ManagerHandle,
    length: &mut usize,
    room: &mut [u8],
) -> u32
    ensures same { manager.new.held ≡ manager.old.held }
    ensures given { result ≡ 0 → IsSomeAnd manager.old.held
        (λ one. IsExportedTo (server_of one.manager) length.new room.old room.new) }
    ensures nothing { result ≢ 0 → (length.new ≡ length.old) × (room.new ≡ room.old) }
    ensures no_memory { manager.old.held ≢ None → (result ≡ 0) ⊎ (result ≡ 1) }
    ensures none { manager.old.held ≡ None → result ≡ 3 }
{
    match manager.take(alloc) {
        None => Outcome::Nothing.code(),
        Some(managing) => {
            let outcome = match export(alloc, &managing.manager) {
                Ok(bytes) => {
                    *length = fill(room, &bytes);
                    Outcome::Done
                }
                Err(_) => Outcome::NoMemory,
            };
            manager.put(alloc, managing);
            outcome.code()
        }
    }
}

/// A manager as by `smblease_manager_new` that has the opens which these bytes hold, as `smblease_manager_export` wrote them: each
/// waits for its client to connect again (MS-SMB2 3.3.5.9.7). What the handle held is freed.
///
/// Returns 0; 1 where there is no memory; 4 where a number stands for no rule; 5 where no opens have these bytes; 6 where the opens
/// would break a law that holds of every manager. After all but 0 the handle is as it was.
#[unsafe(no_mangle)]
pub extern "C" fn smblease_manager_import(
    alloc: Global,
    manager: &mut ManagerHandle,
    order: u32,
    rise: u32,
    files: u64,
    bytes: &[u8],
) -> u32
    ensures made { IfSome (rules_given order rise) (λ rules. result ≡ 0 → IsSomeAnd manager.new.held
        (λ one. IsImport rules files bytes.now (manager_of one.manager) × (one.changes ≡ []) × (one.decisions.items ≡ [])
        × (timers_of one.timers ≡ no_timers) × (one.numbers.items ≡ []) × IsUnlisted one.listed)) }
    ensures damaged { result ≡ 5 → HoldsNone bytes.now }
    ensures unlawful { IfSome (rules_given order rise) (λ rules. result ≡ 6 → BreaksALaw rules files bytes.now) }
    ensures refused { IfSome (rules_given order rise) (λ rules. result ≢ 0 → (result ≡ 1) ⊎ ((result ≡ 5) ⊎ (result ≡ 6))) }
    ensures no_such { IfNone (rules_given order rise) (result ≡ 4) }
    ensures unchanged { result ≢ 0 → manager.new.held ≡ manager.old.held }
{
    match rules_of(order, rise) {
        None => Outcome::NoSuch.code(),
        Some(rules) => match imported(alloc, rules, files, bytes) {
            Ok(made) => {
                manager.put(alloc, made);
                Outcome::Done.code()
            }
            Err(outcome) => outcome.code(),
        },
    }
}

// The manager that bytes make, in a box, or why there is none.
fn imported(alloc: Global, rules: Rules, files: u64, bytes: &[u8]) -> Result<Box<Managing>, Outcome>
    ensures manager { IfOk result (λ made. IsImport rules files bytes.now (manager_of made.value.manager)) }
    ensures changes { IfOk result (λ made. made.value.changes ≡ []) }
    ensures decisions { IfOk result (λ made. made.value.decisions.items ≡ []) }
    ensures timers { IfOk result (λ made. timers_of made.value.timers ≡ no_timers) }
    ensures numbers { IfOk result (λ made. made.value.numbers.items ≡ []) }
    ensures listed { IfOk result (λ made. IsUnlisted made.value.listed) }
    ensures damaged { result ≡ Err outcomes.Damaged → HoldsNone bytes.now }
    ensures unlawful { result ≡ Err outcomes.Unlawful → BreaksALaw rules files bytes.now }
    ensures refused { IfErr result (λ outcome. (outcome ≡ outcomes.NoMemory)
        ⊎ ((outcome ≡ outcomes.Damaged) ⊎ (outcome ≡ outcomes.Unlawful))) }
{
    match import(alloc, rules, FileNo(files), bytes) {
        Ok(manager) => match managing(alloc, manager) {
            Ok(made) => Ok(made),
            Err(_) => Err(Outcome::NoMemory),
        },
        Err(ImportError::Damaged) => Err(Outcome::Damaged),
        Err(ImportError::Unlawful) => Err(Outcome::Unlawful),
        Err(ImportError::Memory) => Err(Outcome::NoMemory),
    }
}
