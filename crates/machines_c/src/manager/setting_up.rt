ghost use Rattle.std.specs.Prelude.{◌≡◌, ◌≢◌, [], Some, None, IfOk, IfNone, IfSome, IsSomeAnd};
ghost use Rattle.break_timers.specs.Timers.{no_timers, timers_of};
ghost use Rattle.machines_c.specs.handles.Rules.{rules_given};
ghost use Rattle.machines_c.specs.manager.Listed.{IsUnlisted};
ghost use Rattle.lease_manager.specs.Table.{manager_of};
ghost use Rattle.manager_model.specs.Hosting.{fresh_manager};

use crate::handles::{Outcome, rules_of};
use crate::manager::handle::ManagerHandle;
use crate::manager::listed::Listed;
use crate::manager::managing::Managing;
use break_timers::BreakTimers;
use lease_manager::{FileNo, Manager};
use lease_state::Memory;
use std::alloc::Global;
use waiting_changes::WaitingChanges;

/// A manager in a box, of which nothing was asked.
///
/// # Errors
///
/// `Memory` where there is none left for the box.
pub fn managing(alloc: Global, manager: Manager) -> Result<Box<Managing>, Memory>
    ensures manager { IfOk result (λ made. made.value.manager ≡ manager) }
    ensures changes { IfOk result (λ made. made.value.changes ≡ []) }
    ensures decisions { IfOk result (λ made. made.value.decisions.items ≡ []) }
    ensures timers { IfOk result (λ made. timers_of made.value.timers ≡ no_timers) }
    ensures numbers { IfOk result (λ made. made.value.numbers.items ≡ []) }
    ensures listed { IfOk result (λ made. IsUnlisted made.value.listed) }
{
    let made = Managing {
        manager,
        changes: WaitingChanges::new(alloc),
        decisions: Vec::new(alloc),
        timers: BreakTimers::new(alloc),
        numbers: Vec::new(alloc),
        listed: Listed::nothing(alloc),
    };
    Ok(Box::new(alloc, made)?)
}

/// A manager where nothing is open and no client has joined, of rules that are an order of requests,
/// 0 by client or 1 by key, and how a lease rises, 0 as far as is free or 1 whole. Its host's files
/// have the numbers from 1 to `files`. What the handle held is freed.
///
/// Returns 0; 1 where there is no memory; 4 where a number stands for no rule. After 1 and 4 the
/// handle is as it was.
#[unsafe(no_mangle)]
pub extern "C" fn smblease_manager_new(
    alloc: Global,
    manager: &mut ManagerHandle,
    order: u32,
    rise: u32,
    files: u64,
) -> u32
    ensures new { IfSome (rules_given order rise) (λ rules. result ≡ 0 → IsSomeAnd manager.new.held
        (λ one. (manager_of one.manager ≡ fresh_manager rules files) × (one.changes ≡ []) × (one.decisions.items ≡ [])
        × (timers_of one.timers ≡ no_timers) × (one.numbers.items ≡ []) × IsUnlisted one.listed)) }
    ensures no_memory { IfSome (rules_given order rise) (λ rules. result ≢ 0 → result ≡ 1) }
    ensures no_such { IfNone (rules_given order rise) (result ≡ 4) }
    ensures unchanged { result ≢ 0 → manager.new.held ≡ manager.old.held }
{
    match rules_of(order, rise) {
        None => Outcome::NoSuch.code(),
        Some(rules) => match managing(alloc, Manager::with_files(alloc, rules, FileNo(files))) {
            Ok(made) => {
                manager.put(alloc, made);
                Outcome::Done.code()
            }
            Err(_) => Outcome::NoMemory.code(),
        },
    }
}

/// Frees the manager with all that it knows; the handle holds none then.
#[unsafe(no_mangle)]
pub extern "C" fn smblease_manager_free(alloc: Global, manager: &mut ManagerHandle)
    ensures { manager.new.held ≡ None }
{
    drop(manager.take(alloc));
}
