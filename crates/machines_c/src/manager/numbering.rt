ghost use Rattle.std.specs.Prelude.{◌≡◌, ◌++◌, [], IsOk, OnOk, map};
ghost use Rattle.break_timers.specs.Numbering.{noted_all, numbers_told};
ghost use Rattle.break_timers.specs.Timers.{timers_of};
ghost use Rattle.lease_manager.specs.Outs.{decisions};
ghost use Rattle.machines_c.specs.manager.Fields.{number_field};

use break_timers::BreakTimers;
use lease_manager::Decision;
use lease_state::Memory;

/// Timers start and stop as these decisions say: the numbers of those that start come onto the list, and 0 for a decision that
/// starts none.
pub fn note_all(
    timers: &mut BreakTimers,
    told: &[Decision],
    numbers: &mut Vec<u64>,
) -> Result<(), Memory>
    ensures timers { OnOk result (timers_of timers.new ≡ noted_all (decisions told.now) (timers_of timers.old)) }
    ensures numbers { OnOk result (numbers.new.items
        ≡ numbers.old.items ++ map number_field (numbers_told (decisions told.now) (timers_of timers.old))) }
    ensures silent { decisions told.now ≡ [] → IsOk result }
{
    for decision in told {
        let number = timers.note(decision)?;
        numbers.push(number.map_or(0, |one| one.0))?;
    }
    Ok(())
}
