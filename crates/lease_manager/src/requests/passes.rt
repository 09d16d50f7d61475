ghost use Rattle.std.specs.Prelude.{◌≡◌, ◌+◌, ◌<◌, ◌||◌, Bool, IfOk, OnOk, length, if◌then◌else◌};
ghost use Rattle.lease_manager.specs.Outs.{handling_of};
ghost use Rattle.lease_manager.specs.Passing.{pass_at};
ghost use Rattle.lease_manager.specs.Queues.{file_numbers};
ghost use Rattle.lease_manager.specs.Table.{queue_at};
ghost use Rattle.manager_model.specs.Handling as rules;

use crate::outs::Outs;
use crate::requests::answer::conclude;
use crate::requests::trial::try_now;
use crate::tables::Tables;
use crate::told::Told;
use crate::values::number::FileNo;
use lease_state::Memory;
use manager_model::law_of_passes;

/// Tries what waits again (profile): files in the order of their numbers, and each until a pass over its queue answers
/// nothing.
///
/// # Errors
///
/// `Memory` where there is none left.
// docs/DECISIONS.md: "Calls that start passes".
pub fn try_all(tables: &mut Tables, told: &mut Told) -> Result<(), Memory>
    ensures { OnOk result (handling_of tables.new told.new ≡ rules.all_passes (handling_of tables.old told.old)) }
{
    law_of_passes();
    let files = tables.waiting_files()?;
    try_files(tables, told, &files)?;
    Ok(())
}

// Passes over these files, one after another.
fn try_files(tables: &mut Tables, told: &mut Told, files: &[FileNo]) -> Result<(), Memory>
    ensures { OnOk result (handling_of tables.new told.new
        ≡ rules.passes_over (file_numbers files.now) (handling_of tables.old told.old)) }
{
    for file in files {
        try_held(tables, told, *file)?;
    }
    Ok(())
}

// Passes over a file, until one answers nothing.
fn try_held(tables: &mut Tables, told: &mut Told, file: FileNo) -> Result<(), Memory>
    ensures { OnOk result (handling_of tables.new told.new ≡ rules.passes file.0 (handling_of tables.old told.old)) }
{
    law_of_passes();
    while pass(tables, told, file)? {}
    Ok(())
}

// A pass over what waits on a file, in order of arrival, from the first request on that isn't known to wait still: whether
// it answered a request.
fn pass(tables: &mut Tables, told: &mut Told, file: FileNo) -> Result<bool, Memory>
    ensures step { IfOk result (λ answered. (rules.one_pass file.0 (handling_of tables.old told.old)).now
        ≡ handling_of tables.new told.new) }
    ensures answered { IfOk result (λ answered.
        (rules.one_pass file.0 (handling_of tables.old told.old)).has_answered ≡ answered) }
{
    let mut place = tables.still(file);
    let mut answered = false;
    while place < tables.held(file).len() {
        if try_again(tables, told, file, place)? {
            answered = true;
        } else {
            place += 1;
        }
    }
    Ok(answered)
}

// Tries a request that waits again, unless it waits behind an earlier one: whether it was answered.
// docs/DECISIONS.md: "A held request's turn is judged at the moment".
fn try_again(
    tables: &mut Tables,
    told: &mut Told,
    file: FileNo,
    place: usize,
) -> Result<bool, Memory>
    requires { place < length (queue_at tables.old.queues file.0) }
    ensures step { IfOk result (λ answered. (has : Bool)
        → pass_at file.0 (if answered then place else place + 1) (answered || has) (handling_of tables.new told.new)
        ≡ pass_at file.0 place has (handling_of tables.old told.old)) }
    ensures fewer { IfOk result (λ answered. length (queue_at tables.new.queues file.0)
        + (if answered then 1 else 0) ≡ length (queue_at tables.old.queues file.0)) }
{
    let held = tables.held(file);
    let one = &held[place];
    let client = one.client;
    let ask = one.ask;
    let tag = one.tag;
    if one.is_behind(tables.rules(), &held[..place]) {
        tables.count_still(file, place)?;
        return Ok(false);
    }
    if tables.has_only_to_wait(file, client, ask)? {
        tables.count_still(file, place)?;
        return Ok(false);
    }
    let mut outs = Outs::new(tables.alloc());
    let outcome = try_now(tables, told, &mut outs, client, ask)?;
    if outcome.waits() {
        told.tell(tag, &outs)?;
        return Ok(false);
    }
    tables.release(file, place);
    conclude(tables, &mut outs, client, ask, outcome)?;
    told.tell(tag, &outs)?;
    Ok(true)
}
