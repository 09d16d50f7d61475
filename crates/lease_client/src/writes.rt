ghost use Rattle.std.specs.Prelude.{◌≡◌, ◌++◌, [], map, IfOk, OnOk};
ghost use Rattle.lease_state.specs.Content.{patch, patches};
ghost use Rattle.lease_model.specs.client.State.{patches_of};
ghost use Rattle.lease_model.specs.client.Step.{settled_as};
ghost use Rattle.lease_client.specs.Answers.{note_of, settlement_of};

use crate::entry::Pending;
use crate::values::note::{Note, Settlement};
use crate::writes::queue::Writes;
use lease_state::Memory;

pub mod queue;
pub mod shown;

/// Notes that each of the writes is settled in this way, after the notes that there are.
///
/// # Errors
///
/// `Memory` where there is none left for the notes, and never where there are no writes.
#[tactic(auto, using(crate::proofs::Views::settled_more))]
pub fn push_settled(
    notes: &mut Vec<Note>,
    outcome: Settlement,
    writes: &Writes,
) -> Result<(), Memory>
    ensures { OnOk result (map note_of notes.new.items
        ≡ map note_of notes.old.items ++ settled_as (settlement_of outcome) writes.now) }
{
    let (first, rest) = writes.as_slices();
    push_each_settled(notes, outcome, first)?;
    push_each_settled(notes, outcome, rest)
}

fn push_each_settled(
    notes: &mut Vec<Note>,
    outcome: Settlement,
    writes: &[Pending],
) -> Result<(), Memory>
    ensures { OnOk result (map note_of notes.new.items
        ≡ map note_of notes.old.items ++ settled_as (settlement_of outcome) writes.now) }
{
    for write in writes {
        notes.push(Note::Settled(write.number, outcome))?;
    }
    Ok(())
}
