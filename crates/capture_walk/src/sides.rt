ghost use Rattle.std.specs.Prelude.{◌≡◌, ◌∷◌, [], List, OnOk, unwrap_or};
ghost use Rattle.std.specs.Ordering.{nat_cmp};
ghost use Rattle.std.specs.BTreeMap.{get};
ghost use Rattle.capture_walk.specs.Notes as notes;
ghost use Rattle.capture_walk.specs.Sides.{KnowsSides, missing_since};
ghost use Rattle.capture_walk.specs.declared.note.Seen.{Seen};

use crate::note::Seen;
use lease_state::Memory;
use std::alloc::Global;
use std::collections::BTreeMap;

/// Where the last messages of each connection were, on both sides.
#[derive(Debug, Drop)]
pub(crate) struct Sides {
    // By connections.
    requests: BTreeMap<u64, u64>,
    answers: BTreeMap<u64, u64>,
}

fn position(messages: &BTreeMap<u64, u64>, connection: u64) -> u64
    ensures { result ≡ unwrap_or (get nat_cmp messages.now connection) 0 }
{
    match messages.get(&connection) {
        Some(position) => *position,
        None => 0,
    }
}

impl Sides {
    /// Of no connection. Allocates nothing.
    pub(crate) fn new(alloc: Global) -> Sides
        ensures { KnowsSides [] result }
    {
        Sides {
            requests: BTreeMap::new(alloc),
            answers: BTreeMap::new(alloc),
        }
    }

    /// From which position on something may be missing of a connection, where it has a gap now.
    pub(crate) fn missing_since(&self, connection: u64) -> u64
        ensures { (past : List Seen) → KnowsSides past self.now → result ≡ missing_since connection past }
    {
        let request = position(&self.requests, connection);
        let answer = position(&self.answers, connection);
        if request < answer { request } else { answer }
    }

    /// Takes note of the next message.
    pub(crate) fn note(&mut self, seen: &Seen<'_>) -> Result<(), Memory>
        ensures { OnOk result ((past : List Seen) → KnowsSides past self.old → KnowsSides (seen.now ∷ past) self.new) }
    {
        if seen.note.is_request() {
            self.requests.insert(seen.connection, seen.earliest)?;
        }
        if seen.note.is_answer() {
            self.answers.insert(seen.connection, seen.earliest)?;
        }
        Ok(())
    }
}
