ghost use Rattle.std.specs.Prelude.{◌≡◌, ◌∷◌, [], List, OnOk};
ghost use Rattle.capture_walk.specs.Renames.{KnowsRenames, answers_rename, has_asked, is_change};
ghost use Rattle.capture_walk.specs.Notes.{answered};
ghost use Rattle.capture_walk.specs.declared.note.Seen.{Seen};

use crate::note::Seen;
use lease_state::Memory;
use std::alloc::Global;
use std::collections::BTreeSet;

// A request that changes names.
#[derive(Clone, Copy, Debug, PartialEq, Eq, PartialOrd, Ord)]
pub(crate) struct Renaming {
    connection: u64,
    id: u64,
}

/// The requests that change names.
#[derive(Debug, Drop)]
pub(crate) struct Renames {
    asked: BTreeSet<Renaming>,
}

impl Renames {
    /// None. Allocates nothing.
    pub(crate) fn new(alloc: Global) -> Renames
        ensures { KnowsRenames [] result }
    {
        Renames {
            asked: BTreeSet::new(alloc),
        }
    }

    // Whether a request on a connection with this MessageId changes names.
    fn has(&self, connection: u64, id: u64) -> bool
        ensures { result ≡ has_asked connection id self.now }
    {
        self.asked.contains(&Renaming { connection, id })
    }

    // Whether the message answers such a request.
    fn answers(&self, seen: &Seen<'_>) -> bool
        ensures { (past : List Seen) → KnowsRenames past self.now
            → result ≡ answers_rename seen.now (answered seen.now.note) past }
    {
        match seen.note.answered() {
            Some(id) => self.has(seen.connection, id),
            None => false,
        }
    }

    /// Whether names may lead to other files after the message.
    pub(crate) fn is_change(&self, seen: &Seen<'_>) -> bool
        ensures { (past : List Seen) → KnowsRenames past self.now → result ≡ is_change seen.now past }
    {
        seen.note.rename_asked().is_some() || (self.answers(seen) || seen.note.is_gap())
    }

    /// Takes note of the next message.
    pub(crate) fn note(&mut self, seen: &Seen<'_>) -> Result<(), Memory>
        ensures { OnOk result ((past : List Seen) → KnowsRenames past self.old → KnowsRenames (seen.now ∷ past) self.new) }
    {
        if let Some(id) = seen.note.rename_asked() {
            let connection = seen.connection;
            self.asked.insert(Renaming { connection, id })?;
        }
        Ok(())
    }
}
