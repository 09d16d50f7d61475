ghost use Rattle.std.specs.Prelude.{◌≡◌, ◌∷◌, [], ℕ, List, Some, filter, map, OnOk, IfOk};
ghost use Rattle.std.specs.Option.{option_map};
ghost use Rattle.capture_walk.specs.Creates.{create_in, is_kept, is_of_another, left_after, pending, answered_after, KnowsCreates};
ghost use Rattle.capture_walk.specs.Creates.{remade_after, name_made, answer_id};
ghost use Rattle.capture_walk.specs.Notes.{answered, create_given};
ghost use Rattle.capture_walk.specs.declared.note.Seen.{Seen};

use crate::note::Seen;
use capture_wire::Guid;
use lease_state::{Bytes, LeaseKey, Memory};
use std::alloc::Global;

/// A CREATE request, as far as its answer depends on it.
#[derive(Debug, Drop)]
pub(crate) struct Create {
    pub(crate) connection: u64,
    pub(crate) id: u64,
    // Where the capture has it.
    pub(crate) position: u64,
    pub(crate) tree: u32,
    pub(crate) name: Bytes,
    pub(crate) key: Option<LeaseKey>,
    pub(crate) unnamed: bool,
    pub(crate) closes: bool,
    pub(crate) application: Option<Guid>,
    // A file was made under its name since.
    pub(crate) remade: bool,
}

impl Create {
    // A file is made under the name.
    fn mark(&mut self, name: &[u8])
        ensures { self.new ≡ remade_after (Some name.now) self.old }
    {
        if self.name.as_slice() == name {
            self.remade = true;
        }
    }
}

/// The CREATE requests that aren't answered for good.
#[derive(Debug, Drop)]
pub(crate) struct Creates {
    // The newest first.
    pending: Vec<Create>,
}

impl Creates {
    /// None. Allocates nothing.
    pub(crate) fn new(alloc: Global) -> Creates
        ensures { KnowsCreates [] result }
    {
        Creates {
            pending: Vec::new(alloc),
        }
    }

    /// The request that a response on a connection answers, by its MessageId.
    pub(crate) fn pending(&self, connection: u64, id: u64) -> Option<&Create>
        ensures { option_map (λ create. create.now) result ≡ create_in connection id self.now.pending.items }
    {
        for one in &self.pending {
            if one.connection == connection && one.id == id {
                return Some(one);
            }
        }
        None
    }

    fn remove(&mut self, connection: u64, id: u64)
        ensures { self.new.pending.items ≡ filter (is_kept connection id) self.old.pending.items }
    {
        self.pending
            .retain(|one| !(one.connection == connection && one.id == id));
    }

    #[tactic(auto, using(crate::proofs::Removal::create_in_kept))]
    fn note_answer(&mut self, seen: &Seen<'_>)
        ensures { (connection id : ℕ) → create_in connection id self.new.pending.items
            ≡ answered_after connection id seen.now.connection (answered seen.now.note)
            (create_in connection id self.old.pending.items) }
    {
        if let Some(id) = seen.note.answered() {
            self.remove(seen.connection, id);
        }
    }

    // Those of a connection aren't waited for any more.
    fn forget(&mut self, connection: u64)
        ensures { self.new.pending.items ≡ filter (is_of_another connection) self.old.pending.items }
    {
        self.pending.retain(|one| one.connection != connection);
    }

    #[tactic(auto, using(crate::proofs::Removal::create_in_left))]
    fn note_leaving(&mut self, seen: &Seen<'_>)
        ensures { (connection id : ℕ) → create_in connection id self.new.pending.items
            ≡ left_after connection seen.now (create_in connection id self.old.pending.items) }
    {
        if seen.note.leaves() {
            self.forget(seen.connection);
        }
    }

    // The name that the request has.
    fn name_of(&self, connection: u64, id: u64) -> Result<Option<Bytes>, Memory>
        ensures { IfOk result (λ name. name
            ≡ option_map (λ create. create.name) (create_in connection id self.now.pending.items)) }
    {
        match self.pending(connection, id) {
            Some(create) => Ok(Some(create.name.try_copy()?)),
            None => Ok(None),
        }
    }

    // A file is made under the name.
    fn mark(&mut self, name: &[u8])
        ensures { self.new.pending.items ≡ map (remade_after (Some name.now)) self.old.pending.items }
    {
        for one in self.pending.iter_mut() {
            one.mark(name);
        }
    }

    #[tactic(auto, using(crate::proofs::Removal::create_in_marked))]
    fn note_made(&mut self, seen: &Seen<'_>) -> Result<(), Memory>
        ensures { OnOk result ((past : List Seen) → KnowsCreates past self.old → (connection id : ℕ)
            → create_in connection id self.new.pending.items
            ≡ option_map (remade_after (name_made (create_given seen.now.note)
            (pending seen.now.connection (answer_id seen.now.note) past))) (pending connection id past)) }
    {
        let Some(given) = seen.note.create_given() else {
            return Ok(());
        };
        if !given.is_new {
            return Ok(());
        }
        if let Some(name) = self.name_of(seen.connection, given.id)? {
            self.mark(name.as_slice());
        }
        Ok(())
    }

    /// Takes note of the next message.
    pub(crate) fn note(&mut self, seen: &Seen<'_>) -> Result<(), Memory>
        ensures { OnOk result ((past : List Seen) → KnowsCreates past self.old → KnowsCreates (seen.now ∷ past) self.new) }
    {
        self.note_made(seen)?;
        self.note_answer(seen);
        self.note_leaving(seen);
        let Some(asked) = seen.note.create_asked() else {
            return Ok(());
        };
        let name = Bytes::new(Vec::from_slice(*self.pending.allocator(), asked.name)?);
        let create = Create {
            connection: seen.connection,
            id: asked.id,
            position: seen.latest,
            tree: asked.tree,
            name,
            key: asked.key,
            unnamed: asked.unnamed,
            closes: asked.closes,
            application: asked.application,
            remade: false,
        };
        self.pending.insert(0, create)?;
        Ok(())
    }
}
