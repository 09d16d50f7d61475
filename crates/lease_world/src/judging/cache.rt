ghost use Rattle.std.specs.Prelude.{◌≡◌, ◌++◌, [], ◌∷◌, ℕ, filter, OnOk, IfOk};
ghost use Rattle.lease_state.specs.State.{state_of};
ghost use Rattle.lease_world.specs.judge.Seen.{unseen_cache, is_open};
ghost use Rattle.lease_world.specs.judge.Covers.{layers_at, stack_in};
ghost use Rattle.lease_world.specs.judge.Caches.{IsBasedAt, IsCovered, IsShown};

use crate::judging::covers::Covers;
use crate::judging::file::FileSeen;
use crate::judging::numbers::Numbers;
use crate::judging::snapshot::Snapshot;
use lease_state::{LeaseState, Memory, Patch};
use std::alloc::Global;
use std::marker::Model;

/// A write that may be unanswered.
#[derive(Debug, Drop)]
pub struct Waiting {
    pub number: u64,
    pub patch: Patch,
}

impl Model for Waiting {
    ghost use Rattle.lease_world.specs.judge.Seen as seen;

    ghost Value = { seen.Waiting };

    ghost view = { λ write. record { number = write.number; patch = write.patch } };
}

/// What a judge keeps of a client and a file. The file as it stood at a sending place is moved forward by the changes in
/// between. The client's writes cover positions of it once a read of the client is looked at.
#[derive(Debug, Drop)]
pub struct CacheSeen {
    belief: LeaseState,
    /// The client's writes on the file since a read was looked at last, in order.
    fresh: Vec<Waiting>,
    /// The earlier ones, without some that are settled.
    covers: Covers,
    base: Option<Snapshot>,
}

impl Model for CacheSeen {
    ghost use Rattle.lease_state.specs.State.{state_of};
    ghost use Rattle.lease_world.specs.judge.Seen as seen;

    ghost Value = { seen.SeenCache };

    ghost view = { λ cache. record {
      belief = state_of cache.belief;
      fresh = cache.fresh.items;
      covers = cache.covers;
      base = cache.base;
    } };
}

impl CacheSeen {
    /// Of a client and a file of which nothing is known. Allocates nothing.
    pub fn new(alloc: Global) -> CacheSeen
        ensures { result ≡ unseen_cache }
    {
        CacheSeen {
            belief: LeaseState::NONE,
            fresh: Vec::new(alloc),
            covers: Covers::new(alloc),
            base: None,
        }
    }

    /// What the client believes of the file's lease.
    pub fn belief(&self) -> LeaseState
        ensures { state_of result ≡ self.now.belief }
    {
        self.belief
    }

    /// The client believes this from now on.
    pub fn believe(&mut self, state: LeaseState)
        ensures { self.new ≡ record self.old { belief = state_of state } }
    {
        self.belief = state;
    }

    /// The client is given a write, which isn't settled.
    ///
    /// # Errors
    ///
    /// `Memory` where there is none left for the list of writes.
    pub fn write(&mut self, number: u64, patch: Patch) -> Result<(), Memory>
        ensures { OnOk result (self.new ≡ record self.old {
          fresh = self.old.fresh ++ record { number = number; patch = patch } ∷ [];
        }) }
    {
        self.fresh.push(Waiting { number, patch })?;
        Ok(())
    }

    /// Whether the client sees these bytes: the file as it stood before the place, with the client's unanswered writes.
    ///
    /// # Errors
    ///
    /// `Memory` where there is none left for what the client sees.
    pub fn shows(
        &mut self,
        file: &mut FileSeen,
        place: u64,
        settled: &Numbers,
        bytes: &[u8],
    ) -> Result<bool, Memory>
        ensures same { file.new ≡ file.old }
        ensures shown { IfOk result (λ same. IsShown file.old place settled.now bytes.now self.old self.new same) }
    {
        self.cover(settled)?;
        let base = base_at(self.base.take(), file, place)?;
        let same = self.covers.shows(base.bytes(), bytes);
        self.base = Some(base);
        Ok(same)
    }

    // The client's writes that aren't settled cover the file, the last on top.
    fn cover(&mut self, settled: &Numbers) -> Result<(), Memory>
        ensures { OnOk result (IsCovered settled.now self.old self.new) }
    {
        lay_open(&mut self.covers, &self.fresh, settled)?;
        self.fresh.clear();
        self.covers.uncover(settled);
        Ok(())
    }
}

// The file at the place, from where it was kept, or from a mark where that is far away.
fn base_at(kept: Option<Snapshot>, file: &mut FileSeen, place: u64) -> Result<Snapshot, Memory>
    ensures same { file.new ≡ file.old }
    ensures based { IfOk result (λ base. IsBasedAt file.old place kept base) }
{
    let base = match kept {
        Some(base) => base,
        None => file.first()?,
    };
    file.nearer(base, place)?.moved(file.changes(), place)
}

// The writes that aren't settled cover the file, in order.
fn lay_open(covers: &mut Covers, fresh: &[Waiting], settled: &Numbers) -> Result<(), Memory>
    ensures { OnOk result ((position : ℕ) → stack_in covers.new position
        ≡ filter (is_open settled.now) (layers_at position fresh.now) ++ stack_in covers.old position) }
{
    for write in fresh {
        if !settled.contains(write.number) {
            covers.lay(write.number, &write.patch)?;
        }
    }
    Ok(())
}
