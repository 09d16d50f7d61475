ghost use Rattle.std.specs.Prelude.{◌≡◌, ℕ, true, ◌==◌, OnOk, OnErr, if◌then◌else◌};
ghost use Rattle.lease_manager.specs.StillWaiting.{count_in};

use crate::values::number::FileNo;
use lease_state::Memory;
use std::alloc::Global;
use std::collections::BTreeMap;

/// How many requests at the front of each file's queue are known to wait still.
// docs/DECISIONS.md: "A pass begins after the requests that still wait".
#[derive(Debug, Drop)]
pub struct Waiting {
    /// Of the files where some are.
    counts: BTreeMap<FileNo, usize>,
}

impl Waiting {
    /// Where none is known to. Allocates nothing.
    pub fn new(alloc: Global) -> Waiting
        ensures { (file : ℕ) → count_in result file ≡ 0 }
    {
        Waiting {
            counts: BTreeMap::new(alloc),
        }
    }

    /// How many of the file's are known to.
    pub fn count(&self, file: FileNo) -> usize
        ensures { result ≡ count_in self.now file.0 }
    {
        match self.counts.get(&file) {
            Some(count) => *count,
            None => 0,
        }
    }

    /// Whether none is known to.
    pub fn is_empty(&self) -> bool
        ensures { result ≡ true → (file : ℕ) → count_in self.now file ≡ 0 }
    {
        self.counts.is_empty()
    }

    /// So many of the file's are known to.
    ///
    /// # Errors
    ///
    /// `Memory` where there is none left for the file's count; nothing has changed then.
    pub fn put(&mut self, file: FileNo, count: usize) -> Result<(), Memory>
        ensures put { OnOk result ((other : ℕ) → count_in self.new other
            ≡ (if other == file.0 then count else count_in self.old other)) }
        ensures refused { OnErr result ((other : ℕ) → count_in self.new other ≡ count_in self.old other) }
    {
        self.counts.insert(file, count)?;
        Ok(())
    }

    /// None of the file's is known to.
    pub fn forget(&mut self, file: FileNo)
        ensures { (other : ℕ) → count_in self.new other ≡ (if other == file.0 then 0 else count_in self.old other) }
    {
        self.counts.remove(&file);
    }

    /// None is known to.
    pub fn clear(&mut self)
        ensures { (file : ℕ) → count_in self.new file ≡ 0 }
    {
        self.counts.clear();
    }
}
