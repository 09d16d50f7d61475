ghost use Rattle.std.specs.Prelude.{◌≡◌, ◌++◌, [], map, OnOk};
ghost use Rattle.std.specs.BTreeSet.{insert_key};
ghost use Rattle.std.specs.Ordering.{nat_cmp};
ghost use Rattle.manager_model.specs.Decisions as model;
ghost use Rattle.lease_manager.specs.Ending.{all_added, ids_in};
ghost use Rattle.lease_manager.specs.LeftOpens.{numbers};

use crate::told::Told;
use lease_state::{FileId, Memory};
use std::alloc::Global;
use std::collections::BTreeSet;

/// The FileIds of the opens that a try of a request ended, in their order.
#[derive(Debug, Drop)]
pub struct Ended {
    ids: BTreeSet<FileId>,
}

impl Ended {
    /// None ended. Allocates nothing.
    pub fn new(alloc: Global) -> Ended
        ensures { ids_in result ≡ [] }
    {
        Ended {
            ids: BTreeSet::new(alloc),
        }
    }

    /// These ended too.
    ///
    /// # Errors
    ///
    /// `Memory` where there is none left for them.
    pub fn add_all(&mut self, ids: &[FileId]) -> Result<(), Memory>
        ensures { OnOk result (ids_in self.new ≡ all_added (ids_in self.old) (numbers ids.now)) }
    {
        for id in ids {
            self.add(*id)?;
        }
        Ok(())
    }

    fn add(&mut self, id: FileId) -> Result<(), Memory>
        ensures { OnOk result (ids_in self.new ≡ insert_key nat_cmp (ids_in self.old) id.0) }
    {
        self.ids.insert(id)?;
        Ok(())
    }

    /// A decision for each.
    ///
    /// # Errors
    ///
    /// `Memory` where there is none left for it.
    pub fn tell(&self, told: &mut Told) -> Result<(), Memory>
        ensures { OnOk result (told.new ≡ told.old ++ map model.Decision.Ended (ids_in self.now)) }
    {
        for id in &self.ids {
            told.ended(*id)?;
        }
        Ok(())
    }
}
