ghost use Rattle.std.specs.Prelude.{◌≡◌, ◌<◌, ◌+◌, ◌^◌, IfOk, OnOk, length, drop};
ghost use Rattle.lease_state.specs.Content.{patch, patches};
ghost use Rattle.lease_world.specs.judge.Before.{before, patches_of};

use crate::judging::file::Change;
use lease_state::{Bytes, Memory};
use std::marker::Model;

/// The bytes of a file, with how many patches of a list were put onto them.
#[derive(Debug, Drop)]
pub struct Snapshot {
    bytes: Vec<u8>,
    applied: usize,
}

impl Model for Snapshot {
    ghost use Rattle.lease_world.specs.judge.Seen as seen;

    ghost Value = { seen.Snapshot };

    ghost view = { λ snapshot. record { bytes = snapshot.bytes.items; applied = snapshot.applied } };
}

impl Snapshot {
    /// These bytes, with no patch, in memory of their own.
    ///
    /// # Errors
    ///
    /// `Memory` where there is none left.
    pub fn of(bytes: &Bytes) -> Result<Snapshot, Memory>
        ensures { IfOk result (λ snapshot. snapshot ≡ record { bytes = bytes.now; applied = 0 }) }
    {
        Ok(Snapshot {
            bytes: bytes.try_copy()?.into_vec(),
            applied: 0,
        })
    }

    /// The bytes, with the patches.
    pub fn bytes(&self) -> &[u8]
        ensures { result.now ≡ self.now.bytes }
    {
        self.bytes.as_slice()
    }

    /// How many patches were put onto it.
    pub fn applied(&self) -> usize
        ensures { result ≡ self.now.applied }
    {
        self.applied
    }

    /// An equal snapshot in memory of its own.
    ///
    /// # Errors
    ///
    /// `Memory` where there is none left.
    pub fn try_copy(&self) -> Result<Snapshot, Memory>
        ensures { IfOk result (λ copy. copy ≡ self.now) }
    {
        Ok(Snapshot {
            bytes: Vec::from_slice(*self.bytes.allocator(), self.bytes.as_slice())?,
            applied: self.applied,
        })
    }

    /// With the patch of one change more.
    ///
    /// # Errors
    ///
    /// `Memory` where the bytes grow and there is none left.
    pub fn put(&mut self, change: &Change) -> Result<(), Memory>
        requires { self.old.applied + 1 < 2 ^ 64 }
        ensures { OnOk result (self.new ≡ record {
          bytes = patch self.old.bytes change.now.patch;
          applied = self.old.applied + 1;
        }) }
    {
        change.patch.apply(&mut self.bytes)?;
        self.applied += 1;
        Ok(())
    }

    /// With the patches of the changes that follow, as long as they stand before the place.
    ///
    /// # Errors
    ///
    /// `Memory` where the bytes grow and there is none left.
    pub fn moved(self, changes: &[Change], place: u64) -> Result<Snapshot, Memory>
        ensures { IfOk result (λ snapshot. snapshot ≡ record {
          bytes = patches self.bytes (patches_of (before place (drop self.applied changes.now)));
          applied = self.applied + length (before place (drop self.applied changes.now));
        }) }
    {
        let Snapshot {
            mut bytes,
            mut applied,
        } = self;
        while applied < changes.len() {
            let change = &changes[applied];
            if change.place >= place {
                break;
            }
            change.patch.apply(&mut bytes)?;
            applied += 1;
        }
        Ok(Snapshot { bytes, applied })
    }
}
