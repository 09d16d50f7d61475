ghost use Rattle.std.specs.Prelude.{◌≡◌, [], OnOk};
ghost use Rattle.lease_model.specs.values.Tables.{put};
ghost use Rattle.share_server.specs.Table.{handles_in};

use lease_state::{FileId, FileNo, Memory};
use std::alloc::Global;
use std::collections::BTreeMap;
use std::marker::Model;

/// Of each open, by its FileId, the file.
#[derive(Debug, Drop)]
pub struct Handles {
    files: BTreeMap<u64, u8>,
}

impl Model for Handles {
    ghost use Rattle.std.specs.Prelude.{ℕ, List, map};

    ghost Value = { List (ℕ × ℕ) };

    ghost view = { λ handles. map (λ entry. (entry.0, entry.1)) handles.files.entries };
}

impl Handles {
    /// None. Allocates nothing.
    pub fn new(alloc: Global) -> Handles
        ensures { result ≡ [] }
    {
        Handles {
            files: BTreeMap::new(alloc),
        }
    }

    /// The file of the open, and 0 where there is none of this FileId.
    pub fn file(&self, fid: FileId) -> FileNo
        ensures { result.0 ≡ handles_in self.now fid.0 }
    {
        match self.files.get(&fid.0) {
            Some(file) => FileNo(*file),
            None => FileNo(0),
        }
    }

    /// The open is one of the file.
    ///
    /// # Errors
    ///
    /// `Memory` where there is none left for it.
    pub fn put(&mut self, fid: FileId, file: FileNo) -> Result<(), Memory>
        ensures { OnOk result (handles_in self.new ≡ put (handles_in self.old) fid.0 file.0) }
    {
        self.files.insert(fid.0, file.0)?;
        Ok(())
    }

    /// There is no open of this FileId.
    pub fn remove(&mut self, fid: FileId)
        ensures { handles_in self.new ≡ put (handles_in self.old) fid.0 0 }
    {
        self.files.remove(&fid.0);
    }
}
