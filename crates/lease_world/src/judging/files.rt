ghost use Rattle.std.specs.Prelude.{◌≡◌, ◌<◌, [], OnOk, IfOk, vec_len};
ghost use Rattle.std.specs.Borrow.{sem};
ghost use Rattle.lease_world.specs.judge.Lends.{LendsFile};
ghost use Rattle.lease_world.specs.judge.Seen.{file_in};
ghost use Rattle.lease_world.specs.judge.Tables.{HasSameFiles, is_started_in};

use crate::judging::file::FileSeen;
use lease_state::{FileNo, Memory};
use std::alloc::Global;
use std::marker::Model;

/// What a judge keeps of files, by their numbers.
#[derive(Debug, Drop)]
pub struct Files {
    seen: Vec<FileSeen>,
}

impl Model for Files {
    ghost use Rattle.std.specs.Prelude.{List};
    ghost use Rattle.lease_world.specs.judge.Seen.{SeenFile};

    ghost Value = { List SeenFile };

    ghost view = { λ files. files.seen.items };
}

impl Files {
    /// Before any fact. Allocates nothing.
    pub fn new(alloc: Global) -> Files
        ensures { result ≡ [] }
    {
        Files {
            seen: Vec::new(alloc),
        }
    }

    /// The allocator of what is kept.
    pub fn alloc(&self) -> Global {
        *self.seen.allocator()
    }

    /// Whether the file was started.
    pub fn is_started(&self, file: FileNo) -> bool
        ensures { result ≡ is_started_in self.now file.0 }
    {
        match self.seen.get(usize::from(file.0)) {
            Some(seen) => seen.is_started(),
            None => false,
        }
    }

    /// What is kept of a file, to be looked at and changed in its place.
    ///
    /// # Errors
    ///
    /// `Memory` where there is none left for what is kept of the file.
    pub fn get_mut(&mut self, file: FileNo) -> Result<&mut FileSeen, Memory>
        ensures* lends { sem 𝓛 (LendsFile self.entry file.0 result) }
        ensures value { IfOk result (λ seen. seen.now ≡ file_in self.old file.0) }
    {
        reach(&mut self.seen, file)?;
        Ok(&mut self.seen[usize::from(file.0)])
    }
}

// Makes a place for what is kept of the file.
fn reach(files: &mut Vec<FileSeen>, file: FileNo) -> Result<(), Memory>
    ensures there { OnOk result (file.0 < vec_len files.new) }
    ensures same { HasSameFiles files.old.items files.new.items }
{
    let alloc = *files.allocator();
    while files.len() <= usize::from(file.0) {
        files.push(FileSeen::new(alloc))?;
    }
    Ok(())
}
