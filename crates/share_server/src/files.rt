ghost use Rattle.std.specs.Prelude.{◌≡◌, ◌≤◌, [], length, OnOk};
ghost use Rattle.lease_model.specs.server.State.{with_number};
ghost use Rattle.lease_model.specs.values.Tables.{numbered, put};
ghost use Rattle.lease_state.specs.Content.{patch as patched};

use lease_state::{Content, ContentFault, FileNo, Memory, Patch};
use std::marker::Model;

/// The last number that a file can have (profile): those of one byte.
const LAST_FILE_NUMBER: usize = 255;

/// The bytes of the files, which are numbered from 1.
#[derive(Debug, Drop)]
pub struct Files {
    contents: Vec<Content>,
}

impl Model for Files {
    ghost use Rattle.std.specs.Prelude.{◌≤◌, ℕ, List, length};

    ghost Value = { List (List ℕ) };

    ghost view = { λ files. files.contents.items };

    ghost invariant = { λ files. length files.contents.items ≤ 255 };
}

impl Files {
    /// Files of these contents, in order, of which those past the last number are dropped. Allocates nothing.
    pub fn new(mut contents: Vec<Content>) -> Files
        ensures { result ≡ with_number contents.items }
    {
        contents.truncate(LAST_FILE_NUMBER);
        Files { contents }
    }

    /// How many there are.
    pub fn count(&self) -> u8
        ensures { result ≡ length self.now }
    {
        self.contents.len() as u8
    }

    /// The bytes of a file, and none where there is no file of this number.
    pub fn bytes(&self, file: FileNo) -> &[u8]
        ensures { result.now ≡ numbered [] self.now file.0 }
    {
        let number = usize::from(file.0);
        if number == 0 {
            return &[];
        }
        if number > self.contents.len() {
            return &[];
        }
        self.contents[number - 1].bytes()
    }

    /// The patch is put over the bytes of the file.
    ///
    /// # Errors
    ///
    /// `Memory` where there is none left. The same is said of a patch that ends past the limit, and of a file that isn't
    /// there: no manager lets such a write go on.
    pub fn change(&mut self, file: FileNo, patch: &Patch) -> Result<(), Memory>
        ensures { OnOk result (numbered [] self.new
            ≡ put (numbered [] self.old) file.0 (patched (numbered [] self.old file.0) patch.now)) }
    {
        let number = usize::from(file.0);
        if number == 0 || number > self.contents.len() {
            return Err(Memory);
        }
        apply(&mut self.contents[number - 1], patch)?;
        Ok(())
    }
}

// The patch is put over the bytes.
fn apply(content: &mut Content, patch: &Patch) -> Result<(), Memory>
    ensures { OnOk result (content.new ≡ patched content.old patch.now) }
{
    match content.apply(patch) {
        Ok(()) => Ok(()),
        Err(ContentFault::Memory | ContentFault::TooLong) => Err(Memory),
    }
}
