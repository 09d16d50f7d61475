ghost use Rattle.std.specs.Prelude.{◌≡◌, Some, ◌==◌, OnOk};
ghost use Rattle.std.specs.Option.{option_map};
ghost use Rattle.lease_world.specs.judge.Clients.{AcceptsIn, HasWrites, HasWritesBy};
ghost use Rattle.lease_world.specs.judge.Seen.{accepted_as, is_first, no_writes, write_at, write_by};

use lease_state::{FileNo, Memory, Patch};
use std::alloc::Global;
use std::collections::BTreeMap;
use std::marker::Model;

/// A write that was given to a client: its file, its place in the record, whether it was buffered, its patch, and whether the
/// file was changed by it since.
#[derive(Debug, Drop)]
pub struct WriteSeen {
    pub file: FileNo,
    pub place: u64,
    pub buffered: bool,
    pub patch: Patch,
    pub accepted: bool,
}

impl Model for WriteSeen {
    ghost use Rattle.lease_world.specs.judge.Seen as seen;

    ghost Value = { seen.SeenWrite };

    ghost view = { λ write. record {
      file = write.file.0;
      place = write.place;
      buffered = write.buffered;
      patch = write.patch;
      accepted = write.accepted;
    } };
}

impl WriteSeen {
    /// A file is changed by a write of this number: it is this one where file and patch are the same.
    fn accept(&mut self, file: FileNo, patch: &Patch)
        ensures { self.new ≡ accepted_as file.0 patch.now self.old }
    {
        if self.file == file && self.patch == *patch {
            self.accepted = true;
        }
    }
}

/// The writes that were given to a client, by their numbers. Those of a client machine have 1, 2, 3 and so on; whoever writes a
/// record may choose any.
#[derive(Debug, Drop)]
pub struct WritesSeen {
    /// Those whose numbers came one after another, from 1 on.
    first: Vec<WriteSeen>,
    rest: BTreeMap<u64, WriteSeen>,
}

impl Model for WritesSeen {
    ghost use Rattle.lease_world.specs.judge.Seen as seen;

    ghost Value = { seen.SeenWrites };

    ghost view = { λ writes. record { first = writes.first.items; rest = writes.rest.entries } };
}

impl WritesSeen {
    /// No write. Allocates nothing.
    pub fn new(alloc: Global) -> WritesSeen
        ensures { result ≡ no_writes }
    {
        WritesSeen {
            first: Vec::new(alloc),
            rest: BTreeMap::new(alloc),
        }
    }

    /// The write of this number.
    #[tactic(auto, unfolding(crate::specs::judge::Seen::write_at))]
    pub fn get(&self, number: u64) -> Option<&WriteSeen>
        ensures { option_map (λ write. write.now) result ≡ write_at number self.now }
    {
        if self.is_first(number) {
            self.first.get((number - 1) as usize)
        } else {
            self.rest.get(&number)
        }
    }

    /// The write gets this number.
    ///
    /// # Errors
    ///
    /// `Memory` where there is none left for it.
    #[tactic(auto, unfolding(crate::specs::judge::Seen::write_at))]
    pub fn insert(&mut self, number: u64, write: WriteSeen) -> Result<(), Memory>
        ensures { OnOk result (HasWrites self.old self.new number (Some write)) }
    {
        if self.is_first(number) {
            self.first[(number - 1) as usize] = write;
        } else if number > 0 && number - 1 == self.first.len() as u64 {
            self.first.push(write)?;
        } else {
            put_write(&mut self.rest, number, write)?;
        }
        Ok(())
    }

    /// A file is changed by the write of this number.
    #[tactic(auto, unfolding(crate::specs::judge::Seen::write_at))]
    pub fn accept(&mut self, file: FileNo, number: u64, patch: &Patch)
        ensures { AcceptsIn file.0 number patch.now self.old self.new }
    {
        if self.is_first(number) {
            let write = &mut self.first[(number - 1) as usize];
            write.accept(file, patch);
        } else {
            accept_in(&mut self.rest, file, number, patch);
        }
    }

    fn is_first(&self, number: u64) -> bool
        ensures { result ≡ is_first number self.now }
    {
        0 < number && number <= self.first.len() as u64
    }
}

fn put_write(
    writes: &mut BTreeMap<u64, WriteSeen>,
    number: u64,
    write: WriteSeen,
) -> Result<(), Memory>
    ensures { OnOk result (HasWritesBy writes.old.entries writes.new.entries number (Some write)) }
{
    writes.insert(number, write)?;
    Ok(())
}

// A file is changed by the write of this number.
fn accept_in(writes: &mut BTreeMap<u64, WriteSeen>, file: FileNo, number: u64, patch: &Patch)
    ensures { HasWritesBy writes.old.entries writes.new.entries number
        (option_map (accepted_as file.0 patch.now) (write_by number writes.old.entries)) }
{
    if let Some(write) = writes.get_mut(&number) {
        write.accept(file, patch);
    }
}
