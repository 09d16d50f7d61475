ghost use Rattle.std.specs.Prelude.{◌≡◌, ◌≤◌, ◌<◌, ◌++◌, ◌==◌, ℕ, [], ◌∷◌, false, true, IfOk, OnOk, OnErr, Some, length, map};
ghost use Rattle.std.specs.Prelude.{if◌then◌else◌, ◌⊎◌};
ghost use Rattle.std.specs.List.{list_any, remove};
ghost use Rattle.lease_laws.specs.server.Laws.{Among};
ghost use Rattle.lease_model.specs.server.State as state;
ghost use Rattle.lease_model.specs.values.Lists.{without};
ghost use Rattle.lease_manager.specs.OneFile.{asks_with};
ghost use Rattle.lease_manager.specs.Parting.{tag_numbers};
ghost use Rattle.lease_manager.specs.Queues.{filed, file_numbers, queue_in};
ghost use Rattle.lease_manager.specs.Table.{held_at, queue_at};
ghost use Rattle.std.specs.BTreeMap.{keys};
ghost use Rattle.manager_model.specs.Waiting.{AreWaitingFiles};
ghost use Rattle.manager_model.specs.Handling.{is_left, is_of, is_under};

use crate::tables::queue::Queue;
use crate::values::number::{ClientNo, FileNo, Tag};
use crate::values::open::OpenEntry;
use crate::values::request::Held;
use lease_state::Memory;
use std::alloc::Global;
use std::collections::BTreeMap;

mod listing;

/// What waits on each file, in order of arrival.
#[derive(Debug, Drop)]
pub struct Queues {
    /// Of the files where something waits.
    by_file: BTreeMap<FileNo, Queue>,
}

impl Queues {
    /// Nothing waits. Allocates nothing.
    pub fn new(alloc: Global) -> Queues
        ensures none { (file : ℕ) → queue_in result file ≡ [] }
        ensures filed { filed result ≡ [] }
    {
        Queues {
            by_file: BTreeMap::new(alloc),
        }
    }

    /// What waits on the file, in order of arrival.
    pub fn at(&self, file: FileNo) -> &[Held]
        ensures { result.now ≡ queue_in self.now file.0 }
    {
        match self.by_file.get(&file) {
            Some(queue) => queue.as_slice(),
            None => &[],
        }
    }

    /// The request waits on the file after the others.
    ///
    /// # Errors
    ///
    /// `Memory` where there is none left for it; nothing has changed then.
    pub fn push(&mut self, alloc: Global, file: FileNo, one: Held) -> Result<(), Memory>
        ensures more { OnOk result ((other : ℕ) → queue_in self.new other
            ≡ (if other == file.0 then queue_in self.old file.0 ++ one ∷ [] else queue_in self.old other)) }
        ensures refused { OnErr result ((other : ℕ) → queue_in self.new other ≡ queue_in self.old other) }
    {
        match self.by_file.get_mut(&file) {
            Some(queue) => queue.push(one),
            None => {
                let mut queue = Queue::new(alloc);
                queue.push(one)?;
                self.by_file.insert(file, queue)?;
                Ok(())
            }
        }
    }

    /// The request at this place of the file's queue no longer waits.
    pub fn remove(&mut self, file: FileNo, place: usize)
        requires { place < length (queue_in self.old file.0) }
        ensures { (other : ℕ) → queue_in self.new other
            ≡ (if other == file.0 then remove (queue_in self.old file.0) place else queue_in self.old other) }
    {
        self.removed(file, place);
        self.tidy(file);
    }

    // The same, and the queue stays, perhaps empty.
    fn removed(&mut self, file: FileNo, place: usize)
        requires { place < length (queue_in self.old file.0) }
        ensures { (other : ℕ) → queue_in self.new other
            ≡ (if other == file.0 then remove (queue_in self.old file.0) place else queue_in self.old other) }
    {
        match self.by_file.get_mut(&file) {
            Some(queue) => queue.remove(place),
            None => {}
        }
    }

    // A file where nothing waits has no queue.
    fn tidy(&mut self, file: FileNo)
        ensures { (other : ℕ) → queue_in self.new other ≡ queue_in self.old other }
    {
        if self.at(file).is_empty() {
            self.by_file.remove(&file);
        }
    }

    /// Whether a request of the client waits on the file.
    pub fn has_of(&self, file: FileNo, client: ClientNo) -> bool
        ensures { result ≡ list_any (is_of client.0) (queue_in self.now file.0) }
    {
        match self.by_file.get(&file) {
            Some(queue) => queue.has_of(client),
            None => false,
        }
    }

    /// The requests of the client no longer wait on the file.
    pub fn forget(&mut self, file: FileNo, client: ClientNo)
        ensures { (other : ℕ) → queue_in self.new other
            ≡ (if other == file.0 then without (is_of client.0) (queue_in self.old file.0) else queue_in self.old other) }
    {
        self.forgotten(file, client);
        self.tidy(file);
    }

    // The same, and the queue stays, perhaps empty.
    fn forgotten(&mut self, file: FileNo, client: ClientNo)
        ensures { (other : ℕ) → queue_in self.new other
            ≡ (if other == file.0 then without (is_of client.0) (queue_in self.old file.0) else queue_in self.old other) }
    {
        match self.by_file.get_mut(&file) {
            Some(queue) => queue.forget(client),
            None => {}
        }
    }

    /// The requests of the client under the tag no longer wait on the file.
    pub fn withdraw(&mut self, file: FileNo, client: ClientNo, tag: Tag)
        ensures { (other : ℕ) → queue_in self.new other ≡ (if other == file.0
            then without (is_under client.0 tag.0) (queue_in self.old file.0) else queue_in self.old other) }
    {
        self.withdrawn(file, client, tag);
        self.tidy(file);
    }

    // The same, and the queue stays, perhaps empty.
    fn withdrawn(&mut self, file: FileNo, client: ClientNo, tag: Tag)
        ensures { (other : ℕ) → queue_in self.new other ≡ (if other == file.0
            then without (is_under client.0 tag.0) (queue_in self.old file.0) else queue_in self.old other) }
    {
        match self.by_file.get_mut(&file) {
            Some(queue) => queue.withdraw(client, tag),
            None => {}
        }
    }

    /// The requests of the client under these tags no longer wait on the file.
    pub fn leave(&mut self, file: FileNo, client: ClientNo, tags: &[Tag])
        ensures { (other : ℕ) → queue_in self.new other ≡ (if other == file.0
            then without (is_left client.0 (tag_numbers tags.now)) (queue_in self.old file.0) else queue_in self.old other) }
    {
        self.left(file, client, tags);
        self.tidy(file);
    }

    // The same, and the queue stays, perhaps empty.
    fn left(&mut self, file: FileNo, client: ClientNo, tags: &[Tag])
        ensures { (other : ℕ) → queue_in self.new other ≡ (if other == file.0
            then without (is_left client.0 (tag_numbers tags.now)) (queue_in self.old file.0) else queue_in self.old other) }
    {
        match self.by_file.get_mut(&file) {
            Some(queue) => queue.leave(client, tags),
            None => {}
        }
    }

    /// The numbers of the files where something waits, rising.
    ///
    /// # Errors
    ///
    /// `Memory` where there is none left for the list.
    pub fn files(&self, alloc: Global) -> Result<Vec<FileNo>, Memory>
        ensures { IfOk result (λ files. files.items ≡ keys self.now.by_file) }
    {
        let mut files = Vec::new(alloc);
        for file in self.by_file.keys() {
            files.push(*file)?;
        }
        Ok(files)
    }

    /// Of those the ones up to the last that is a file's.
    ///
    /// # Errors
    ///
    /// `Memory` where there is none left for the list.
    pub fn waiting_files(&self, alloc: Global, last: FileNo) -> Result<Vec<FileNo>, Memory>
        ensures { IfOk result (λ files. AreWaitingFiles last.0 (queue_at (filed self.now)) (file_numbers files.items)) }
    {
        let mut files = Vec::new(alloc);
        for file in self.by_file.keys() {
            if file.is_file(last) {
                files.push(*file)?;
            }
        }
        Ok(files)
    }

    /// Whether a create waits, on any file, under the key of the open.
    pub fn ask_with(&self, one: &OpenEntry) -> bool
        ensures { result ≡ false → (file : ℕ) (held : state.Held) → Among held (held_at (filed self.now) file)
            → asks_with one.now held ≡ false }
    {
        for queue in self.by_file.values() {
            if queue.asks_with(one) {
                return true;
            }
        }
        false
    }
}
