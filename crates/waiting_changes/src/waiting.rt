ghost use Rattle.std.specs.Prelude.{◌≡◌, ◌++◌, ◌==◌, [], ◌∷◌, IfOk, OnErr, OnOk, length, map};
ghost use Rattle.std.specs.List.{list_any};
ghost use Rattle.lease_manager.specs.Parting.{tag_numbers};
ghost use Rattle.lease_manager.specs.Queues.{file_numbers};
ghost use Rattle.lease_manager.specs.Table.{server_of};
ghost use Rattle.lease_model.specs.values.Lists.{without};
ghost use Rattle.waiting_changes.specs.Changes.{asks_as, goes, is_asked_by, is_left_of};

use crate::change::Change;
use lease_manager::{ClientNo, FileNo, Manager, Tag};
use lease_state::Memory;
use std::alloc::Global;
use std::marker::Model;

/// The changes that wait, in order of arrival.
#[derive(Debug, Drop)]
pub struct WaitingChanges {
    waiting: Vec<Change>,
}

impl Model for WaitingChanges {
    ghost use Rattle.std.specs.Prelude.{List};
    ghost use Rattle.waiting_changes.specs.declared.change.Change as change;

    ghost Value = { List change.Change };

    ghost view = { λ changes. changes.waiting.items };
}

impl WaitingChanges {
    /// None waits. Allocates nothing.
    pub fn new(alloc: Global) -> WaitingChanges
        ensures { result ≡ [] }
    {
        WaitingChanges {
            waiting: Vec::new(alloc),
        }
    }

    /// All of them, in order of arrival.
    pub fn as_slice(&self) -> &[Change]
        ensures { result.now ≡ self.now }
    {
        self.waiting.as_slice()
    }

    /// Whether none waits.
    pub fn is_empty(&self) -> bool
        ensures { result ≡ (length self.now == 0) }
    {
        self.waiting.is_empty()
    }

    /// Whether one of the client's waits on the file under the tag.
    pub fn is_waiting(&self, file: FileNo, client: ClientNo, tag: Tag) -> bool
        ensures { result ≡ list_any (asks_as file.0 client.0 tag.0) self.now }
    {
        self.waiting
            .iter()
            .any(|one| one.is_under(file, client, tag))
    }

    // The file of each.
    pub(crate) fn files(&self, alloc: Global) -> Result<Vec<FileNo>, Memory>
        ensures { IfOk result (λ files. file_numbers files.items ≡ map (λ one. one.file.0) self.now) }
    {
        let mut files = Vec::new(alloc);
        for one in self.as_slice() {
            files.push(one.file)?;
        }
        Ok(files)
    }

    // It waits after the others.
    pub(crate) fn push(&mut self, one: Change) -> Result<(), Memory>
        ensures more { OnOk result (self.new ≡ self.old ++ one ∷ []) }
        ensures refused { OnErr result (self.new ≡ self.old) }
    {
        self.waiting.push(one)?;
        Ok(())
    }

    // Those on the file that nothing is in the way of wait no longer.
    pub(crate) fn let_go(&mut self, file: FileNo, manager: &Manager)
        ensures { self.new ≡ without (goes file.0 (server_of manager.now)) self.old }
    {
        let_go(&mut self.waiting, file, manager);
    }

    /// Those of the client on the file under the tag are taken back (MS-SMB2 3.3.5.16).
    pub fn withdraw(&mut self, file: FileNo, client: ClientNo, tag: Tag)
        ensures { self.new ≡ without (asks_as file.0 client.0 tag.0) self.old }
    {
        withdraw(&mut self.waiting, file, client, tag);
    }

    /// The client's connection is gone, and nothing that it asked for waits any longer (MS-SMB2 3.3.7.1).
    pub fn forget(&mut self, client: ClientNo)
        ensures { self.new ≡ without (is_asked_by client.0) self.old }
    {
        forget(&mut self.waiting, client);
    }

    /// What the client asked for under these tags waits no longer: their connection or session goes (MS-SMB2 3.3.5.6).
    pub fn leave(&mut self, client: ClientNo, tags: &[Tag])
        ensures { self.new ≡ without (is_left_of client.0 (tag_numbers tags.now)) self.old }
    {
        leave(&mut self.waiting, client, tags);
    }
}

// Those on the file that nothing is in the way of are taken out.
fn let_go(waiting: &mut Vec<Change>, file: FileNo, manager: &Manager)
    ensures { waiting.new.items ≡ without (goes file.0 (server_of manager.now)) waiting.old.items }
{
    waiting.retain(|one| !one.goes(file, manager));
}

// Those of the client on the file under the tag are taken out.
fn withdraw(waiting: &mut Vec<Change>, file: FileNo, client: ClientNo, tag: Tag)
    ensures { waiting.new.items ≡ without (asks_as file.0 client.0 tag.0) waiting.old.items }
{
    waiting.retain(|one| !one.is_under(file, client, tag));
}

// Those of the client are taken out.
fn forget(waiting: &mut Vec<Change>, client: ClientNo)
    ensures { waiting.new.items ≡ without (is_asked_by client.0) waiting.old.items }
{
    waiting.retain(|one| one.client != client);
}

// Those of the client under these tags are taken out.
fn leave(waiting: &mut Vec<Change>, client: ClientNo, tags: &[Tag])
    ensures { waiting.new.items ≡ without (is_left_of client.0 (tag_numbers tags.now)) waiting.old.items }
{
    waiting.retain(|one| !(one.client == client && is_among(tags, one.tag)));
}

// Whether the tag is one of these.
fn is_among(tags: &[Tag], tag: Tag) -> bool
    ensures { result ≡ list_any (λ other. tag.0 == other) (tag_numbers tags.now) }
{
    is_any(tags, tag)
}

fn is_any(tags: &[Tag], tag: Tag) -> bool
    ensures { result ≡ list_any (λ other. tag.0 == other.0) tags.now }
{
    tags.iter().any(|other| tag == *other)
}
