ghost use Rattle.std.specs.Prelude.{◌≡◌, ◌-◌, [], IfOk, IsOk, OnOk, length, true, replicate};
ghost use Rattle.std.specs.Option.{option_map};
ghost use Rattle.lease_state.specs.State.{state_of};
ghost use Rattle.lease_model.specs.client.State as model;
ghost use Rattle.lease_client.specs.Known.{client_of, entry_at};
ghost use Rattle.lease_model.specs.client.Taken.{has_sent};
ghost use Rattle.lease_client.specs.Answers.{command_of};
ghost use Rattle.lease_client.specs.Searches.{is_read_under};
ghost use Rattle.lease_model.specs.client.Commanded.{commanded_turn, is_refused, last_after};
ghost use Rattle.lease_client.specs.Links.{keyed_turn};
ghost use Rattle.lease_client.specs.Messages.{message_turn};
ghost use Rattle.lease_client.specs.Turns.{given_in, turn_written};
ghost use Rattle.std.proofs.Math.ListN.{set};

use crate::entry::Entry;
use crate::entry::turn::Given;
use crate::machine::links::Link;
use crate::machine::message::Message;
use crate::values::command::Command;
use crate::values::key::lease_key;
use lease_state::{FileId, FileNo, LeaseKey, LeaseState, Memory};
use std::alloc::Global;
use std::marker::Model;

pub mod calls;
pub mod links;
pub mod message;
pub mod replies;
pub mod searches;

/// What a client machine knows.
#[derive(Debug, Drop)]
pub struct Machine {
    guid: [u8; 16],
    /// From a connect to the next notice of a lost connection.
    is_online: bool,
    /// The number of the last write.
    last_number: u64,
    /// Those of the files from 1 on.
    entries: Vec<Entry>,
}

impl Model for Machine {
    ghost use Rattle.std.specs.Prelude.{◌≤◌, length};
    ghost use Rattle.lease_client.specs.Known as known;

    ghost Value = { known.Known };

    ghost view = { λ machine. record {
      guid = machine.guid;
      is_online = machine.is_online;
      last_number = machine.last_number;
      entries = machine.entries.items;
    } };

    // Each file has a number of one byte.
    ghost invariant = { λ machine. length machine.entries.items ≤ 255 };
}

impl Machine {
    /// How many files there are.
    pub fn files(&self) -> u8
        ensures { result ≡ length self.now.entries }
    {
        self.entries.len() as u8
    }

    /// The machine of this ClientGuid with files from 1 to `files`, that was never connected.
    ///
    /// # Errors
    ///
    /// `Memory` where there is none left for the list of files, and never where there are no files.
    pub fn new(alloc: Global, guid: [u8; 16], files: u8) -> Result<Machine, Memory>
        ensures new { IfOk result (λ machine. client_of machine ≡ model.new_client guid files) }
        ensures no_files { files ≡ 0 → IsOk result }
    {
        Ok(Machine {
            guid,
            is_online: false,
            last_number: 0,
            entries: closed_entries(alloc, files)?,
        })
    }

    /// All is forgotten but the ClientGuid, which is this one: there are no files, and the client was never connected. Allocates
    /// nothing.
    pub fn forget(&mut self, guid: [u8; 16])
        ensures { client_of self.new ≡ model.new_client guid 0 }
    {
        self.guid = guid;
        self.is_online = false;
        self.last_number = 0;
        self.entries.clear();
    }

    /// The ClientGuid.
    pub fn guid(&self) -> [u8; 16]
        ensures { result ≡ self.now.guid }
    {
        self.guid
    }

    /// The allocator of the machine.
    pub fn alloc(&self) -> Global {
        *self.entries.allocator()
    }

    /// What the client believes of the lease of a file.
    pub fn belief(&self, file: FileNo) -> LeaseState
        ensures { state_of result ≡ model.belief (client_of self.now) file.0 }
    {
        match self.entry(file) {
            Some(entry) => entry.belief(),
            None => LeaseState::NONE,
        }
    }

    // The entry of a file; `None` where there is no file of this number.
    fn entry(&self, file: FileNo) -> Option<&Entry>
        ensures { option_map (λ entry. entry.now) result ≡ entry_at self.now.entries file.0 }
    {
        let index = usize::from(file.0).checked_sub(1)?;
        self.entries.get(index)
    }

    /// Whether the file's open has this FileId and waits for a Read.
    #[tactic(auto, using(crate::proofs::Places::entry_numbered))]
    pub fn is_read_under(&self, file: FileNo, file_id: FileId) -> bool
        ensures { result ≡ is_read_under (client_of self.now) file_id.0 file.0 }
    {
        match self.entry(file) {
            Some(entry) => entry.reads_under(file_id),
            None => false,
        }
    }

    /// Whether the file has a sent write of this number that isn't answered.
    #[tactic(auto, using(crate::proofs::Places::entry_numbered))]
    pub fn has_sent(&self, file: FileNo, number: u64) -> bool
        ensures { result ≡ has_sent (client_of self.now) number file.0 }
    {
        match self.entry(file) {
            Some(entry) => entry.has_sent(number),
            None => false,
        }
    }

    /// Whether there is a file of this number.
    pub fn knows(&self, file: FileNo) -> bool
        ensures { result ≡ model.knows_file (client_of self.now) file.0 }
    {
        1 <= file.0 && usize::from(file.0) <= self.entries.len()
    }

    /// The client is connected from now on, or no longer.
    pub fn set_online(&mut self, is_online: bool)
        ensures { self.new ≡ record self.old { is_online = is_online } }
    {
        self.is_online = is_online;
    }

    /// The key under which a file is opened.
    pub fn key(&self, file: FileNo) -> LeaseKey
        ensures { result.0 ≡ model.lease_key self.now.guid file.0 }
    {
        lease_key(self.guid, file)
    }

    /// A command reaches the entry of a file.
    ///
    /// # Errors
    ///
    /// `Memory` where there is none left, and never where the command is refused.
    pub fn command_entry(
        &mut self,
        file: FileNo,
        key: LeaseKey,
        command: Command,
        given: &mut Given,
    ) -> Result<(), Memory>
        requires { model.knows_file (client_of self.old) file.0 ≡ true }
        ensures machine { OnOk result (self.new ≡ record self.old {
          last_number = last_after self.old.is_online key.0 self.old.last_number
              (command_of command) ((client_of self.old).entries file.0);
          entries = set self.old.entries (file.0 - 1)
              (commanded_turn self.old.is_online key.0 self.old.last_number
              (command_of command) ((client_of self.old).entries file.0)).entry;
        }) }
        ensures given { OnOk result (given.new ≡ given_in (turn_written
            (commanded_turn self.old.is_online key.0 self.old.last_number
            (command_of command) ((client_of self.old).entries file.0)))) }
        ensures refused { is_refused (commanded_turn self.old.is_online key.0 self.old.last_number
            (command_of command) ((client_of self.old).entries file.0)).answer ≡ true → IsOk result }
    {
        let is_online = self.is_online;
        let mut number = self.last_number;
        let index = usize::from(file.0) - 1;
        self.entries[index].commanded(is_online, key, &mut number, command, given)?;
        self.last_number = number;
        Ok(())
    }

    /// A reply reaches the entry of a file.
    ///
    /// # Errors
    ///
    /// `Memory` where there is none left.
    pub fn tell_entry(
        &mut self,
        file: FileNo,
        key: LeaseKey,
        message: Message,
        given: &mut Given,
    ) -> Result<(), Memory>
        requires { model.knows_file (client_of self.old) file.0 ≡ true }
        ensures machine { OnOk result (self.new ≡ record self.old {
          entries = set self.old.entries (file.0 - 1)
              (message_turn key.0 message ((client_of self.old).entries file.0)).entry;
        }) }
        ensures given { OnOk result (given.new ≡ given_in (turn_written
            (message_turn key.0 message ((client_of self.old).entries file.0)))) }
    {
        let index = usize::from(file.0) - 1;
        self.entries[index].told(key, message, given)?;
        Ok(())
    }

    /// The connection is lost or made for the entry of a file.
    ///
    /// # Errors
    ///
    /// `Memory` where there is none left.
    pub fn link_entry(
        &mut self,
        file: FileNo,
        key: LeaseKey,
        link: Link,
        given: &mut Given,
    ) -> Result<(), Memory>
        requires { model.knows_file (client_of self.old) file.0 ≡ true }
        ensures machine { OnOk result (self.new ≡ record self.old {
          entries = set self.old.entries (file.0 - 1)
              (keyed_turn link key.0 file.0 ((client_of self.old).entries file.0)).entry;
        }) }
        ensures given { OnOk result (given.new ≡ given_in (turn_written
            (keyed_turn link key.0 file.0 ((client_of self.old).entries file.0)))) }
    {
        let index = usize::from(file.0) - 1;
        self.entries[index].linked(link, file, key, given)?;
        Ok(())
    }
}

// The entries of files that aren't open.
#[tactic(auto, using(crate::proofs::NewClient::closed_more))]
fn closed_entries(alloc: Global, files: u8) -> Result<Vec<Entry>, Memory>
    ensures closed { IfOk result (λ entries. entries.items ≡ replicate files (model.closed_entry [])) }
    ensures no_files { files ≡ 0 → IsOk result }
{
    let mut entries = Vec::with_capacity(alloc, usize::from(files))?;
    for _ in 0..files {
        entries.push(Entry::closed(alloc))?;
    }
    Ok(entries)
}
