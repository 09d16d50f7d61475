ghost use Rattle.std.specs.Prelude.{◌≡◌, ◌-◌, true, OnOk};
ghost use Rattle.std.proofs.Math.ListN.{set};
ghost use Rattle.lease_model.specs.client.State.{knows_file, belief_of};
ghost use Rattle.lease_client.specs.Known.{client_of};
ghost use Rattle.lease_client.specs.Links.{is_made, keyed_turn, link_turn, linked};
ghost use Rattle.lease_client.specs.Turns.{turn_written, turned_to, given_by, IsAfter};

use crate::entry::Entry;
use crate::entry::turn::Given;
use crate::machine::Machine;
use crate::values::command::Answer;
use lease_state::{FileNo, LeaseKey, Memory};

/// What happens to a connection.
#[derive(Clone, Copy, Debug)]
pub enum Link {
    Lost,
    Made,
}

impl Link {
    fn is_made(self) -> bool
        ensures { result ≡ is_made self }
    {
        match self {
            Link::Lost => false,
            Link::Made => true,
        }
    }
}

impl Entry {
    /// The connection is lost or made for the entry of a file, whose key this is.
    ///
    /// # Errors
    ///
    /// `Memory` where there is none left.
    pub fn linked(
        &mut self,
        link: Link,
        file: FileNo,
        key: LeaseKey,
        given: &mut Given,
    ) -> Result<(), Memory>
        ensures { OnOk result (
            turned_to self.new given.new ≡ turn_written (keyed_turn link key.0 file.0 self.old)) }
    {
        match link {
            Link::Lost => self.noticed(given),
            Link::Made => self.connected(file, key, given),
        }
    }
}

impl Machine {
    /// The connection is lost or made: each entry has its turn, in the order of files.
    ///
    /// # Errors
    ///
    /// `Memory` where there is none left.
    pub fn link(&mut self, link: Link, given: &mut Given) -> Result<(), Memory>
        ensures { OnOk result (IsAfter self.new given.new (linked (client_of self.old) link)) }
    {
        let alloc = self.alloc();
        let mut requests = Vec::new(alloc);
        let mut notes = Vec::new(alloc);
        for index in 0..self.files() {
            let mut own = Given::new(alloc);
            self.link_file(FileNo(index + 1), link, &mut own)?;
            own.join(&mut requests, &mut notes)?;
        }
        self.set_online(link.is_made());
        given.answer = Answer::Quiet;
        given.requests = requests;
        given.notes = notes;
        Ok(())
    }

    fn link_file(&mut self, file: FileNo, link: Link, given: &mut Given) -> Result<(), Memory>
        requires { knows_file (client_of self.old) file.0 ≡ true }
        ensures machine { OnOk result (self.new ≡ record self.old {
          entries = set self.old.entries (file.0 - 1)
              (link_turn link self.old.guid file.0 ((client_of self.old).entries file.0)).entry;
        }) }
        ensures given { OnOk result (given.new ≡ given_by file.0 (belief_of ((client_of self.old).entries file.0))
            (turn_written (link_turn link self.old.guid file.0 ((client_of self.old).entries file.0)))) }
    {
        let key = self.key(file);
        let old = self.belief(file);
        self.link_entry(file, key, link, given)?;
        given.note_belief(file, old, self.belief(file))?;
        Ok(())
    }
}
