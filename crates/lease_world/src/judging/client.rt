ghost use Rattle.std.specs.Prelude.{◌≡◌, ◌++◌, [], ◌∷◌, true, false, OnOk, IfOk, is_some};
ghost use Rattle.lease_state.specs.State.{state_of};
ghost use Rattle.lease_world.specs.judge.Seen.{unseen_client, joined, is_good_client, cache_in, write_in};
ghost use Rattle.lease_world.specs.judge.Clients.{taken_of, TakesOne, is_buffered_before, is_accepted_write, Accepts, Writes};
ghost use Rattle.lease_world.specs.judge.Clients.{Settles, Believes, Sees};

use crate::judging::cache::CacheSeen;
use crate::judging::caches::Caches;
use crate::judging::file::FileSeen;
use crate::judging::numbers::Numbers;
use crate::judging::writes::{WriteSeen, WritesSeen};
use lease_state::{FileNo, LeaseState, Memory, Patch};
use std::alloc::Global;
use std::collections::VecDeque;
use std::marker::Model;

/// What a judge keeps of a client.
#[derive(Debug, Drop)]
pub struct ClientSeen {
    joined: bool,
    /// It joined, and neither was its connection lost nor did a timer of its run out since.
    served: bool,
    strayed: bool,
    /// The places of the messages that were sent to it since it joined, and not taken.
    sent: VecDeque<u64>,
    /// The place of the sending of the message that it took last.
    taken: u64,
    /// It took a message since it joined.
    has_taken: bool,
    writes: WritesSeen,
    /// The numbers of writes that were settled.
    settled: Numbers,
    /// By the numbers of files.
    caches: Caches,
}

impl Model for ClientSeen {
    ghost use Rattle.lease_world.specs.judge.Seen as seen;

    ghost Value = { seen.SeenClient };

    ghost view = { λ client. record {
      joined = client.joined;
      served = client.served;
      strayed = client.strayed;
      sent = client.sent.items;
      taken = client.taken;
      has_taken = client.has_taken;
      writes = client.writes;
      settled = client.settled;
      caches = client.caches;
    } };
}

impl ClientSeen {
    /// Of a client that no fact named. Allocates nothing.
    pub fn new(alloc: Global) -> ClientSeen
        ensures { result ≡ unseen_client }
    {
        ClientSeen {
            joined: false,
            served: false,
            strayed: false,
            sent: VecDeque::new(alloc),
            taken: 0,
            has_taken: false,
            writes: WritesSeen::new(alloc),
            settled: Numbers::new(alloc),
            caches: Caches::new(alloc),
        }
    }

    /// Whether the client is served, and never strayed.
    pub fn is_good(&self) -> bool
        ensures { result ≡ is_good_client self.now }
    {
        !self.strayed && self.served
    }

    /// Whether the client ever strayed: whether a request was sent in its name that its machine
    /// didn't make.
    pub fn has_strayed(&self) -> bool
        ensures { result ≡ self.now.strayed }
    {
        self.strayed
    }

    /// The place of the sending of the message that the client took last; `None` where it took none since it joined.
    pub fn taken(&self) -> Option<u64>
        ensures { result ≡ taken_of self.now }
    {
        self.has_taken.then_some(self.taken)
    }

    /// The client joins.
    pub fn join(&mut self)
        ensures { self.new ≡ joined self.old }
    {
        self.joined = true;
        self.served = true;
        self.sent.clear();
        self.has_taken = false;
    }

    /// The client's connection is lost, or a timer of its runs out.
    pub fn leave(&mut self)
        ensures { self.new ≡ record self.old { served = false } }
    {
        self.served = false;
    }

    /// The client strays.
    pub fn stray(&mut self)
        ensures { self.new ≡ record self.old { strayed = true } }
    {
        self.strayed = true;
    }

    /// A message is sent to the client at this place.
    ///
    /// # Errors
    ///
    /// `Memory` where there is none left for the list of messages.
    pub fn send(&mut self, place: u64) -> Result<(), Memory>
        ensures { OnOk result (self.new ≡ record self.old { sent = self.old.sent ++ place ∷ [] }) }
    {
        self.sent.push_back(place)?;
        Ok(())
    }

    /// The client takes the oldest message that was sent; whether there was one, since it joined.
    pub fn take(&mut self) -> bool
        ensures { TakesOne self.old self.new result }
    {
        if !self.joined {
            return false;
        }
        match self.sent.pop_front() {
            Some(place) => {
                self.taken = place;
                self.has_taken = true;
                true
            }
            None => false,
        }
    }

    /// Whether the client was given a write of this number.
    pub fn has_number(&self, number: u64) -> bool
        ensures { result ≡ is_some (write_in self.now number) }
    {
        self.writes.get(number).is_some()
    }

    /// Whether the client's buffered write of this number, on this file, stands before the place.
    pub fn has_buffered(&self, file: FileNo, number: u64, place: u64) -> bool
        ensures { result ≡ is_buffered_before file.0 place (write_in self.now number) }
    {
        match self.writes.get(number) {
            Some(write) => write.buffered && write.file == file && write.place < place,
            None => false,
        }
    }

    /// Whether the client's write of this number was accepted.
    pub fn is_accepted(&self, number: u64) -> bool
        ensures { result ≡ is_accepted_write (write_in self.now number) }
    {
        match self.writes.get(number) {
            Some(write) => write.accepted,
            None => false,
        }
    }

    /// A file is changed by the client's write of this number.
    pub fn accept(&mut self, file: FileNo, number: u64, patch: &Patch)
        ensures { Accepts file.0 number patch.now self.old self.new }
    {
        self.writes.accept(file, number, patch);
    }

    /// The client is given a write at this place.
    ///
    /// # Errors
    ///
    /// `Memory` where there is none left for it.
    pub fn write(&mut self, number: u64, write: WriteSeen) -> Result<(), Memory>
        ensures { OnOk result (Writes number write self.old self.new) }
    {
        // A write that was settled before covers nothing.
        if !self.settled.contains(number) {
            let patch = write.patch.try_copy()?;
            self.caches.get_mut(write.file)?.write(number, patch)?;
        }
        self.writes.insert(number, write)
    }

    /// The client learns what became of its write of this number.
    ///
    /// # Errors
    ///
    /// `Memory` where there is none left for the list of such numbers.
    pub fn settle(&mut self, number: u64) -> Result<(), Memory>
        ensures { OnOk result (Settles number self.old self.new) }
    {
        self.settled.insert(number)
    }

    /// What is kept of its files, by their numbers.
    pub fn caches(&self) -> &[CacheSeen]
        ensures { result.now ≡ self.now.caches }
    {
        self.caches.as_slice()
    }

    /// What the client believes of a file's lease.
    pub fn belief(&self, file: FileNo) -> LeaseState
        ensures { state_of result ≡ (cache_in self.now.caches file.0).belief }
    {
        match self.caches().get(usize::from(file.0)) {
            Some(cache) => cache.belief(),
            None => LeaseState::NONE,
        }
    }

    /// The client believes this of a file's lease from now on.
    ///
    /// # Errors
    ///
    /// `Memory` where there is none left for what is kept of the file.
    pub fn believe(&mut self, file: FileNo, state: LeaseState) -> Result<(), Memory>
        ensures { OnOk result (Believes file.0 (state_of state) self.old self.new) }
    {
        self.caches.get_mut(file)?.believe(state);
        Ok(())
    }

    /// Whether the client sees these bytes in a file: the file as it stood before the place, with the client's unanswered
    /// writes.
    ///
    /// # Errors
    ///
    /// `Memory` where there is none left for what the client sees.
    pub fn sees(
        &mut self,
        number: FileNo,
        file: &mut FileSeen,
        place: u64,
        bytes: &[u8],
    ) -> Result<bool, Memory>
        ensures same { file.new ≡ file.old }
        ensures sees { IfOk result (λ same. Sees number.0 file.old place bytes.now self.old self.new same) }
    {
        let cache = self.caches.get_mut(number)?;
        cache.shows(file, place, &self.settled, bytes)
    }
}
