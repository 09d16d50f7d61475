ghost use Rattle.std.specs.Prelude.{◌≡◌, []};
ghost use Rattle.lease_state.specs.State.{state_of};
ghost use Rattle.lease_model.specs.client.State.{closed_entry, live_entry, belief_of};
ghost use Rattle.lease_client.specs.Entries.{phase_of};

use crate::entry::handles::Handles;
use crate::file::File;
use crate::writes::queue::Writes;
use lease_state::{Access, FileId, LeaseState, Patch, Share};
use std::alloc::Global;
use std::marker::Model;
use std::mem;

pub mod answered;
pub mod breaks;
pub mod commands;
pub mod connection;
pub mod created;
pub mod handles;
pub mod opens;
pub mod turn;

/// A write that isn't answered. A buffered one was answered before it was sent.
#[derive(Debug, Drop)]
pub struct Pending {
    pub number: u64,
    pub patch: Patch,
    pub buffered: bool,
}

impl Model for Pending {
    ghost use Rattle.lease_model.specs.client.State as model;

    ghost Value = { model.Pending };

    ghost view = { λ write. record { number = write.number; patch = write.patch; buffered = write.buffered } };
}

/// The access and the share of a create that is under way.
#[derive(Clone, Copy, Debug)]
pub struct Asked {
    pub access: Access,
    pub share: Share,
}

impl Model for Asked {
    ghost use Rattle.lease_model.specs.client.State as model;

    ghost Value = { model.Asked };

    ghost view = { λ asked. record { access = asked.access; share = asked.share } };

    ghost inverse = { λ asked. record { access = asked.access; share = asked.share } };
}

/// What the client knows of its open of a file (MS-SMB2 3.2.1.5, 3.2.1.6).
#[derive(Debug, Drop)]
pub struct Live {
    pub file_id: FileId,
    pub access: Access,
    pub share: Share,
    pub durable: bool,
    /// What the client believes of the lease's state.
    pub belief: LeaseState,
    /// With no handle the entry is parked.
    pub handles: Handles,
    /// How many Reads aren't answered.
    pub reads: u32,
    /// The file as last known, and the buffered writes that aren't sent.
    pub file: File,
}

impl Model for Live {
    ghost use Rattle.lease_state.specs.State.{state_of};
    ghost use Rattle.lease_model.specs.client.State as model;

    ghost Value = { model.LiveEntry };

    ghost view = { λ live. record {
      file_id = live.file_id.0;
      access = live.access;
      share = live.share;
      durable = live.durable;
      belief = state_of live.belief;
      handles = live.handles.count;
      reads = live.reads;
      base = live.file.base;
      unsent = live.file.unsent;
      asking = live.handles.asking;
    } };
}

/// What the client keeps of an open whose connection was lost: the open, and buffered writes.
#[derive(Debug, Drop)]
pub struct Parted {
    pub file_id: FileId,
    pub access: Access,
    pub share: Share,
    pub handles: u32,
    /// The buffered writes that weren't answered, in order.
    pub writes: Writes,
}

impl Model for Parted {
    ghost use Rattle.lease_model.specs.client.State as model;

    ghost Value = { model.Parted };

    ghost view = { λ parted. record {
      file_id = parted.file_id.0;
      access = parted.access;
      share = parted.share;
      handles = parted.handles;
      writes = parted.writes;
    } };
}

/// How far a file is open.
#[derive(Debug, Drop)]
pub enum Phase {
    Closed,
    /// A create is sent and not answered.
    Opening { access: Access, share: Share },
    Live(Live),
    /// The connection of the open was lost.
    Offline(Parted),
    /// A create that names the old open is sent and not answered.
    Reconnecting(Parted),
}

/// A file's entry. In every phase the file has its sent, unanswered writes, in order.
#[derive(Debug, Drop)]
pub struct Entry {
    pub phase: Phase,
    pub sent: Writes,
}

impl Model for Entry {
    ghost use Rattle.lease_client.specs.Entries.{phase_of};
    ghost use Rattle.lease_model.specs.client.State as model;

    ghost Value = { model.Entry };

    ghost view = { λ entry. record { phase = phase_of entry.phase; sent = entry.sent } };
}

impl Entry {
    /// The entry of a file that isn't open. Allocates nothing.
    pub fn closed(alloc: Global) -> Entry
        ensures { result ≡ closed_entry [] }
    {
        Entry {
            phase: Phase::Closed,
            sent: Writes::new(alloc),
        }
    }

    /// The entry of a file that isn't open, with its sent, unanswered writes.
    pub fn shut(sent: Writes) -> Entry
        ensures { result ≡ closed_entry sent }
    {
        Entry {
            phase: Phase::Closed,
            sent,
        }
    }

    /// The entry of a live open, with its sent, unanswered writes.
    pub fn live(live: Live, sent: Writes) -> Entry
        ensures { result ≡ live_entry live sent }
    {
        Entry {
            phase: Phase::Live(live),
            sent,
        }
    }

    /// Takes the entry out of its place, where a closed one stays. Allocates nothing.
    pub fn take(&mut self) -> Entry
        ensures entry { result ≡ self.old }
        ensures rest { self.new ≡ closed_entry [] }
    {
        let alloc = self.alloc();
        mem::replace(self, Entry::closed(alloc))
    }

    /// The entry that was taken out of this place is put back.
    pub fn put_back(&mut self, phase: Phase, sent: Writes)
        ensures { self.new ≡ record { phase = phase_of phase; sent = sent } }
    {
        *self = Entry { phase, sent };
    }

    /// What the client believes of the lease: nothing is cached where the entry isn't live.
    pub fn belief(&self) -> LeaseState
        ensures { state_of result ≡ belief_of self.now }
    {
        match &self.phase {
            Phase::Live(live) => live.belief,
            _ => LeaseState::NONE,
        }
    }

    /// The allocator of the entry.
    pub fn alloc(&self) -> Global {
        self.sent.alloc()
    }
}
