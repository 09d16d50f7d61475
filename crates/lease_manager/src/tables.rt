ghost use Rattle.std.specs.Prelude.{◌≡◌, [], OnOk};
ghost use Rattle.std.specs.List.{list_any};
ghost use Rattle.lease_manager.specs.Table.{manager_of, server_of};
ghost use Rattle.manager_model.specs.Hosting.{fresh_manager};
ghost use Rattle.std.specs.Option.{option_map};
ghost use Rattle.lease_state.specs.State.{state_of};
ghost use Rattle.lease_model.specs.server.Calls.{joined};
ghost use Rattle.lease_model.specs.server.State.{has_file};
ghost use Rattle.lease_manager.specs.Leases.{lease_of};
ghost use Rattle.lease_manager.specs.Outs.{progress_of};
ghost use Rattle.lease_model.specs.server.Allowed as allowed;
ghost use Rattle.lease_model.specs.server.Queries as queries;

use crate::tables::opens::Opens;
use crate::tables::queues::Queues;
use crate::tables::sets::Sets;
use crate::tables::summaries::Summaries;
use crate::tables::waiting::Waiting;
use crate::values::key::LeaseName;
use crate::values::lease::HeldLease;
use crate::values::number::{ClientNo, FileNo};
use lease_state::{Access, FileId, LeaseKey, LeaseState, Memory, Rules, Share};
use std::alloc::Global;
use std::collections::BTreeSet;
use std::marker::Model;

mod changes;
pub mod file_summary;
mod files;
pub mod lease_marks;
mod listings;
mod looks;
pub mod multimap;
pub mod open_index;
pub mod opens;
pub mod parting;
pub mod queue;
pub mod queues;
mod restoring;
pub mod sets;
mod still;
pub mod summaries;
pub mod tally;
pub mod waiting;
mod wants;

/// What a manager knows.
// docs/DECISIONS.md: "The server's rules use its tables by methods".
#[derive(Debug, Drop)]
pub struct Tables {
    /// The rules that the manager was given.
    rules: Rules,
    /// The last number that a file can have.
    files: FileNo,
    queues: Queues,
    opens: Opens,
    /// Lease records and file summaries, which agree with the opens.
    summaries: Summaries,
    /// The clients that are connected.
    present: BTreeSet<ClientNo>,
    /// The keys of each client whose break timer ran out since it joined.
    expired: Sets<ClientNo, LeaseKey>,
    /// The FileId given last.
    last_id: u64,
    /// The requests that are known to wait still.
    waiting: Waiting,
    /// Whether it is known that no open of a lease that is breaking waits for its client. The rules keep it so: such opens are
    /// closed before their lease is broken, and an open of a lease that is breaking ends with its connection.
    settled: bool,
    alloc: Global,
}

impl Model for Tables {
    ghost use Rattle.lease_manager.specs.Expired.{ran_out};
    ghost use Rattle.lease_manager.specs.Queues.{filed};
    ghost use Rattle.lease_manager.specs.Table as table;
    ghost use Rattle.lease_manager.specs.Kept.{listed, AreKept};
    ghost use Rattle.lease_manager.specs.StillWaiting.{AreKnown, AreSettled};
    ghost use Rattle.lease_manager.specs.Summaries.{lease_in};

    ghost Value = { table.Table };

    ghost view = { λ tables. record {
      rules = tables.rules;
      files = tables.files.0;
      queues = filed tables.queues;
      opens = tables.opens;
      leases = listed tables.summaries;
      present = tables.present.keys;
      expired = ran_out tables.expired;
      last_id = tables.last_id;
    } };

    ghost invariant = { λ tables. AreKept tables.opens tables.summaries tables.last_id
        × AreKnown tables.waiting tables.rules tables.files.0 (table.held_at (filed tables.queues)) tables.opens
        (lease_in tables.summaries)
        × AreSettled tables.settled tables.opens (lease_in tables.summaries) };
}

impl Tables {
    /// The tables of a manager of these rules, where this is the last number of a file and nothing is open. Allocates nothing.
    pub fn new(alloc: Global, rules: Rules, files: FileNo) -> Tables
        ensures { manager_of result ≡ fresh_manager rules files.0 }
    {
        Tables {
            rules,
            files,
            queues: Queues::new(alloc),
            opens: Opens::new(alloc),
            summaries: Summaries::new(alloc),
            present: BTreeSet::new(alloc),
            expired: Sets::new(alloc),
            last_id: 0,
            waiting: Waiting::new(alloc),
            settled: true,
            alloc,
        }
    }

    /// The allocator of the tables.
    pub fn alloc(&self) -> Global {
        self.alloc
    }

    /// The rules that the manager was given.
    pub fn rules(&self) -> Rules
        ensures { result ≡ (server_of self.now).rules }
    {
        self.rules
    }

    /// The last number that a file can have.
    pub fn files(&self) -> FileNo
        ensures { result.0 ≡ (server_of self.now).files }
    {
        self.files
    }

    /// Whether the number is a file's.
    pub fn has_file(&self, file: FileNo) -> bool
        ensures { result ≡ has_file (server_of self.now) file.0 }
    {
        file.is_file(self.files)
    }

    /// Whether the client's connection is there.
    pub fn is_present(&self, client: ClientNo) -> bool
        ensures { result ≡ (server_of self.now).present client.0 }
    {
        self.present.contains(&client)
    }

    /// The client's connection comes, and its keys are no longer expired.
    ///
    /// # Errors
    ///
    /// `Memory` where there is none left for the list of connections.
    pub fn join(&mut self, client: ClientNo) -> Result<(), Memory>
        ensures joined { OnOk result (progress_of self.new [] ≡ joined client.0 (progress_of self.old [])) }
        ensures queues { OnOk result (self.new.queues ≡ self.old.queues) }
    {
        self.present.insert(client)?;
        self.expired.clear(client);
        Ok(())
    }

    /// The lease of a key.
    pub fn lease(&self, key: LeaseName) -> HeldLease
        ensures { lease_of result ≡ (server_of self.now).leases key }
    {
        self.summaries.lease(key)
    }

    /// Whether an open on the file has another key than the request.
    pub fn has_other_on(&self, own: Option<LeaseName>, file: FileNo) -> bool
        ensures { result ≡ list_any (allowed.is_other_on own file.0) (server_of self.now).opens }
    {
        self.summaries.has_other_on(own, file)
    }

    /// Whether an open on the file conflicts with this access and share.
    pub fn has_conflict_on(&self, file: FileNo, access: Access, share: Share) -> bool
        ensures { result ≡ list_any (allowed.conflicts_on file.0 access share) (server_of self.now).opens }
    {
        self.summaries.has_conflict_on(file, access, share)
    }

    /// What may be granted of a wanted state.
    #[tactic(auto)]
    pub fn allowed(&self, own: Option<LeaseName>, file: FileNo, want: LeaseState) -> LeaseState
        ensures { state_of result ≡ allowed.allowed (server_of self.now) own file.0 (state_of want) }
    {
        if self.has_other_on(own, file) {
            want.granted_form().without_write()
        } else {
            want.granted_form()
        }
    }

    /// The lowest disconnected open of the client on the file.
    pub fn kept(&self, client: ClientNo, file: FileNo) -> Option<FileId>
        ensures { option_map (λ file_id. file_id.0) result ≡ queries.kept (server_of self.now) client.0 file.0 }
    {
        self.opens.first_left_by(client, file)
    }
}
