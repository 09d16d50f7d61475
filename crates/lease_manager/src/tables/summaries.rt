ghost use Rattle.std.specs.Prelude.{◌≡◌, ◌<◌, ◌^◌, List, length, [], OnOk, IfOk, filter, Some, if◌then◌else◌, ◌&&◌, true, false};
ghost use Rattle.std.specs.Prelude.{not};
ghost use Rattle.std.specs.List.{list_any};
ghost use Rattle.lease_state.specs.declared.number.FileNo.{FileNo};
ghost use Rattle.lease_model.specs.server.State.{Open, Lease};
ghost use Rattle.lease_model.specs.values.Keys.{Key};
ghost use Rattle.lease_model.specs.server.State.{Server, no_lease, has_key, has_lease};
ghost use Rattle.lease_model.specs.server.Naming.{key_of_open};
ghost use Rattle.lease_model.specs.values.Keys.{key_eq};
ghost use Rattle.lease_manager.specs.Leases.{lease_of};
ghost use Rattle.lease_manager.specs.Tallies.{tally_raised};
ghost use Rattle.lease_manager.specs.Summaries.{record_at, lease_in, tally_in, IsKeyChanged, RecordFits, AreLeft, IsPut};
ghost use Rattle.lease_manager.specs.Summaries.{IsAtHome};
ghost use Rattle.lease_manager.specs.Summaries.{StandFor, has_key_on};
ghost use Rattle.lease_model.specs.server.Allowed as grants;
ghost use Rattle.std.specs.BTreeSet.{IsOrdered};
ghost use Rattle.lease_model.specs.server.KeyOrder.{keys_of};
ghost use Rattle.lease_manager.specs.Hindering.{is_hinderer};
ghost use Rattle.lease_manager.specs.KeyOrder.{key_order};
ghost use Rattle.lease_manager.specs.Wanted.{is_wanted_key, is_own_key};
ghost use Rattle.lease_manager.specs.Wishes.{is_demanded};
ghost use Rattle.lease_manager.specs.Closing.{lease_under};
ghost use Rattle.lease_manager.specs.Looks.{is_elsewhere};
ghost use Rattle.lease_manager.specs.Summaries.{Agrees, IsOneMore, AreAfter, IsHome, SummaryFits, summary_at};
ghost use Rattle.std.specs.Option.{option_map};
ghost use Rattle.lease_manager.specs.StillWaiting.{AreHandlesBreaking};

use crate::tables::file_summary::FileSummary;
use crate::tables::lease_marks::LeaseMarks;
use crate::tables::tally::Tally;
use crate::values::key::LeaseName;
use crate::values::lease::HeldLease;
use crate::values::number::FileNo;
use crate::values::open::OpenEntry;
use crate::values::want::Demand;
use lease_state::{Access, Memory, Share};
use std::alloc::Global;
use std::collections::{BTreeMap, BTreeSet};

mod listing;

/// What a manager keeps of a lease: its file, the lease itself, and counts of its opens.
#[derive(Clone, Copy, Debug)]
pub struct LeaseRecord {
    pub file: FileNo,
    pub lease: HeldLease,
    pub tally: Tally,
}

/// Lease records and file summaries, and no open. What may be granted, whether opens conflict and
/// which leases are wanted is answered from these alone.
#[derive(Debug, Drop)]
pub struct Summaries {
    /// A record for each key that an open has.
    leases: BTreeMap<LeaseName, LeaseRecord>,
    /// A summary for each file that an open is on.
    files: BTreeMap<FileNo, FileSummary>,
}

impl Summaries {
    /// Where there is no open. Allocates nothing.
    pub fn new(alloc: Global) -> Summaries
        ensures agrees { Agrees result [] }
        ensures leases { result.leases.entries ≡ [] }
    {
        Summaries {
            leases: BTreeMap::new(alloc),
            files: BTreeMap::new(alloc),
        }
    }

    // The summary of the file, with one open more.
    fn gain_on_file(
        &mut self,
        alloc: Global,
        one: &OpenEntry,
        marks: LeaseMarks,
    ) -> Result<(), Memory>
        ensures leases { OnOk result (self.new.leases ≡ self.old.leases) }
        ensures files { OnOk result ((less more : List Open) (leases later : Key → Lease)
            → IsOneMore one.now less more → length more < 2 ^ 64 → AreAfter one.now marks less leases later
            → ((file : FileNo) → SummaryFits file.0 less leases (summary_at self.old file))
            → (file : FileNo) → SummaryFits file.0 more later (summary_at self.new file)) }
    {
        match self.files.get_mut(&one.file) {
            Some(summary) => {
                summary.gain(one, marks)?;
                Ok(())
            }
            None => {
                let mut summary = FileSummary::new(alloc);
                summary.gain(one, marks)?;
                self.files.insert(one.file, summary)?;
                Ok(())
            }
        }
    }

    // The counts of the opens that have the key.
    fn tally(&self, key: LeaseName) -> Tally
        ensures { result ≡ tally_in (record_at self.now key) }
    {
        match self.leases.get(&key) {
            Some(known) => known.tally,
            None => Tally::none(),
        }
    }

    // The record of the key, with one open more, and with this lease.
    fn gain_record(
        &mut self,
        key: LeaseName,
        one: &OpenEntry,
        lease: HeldLease,
    ) -> Result<(), Memory>
        ensures files { OnOk result (self.new.files ≡ self.old.files) }
        ensures changed { OnOk result (IsKeyChanged key (record_at self.old) (record_at self.new) (Some (record {
          file = record { 0 = one.now.file };
          lease = lease;
          tally = tally_raised one.now (tally_in (record_at self.old key));
        }))) }
    {
        let known = LeaseRecord {
            file: one.file,
            lease,
            tally: self.tally(key).raised(one),
        };
        self.leases.insert(key, known)?;
        Ok(())
    }

    // The record of the key, with one open less: whether it had no other.
    fn lose_record(&mut self, key: LeaseName, one: &OpenEntry) -> bool
        ensures files { self.new.files ≡ self.old.files }
        ensures records { (less more : List Open) → key_of_open one.now ≡ Some key → IsOneMore one.now less more
            → ((other : Key) → RecordFits other more (record_at self.old other))
            → (other : Key) → RecordFits other less (record_at self.new other) }
        ensures last { (less more : List Open) → key_of_open one.now ≡ Some key → IsOneMore one.now less more
            → ((other : Key) → RecordFits other more (record_at self.old other))
            → list_any (has_key key) less ≡ not result }
        ensures leases { (other : Key) → lease_in self.new other
            ≡ (if key_eq other key && result then no_lease else lease_in self.old other) }
    {
        match self.leases.get_mut(&key) {
            Some(known) => {
                known.tally = known.tally.lowered(one);
                if !known.tally.is_empty() {
                    return false;
                }
                self.leases.remove(&key);
                true
            }
            None => true,
        }
    }

    // The summary of the file, with one open less, the last of its key or not.
    fn lose_on_file(&mut self, one: &OpenEntry, last: bool)
        ensures leases { self.new.leases ≡ self.old.leases }
        ensures files { (less more : List Open) (leases later : Key → Lease)
            → IsOneMore one.now less more → AreLeft less leases later
            → ((key : Key) → has_key key one.now ≡ true → last ≡ not (list_any (has_key_on one.now.file key) less))
            → ((file : FileNo) → SummaryFits file.0 more leases (summary_at self.old file))
            → (file : FileNo) → SummaryFits file.0 less later (summary_at self.new file) }
    {
        match self.files.get_mut(&one.file) {
            Some(summary) => {
                summary.lose(one, last);
                if summary.tally.is_empty() {
                    self.files.remove(&one.file);
                }
            }
            None => {}
        }
    }

    /// One open less, of a list that these agree with.
    pub fn lose(&mut self, one: &OpenEntry)
        ensures agrees { (less more : List Open) → IsOneMore one.now less more → Agrees self.old more
            → Agrees self.new less }
        ensures leases { (less more : List Open) → IsOneMore one.now less more → Agrees self.old more
            → (key : Key) → lease_in self.new key
            ≡ (if list_any (has_key key) less then lease_in self.old key else no_lease) }
    {
        match one.key() {
            Some(key) => {
                let last = self.lose_record(key, one);
                self.lose_on_file(one, last);
            }
            None => self.lose_on_file(one, false),
        }
    }

    /// One open more, which a key has nowhere else than on its file, and whose lease becomes this one.
    ///
    /// # Errors
    ///
    /// `Memory` where there is none left for its record or its file's summary.
    pub fn gain(&mut self, alloc: Global, one: &OpenEntry, lease: HeldLease) -> Result<(), Memory>
        ensures agrees { OnOk result ((less more : List Open) → IsOneMore one.now less more
            → length more < 2 ^ 64 → IsAtHome (key_of_open one.now) one.now.file less
            → Agrees self.old less → Agrees self.new more) }
        ensures leases { OnOk result ((key : Key) → lease_in self.new key
            ≡ (if has_key key one.now then lease_of lease else lease_in self.old key)) }
    {
        let marks = LeaseMarks::of(lease);
        match one.key() {
            Some(key) => {
                self.gain_record(key, one, lease)?;
                self.gain_on_file(alloc, one, marks)?;
                Ok(())
            }
            None => {
                self.gain_on_file(alloc, one, marks)?;
                Ok(())
            }
        }
    }

    // The summary of the file, where this is marked of the lease of a key.
    fn mark_on_file(
        &mut self,
        file: FileNo,
        key: LeaseName,
        marks: LeaseMarks,
    ) -> Result<(), Memory>
        ensures leases { OnOk result (self.new.leases ≡ self.old.leases) }
        ensures files { OnOk result ((opens : List Open) (leases later : Key → Lease)
            → IsPut key marks leases later
            → list_any (has_key_on file.0 key) opens ≡ true → list_any (is_elsewhere key file.0) opens ≡ false
            → ((at : FileNo) → SummaryFits at.0 opens leases (summary_at self.old at))
            → (at : FileNo) → SummaryFits at.0 opens later (summary_at self.new at)) }
    {
        match self.files.get_mut(&file) {
            Some(summary) => {
                summary.mark(key, marks)?;
                Ok(())
            }
            None => Ok(()),
        }
    }

    /// The lease of a key that an open has becomes this one.
    ///
    /// # Errors
    ///
    /// `Memory` where there is none left for the file's summary.
    pub fn put(&mut self, key: LeaseName, lease: HeldLease) -> Result<(), Memory>
        ensures agrees { OnOk result ((opens : List Open) → list_any (has_key key) opens ≡ true
            → Agrees self.old opens → Agrees self.new opens) }
        ensures leases { OnOk result ((opens : List Open) → list_any (has_key key) opens ≡ true
            → Agrees self.old opens → (other : Key) → lease_in self.new other
            ≡ (if key_eq other key then lease_of lease else lease_in self.old other)) }
    {
        match self.leases.get_mut(&key) {
            Some(known) => {
                let marked = LeaseMarks::of(known.lease);
                let marks = LeaseMarks::of(lease);
                let file = known.file;
                known.lease = lease;
                if marks != marked {
                    self.mark_on_file(file, key, marks)?;
                }
                Ok(())
            }
            None => Ok(()),
        }
    }

    /// The lease of a key; none where no open has it.
    pub fn lease(&self, key: LeaseName) -> HeldLease
        ensures { lease_of result ≡ lease_in self.now key }
    {
        match self.leases.get(&key) {
            Some(known) => known.lease,
            None => HeldLease::none(),
        }
    }

    /// The lease under which an open stands.
    pub fn under(&self, one: &OpenEntry) -> HeldLease
        ensures { lease_of result ≡ lease_under (lease_in self.now) (key_of_open one.now) }
    {
        match one.key() {
            Some(key) => self.lease(key),
            None => HeldLease::none(),
        }
    }

    /// Whether an open has the key.
    pub fn has_lease(&self, key: LeaseName) -> bool
        ensures { (server : Server) → StandFor self.now server → result ≡ has_lease server key }
    {
        self.leases.contains_key(&key)
    }

    /// The file of the key's opens; `None` where no open has the key.
    pub fn home(&self, key: LeaseName) -> Option<FileNo>
        ensures { (opens : List Open) → Agrees self.now opens → IsHome key opens (option_map (λ file. file.0) result) }
    {
        match self.leases.get(&key) {
            Some(known) => Some(known.file),
            None => None,
        }
    }

    /// Whether an open of the key is on another file.
    pub fn is_elsewhere(&self, key: LeaseName, file: FileNo) -> bool
        ensures { (server : Server) → StandFor self.now server
            → result ≡ list_any (is_elsewhere key file.0) server.opens }
    {
        match self.leases.get(&key) {
            Some(known) => known.file != file,
            None => false,
        }
    }

    /// Whether an open on the file conflicts with this access and share.
    pub fn has_conflict_on(&self, file: FileNo, access: Access, share: Share) -> bool
        ensures { (server : Server) → StandFor self.now server
            → result ≡ list_any (grants.conflicts_on file.0 access share) server.opens }
    {
        match self.files.get(&file) {
            Some(summary) => summary.tally.conflicts(access, share),
            None => false,
        }
    }

    /// Whether an open on the file has another key than the request. An open without a key counts
    /// as a key of its own (profile).
    pub fn has_other_on(&self, own: Option<LeaseName>, file: FileNo) -> bool
        ensures { (server : Server) → StandFor self.now server
            → result ≡ list_any (grants.is_other_on own file.0) server.opens }
    {
        match self.files.get(&file) {
            Some(summary) => summary.has_other(own),
            None => false,
        }
    }

    /// Whether the lease of another key on the file hinders a write under this key, or under none.
    pub fn is_hindered(&self, own: Option<LeaseName>, file: FileNo) -> bool
        ensures { (server : Server) → StandFor self.now server
            → result ≡ list_any (is_hinderer server own file.0) server.opens }
    {
        match self.files.get(&file) {
            Some(summary) => summary.is_hindered(own),
            None => false,
        }
    }

    /// Whether each lease of another key on the file that holds `HANDLE_CACHING` is breaking.
    pub fn are_handlers_breaking(&self, own: Option<LeaseName>, file: FileNo) -> bool
        ensures { (server : Server) → StandFor self.now server → result ≡ true → AreHandlesBreaking server own file.0 }
    {
        match self.files.get(&file) {
            Some(summary) => summary.are_handlers_breaking(own),
            None => true,
        }
    }

    /// The keys whose leases are wanted, in the order in which these are broken.
    ///
    /// # Errors
    ///
    /// `Memory` where there is none left for the list.
    pub fn wanted_keys(&self, alloc: Global, demand: &Demand) -> Result<Vec<LeaseName>, Memory>
        ensures { IfOk result (λ keys. (server : Server) → StandFor self.now server
            → keys.items ≡ keys_of (filter (is_demanded demand.now server) server.opens)) }
    {
        match self.files.get(&demand.file) {
            Some(summary) => {
                let keys = summary.keys_for(demand.wish);
                let wanted = self.wanted_among(alloc, keys, demand)?;
                Ok(wanted)
            }
            None => Ok(Vec::new(alloc)),
        }
    }

    /// Whether the lease of any key is wanted.
    pub fn is_any_wanted(&self, demand: &Demand) -> bool
        ensures { (server : Server) → StandFor self.now server
            → result ≡ list_any (is_demanded demand.now server) server.opens }
    {
        match self.files.get(&demand.file) {
            Some(summary) => self.is_one_wanted(summary.keys_for(demand.wish), demand),
            None => false,
        }
    }

    // Whether the lease of one of the keys is.
    fn is_one_wanted(&self, keys: &BTreeSet<LeaseName>, demand: &Demand) -> bool
        ensures { result ≡ list_any (is_wanted_key self.now demand.now) keys.now.keys }
    {
        keys.iter().any(|key| self.is_wanted(*key, demand))
    }

    // Those of the keys whose leases are wanted.
    fn wanted_among(
        &self,
        alloc: Global,
        keys: &BTreeSet<LeaseName>,
        demand: &Demand,
    ) -> Result<Vec<LeaseName>, Memory>
        ensures wanted { IfOk result (λ wanted. wanted.items ≡ filter (is_wanted_key self.now demand.now) keys.now.keys) }
        ensures ordered { IsOrdered key_order keys.now }
    {
        let mut wanted = Vec::new(alloc);
        for key in keys {
            if self.is_wanted(*key, demand) {
                wanted.push(*key)?;
            }
        }
        Ok(wanted)
    }

    // Whether the lease of a key on the file is wanted: it is another one than the request's, and
    // holds what the request wishes to be given up.
    fn is_wanted(&self, key: LeaseName, demand: &Demand) -> bool
        ensures { result ≡ is_wanted_key self.now demand.now key }
    {
        if is_own(demand.own, key) {
            return false;
        }
        match self.leases.get(&key) {
            Some(known) => demand.wish.needs(known),
            None => false,
        }
    }
}

// Whether the request has this key.
fn is_own(own: Option<LeaseName>, key: LeaseName) -> bool
    ensures { result ≡ is_own_key own key }
{
    match own {
        Some(other) => key.is(other),
        None => false,
    }
}
