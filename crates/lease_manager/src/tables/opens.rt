ghost use Rattle.std.specs.Prelude.{◌≡◌, ◌<◌, ◌^◌, ◌++◌, [], ◌∷◌, true, OnOk, OnErr, IfOk, IfSome, length, map, filter, find};
ghost use Rattle.std.specs.Option.{option_map};
ghost use Rattle.lease_laws.specs.server.Laws.{Among, AreInOrder};
ghost use Rattle.lease_model.specs.server.State.{Open};
ghost use Rattle.lease_model.specs.values.Lists.{without};
ghost use Rattle.lease_manager.specs.Closing.{closes};
ghost use Rattle.lease_model.specs.server.Grant.{connected_again};
ghost use Rattle.lease_model.specs.server.Attempt.{is_left_open};
ghost use Rattle.lease_model.specs.server.State.{has_key};
ghost use Rattle.lease_manager.specs.Filed.{AreFiled, connected_at, disconnected_at, has_id};
ghost use Rattle.lease_manager.specs.Parting.{is_connected_named, is_connected_of, is_lasting, is_so, outlives_by};
ghost use Rattle.lease_manager.specs.LeftOpens.{has_key_in, ids_of, numbers};
ghost use Rattle.lease_manager.specs.OpenIndex.{IsIndexOf, IsLast};
ghost use Rattle.lease_manager.specs.Listing.{open_of};
ghost use Rattle.lease_manager.specs.Looks.{file_found, is_left_by};
ghost use Rattle.lease_manager.specs.Queues.{file_numbers};
ghost use Rattle.lease_manager.specs.Restarting.{pair_kept, pairs_in};
ghost use Rattle.lease_manager.specs.Summaries.{Agrees, IsOneMore, lease_in};
ghost use Rattle.std.specs.Map.{values_of};

use crate::tables::open_index::OpenIndex;
use crate::tables::summaries::Summaries;
use crate::values::closing::Closing;
use crate::values::kept::KeptOpen;
use crate::values::key::LeaseName;
use crate::values::number::{ClientNo, FileNo};
use crate::values::open::{ListedOpen, OpenEntry};
use crate::values::owner::Owner;
use lease_state::{FileId, Memory};
use std::alloc::Global;
use std::collections::{BTreeMap, BTreeSet};
use std::marker::Model;

/// The opens of a manager, by their FileIds.
#[derive(Debug, Drop)]
pub struct Opens {
    by_id: BTreeMap<FileId, OpenEntry>,
    index: OpenIndex,
}

impl Model for Opens {
    ghost use Rattle.std.specs.Prelude.{List};
    ghost use Rattle.std.specs.Map.{values_of};
    ghost use Rattle.lease_model.specs.server.State as model;
    ghost use Rattle.lease_laws.specs.server.Laws.{AreInOrder};
    ghost use Rattle.lease_manager.specs.Filed.{AreFiled};
    ghost use Rattle.lease_manager.specs.OpenIndex.{IsIndexOf};

    ghost Value = { List model.Open };

    ghost view = { λ opens. values_of opens.by_id.entries };

    ghost invariant = { λ opens. AreFiled opens.by_id.entries × AreInOrder (values_of opens.by_id.entries)
        × IsIndexOf (values_of opens.by_id.entries) opens.index };
}

impl Opens {
    /// No open. Allocates nothing.
    pub fn new(alloc: Global) -> Opens
        ensures { result ≡ [] }
    {
        Opens {
            by_id: BTreeMap::new(alloc),
            index: OpenIndex::new(alloc),
        }
    }

    /// How many there are. They stand in the order of their FileIds, and no two have one.
    pub fn len(&self) -> usize
        ensures count { result ≡ length self.now }
        ensures small { result < 2 ^ 63 }
        ensures in_order { AreInOrder self.now }
    {
        self.by_id.len()
    }

    /// All of them, for a listing, in the order of their FileIds.
    ///
    /// # Errors
    ///
    /// `Memory` where there is none left for the list.
    pub fn listed(&self, alloc: Global) -> Result<Vec<ListedOpen>, Memory>
        ensures { IfOk result (λ opens. map open_of opens.items ≡ self.now) }
    {
        let mut opens = Vec::new(alloc);
        for one in self.by_id.values() {
            opens.push(one.listed())?;
        }
        Ok(opens)
    }

    /// Those that outlive a connection, where these are the leases, as they are kept over a restart, in the order of their
    /// FileIds.
    ///
    /// # Errors
    ///
    /// `Memory` where there is none left for the list.
    pub fn kept(&self, alloc: Global, leases: &Summaries) -> Result<Vec<KeptOpen>, Memory>
        ensures { IfOk result (λ kept. map pair_kept kept.items ≡ pairs_in (lease_in leases.now) self.now) }
    {
        let mut kept = Vec::new(alloc);
        for one in self.by_id.values() {
            match one.kept(leases.under(one)) {
                Some(open) => kept.push(open)?,
                None => {}
            }
        }
        Ok(kept)
    }

    /// One more open, whose client is there, and whose FileId is above those of all others.
    ///
    /// # Errors
    ///
    /// `Memory` where there is none left; no open is left then.
    pub fn push(&mut self, alloc: Global, one: OpenEntry) -> Result<(), Memory>
        requires here { one.connected ≡ true }
        requires last { (other : Open) → Among other self.old → other.file_id < one.file_id }
        ensures { OnOk result (self.new ≡ self.old ++ one ∷ []) }
    {
        match file(&mut self.by_id, &mut self.index, alloc, one) {
            Ok(()) => Ok(()),
            Err(memory) => {
                *self = Opens::new(alloc);
                Err(memory)
            }
        }
    }

    /// The open of this FileId.
    pub fn find(&self, fid: FileId) -> Option<&OpenEntry>
        ensures found { option_map (λ one. one.now) result ≡ find (has_id fid.0) self.now }
        ensures in_order { AreInOrder self.now }
    {
        self.by_id.get(&fid)
    }

    /// Takes the open of this FileId out, if there is one.
    pub fn take(&mut self, fid: FileId) -> Option<OpenEntry>
        ensures taken { result ≡ find (has_id fid.0) self.old }
        ensures one_less { IfSome result (λ one. IsOneMore one self.new self.old) }
        ensures left { self.new ≡ without (has_id fid.0) self.old }
    {
        match self.by_id.remove(&fid) {
            Some(one) => {
                self.index.lose(&one);
                Some(one)
            }
            None => None,
        }
    }

    /// The FileIds of the opens that are closed, where these are the leases.
    ///
    /// # Errors
    ///
    /// `Memory` where there is none left for the list.
    pub fn closed(
        &self,
        alloc: Global,
        closing: &Closing,
        leases: &Summaries,
    ) -> Result<Vec<FileId>, Memory>
        requires { Agrees leases.now self.now }
        ensures ids { IfOk result (λ ids. map (λ file_id. file_id.0) ids.items
            ≡ map (λ one. one.file_id) (filter (closes closing.now) self.now)) }
        ensures in_order { AreInOrder self.now }
    {
        match closing {
            Closing::Named(fid) => self.closed_at(alloc, *fid, closing),
            Closing::LeftBehind(fid) => self.closed_at(alloc, *fid, closing),
            Closing::LeftOf(key) => self.left_of(alloc, *key, leases),
            Closing::Of(key) => self.of_key(alloc, *key),
        }
    }

    // The FileIds of the opens of the key that wait for its client.
    fn left_of(
        &self,
        alloc: Global,
        key: LeaseName,
        leases: &Summaries,
    ) -> Result<Vec<FileId>, Memory>
        requires { Agrees leases.now self.now }
        ensures ids { IfOk result (λ ids. map (λ file_id. file_id.0) ids.items
            ≡ map (λ one. one.file_id) (filter (is_left_open key) self.now)) }
        ensures in_order { AreInOrder self.now }
    {
        // The invariant, which says what is in the sets, is known of what is looked at.
        let _ = &self.index;
        match leases.home(key) {
            Some(file) => {
                let ids = self.left_on(alloc, key, file)?;
                Ok(ids)
            }
            None => Ok(Vec::new(alloc)),
        }
    }

    // The same, of the opens that its client left on the file.
    fn left_on(&self, alloc: Global, key: LeaseName, file: FileNo) -> Result<Vec<FileId>, Memory>
        ensures ids { IfOk result (λ ids. map (λ file_id. file_id.0) ids.items
            ≡ map (λ one. one.file_id) (filter (has_key key) (filter (is_left_by key.client file.0) self.now))) }
        ensures in_order { AreInOrder self.now }
    {
        let client = key.client;
        match self.index.left_by(Owner { client, file }) {
            Some(left) => {
                let ids = self.with_key(alloc, key, left)?;
                Ok(ids)
            }
            None => Ok(Vec::new(alloc)),
        }
    }

    // Those of the FileIds whose opens have the key.
    fn with_key(
        &self,
        alloc: Global,
        key: LeaseName,
        left: &BTreeSet<FileId>,
    ) -> Result<Vec<FileId>, Memory>
        ensures { IfOk result (λ ids. ids.items ≡ filter (has_key_in self.now key) left.now.keys) }
    {
        let mut ids = Vec::new(alloc);
        for fid in left {
            if self.is_of_key(*fid, key) {
                ids.push(*fid)?;
            }
        }
        Ok(ids)
    }

    // Whether the open of this FileId has the key.
    fn is_of_key(&self, fid: FileId, key: LeaseName) -> bool
        ensures { result ≡ has_key_in self.now key fid }
    {
        match self.find(fid) {
            Some(one) => one.has_key(key),
            None => false,
        }
    }

    // The same, where only the open of this FileId can be closed.
    fn closed_at(
        &self,
        alloc: Global,
        fid: FileId,
        closing: &Closing,
    ) -> Result<Vec<FileId>, Memory>
        requires { (one : Open) → closes closing.now one ≡ true → has_id fid.0 one ≡ true }
        ensures ids { IfOk result (λ ids. map (λ file_id. file_id.0) ids.items
            ≡ map (λ one. one.file_id) (filter (closes closing.now) self.now)) }
        ensures in_order { AreInOrder self.now }
    {
        let mut ids = Vec::new(alloc);
        match self.find(fid) {
            Some(one) => {
                if !closing.closes(one) {
                    return Ok(ids);
                }
                ids.push(fid)?;
                Ok(ids)
            }
            None => Ok(ids),
        }
    }

    // The FileIds of the opens of the key.
    fn of_key(&self, alloc: Global, key: LeaseName) -> Result<Vec<FileId>, Memory>
        ensures ids { IfOk result (λ ids. map (λ file_id. file_id.0) ids.items
            ≡ map (λ one. one.file_id) (filter (has_key key) self.now)) }
        ensures in_order { AreInOrder self.now }
    {
        self.index.of_key(alloc, key)
    }

    /// The first of the client's opens on the file that wait for it.
    pub fn first_left_by(&self, client: ClientNo, file: FileNo) -> Option<FileId>
        ensures { option_map (λ file_id. file_id.0) result
            ≡ option_map (λ one. one.file_id) (find (is_left_by client.0 file.0) self.now) }
    {
        match self.index.left_by(Owner { client, file }) {
            Some(left) => {
                match left.first() {
                    Some(fid) => Some(*fid),
                    None => None,
                }
            }
            None => None,
        }
    }

    /// The FileIds of the client's connected opens.
    ///
    /// # Errors
    ///
    /// `Memory` where there is none left for the list.
    pub fn of_client(&self, alloc: Global, client: ClientNo) -> Result<Vec<FileId>, Memory>
        ensures ids { IfOk result (λ ids. map (λ file_id. file_id.0) ids.items
            ≡ map (λ one. one.file_id) (filter (is_connected_of client.0) self.now)) }
        ensures in_order { AreInOrder self.now }
    {
        self.index.of_client(alloc, client)
    }

    /// The files of the client's connected opens, in the order of their FileIds.
    ///
    /// # Errors
    ///
    /// `Memory` where there is none left for the list.
    pub fn files_of_client(&self, alloc: Global, client: ClientNo) -> Result<Vec<FileNo>, Memory>
        ensures { IfOk result (λ files. file_numbers files.items
            ≡ map (λ one. one.file) (filter (is_connected_of client.0) self.now)) }
    {
        let ids = self.of_client(alloc, client)?;
        let files = self.files_of(alloc, &ids)?;
        Ok(files)
    }

    // The files of the opens of these FileIds.
    fn files_of(&self, alloc: Global, ids: &[FileId]) -> Result<Vec<FileNo>, Memory>
        ensures { IfOk result (λ files. file_numbers files.items
            ≡ map (λ (fid : FileId). file_found (find (has_id fid.0) self.now)) ids.now) }
    {
        let mut files = Vec::new(alloc);
        for fid in ids {
            files.push(self.file_of(*fid))?;
        }
        Ok(files)
    }

    // The file of the open of this FileId; 0 where there is none.
    fn file_of(&self, fid: FileId) -> FileNo
        ensures { result.0 ≡ file_found (find (has_id fid.0) self.now) }
    {
        match self.find(fid) {
            Some(one) => one.file,
            None => FileNo(0),
        }
    }

    /// Those of the FileIds by which the client has a connected open, each once, in their order.
    ///
    /// # Errors
    ///
    /// `Memory` where there is none left for them.
    pub fn named(
        &self,
        alloc: Global,
        client: ClientNo,
        file_ids: &[FileId],
    ) -> Result<BTreeSet<FileId>, Memory>
        ensures ids { IfOk result (λ names. numbers names.keys
            ≡ ids_of (filter (is_connected_named client.0 (numbers file_ids.now)) self.now)) }
        ensures in_order { AreInOrder self.now }
    {
        // The invariant is known of what is looked at.
        let _ = &self.by_id;
        let mut names = BTreeSet::new(alloc);
        for fid in file_ids {
            if self.is_connected_of(*fid, client) {
                names.insert(*fid)?;
            }
        }
        Ok(names)
    }

    // Whether the open of this FileId is a connected one of the client.
    fn is_connected_of(&self, fid: FileId, client: ClientNo) -> bool
        ensures { result ≡ is_so (is_connected_of client.0) self.now fid.0 }
    {
        match self.find(fid) {
            Some(one) => one.client == client && one.connected,
            None => false,
        }
    }

    /// Those of the FileIds whose opens outlive a connection, where these are the leases, or don't.
    ///
    /// # Errors
    ///
    /// `Memory` where there is none left for the list.
    pub fn lasting(
        &self,
        alloc: Global,
        named: &[FileId],
        leases: &Summaries,
        last: bool,
    ) -> Result<Vec<FileId>, Memory>
        ensures ids { IfOk result (λ ids. ids.items
            ≡ filter (λ (fid : FileId). is_lasting last (is_so (outlives_by (lease_in leases.now)) self.now fid.0)) named.now) }
        ensures in_order { AreInOrder self.now }
    {
        // The invariant is known of what is looked at.
        let _ = &self.by_id;
        let mut ids = Vec::new(alloc);
        for fid in named {
            if lasts_so(last, self.outlives(*fid, leases)) {
                ids.push(*fid)?;
            }
        }
        Ok(ids)
    }

    // Whether the open of this FileId outlives its client's connection.
    fn outlives(&self, fid: FileId, leases: &Summaries) -> bool
        ensures { result ≡ is_so (outlives_by (lease_in leases.now)) self.now fid.0 }
    {
        match self.find(fid) {
            Some(one) => one.outlives_connection(leases.under(one)),
            None => false,
        }
    }

    /// The open of this FileId is no longer connected.
    ///
    /// # Errors
    ///
    /// `Memory` where there is none left for it; nothing has changed then.
    pub fn disconnect(&mut self, alloc: Global, fid: FileId) -> Result<(), Memory>
        ensures { OnOk result (self.new ≡ map (disconnected_at fid.0) self.old) }
    {
        match self.by_id.get(&fid) {
            Some(one) => {
                self.index.leave(alloc, one)?;
                set_connected(&mut self.by_id, fid, false);
                Ok(())
            }
            None => Ok(()),
        }
    }

    /// The open of this FileId is connected again.
    ///
    /// # Errors
    ///
    /// `Memory` where there is none left for it; nothing has changed then.
    pub fn connect_again(&mut self, alloc: Global, fid: FileId) -> Result<(), Memory>
        ensures changed { OnOk result (self.new ≡ map (connected_again fid.0) self.old) }
        ensures refused { OnErr result (self.new ≡ self.old) }
    {
        match self.by_id.get(&fid) {
            Some(one) => {
                self.index.come_back(alloc, one)?;
                set_connected(&mut self.by_id, fid, true);
                Ok(())
            }
            None => Ok(()),
        }
    }
}

// Puts one more open into the map and the index, the last of all.
fn file(
    by_id: &mut BTreeMap<FileId, OpenEntry>,
    index: &mut OpenIndex,
    alloc: Global,
    one: OpenEntry,
) -> Result<(), Memory>
    requires here { one.connected ≡ true }
    requires filed { AreFiled by_id.old.entries }
    requires last { IsLast one (values_of by_id.old.entries) }
    requires indexed { IsIndexOf (values_of by_id.old.entries) index.old }
    ensures still_filed { OnOk result (AreFiled by_id.new.entries) }
    ensures in_order { OnOk result (AreInOrder (values_of by_id.new.entries)) }
    ensures opens { OnOk result (values_of by_id.new.entries ≡ values_of by_id.old.entries ++ one ∷ []) }
    ensures still_indexed { OnOk result (IsIndexOf (values_of by_id.new.entries) index.new) }
{
    index.gain(alloc, &one)?;
    by_id.insert(one.file_id, one)?;
    Ok(())
}

// Whether it lasts, or where that is asked, whether it doesn't.
fn lasts_so(last: bool, outlives: bool) -> bool
    ensures { result ≡ is_lasting last outlives }
{
    if last { outlives } else { !outlives }
}

// The open of this FileId is connected, or isn't.
fn set_connected(by_id: &mut BTreeMap<FileId, OpenEntry>, fid: FileId, connected: bool)
    requires filed { AreFiled by_id.old.entries }
    requires in_order { AreInOrder (values_of by_id.old.entries) }
    ensures still_filed { AreFiled by_id.new.entries }
    ensures still_in_order { AreInOrder (values_of by_id.new.entries) }
    ensures opens { values_of by_id.new.entries ≡ map (connected_at fid.0 connected) (values_of by_id.old.entries) }
{
    match by_id.get_mut(&fid) {
        Some(one) => one.set_connected(connected),
        None => {}
    }
}
