ghost use Rattle.std.specs.Prelude.{◌≡◌, ◌++◌, [], ◌∷◌, List, true, false, Some, IfOk, OnOk, OnErr, map, filter, find};
ghost use Rattle.std.specs.Option.{option_map};
ghost use Rattle.lease_laws.specs.server.Laws.{AreInOrder};
ghost use Rattle.lease_model.specs.server.State.{Open, has_key};
ghost use Rattle.lease_model.specs.values.Lists.{without};
ghost use Rattle.lease_manager.specs.Filed.{connected_at, has_id};
ghost use Rattle.lease_manager.specs.Multimaps.{listed_at};
ghost use Rattle.lease_manager.specs.Sets.{values_or_none};
ghost use Rattle.lease_manager.specs.KeyOrder.{key_order};
ghost use Rattle.lease_manager.specs.LeftOpens.{ids_of, numbers};
ghost use Rattle.lease_manager.specs.Looks.{is_left_by};
ghost use Rattle.lease_manager.specs.OpenIndex.{AreIndexed, IsIndexOf, IsLast};
ghost use Rattle.lease_manager.specs.Parting.{is_connected_of};

use crate::tables::multimap::Multimap;
use crate::tables::sets::Sets;
use crate::values::key::LeaseName;
use crate::values::number::ClientNo;
use crate::values::open::OpenEntry;
use crate::values::owner::Owner;
use lease_state::{FileId, Memory};
use std::alloc::Global;
use std::collections::BTreeSet;

/// The FileIds of opens, as their manager asks for them.
// docs/DECISIONS.md: "Opens that wait for their clients".
#[derive(Debug, Drop)]
pub struct OpenIndex {
    /// The opens whose clients are there, by client.
    connected: Sets<ClientNo, FileId>,
    /// The opens that wait for their clients (MS-SMB2 3.3.7.1), by client and file.
    left: Sets<Owner, FileId>,
    /// The opens that have a lease, by its key.
    leased: Multimap<LeaseName, FileId>,
}

impl OpenIndex {
    /// Of no opens. Allocates nothing.
    pub fn new(alloc: Global) -> OpenIndex
        ensures { IsIndexOf [] result }
    {
        OpenIndex {
            connected: Sets::new(alloc),
            left: Sets::new(alloc),
            leased: Multimap::new(alloc),
        }
    }

    /// The client's connected opens, rising.
    ///
    /// # Errors
    ///
    /// `Memory` where there is none left for the list.
    pub fn of_client(&self, alloc: Global, client: ClientNo) -> Result<Vec<FileId>, Memory>
        ensures { IfOk result (λ ids. (opens : List Open) → IsIndexOf opens self.now
            → numbers ids.items ≡ ids_of (filter (is_connected_of client.0) opens)) }
    {
        self.connected.listed(alloc, client)
    }

    /// The opens of the key, rising.
    ///
    /// # Errors
    ///
    /// `Memory` where there is none left for the list.
    pub fn of_key(&self, alloc: Global, key: LeaseName) -> Result<Vec<FileId>, Memory>
        ensures { IfOk result (λ ids. (opens : List Open) → IsIndexOf opens self.now
            → numbers ids.items ≡ ids_of (filter (has_key key) opens)) }
    {
        self.leased.listed(alloc, key)
    }

    /// The opens of the client on the file that wait for it, if any do.
    pub fn left_by(&self, owner: Owner) -> Option<&BTreeSet<FileId>>
        ensures { (opens : List Open) → IsIndexOf opens self.now
            → numbers (values_or_none (option_map (λ ids. ids.now) result))
            ≡ ids_of (filter (is_left_by owner.client.0 owner.file.0) opens) }
    {
        self.left.at(owner)
    }

    /// One more open, whose client is there, and whose FileId is above those of all others.
    ///
    /// # Errors
    ///
    /// `Memory` where there is none left for it; the index is good for nothing then.
    pub fn gain(&mut self, alloc: Global, one: &OpenEntry) -> Result<(), Memory>
        requires { one.now.connected ≡ true }
        ensures { OnOk result ((opens : List Open) → IsLast one.now opens → IsIndexOf opens self.old
            → IsIndexOf (opens ++ one.now ∷ []) self.new) }
    {
        self.connected.insert(alloc, one.client, one.file_id)?;
        gain_key(&mut self.leased, alloc, one)
    }

    /// An open goes.
    pub fn lose(&mut self, one: &OpenEntry)
        ensures { (opens : List Open) → AreInOrder opens → find (has_id one.now.file_id) opens ≡ Some one.now
            → IsIndexOf opens self.old → IsIndexOf (without (has_id one.now.file_id) opens) self.new }
    {
        self.connected.remove(one.client, one.file_id);
        self.left.remove(one.owner(), one.file_id);
        lose_key(&mut self.leased, one);
    }

    /// An open waits for its client from now on.
    ///
    /// # Errors
    ///
    /// `Memory` where there is none left for it; nothing has changed then.
    pub fn leave(&mut self, alloc: Global, one: &OpenEntry) -> Result<(), Memory>
        ensures left { OnOk result ((opens : List Open) → AreInOrder opens → find (has_id one.now.file_id) opens ≡ Some one.now
            → IsIndexOf opens self.old → IsIndexOf (map (connected_at one.now.file_id false) opens) self.new) }
        ensures refused { OnErr result ((opens : List Open) → IsIndexOf opens self.old → IsIndexOf opens self.new) }
    {
        self.left.insert(alloc, one.owner(), one.file_id)?;
        self.connected.remove(one.client, one.file_id);
        Ok(())
    }

    /// The client of an open is there again.
    ///
    /// # Errors
    ///
    /// `Memory` where there is none left for it; nothing has changed then.
    pub fn come_back(&mut self, alloc: Global, one: &OpenEntry) -> Result<(), Memory>
        ensures back { OnOk result ((opens : List Open) → AreInOrder opens → find (has_id one.now.file_id) opens ≡ Some one.now
            → IsIndexOf opens self.old → IsIndexOf (map (connected_at one.now.file_id true) opens) self.new) }
        ensures refused { OnErr result ((opens : List Open) → IsIndexOf opens self.old → IsIndexOf opens self.new) }
    {
        self.connected.insert(alloc, one.client, one.file_id)?;
        self.left.remove(one.owner(), one.file_id);
        Ok(())
    }
}

// One more open is listed under its key, if it has one.
fn gain_key(
    leased: &mut Multimap<LeaseName, FileId>,
    alloc: Global,
    one: &OpenEntry,
) -> Result<(), Memory>
    ensures { OnOk result ((opens : List Open) → IsLast one.now opens → AreIndexed has_key (listed_at key_order leased.old) opens
        → AreIndexed has_key (listed_at key_order leased.new) (opens ++ one.now ∷ [])) }
{
    match one.key() {
        Some(key) => leased.insert(alloc, key, one.file_id),
        None => Ok(()),
    }
}

// An open is no longer listed under its key.
fn lose_key(leased: &mut Multimap<LeaseName, FileId>, one: &OpenEntry)
    ensures { (opens : List Open) → AreInOrder opens → find (has_id one.now.file_id) opens ≡ Some one.now
        → AreIndexed has_key (listed_at key_order leased.old) opens
        → AreIndexed has_key (listed_at key_order leased.new) (without (has_id one.now.file_id) opens) }
{
    match one.key() {
        Some(key) => leased.remove(key, one.file_id),
        None => {}
    }
}
