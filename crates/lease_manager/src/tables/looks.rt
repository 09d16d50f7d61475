ghost use Rattle.std.specs.Prelude.{◌≡◌, [], IfOk, length, map};
ghost use Rattle.lease_laws.specs.server.Laws.{AreInOrder};
ghost use Rattle.lease_manager.specs.Ending.{ids_in};
ghost use Rattle.lease_manager.specs.Filed.{has_id};
ghost use Rattle.lease_manager.specs.Listing.{open_of};
ghost use Rattle.lease_manager.specs.Queues.{file_numbers};
ghost use Rattle.manager_model.specs.Handling.{is_under};
ghost use Rattle.manager_model.specs.Waiting.{AreWaitingFiles};
ghost use Rattle.std.specs.List.{list_any};
ghost use Rattle.std.specs.Option.{option_map};
ghost use Rattle.lease_model.specs.server.Calls.{is_left_behind};
ghost use Rattle.lease_model.specs.server.Findings as findings;
ghost use Rattle.lease_model.specs.server.Lanes as lanes;
ghost use Rattle.lease_model.specs.server.State.{has_lease};
ghost use Rattle.lease_manager.specs.Lanes.{lane_like};
ghost use Rattle.lease_manager.specs.Table.{queue_at, server_of};

use crate::ended::Ended;
use crate::tables::Tables;
use crate::values::key::LeaseName;
use crate::values::number::{ClientNo, FileNo, Tag};
use crate::values::open::{ListedOpen, OpenEntry};
use crate::values::request::{Held, Lane};
use lease_state::{FileId, LeaseKey, Memory};

impl Tables {
    /// The client's connected open of this FileId.
    pub fn connected_open(&self, client: ClientNo, fid: FileId) -> Option<&OpenEntry>
        ensures { option_map (λ one. one.now) result ≡ findings.connected_open (server_of self.now) client.0 fid.0 }
    {
        match self.opens.find(fid) {
            Some(one) if one.is_connected_as(client, fid) => Some(one),
            _ => None,
        }
    }

    /// The file of the client's connected open of this FileId.
    pub fn open_file(&self, client: ClientNo, fid: FileId) -> Option<FileNo>
        ensures { option_map (λ file. file.0) result
            ≡ option_map (λ one. one.file) (findings.connected_open (server_of self.now) client.0 fid.0) }
    {
        match self.connected_open(client, fid) {
            Some(one) => Some(one.file),
            None => None,
        }
    }

    /// The lane of a request of the client by the FileId.
    pub fn lane_of_open(&self, client: ClientNo, fid: FileId) -> Lane
        ensures { lane_like result ≡ lanes.lane_of_open fid.0 (findings.connected_open (server_of self.now) client.0 fid.0) }
    {
        match self.connected_open(client, fid) {
            Some(one) => lane_by(fid, one.lease_key),
            None => Lane::Opened(fid),
        }
    }

    /// Whether the key has a lease, and on another file.
    #[tactic(auto)]
    pub fn is_leased_elsewhere(&self, own: Option<LeaseName>, file: FileNo) -> bool
        ensures { result ≡ findings.is_leased_elsewhere (server_of self.now) own file.0 }
    {
        match own {
            Some(key) => self.summaries.is_elsewhere(key, file),
            None => false,
        }
    }

    /// Whether a durable open waits for this reconnect.
    pub fn has_awaiting(
        &self,
        client: ClientNo,
        file: FileNo,
        own: Option<LeaseName>,
        fid: FileId,
    ) -> bool
        ensures { result ≡ list_any (findings.awaits client.0 file.0 own fid.0) (server_of self.now).opens }
    {
        match self.opens.find(fid) {
            Some(one) => one.awaits(client, file, own, fid),
            None => false,
        }
    }

    /// The files where something waits, in the order of their numbers.
    ///
    /// # Errors
    ///
    /// `Memory` where there is none left for the list.
    pub fn waiting_files(&self) -> Result<Vec<FileNo>, Memory>
        ensures { IfOk result (λ files. AreWaitingFiles self.now.files (queue_at self.now.queues)
            (file_numbers files.items)) }
    {
        self.queues.waiting_files(self.alloc(), self.files)
    }

    /// Whether a request of the client under the tag waits on the file.
    pub fn waits_under(&self, file: FileNo, client: ClientNo, tag: Tag) -> bool
        ensures { result ≡ list_any (is_under client.0 tag.0) (queue_at self.now.queues file.0) }
    {
        is_any_under(self.held(file), client, tag)
    }

    /// All opens, for a listing.
    ///
    /// # Errors
    ///
    /// `Memory` where there is none left for the list.
    pub fn listed_opens(&self) -> Result<Vec<ListedOpen>, Memory>
        ensures { IfOk result (λ opens. map open_of opens.items ≡ (server_of self.now).opens) }
    {
        self.opens.listed(self.alloc())
    }

    /// How many opens there are.
    pub fn open_count(&self) -> usize
        ensures { result ≡ length (server_of self.now).opens }
    {
        self.opens.len()
    }

    /// No open ended yet. The opens stand in the order of their FileIds. Allocates nothing.
    pub fn none_ended(&self) -> Ended
        ensures none { ids_in result ≡ [] }
        ensures in_order { AreInOrder (server_of self.now).opens }
    {
        let _count = self.opens.len();
        Ended::new(self.alloc())
    }

    /// Whether an open has the key.
    pub fn has_lease(&self, key: LeaseName) -> bool
        ensures { result ≡ has_lease (server_of self.now) key }
    {
        self.summaries.has_lease(key)
    }

    /// Whether there is an open of this FileId.
    pub fn has_open(&self, fid: FileId) -> bool
        ensures { result ≡ list_any (has_id fid.0) (server_of self.now).opens }
    {
        match self.opens.find(fid) {
            Some(_) => true,
            None => false,
        }
    }

    /// Whether a disconnected open has this FileId.
    pub fn has_left_behind(&self, fid: FileId) -> bool
        ensures { result ≡ list_any (is_left_behind fid.0) (server_of self.now).opens }
    {
        match self.opens.find(fid) {
            Some(one) => one.is_left_behind(fid),
            None => false,
        }
    }

    /// Whether the timer of the key ran out since its client joined.
    pub fn is_expired(&self, key: LeaseName) -> bool
        ensures { result ≡ (server_of self.now).expired key }
    {
        match self.expired.at(key.client) {
            Some(keys) => keys.contains(&key.bytes),
            None => false,
        }
    }

    /// The requests that wait on the file, in order of arrival.
    pub fn held(&self, file: FileNo) -> &[Held]
        ensures { result.now ≡ queue_at self.now.queues file.0 }
    {
        self.queues.at(file)
    }
}

// Whether a request of the client under the tag is among these.
fn is_any_under(held: &[Held], client: ClientNo, tag: Tag) -> bool
    ensures { result ≡ list_any (is_under client.0 tag.0) held.now }
{
    held.iter()
        .any(|one| one.client == client && one.tag == tag)
}

// The lane of a request by an open of the key.
fn lane_by(fid: FileId, key: Option<LeaseKey>) -> Lane
    ensures { lane_like result ≡ lanes.lane_by fid.0 (option_map (λ key. key.0) key) }
{
    match key {
        Some(key) => Lane::Leased(key),
        None => Lane::Opened(fid),
    }
}
