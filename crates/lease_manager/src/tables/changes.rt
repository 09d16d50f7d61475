ghost use Rattle.std.specs.Prelude.{◌≡◌, ◌+◌, ◌<◌, ◌++◌, ◌==◌, [], ◌∷◌};
ghost use Rattle.std.specs.Prelude.{true, not, filter, map, IfOk, OnOk, length, List, Some, vec_len, if◌then◌else◌};
ghost use Rattle.std.specs.Prelude.{◌≤◌, ℕ, false};
ghost use Rattle.std.specs.List.{remove, slice_get, list_any};
ghost use Rattle.lease_laws.specs.server.Laws.{Among, AreInOrder};
ghost use Rattle.lease_model.specs.server.Grant.{connected_again};
ghost use Rattle.lease_model.specs.server.Naming.{key_of_open};
ghost use Rattle.lease_model.specs.server.Progress.{with_lease, with_opens};
ghost use Rattle.lease_model.specs.server.Attempt.{is_left_open};
ghost use Rattle.lease_model.specs.server.State.{Open, has_key, has_lease, is_breaking, no_lease};
ghost use Rattle.lease_model.specs.values.Keys.{Key};
ghost use Rattle.lease_model.specs.values.Lists.{without};
ghost use Rattle.lease_model.specs.values.Tables.{put, put_key};
ghost use Rattle.lease_manager.specs.Closing.{closes};
ghost use Rattle.lease_manager.specs.Filed.{disconnected_at, has_id};
ghost use Rattle.lease_manager.specs.LeftOpens.{ids_of, numbers};
ghost use Rattle.lease_manager.specs.Kept.{opened_with, HaveClosed, is_one_of, disconnected_where};
ghost use Rattle.lease_manager.specs.Leases.{lease_of};
ghost use Rattle.lease_manager.specs.StillWaiting.{HaveForgottenQueues};
ghost use Rattle.lease_manager.specs.Summaries.{Agrees, IsAtHome, lease_in};
ghost use Rattle.lease_manager.specs.Parting.{tag_numbers};
ghost use Rattle.lease_manager.specs.Queues.{all_without, queue_in};
ghost use Rattle.lease_manager.specs.Table.{client_gone, is_among, manager_of, queue_at, requests_gone, requeued, server_of};
ghost use Rattle.manager_model.specs.Handling.{is_left, is_of, is_under};

use crate::tables::Tables;
use crate::tables::opens::Opens;
use crate::tables::queues::Queues;
use crate::tables::still::{forget_files, forget_for, forget_home};
use crate::tables::summaries::Summaries;
use crate::tables::waiting::Waiting;
use crate::values::closing::Closing;
use crate::values::key::LeaseName;
use crate::values::lease::HeldLease;
use crate::values::number::{ClientNo, FileNo, Tag};
use crate::values::open::OpenEntry;
use crate::values::request::Held;
use lease_state::{FileId, Memory};
use std::alloc::Global;
use std::collections::BTreeSet;

impl Tables {
    /// The lease of a key that an open has becomes this one.
    ///
    /// # Errors
    ///
    /// `Memory` where there is none left for the file's summary; no open is left then.
    pub fn put_lease(&mut self, key: LeaseName, lease: HeldLease) -> Result<(), Memory>
        requires { has_lease (server_of self.old) key ≡ true }
        ensures changed { OnOk result (server_of self.new ≡ with_lease (server_of self.old) key (lease_of lease)) }
        ensures queues { OnOk result (self.new.queues ≡ self.old.queues) }
    {
        let alloc = self.alloc();
        let settled = keeps_settled(
            self.settled,
            &self.opens,
            &self.summaries,
            alloc,
            key,
            lease,
        );
        forget_home(&mut self.waiting, &self.summaries, key);
        match self.summaries.put(key, lease) {
            Ok(()) => {
                self.settled = settled;
                Ok(())
            }
            Err(memory) => {
                self.waiting.clear();
                forget_opens(&mut self.opens, &mut self.summaries, alloc);
                Err(memory)
            }
        }
    }

    /// Closes opens; with its last open a lease is gone (MS-SMB2 3.3.5.10). The FileIds of those that were closed.
    ///
    /// # Errors
    ///
    /// `Memory` where there is none left for the list of FileIds.
    #[tactic(auto)]
    pub fn close(&mut self, closing: Closing) -> Result<Vec<FileId>, Memory>
        ensures closed { OnOk result (server_of self.new ≡ with_opens (server_of self.old)
            (without (closes closing) (server_of self.old).opens)) }
        ensures ids { IfOk result (λ ids. numbers ids.items
            ≡ ids_of (filter (closes closing) (server_of self.old).opens)) }
        ensures queues { OnOk result (self.new.queues ≡ self.old.queues) }
        ensures in_order { AreInOrder (server_of self.old).opens }
    {
        let alloc = self.alloc();
        let ids = self.opens.closed(alloc, &closing, &self.summaries)?;
        if ids.is_empty() {
            return Ok(ids);
        }
        forget_files(&mut self.waiting, &self.opens, &ids);
        close_all(&mut self.opens, &mut self.summaries, &ids);
        Ok(ids)
    }

    /// The request waits on the file, after those that wait there.
    ///
    /// # Errors
    ///
    /// `Memory` where there is none left for the file's queue.
    pub fn hold(&mut self, file: FileNo, one: Held) -> Result<(), Memory>
        ensures { OnOk result (manager_of self.new ≡ requeued (manager_of self.old) file.0
            (queue_at self.old.queues file.0 ++ one ∷ [])) }
    {
        let alloc = self.alloc();
        self.queues.push(alloc, file, one)?;
        Ok(())
    }

    /// The request at this place of the file's queue no longer waits.
    pub fn release(&mut self, file: FileNo, place: usize)
        requires { place < length (queue_at self.old.queues file.0) }
        ensures { manager_of self.new ≡ requeued (manager_of self.old) file.0
            (remove (queue_at self.old.queues file.0) place) }
    {
        self.waiting.forget(file);
        self.queues.remove(file, place);
    }

    /// The requests of the client under the tag no longer wait on the file.
    pub fn withdraw(&mut self, file: FileNo, client: ClientNo, tag: Tag)
        ensures { manager_of self.new ≡ requeued (manager_of self.old) file.0
            (without (is_under client.0 tag.0) (queue_at self.old.queues file.0)) }
    {
        self.waiting.forget(file);
        self.queues.withdraw(file, client, tag);
    }

    /// The client's connection and its requests that wait are forgotten.
    ///
    /// # Errors
    ///
    /// `Memory` where there is none left for the list of files; nothing has changed then.
    pub fn forget(&mut self, client: ClientNo) -> Result<(), Memory>
        ensures { OnOk result (manager_of self.new ≡ client_gone client.0 (manager_of self.old)) }
    {
        let alloc = self.alloc();
        let files = self.queues.files(alloc)?;
        forget_connection(&mut self.present, client);
        forget_queues(&mut self.queues, &mut self.waiting, &files, client);
        Ok(())
    }

    /// The client's requests under these tags wait no longer, and the client stays connected.
    ///
    /// # Errors
    ///
    /// `Memory` where there is none left for the list of files; nothing has changed then.
    pub fn leave(&mut self, client: ClientNo, tags: &[Tag]) -> Result<(), Memory>
        ensures { OnOk result (manager_of self.new ≡ requests_gone (is_left client.0 (tag_numbers tags.now))
            (manager_of self.old)) }
    {
        let alloc = self.alloc();
        let files = self.queues.files(alloc)?;
        leave_queues(&mut self.queues, &mut self.waiting, &files, client, tags);
        Ok(())
    }

    /// The timer of the key ran out.
    ///
    /// # Errors
    ///
    /// `Memory` where there is none left for the set of such keys; nothing has changed then.
    pub fn expire(&mut self, key: LeaseName) -> Result<(), Memory>
        ensures changed { OnOk result (server_of self.new ≡ record (server_of self.old) {
          expired = put_key (server_of self.old).expired key true;
        }) }
        ensures queues { OnOk result (self.new.queues ≡ self.old.queues) }
    {
        self.expired.insert(self.alloc, key.client, key.bytes)
    }

    /// The FileId given last; 0 before the first.
    pub fn last_id(&self) -> u64
        ensures { result ≡ (server_of self.now).last_id }
    {
        self.last_id
    }

    /// One more open, whose client is there, whose FileId comes after that given last, and whose key has no open on another
    /// file. The lease of its key becomes this one.
    ///
    /// # Errors
    ///
    /// `Memory` where there is none left; no open is left then.
    pub fn open(&mut self, one: OpenEntry, lease: HeldLease) -> Result<(), Memory>
        requires here { one.connected ≡ true }
        requires next { (server_of self.old).last_id < one.file_id }
        requires home { IsAtHome (key_of_open one) one.file (server_of self.old).opens }
        ensures changed { OnOk result (server_of self.new ≡ opened_with (server_of self.old) one (lease_of lease)) }
        ensures queues { OnOk result (self.new.queues ≡ self.old.queues) }
    {
        let alloc = self.alloc();
        let settled = opens_settled(
            self.settled,
            &self.opens,
            &self.summaries,
            alloc,
            &one,
            lease,
        );
        forget_for(&mut self.waiting, &self.queues, &one);
        self.last_id = one.file_id.0;
        match add(&mut self.opens, &mut self.summaries, alloc, one, lease) {
            Ok(()) => {
                self.settled = settled;
                Ok(())
            }
            Err(memory) => {
                self.waiting.clear();
                forget_opens(&mut self.opens, &mut self.summaries, alloc);
                Err(memory)
            }
        }
    }

    /// This FileId was given last, where none after it was.
    pub fn raise_last_id(&mut self, last: FileId)
        requires { (server_of self.old).last_id ≤ last.0 }
        ensures changed { server_of self.new ≡ record (server_of self.old) { last_id = last.0 } }
        ensures queues { self.new.queues ≡ self.old.queues }
    {
        self.last_id = last.0;
    }

    /// The open of this FileId waits for its client. No lease is breaking.
    ///
    /// # Errors
    ///
    /// `Memory` where there is none left for it; no open is left then.
    pub fn disconnect(&mut self, fid: FileId) -> Result<(), Memory>
        requires unbroken { (key : Key) → is_breaking ((server_of self.old).leases key) ≡ false }
        ensures changed { OnOk result (server_of self.new ≡ record (server_of self.old) {
          opens = map (disconnected_at fid.0) (server_of self.old).opens;
        }) }
        ensures queues { OnOk result (self.new.queues ≡ self.old.queues) }
    {
        let alloc = self.alloc();
        self.waiting.clear();
        match self.opens.disconnect(alloc, fid) {
            Ok(()) => Ok(()),
            Err(memory) => {
                forget_opens(&mut self.opens, &mut self.summaries, alloc);
                Err(memory)
            }
        }
    }

    /// The open of this FileId is connected again.
    ///
    /// # Errors
    ///
    /// `Memory` where there is none left for it; nothing has changed then.
    pub fn connect_again(&mut self, fid: FileId) -> Result<(), Memory>
        ensures changed { OnOk result (server_of self.new ≡ record (server_of self.old) {
          opens = map (connected_again fid.0) (server_of self.old).opens;
        }) }
        ensures queues { OnOk result (self.new.queues ≡ self.old.queues) }
    {
        let alloc = self.alloc();
        self.opens.connect_again(alloc, fid)?;
        self.waiting.clear();
        Ok(())
    }
}

/// No open is left: so a call ends that finds no memory, and after which its manager forgets all.
// docs/DECISIONS.md: "No memory within a call of the server".
pub fn forget_opens(opens: &mut Opens, summaries: &mut Summaries, alloc: Global)
    ensures opens { opens.new ≡ [] }
    ensures agrees { Agrees summaries.new [] }
{
    *opens = Opens::new(alloc);
    *summaries = Summaries::new(alloc);
}

/// The opens of these FileIds are no longer connected.
pub fn disconnect_all(opens: &mut Opens, alloc: Global, ids: &[FileId]) -> Result<(), Memory>
    ensures { OnOk result (opens.new ≡ map (disconnected_where (is_one_of (map (λ id. id.0) ids.now))) opens.old) }
{
    for id in ids {
        opens.disconnect(alloc, *id)?;
    }
    Ok(())
}

/// Closes the opens of these FileIds.
pub fn close_all(opens: &mut Opens, summaries: &mut Summaries, ids: &[FileId])
    ensures { Agrees summaries.old opens.old
        → HaveClosed opens.old (map (λ id. id.0) ids.now) summaries.old opens.new summaries.new }
{
    for id in ids {
        close_one(opens, summaries, *id);
    }
}

// Closes the open of this FileId, if there is one.
fn close_one(opens: &mut Opens, summaries: &mut Summaries, id: FileId)
    ensures opens { opens.new ≡ without (has_id id.0) opens.old }
    ensures agrees { Agrees summaries.old opens.old → Agrees summaries.new opens.new }
    ensures leases { Agrees summaries.old opens.old → (key : Key) → lease_in summaries.new key
        ≡ (if list_any (has_key key) opens.new then lease_in summaries.old key else no_lease) }
{
    match opens.take(id) {
        Some(one) => summaries.lose(&one),
        None => {}
    }
}

// Adds an open, with the lease of its key.
fn add(
    opens: &mut Opens,
    summaries: &mut Summaries,
    alloc: Global,
    one: OpenEntry,
    lease: HeldLease,
) -> Result<(), Memory>
    requires here { one.connected ≡ true }
    requires last { (other : Open) → Among other opens.old → other.file_id < one.file_id }
    ensures opens { OnOk result (opens.new ≡ opens.old ++ one ∷ []) }
    ensures agrees { OnOk result (IsAtHome (key_of_open one) one.file opens.old → Agrees summaries.old opens.old
        → Agrees summaries.new opens.new) }
    ensures leases { OnOk result ((key : Key) → lease_in summaries.new key
        ≡ (if has_key key one then lease_of lease else lease_in summaries.old key)) }
{
    // So no count of them reaches its end.
    let count = opens.len();
    prove!(count < usize::MAX);
    summaries.gain(alloc, &one, lease)?;
    opens.push(alloc, one)?;
    Ok(())
}

// The requests of the client no longer wait on these files.
fn forget_queues(queues: &mut Queues, waiting: &mut Waiting, files: &[FileNo], client: ClientNo)
    ensures gone { all_without (is_of client.0) (map (λ file. file.0) files.now) (queue_in queues.old) ≡ queue_in queues.new }
    ensures known { HaveForgottenQueues (queue_in queues.old) (queue_in queues.new) waiting.old waiting.new }
{
    for file in files {
        forget_queue(queues, waiting, *file, client);
    }
}

// The same on one file. Where none of them waits, what is known of the others stays.
fn forget_queue(queues: &mut Queues, waiting: &mut Waiting, file: FileNo, client: ClientNo)
    ensures gone { (other : ℕ) → queue_in queues.new other
        ≡ (if other == file.0 then without (is_of client.0) (queue_in queues.old file.0) else queue_in queues.old other) }
    ensures known { HaveForgottenQueues (queue_in queues.old) (queue_in queues.new) waiting.old waiting.new }
{
    if queues.has_of(file, client) {
        waiting.forget(file);
    }
    queues.forget(file, client);
}

// The requests of the client under these tags no longer wait on these files.
fn leave_queues(
    queues: &mut Queues,
    waiting: &mut Waiting,
    files: &[FileNo],
    client: ClientNo,
    tags: &[Tag],
)
    ensures gone { all_without (is_left client.0 (tag_numbers tags.now)) (map (λ file. file.0) files.now) (queue_in queues.old)
        ≡ queue_in queues.new }
    ensures known { HaveForgottenQueues (queue_in queues.old) (queue_in queues.new) waiting.old waiting.new }
{
    for file in files {
        leave_queue(queues, waiting, *file, client, tags);
    }
}

// Whether it stays known that no open of a lease that is breaking is left to be closed, where the lease of the key becomes
// this one.
fn keeps_settled(
    known: bool,
    opens: &Opens,
    summaries: &Summaries,
    alloc: Global,
    key: LeaseName,
    lease: HeldLease,
) -> bool
    requires { Agrees summaries.now opens.now }
    ensures known { result ≡ true → known ≡ true }
    ensures none { result ≡ true → is_breaking (lease_of lease) ≡ true → list_any (is_left_open key) opens.now ≡ false }
{
    if !known {
        return false;
    }
    if !lease.is_breaking() {
        return true;
    }
    match opens.closed(alloc, &Closing::LeftOf(key), summaries) {
        Ok(left) => left.is_empty(),
        Err(_) => false,
    }
}

// The same where an open comes, the lease of whose key becomes this one.
fn opens_settled(
    known: bool,
    opens: &Opens,
    summaries: &Summaries,
    alloc: Global,
    one: &OpenEntry,
    lease: HeldLease,
) -> bool
    requires { Agrees summaries.now opens.now }
    ensures known { result ≡ true → known ≡ true }
    ensures none { result ≡ true → (key : Key) → has_key key one.now ≡ true → is_breaking (lease_of lease) ≡ true
        → list_any (is_left_open key) opens.now ≡ false }
{
    match one.key() {
        Some(key) => keeps_settled(known, opens, summaries, alloc, key, lease),
        None => known,
    }
}

// The same on one file. Where the client has no request, what is known of the others stays.
fn leave_queue(
    queues: &mut Queues,
    waiting: &mut Waiting,
    file: FileNo,
    client: ClientNo,
    tags: &[Tag],
)
    ensures gone { (other : ℕ) → queue_in queues.new other ≡ (if other == file.0
        then without (is_left client.0 (tag_numbers tags.now)) (queue_in queues.old file.0) else queue_in queues.old other) }
    ensures known { HaveForgottenQueues (queue_in queues.old) (queue_in queues.new) waiting.old waiting.new }
{
    if queues.has_of(file, client) {
        waiting.forget(file);
        queues.leave(file, client, tags);
    }
}

// The client is no longer connected.
fn forget_connection(present: &mut BTreeSet<ClientNo>, client: ClientNo)
    ensures { (n : ℕ) → is_among present.new.keys n ≡ put (is_among present.old.keys) client.0 false n }
{
    present.remove(&client);
}
