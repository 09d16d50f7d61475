ghost use Rattle.std.specs.Prelude.{◌≡◌, ℕ, true, false, IfOk, OnOk, List, Some, map};
ghost use Rattle.std.specs.Option.{option_map};
ghost use Rattle.lease_model.specs.messages.Requests.{FileRequest};
ghost use Rattle.lease_model.specs.server.Findings.{is_leased_elsewhere};
ghost use Rattle.lease_model.specs.server.Naming.{own_key};
ghost use Rattle.std.specs.List.{list_all, list_any};
ghost use Rattle.lease_model.specs.server.Ready.{is_ready};
ghost use Rattle.lease_model.specs.server.State.{Open, has_key};
ghost use Rattle.lease_manager.specs.Filed.{has_id};
ghost use Rattle.lease_manager.specs.Kept.{is_one_of};
ghost use Rattle.lease_manager.specs.OneFile.{on_file, IsOnlyAbout};
ghost use Rattle.lease_manager.specs.Queues.{filed};
ghost use Rattle.lease_manager.specs.Requests.{ask_of, lease_asked, request_like};
ghost use Rattle.lease_manager.specs.StillWaiting.{WaitStill, StaysAt, IsTriedInVain, HasOnlyToWait, OnlyWaits, is_under_way};
ghost use Rattle.lease_manager.specs.StillWaiting.{AreHandlesGoing, AwaitsHandles, HaveForgotten, HaveForgottenFor};
ghost use Rattle.lease_manager.specs.Summaries.{Agrees};
ghost use Rattle.lease_manager.specs.Table.{held_at, server_of};

use crate::requests::attempt::must_wait;
use crate::requests::finding::Finding;
use crate::tables::Tables;
use crate::tables::opens::Opens;
use crate::tables::queues::Queues;
use crate::tables::summaries::Summaries;
use crate::tables::waiting::Waiting;
use crate::values::closing::Closing;
use crate::values::key::LeaseName;
use crate::values::number::{ClientNo, FileNo};
use crate::values::open::OpenEntry;
use crate::values::request::{Ask, CreateAsk, key_asked};
use crate::values::want::{Want, Wish};
use lease_state::{Access, FileId, Memory, Share};

impl Tables {
    /// How many requests at the front of the file's queue are known to wait still.
    pub fn still(&self, file: FileNo) -> usize
        ensures { WaitStill (server_of self.now) file.0 result }
    {
        if self.held(file).len() == 0 {
            return 0;
        }
        self.waiting.count(file)
    }

    /// The request at this place of the file's queue waits still: where all before it are known to, it
    /// is counted.
    ///
    /// # Errors
    ///
    /// `Memory` where there is none left for the file's count.
    pub fn count_still(&mut self, file: FileNo, place: usize) -> Result<(), Memory>
        requires { StaysAt (server_of self.old) file.0 ((server_of self.old).held file.0) place }
        ensures { OnOk result (self.new ≡ self.old) }
    {
        if self.waiting.count(file) == place && place < self.held(file).len() {
            self.waiting.put(file, place + 1)?;
        }
        Ok(())
    }

    /// Whether the request sees no other file, and all that it wants is under way, so that a try of it
    /// would change nothing.
    ///
    /// # Errors
    ///
    /// `Memory` where there is none left for the list of leases.
    pub fn has_only_to_wait(&self, file: FileNo, client: ClientNo, ask: Ask) -> Result<bool, Memory>
        ensures waits { IfOk result (λ waits. waits ≡ true
            → HasOnlyToWait (server_of self.now) file.0 client.0 (request_like ask)) }
        ensures about { IfOk result (λ waits. waits ≡ true
            → IsOnlyAbout (server_of self.now) file.0 client.0 (request_like ask)) }
        ensures vain { IfOk result (λ waits. waits ≡ true
            → IsTriedInVain (server_of self.now) client.0 (request_like ask)) }
    {
        // The invariant, by which no key without an open has a lease, is known of what is looked at.
        let _ = &self.summaries;
        if !self.is_only_about(file, client, ask) {
            return Ok(false);
        }
        if self.awaits_handles(client, ask) {
            return Ok(true);
        }
        match self.finding(client, ask)? {
            Finding::Fails(_) | Finding::Ready(_) => Ok(false),
            Finding::Needs(wants) => {
                let waits = self.only_wait(file, ask, &wants)?;
                Ok(waits)
            }
        }
    }

    // Whether it is a create of the file, whose key has no open on another, or a write by an open on it.
    fn is_only_about(&self, file: FileNo, client: ClientNo, ask: Ask) -> bool
        ensures { result ≡ true → IsOnlyAbout (server_of self.now) file.0 client.0 (request_like ask) }
    {
        match ask {
            Ask::Create {
                file: other,
                ask,
                ..
            } => { other == file && !self.is_leased_elsewhere(key_asked(client, ask.lease), file) }
            Ask::Write { fid, .. } => {
                match self.open_file(client, fid) {
                    Some(other) => other == file,
                    None => false,
                }
            }
            Ask::Read { .. } | Ask::Close { .. } => false,
        }
    }

    // Whether it is a create that handles of other keys are in the way of, where all of them on its file are being given up.
    // So an acknowledgment of one break of many takes no look at the others.
    fn awaits_handles(&self, client: ClientNo, ask: Ask) -> bool
        ensures { result ≡ true → (file : ℕ) → IsOnlyAbout (server_of self.now) file client.0 (request_like ask)
            → HasOnlyToWait (server_of self.now) file client.0 (request_like ask) }
    {
        match ask {
            Ask::Create {
                file,
                access,
                share,
                ask,
            } => self.create_awaits_handles(client, file, access, share, ask),
            Ask::Read { .. } | Ask::Write { .. } | Ask::Close { .. } => false,
        }
    }

    fn create_awaits_handles(
        &self,
        client: ClientNo,
        file: FileNo,
        access: Access,
        share: Share,
        ask: CreateAsk,
    ) -> bool
        ensures { result ≡ true
            → is_leased_elsewhere (server_of self.now) (own_key client.0 (option_map lease_asked ask.lease)) file.0 ≡ false
            → HasOnlyToWait (server_of self.now) file.0 client.0 (FileRequest.Create file.0 access share (Some (ask_of ask))) }
    {
        if !self.has_file(file) {
            return false;
        }
        match ask.reconnect {
            Some(_) => false,
            None => self.are_handles_awaited(key_asked(client, ask.lease), file, access, share),
        }
    }

    // Whether handles of other keys are in the way of a create, and all of them on the file are being given up.
    fn are_handles_awaited(
        &self,
        own: Option<LeaseName>,
        file: FileNo,
        access: Access,
        share: Share,
    ) -> bool
        ensures { result ≡ true → AwaitsHandles (server_of self.now) own file.0 access share }
    {
        // Each call is given a copy of its own, for the borrow checker.
        let key = own;
        if !self.are_handles_going(own, file) {
            return false;
        }
        self.is_any_wanted(Wish::NoHandles { access, share }, key, file)
    }

    // Whether each lease of another key on the file that holds `HANDLE_CACHING` is breaking, and no open of such a lease is
    // left to be closed.
    fn are_handles_going(&self, own: Option<LeaseName>, file: FileNo) -> bool
        ensures { result ≡ true → AreHandlesGoing (server_of self.now) own file.0 }
    {
        // The invariant, which says what is known of opens that are left, is known of what is looked at.
        let _ = &self.summaries;
        if !self.settled {
            return false;
        }
        self.summaries.are_handlers_breaking(own, file)
    }

    // Whether a request that can't be answered has to wait for some of its wants, and all of them are
    // under way.
    fn only_wait(&self, file: FileNo, ask: Ask, wants: &[Want]) -> Result<bool, Memory>
        requires { is_ready (request_like ask) (server_of self.now).leases wants.now ≡ false }
        ensures { IfOk result (λ waits. waits ≡ true
            → OnlyWaits (server_of self.now) file.0 (request_like ask) wants.now) }
    {
        if !must_wait(self, ask, wants) {
            return Ok(false);
        }
        self.are_under_way(file, wants)
    }

    fn are_under_way(&self, file: FileNo, wants: &[Want]) -> Result<bool, Memory>
        ensures { IfOk result (λ all. all
            ≡ list_all (λ want. is_under_way (server_of self.now) file.0 want.key) wants.now) }
    {
        for want in wants {
            if !self.is_under_way(file, want.key)? {
                return Ok(false);
            }
        }
        Ok(true)
    }

    // Whether nothing more can be done at once to the lease of the key, which has an open on the file: it
    // is breaking, and none of its opens is left to be closed.
    fn is_under_way(&self, file: FileNo, key: LeaseName) -> Result<bool, Memory>
        ensures { IfOk result (λ is. is ≡ is_under_way (server_of self.now) file.0 key) }
    {
        if !self.lease(key).is_breaking() {
            return Ok(false);
        }
        let left = self
            .opens
            .closed(self.alloc(), &Closing::LeftOf(key), &self.summaries)?;
        if left.is_empty() {
            Ok(self.is_at_home(file, key))
        } else {
            Ok(false)
        }
    }

    // Whether the key has an open on the file.
    fn is_at_home(&self, file: FileNo, key: LeaseName) -> bool
        ensures { result ≡ list_any (has_key key) (on_file file.0 (server_of self.now).opens) }
    {
        let _ = &self.summaries;
        if !self.has_lease(key) {
            return false;
        }
        !self.is_leased_elsewhere(Some(key), file)
    }
}

/// What is known of the file of the key's opens is forgotten.
pub fn forget_home(waiting: &mut Waiting, summaries: &Summaries, key: LeaseName)
    ensures { (opens : List Open) → Agrees summaries.now opens
        → HaveForgotten (has_key key) opens waiting.old waiting.new }
{
    if waiting.is_empty() {
        return;
    }
    match summaries.home(key) {
        Some(file) => waiting.forget(file),
        None => {}
    }
}

/// What is known of the files of these opens is forgotten.
pub fn forget_files(waiting: &mut Waiting, opens: &Opens, ids: &[FileId])
    ensures { HaveForgotten (is_one_of (map (λ id. id.0) ids.now)) opens.now waiting.old waiting.new }
{
    if waiting.is_empty() {
        return;
    }
    for id in ids {
        forget_file_of(waiting, opens, *id);
    }
}

fn forget_file_of(waiting: &mut Waiting, opens: &Opens, id: FileId)
    ensures { HaveForgotten (has_id id.0) opens.now waiting.old waiting.new }
{
    match opens.find(id) {
        Some(one) => waiting.forget(one.file),
        None => {}
    }
}

/// What is known of the file of an open that comes is forgotten, and, where a create of any file is held
/// under its key, what is known of all.
pub fn forget_for(waiting: &mut Waiting, queues: &Queues, one: &OpenEntry)
    ensures { HaveForgottenFor one.now (held_at (filed queues.now)) waiting.old waiting.new }
{
    waiting.forget(one.file);
    if waiting.is_empty() {
        return;
    }
    if queues.ask_with(one) {
        waiting.clear();
    }
}
