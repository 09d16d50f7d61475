ghost use Rattle.std.specs.Prelude.{◌≡◌, ◌==◌, true, false, [], Some, None, IsOk, OnOk, length, map};
ghost use Rattle.std.specs.List.{list_any};
ghost use Rattle.lease_manager.specs.Queues.{file_numbers};
ghost use Rattle.waiting_changes.specs.Changes.{asks_as, request_of};
ghost use Rattle.break_timers.specs.Numbering.{noted_all, numbers_told};
ghost use Rattle.break_timers.specs.Timers.{timers_of};
ghost use Rattle.lease_state.specs.State.{state_of};
ghost use Rattle.std.specs.Option.{option_map};
ghost use Rattle.lease_model.specs.server.Naming.{key_of, key_under};
ghost use Rattle.lease_manager.specs.GivingUp.{extent_of};
ghost use Rattle.lease_manager.specs.LeftOpens.{numbers};
ghost use Rattle.lease_manager.specs.Parting.{tag_numbers};
ghost use Rattle.lease_manager.specs.Outs.{decisions};
ghost use Rattle.lease_manager.specs.Requests.{request_like};
ghost use Rattle.lease_manager.specs.Table.{manager_of};
ghost use Rattle.manager_model.specs.Handling as rules;
ghost use Rattle.machines_c.specs.manager.About.{at, at_key, at_open, if_left, if_present, listed, nowhere};
ghost use Rattle.machines_c.specs.manager.Asked.{is_present, is_absent, is_settled, is_gone, is_answered, is_over};
ghost use Rattle.machines_c.specs.manager.Calls.{Asked, ChangeAsked, Cut, Ended, Expired, Handled, IsTriedAfter, Left};
ghost use Rattle.machines_c.specs.manager.Calls.{RunOut, Withdrawn};
ghost use Rattle.machines_c.specs.manager.Coming.{Came, is_idle};
ghost use Rattle.machines_c.specs.manager.Fields.{number_field};

use crate::manager::coming::Coming;
use crate::manager::listed::Listed;
use crate::manager::numbering::note_all;
use break_timers::{BreakNo, BreakTimers};
use lease_manager::{Ask, ClientNo, Decision, Extent, FileNo, LeaseName, Manager, Tag};
use lease_state::{FileId, LeaseKey, LeaseState, Memory};
use std::alloc::Global;
use waiting_changes::{Change, WaitingChanges};

/// A manager, the changes that wait, the decisions of its last call, the timers of breaks, and what was listed since.
#[derive(Debug, Drop)]
pub struct Managing {
    pub manager: Manager,
    pub changes: WaitingChanges,
    pub decisions: Vec<Decision>,
    pub timers: BreakTimers,
    /// Of each decision, the number of the timer that it starts, or 0.
    pub numbers: Vec<u64>,
    pub listed: Listed,
}

impl Managing {
    // Timers start and stop as the decisions of the call say.
    fn note(&mut self) -> Result<(), Memory>
        ensures timers { OnOk result
            (timers_of self.new.timers ≡ noted_all (decisions self.old.decisions.items) (timers_of self.old.timers)) }
        ensures numbers { OnOk result (self.new.numbers.items
            ≡ map number_field (numbers_told (decisions self.old.decisions.items) (timers_of self.old.timers))) }
        ensures same { OnOk result ((self.new.manager ≡ self.old.manager) × (self.new.changes ≡ self.old.changes)
            × (self.new.decisions ≡ self.old.decisions) × (self.new.listed ≡ self.old.listed)) }
        ensures silent { decisions self.old.decisions.items ≡ [] → IsOk result }
    {
        self.numbers.clear();
        note_all(&mut self.timers, &self.decisions, &mut self.numbers)
    }

    // What waits is tried again after a call that was about these files, and then timers start and stop as all decisions say.
    fn finish(&mut self, request: Option<(ClientNo, Tag)>, files: &[FileNo]) -> Result<(), Memory>
        ensures after { OnOk result (IsTriedAfter (option_map request_of request) (file_numbers files.now) self.old self.new) }
        ensures silent { files.now ≡ [] → decisions self.old.decisions.items ≡ [] → IsOk result }
    {
        if self.is_about_changes(files) {
            self.changes
                .try_again(&mut self.manager, request, files, &mut self.decisions)?;
        }
        self.note()
    }

    // Whether a change waits, and may go on by a call that was about these files.
    fn is_about_changes(&self, files: &[FileNo]) -> bool
        ensures waits { result ≡ false → (length self.now.changes == 0) ≡ false
            → (files.now ≡ []) × (decisions self.now.decisions.items ≡ []) }
        ensures idle { files.now ≡ [] → decisions self.now.decisions.items ≡ [] → result ≡ false }
    {
        !self.changes.is_empty() && !(files.is_empty() && self.decisions.is_empty())
    }

    // The same on one file, or on none.
    fn finish_on(
        &mut self,
        request: Option<(ClientNo, Tag)>,
        file: Option<FileNo>,
    ) -> Result<(), Memory>
        ensures after { OnOk result (IsTriedAfter (option_map request_of request) (listed file) self.old self.new) }
        ensures silent { file ≡ None → decisions self.old.decisions.items ≡ [] → IsOk result }
    {
        match file {
            Some(file) => self.finish(request, &[file]),
            None => self.finish(request, &[]),
        }
    }

    /// Something comes.
    pub(crate) fn call(&mut self, alloc: Global, coming: Coming) -> Result<(), Memory>
        ensures after { OnOk result (Came coming self.old self.new) }
        ensures idle { is_idle coming self.old ≡ true → IsOk result }
    {
        match coming {
            Coming::Joins(client) => self.join(alloc, client),
            Coming::Asks(client, tag, ask) => self.ask(alloc, client, tag, ask),
            Coming::Acknowledges(client, key, state) => self.acknowledge(alloc, client, key, state),
            Coming::IsMalformed(client) => self.acknowledge_malformed(alloc, client),
            Coming::IsCut(client) => self.cut(alloc, client),
            Coming::Expires(client, key) => self.expire(alloc, client, key),
            Coming::RunsOut(number) => self.run_out(alloc, number),
            Coming::Scavenges(fid) => self.scavenge(alloc, fid),
            Coming::Withdraws(file, client, tag) => self.withdraw(alloc, file, client, tag),
            Coming::GivesUp(client, key, file, extent) => {
                self.give_up(alloc, client, key, file, extent)
            }
            Coming::Changes(one) => self.change(alloc, one),
        }
    }

    // A client connects.
    fn join(&mut self, alloc: Global, client: ClientNo) -> Result<(), Memory>
        ensures after { OnOk result (Handled nowhere (λ one. rules.join one client.0) self.old self.new) }
        ensures idle { is_present client.0 (manager_of self.old.manager) ≡ true → IsOk result }
    {
        self.listed = Listed::nothing(alloc);
        self.decisions = Vec::new(alloc);
        self.manager.join(client)?;
        self.finish_on(None, None)
    }

    // A client asks something of a file, under a tag.
    fn ask(&mut self, alloc: Global, client: ClientNo, tag: Tag, ask: Ask) -> Result<(), Memory>
        ensures after { OnOk result (Asked client.0 tag.0 (request_like ask) self.old self.new) }
        ensures idle { is_absent client.0 (manager_of self.old.manager) ≡ true → IsOk result }
    {
        let file = self.file_closed(client, ask);
        self.listed = Listed::nothing(alloc);
        self.manager.ask(client, tag, ask, &mut self.decisions)?;
        self.finish_on(Some((client, tag)), file)
    }

    // A client acknowledges a break of its lease of this key, with this state.
    fn acknowledge(
        &mut self,
        alloc: Global,
        client: ClientNo,
        key: LeaseKey,
        state: LeaseState,
    ) -> Result<(), Memory>
        ensures after { OnOk result (Handled (if_present client.0 (at_key (key_of client.0 key.0)))
            (λ one. rules.acknowledge one client.0 (Some (record { key = key.0; state = state_of state })))
            self.old self.new) }
        ensures idle { is_absent client.0 (manager_of self.old.manager) ≡ true → IsOk result }
    {
        let file = self.file_acknowledged(client, key);
        self.listed = Listed::nothing(alloc);
        self.manager
            .acknowledge(client, key, state, &mut self.decisions)?;
        self.finish_on(None, file)
    }

    // A client sends an acknowledgment that can't be read.
    fn acknowledge_malformed(&mut self, alloc: Global, client: ClientNo) -> Result<(), Memory>
        ensures after { OnOk result (Handled nowhere (λ one. rules.acknowledge one client.0 None) self.old self.new) }
        ensures idle { is_absent client.0 (manager_of self.old.manager) ≡ true → IsOk result }
    {
        self.listed = Listed::nothing(alloc);
        self.manager
            .acknowledge_malformed(client, &mut self.decisions)?;
        self.finish_on(None, None)
    }

    // A client's connection is lost.
    fn cut(&mut self, alloc: Global, client: ClientNo) -> Result<(), Memory>
        ensures after { OnOk result (Cut client.0 self.old self.new) }
        ensures idle { is_absent client.0 (manager_of self.old.manager) ≡ true → IsOk result }
    {
        let files = self.files_opened(alloc, client)?;
        self.listed = Listed::nothing(alloc);
        self.changes.forget(client);
        self.manager.cut(client, &mut self.decisions)?;
        self.finish(None, &files)
    }

    // The timer of the break of a client's lease runs out.
    fn expire(&mut self, alloc: Global, client: ClientNo, key: LeaseKey) -> Result<(), Memory>
        ensures after { OnOk result (Expired (key_of client.0 key.0) self.old self.new) }
        ensures idle { is_settled client.0 key.0 (manager_of self.old.manager) ≡ true → IsOk result }
    {
        let file = self.file_breaking(client, key);
        self.listed = Listed::nothing(alloc);
        self.timers.stop(LeaseName { client, bytes: key });
        self.manager.expire(client, key, &mut self.decisions)?;
        self.finish_on(None, file)
    }

    // The timer of this number, of a break, runs out.
    fn run_out(&mut self, alloc: Global, number: BreakNo) -> Result<(), Memory>
        ensures after { OnOk result (RunOut number.0 self.old self.new) }
        ensures idle { is_over number.0 (timers_of self.old.timers) (manager_of self.old.manager) ≡ true → IsOk result }
    {
        match self.timers.run_out(number) {
            Some(key) => self.end(alloc, key),
            None => {
                self.listed = Listed::nothing(alloc);
                self.decisions.clear();
                self.finish_on(None, None)
            }
        }
    }

    // The break of this lease ends, whose timer is gone.
    fn end(&mut self, alloc: Global, key: LeaseName) -> Result<(), Memory>
        ensures after { OnOk result (Ended key self.old self.new) }
        ensures idle { is_settled key.client key.bytes (manager_of self.old.manager) ≡ true → IsOk result }
    {
        let file = self.file_breaking(key.client, key.bytes);
        self.listed = Listed::nothing(alloc);
        self.manager
            .expire(key.client, key.bytes, &mut self.decisions)?;
        self.finish_on(None, file)
    }

    // The timer of a durable open runs out.
    fn scavenge(&mut self, alloc: Global, fid: FileId) -> Result<(), Memory>
        ensures after { OnOk result (Handled (if_left fid.0 (at_open fid.0)) (λ one. rules.scavenge one fid.0)
            self.old self.new) }
        ensures idle { is_gone fid.0 (manager_of self.old.manager) ≡ true → IsOk result }
    {
        let file = self.file_left(fid);
        self.listed = Listed::nothing(alloc);
        self.manager.scavenge(fid, &mut self.decisions)?;
        self.finish_on(None, file)
    }

    // What waits on the file under the tag is taken back.
    fn withdraw(
        &mut self,
        alloc: Global,
        file: FileNo,
        client: ClientNo,
        tag: Tag,
    ) -> Result<(), Memory>
        ensures after { OnOk result (Withdrawn file.0 client.0 tag.0 self.old self.new) }
        ensures idle { is_answered client.0 tag.0 file.0 (manager_of self.old.manager) ≡ true
            → list_any (asks_as file.0 client.0 tag.0) self.old.changes ≡ false → IsOk result }
    {
        let waited_on = self.file_waited_on(file, client, tag);
        self.listed = Listed::nothing(alloc);
        self.manager
            .withdraw(file, client, tag, &mut self.decisions)?;
        if self.changes.is_waiting(file, client, tag) {
            self.changes.withdraw(file, client, tag);
            self.decisions.push(Decision::Withdrawn { client, tag })?;
        }
        self.finish_on(None, waited_on)
    }

    // Other keys on a file are to give up what they hold.
    fn give_up(
        &mut self,
        alloc: Global,
        client: ClientNo,
        key: Option<LeaseKey>,
        file: FileNo,
        extent: Extent,
    ) -> Result<(), Memory>
        ensures { OnOk result (Handled (at file.0) (λ one. rules.give_up one
            (key_under client.0 (option_map (λ bytes. bytes.0) key)) file.0 (extent_of extent)) self.old self.new) }
    {
        self.listed = Listed::nothing(alloc);
        self.manager
            .give_up(client, key, file, extent, &mut self.decisions)?;
        self.finish_on(None, Some(file))
    }

    // A change is asked for that no open of a client asks for.
    fn change(&mut self, alloc: Global, one: Change) -> Result<(), Memory>
        ensures { OnOk result (ChangeAsked one self.old self.new) }
    {
        self.listed = Listed::nothing(alloc);
        self.changes
            .change(&mut self.manager, one, &mut self.decisions)?;
        self.note()
    }

    /// A client leaves some of its opens, and what it asked under these tags.
    pub(crate) fn leave(
        &mut self,
        alloc: Global,
        client: ClientNo,
        file_ids: &[FileId],
        tags: &[Tag],
    ) -> Result<(), Memory>
        ensures after { OnOk result (Left client.0 (numbers file_ids.now) (tag_numbers tags.now) self.old self.new) }
        ensures idle { is_absent client.0 (manager_of self.old.manager) ≡ true → IsOk result }
    {
        let files = self.files_opened(alloc, client)?;
        self.listed = Listed::nothing(alloc);
        self.changes.leave(client, tags);
        self.manager
            .leave(client, file_ids, tags, &mut self.decisions)?;
        self.finish(None, &files)
    }
}
