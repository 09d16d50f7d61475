ghost use Rattle.std.specs.Prelude.{◌≡◌, ◌==◌, ◌+◌, true, Some, IfOk, OnOk, IsOk, None, [], ◌∷◌, false, List};
ghost use Rattle.lease_model.specs.client.Commanded.{has_unanswered, written_turn, one_handle_less};
ghost use Rattle.lease_model.specs.values.Patches.{is_within_limit};
ghost use Rattle.lease_model.specs.client.Step.{turn_of};
ghost use Rattle.lease_model.specs.client.State.{live_entry, Pending};
ghost use Rattle.lease_model.specs.client.Commanded as rules;
ghost use Rattle.lease_model.specs.client.Commands as model;
ghost use Rattle.lease_client.specs.Answers.{command_of};
ghost use Rattle.lease_client.specs.Ended.{is_ended_by_close};
ghost use Rattle.lease_client.specs.Turns.{turned_to, turn_written};

use crate::entry::handles::Handles;
use crate::entry::turn::Given;
use crate::entry::{Entry, Live, Pending, Phase};
use crate::requests::Terms;
use crate::values::command::{Answer, Command, Refusal};
use crate::values::note::Note;
use crate::values::shared_bytes::SharedBytes;
use crate::writes::queue::Writes;
use lease_state::{FileNo, LeaseKey, Memory, Patch, Request};

impl Entry {
    /// A command on the entry's file, whose key this is. A Write takes the next number of the client.
    ///
    /// # Errors
    ///
    /// `Memory` where there is none left, and never where the command is refused.
    pub fn commanded(
        &mut self,
        is_online: bool,
        key: LeaseKey,
        last_number: &mut u64,
        command: Command,
        given: &mut Given,
    ) -> Result<(), Memory>
        ensures turn { OnOk result (turned_to self.new given.new ≡ turn_written
            (rules.commanded_turn is_online key.0 last_number.old (command_of command) self.old)) }
        ensures number { OnOk result (last_number.new
            ≡ rules.last_after is_online key.0 last_number.old (command_of command) self.old) }
        ensures refused { rules.is_refused
            (rules.commanded_turn is_online key.0 last_number.old (command_of command) self.old).answer ≡ true
            → IsOk result }
    {
        match command {
            Command::Open {
                file,
                access,
                share,
                want,
                durable,
            } => {
                let terms = Terms {
                    access,
                    share,
                    want,
                    durable,
                };
                self.open(is_online, file, key, terms, given)
            }
            Command::Close { .. } => self.close(given),
            Command::Read { file } => self.read(file, given),
            Command::Write { file, patch } => self.write(file, last_number, patch, given),
            Command::Flush { .. } => self.flush(given),
        }
    }

    /// A Close: one handle less (profile).
    ///
    /// # Errors
    ///
    /// `Memory` where there is none left for what is sent, and never where the Close is refused.
    #[tactic(auto, unfolding(lease_model::specs::client::Commanded::close_turn, lease_model::specs::client::Commanded::last_close_turn))]
    pub fn close(&mut self, given: &mut Given) -> Result<(), Memory>
        ensures turn { OnOk result (turned_to self.new given.new
            ≡ turn_written (rules.heard_turn rules.close_turn self.old)) }
        ensures refused { rules.is_refused (rules.heard_turn rules.close_turn self.old).answer ≡ true → IsOk result }
    {
        let Phase::Live(live) = &mut self.phase else {
            given.begin(Answer::Refused(self.refusal()));
            return Ok(());
        };
        if live.is_parked() {
            given.begin(Answer::Refused(Refusal::NotOpen));
            return Ok(());
        }
        if live.is_ended_by_close(&self.sent) {
            live.give_up(&mut self.sent, Answer::Done, given)?;
            self.phase = Phase::Closed;
            return Ok(());
        }
        live.close(&self.sent, given);
        Ok(())
    }

    /// A Read of the whole file (profile).
    ///
    /// # Errors
    ///
    /// `Memory` where there is none left for the bytes or the request, and never where the Read is
    /// refused.
    pub fn read(&mut self, file: FileNo, given: &mut Given) -> Result<(), Memory>
        ensures turn { OnOk result (turned_to self.new given.new
            ≡ turn_written (rules.heard_turn (rules.live_read_turn file.0) self.old)) }
        ensures refused { rules.is_refused (rules.heard_turn (rules.live_read_turn file.0) self.old).answer ≡ true
            → IsOk result }
    {
        let Phase::Live(live) = &mut self.phase else {
            given.begin(Answer::Refused(self.refusal()));
            return Ok(());
        };
        if live.is_parked() {
            given.begin(Answer::Refused(Refusal::NotOpen));
            return Ok(());
        }
        live.read(&mut self.sent, file, given)
    }

    /// A Write, which takes the next number of the client (profile).
    ///
    /// # Errors
    ///
    /// `Memory` where there is none left for what is kept, sent or noted, and never where the Write is
    /// refused.
    pub fn write(
        &mut self,
        file: FileNo,
        last_number: &mut u64,
        patch: Patch,
        given: &mut Given,
    ) -> Result<(), Memory>
        ensures turn { OnOk result (turned_to self.new given.new
            ≡ turn_written (written_turn file.0 last_number.old patch self.old)) }
        ensures number { OnOk result (last_number.new
            ≡ rules.number_after (written_turn file.0 last_number.old patch self.old) last_number.old) }
        ensures refused { rules.is_refused (written_turn file.0 last_number.old patch self.old).answer ≡ true
            → IsOk result }
    {
        let Phase::Live(live) = &mut self.phase else {
            given.begin(Answer::Refused(self.refusal()));
            return Ok(());
        };
        if live.is_parked() {
            given.begin(Answer::Refused(Refusal::NotOpen));
            return Ok(());
        }
        live.write(&mut self.sent, file, last_number, patch, given)
    }

    /// A Flush: unsent writes are sent (profile).
    ///
    /// # Errors
    ///
    /// `Memory` where there is none left for what is sent, and never where the Flush is refused.
    pub fn flush(&mut self, given: &mut Given) -> Result<(), Memory>
        ensures turn { OnOk result (turned_to self.new given.new
            ≡ turn_written (rules.heard_turn rules.flush_turn self.old)) }
        ensures refused { rules.is_refused (rules.heard_turn rules.flush_turn self.old).answer ≡ true → IsOk result }
    {
        let Phase::Live(live) = &mut self.phase else {
            given.begin(Answer::Refused(self.refusal()));
            return Ok(());
        };
        if live.is_parked() {
            given.begin(Answer::Refused(Refusal::NotOpen));
            return Ok(());
        }
        live.flush(&mut self.sent, given)
    }
}

impl Live {
    // With no handle an entry accepts no command but an Open.
    fn is_parked(&self) -> bool
        ensures { result ≡ (self.now.handles == 0) }
    {
        self.handles.count() == 0
    }

    // Whether a Close ends the open: the handle is the last one, nothing is unanswered or asked for, and the belief holds no
    // handles.
    fn is_ended_by_close(&self, sent: &Writes) -> bool
        ensures { result ≡ is_ended_by_close self.now sent.now }
    {
        self.handles.count() <= 1
            && self.handles.asking().is_none()
            && !self.has_unanswered(sent)
            && !self.belief.caches_handles()
    }

    // The last handle stays while something is unanswered, or the entry asks for more. Without it the entry is parked.
    #[tactic(auto, unfolding(lease_model::specs::client::Commanded::close_turn, lease_model::specs::client::Commanded::last_close_turn))]
    fn close(&mut self, sent: &Writes, given: &mut Given)
        requires { is_ended_by_close self.old sent.now ≡ false }
        ensures { turned_to (live_entry self.new sent.now) given.new
            ≡ turn_written (rules.close_turn self.old sent.now) }
    {
        if self.handles.count() > 1 {
            self.handles = self.handles.with_less();
            given.begin(Answer::Done);
        } else if self.handles.asking().is_some() || self.has_unanswered(sent) {
            given.begin(Answer::Refused(Refusal::Busy));
        } else {
            self.handles = Handles::of(0);
            given.begin(Answer::Done);
        }
    }

    fn has_unanswered(&self, sent: &Writes) -> bool
        ensures { result ≡ has_unanswered self.now sent.now }
    {
        self.reads != 0 || !sent.is_empty()
    }

    // A Read is answered from the cache, or sent.
    #[tactic(auto, unfolding(lease_model::specs::client::Commanded::live_read_turn))]
    fn read(&mut self, sent: &mut Writes, file: FileNo, given: &mut Given) -> Result<(), Memory>
        ensures turn { OnOk result (turned_to (live_entry self.new sent.new) given.new
            ≡ turn_written (rules.live_read_turn file.0 self.old sent.old)) }
        ensures refused { rules.is_refused (rules.live_read_turn file.0 self.old sent.old).answer ≡ true
            → IsOk result }
    {
        if !self.access.reads() {
            given.begin(Answer::Refused(Refusal::Denied));
            return Ok(());
        }
        if !self.belief.caches_reads() {
            return self.send_read(given);
        }
        match self.file.view(sent) {
            Some(seen) => cached(file, seen?, given),
            None => self.send_read(given),
        }
    }

    // docs/DECISIONS.md: "The order of refusals".
    #[tactic(auto, unfolding(lease_model::specs::client::Commanded::read_sent_turn, lease_model::specs::values::Limits::count_limit))]
    fn send_read(&mut self, given: &mut Given) -> Result<(), Memory>
        ensures turn { (sent : List Pending) → OnOk result (turned_to (live_entry self.new sent) given.new
            ≡ turn_written (rules.read_sent_turn self.old sent)) }
        ensures refused { (sent : List Pending) → rules.is_refused (rules.read_sent_turn self.old sent).answer
            ≡ true → IsOk result }
    {
        if self.handles.asking().is_some() {
            given.begin(Answer::Refused(Refusal::Busy));
            return Ok(());
        }
        if self.reads == u32::MAX {
            given.begin(Answer::Refused(Refusal::UsedUp));
            return Ok(());
        }
        given.begin(Answer::Waiting);
        given.requests.push(Request::Read { fid: self.file_id })?;
        self.reads += 1;
        Ok(())
    }

    // First the access, then the write's end, then the numbers that are left.
    #[tactic(auto, unfolding(lease_model::specs::client::Commanded::write_turn, lease_model::specs::values::Limits::last_write_number))]
    fn write(
        &mut self,
        sent: &mut Writes,
        file: FileNo,
        last_number: &mut u64,
        patch: Patch,
        given: &mut Given,
    ) -> Result<(), Memory>
        ensures turn { OnOk result (turned_to (live_entry self.new sent.new) given.new
            ≡ turn_written (rules.write_turn file.0 self.old sent.old last_number.old patch)) }
        ensures number { OnOk result (last_number.new
            ≡ rules.number_after (rules.write_turn file.0 self.old sent.old last_number.old patch) last_number.old) }
        ensures refused { rules.is_refused (rules.write_turn file.0 self.old sent.old last_number.old patch).answer
            ≡ true → IsOk result }
    {
        if !self.access.writes() {
            given.begin(Answer::Refused(Refusal::Denied));
            return Ok(());
        }
        if !patch.is_within_limit() {
            given.begin(Answer::Refused(Refusal::TooLong));
            return Ok(());
        }
        if *last_number == u64::MAX {
            given.begin(Answer::Refused(Refusal::UsedUp));
            return Ok(());
        }
        *last_number += 1;
        self.take_write(sent, file, *last_number, patch, given)
    }

    // Under W a write is buffered, and else it is sent.
    #[tactic(auto, unfolding(lease_model::specs::client::Commanded::taken_turn))]
    fn take_write(
        &mut self,
        sent: &mut Writes,
        file: FileNo,
        number: u64,
        patch: Patch,
        given: &mut Given,
    ) -> Result<(), Memory>
        ensures turn { OnOk result (turned_to (live_entry self.new sent.new) given.new
            ≡ turn_written (rules.taken_turn file.0 self.old sent.old number patch)) }
        ensures taken { rules.is_refused (rules.taken_turn file.0 self.old sent.old number patch).answer ≡ false }
    {
        if self.belief.caches_writes() {
            self.buffer_write(sent, file, number, patch, given)
        } else {
            self.send_write(sent, file, number, patch, given)
        }
    }

    #[tactic(auto, unfolding(lease_model::specs::client::Commanded::buffered_turn))]
    fn buffer_write(
        &mut self,
        sent: &mut Writes,
        file: FileNo,
        number: u64,
        patch: Patch,
        given: &mut Given,
    ) -> Result<(), Memory>
        ensures turn { OnOk result (turned_to (live_entry self.new sent.new) given.new
            ≡ turn_written (rules.buffered_turn file.0 self.old sent.old number patch)) }
        ensures taken { rules.is_refused (rules.buffered_turn file.0 self.old sent.old number patch).answer
            ≡ false }
    {
        given.begin(Answer::Done);
        let copy = patch.try_copy()?;
        given.notes.push(Note::Wrote(file, number, copy, true))?;
        self.file.buffer(Pending {
            number,
            patch,
            buffered: true,
        })
    }

    #[tactic(auto, unfolding(lease_model::specs::client::Commanded::through_turn))]
    fn send_write(
        &self,
        sent: &mut Writes,
        file: FileNo,
        number: u64,
        patch: Patch,
        given: &mut Given,
    ) -> Result<(), Memory>
        ensures turn { OnOk result (turned_to (live_entry self.now sent.new) given.new
            ≡ turn_written (rules.through_turn file.0 self.now sent.old number patch)) }
        ensures taken { rules.is_refused (rules.through_turn file.0 self.now sent.old number patch).answer
            ≡ false }
    {
        given.begin(Answer::Waiting);
        let copy = patch.try_copy()?;
        given.notes.push(Note::Wrote(file, number, copy, false))?;
        let copy = patch.try_copy()?;
        given.requests.push(Request::Write {
            fid: self.file_id,
            number,
            patch: copy,
        })?;
        sent.push(Pending {
            number,
            patch,
            buffered: false,
        })?;
        Ok(())
    }

    #[tactic(auto, unfolding(lease_model::specs::client::Commanded::flush_turn))]
    fn flush(&mut self, sent: &mut Writes, given: &mut Given) -> Result<(), Memory>
        ensures turn { OnOk result (turned_to (live_entry self.new sent.new) given.new
            ≡ turn_written (rules.flush_turn self.old sent.old)) }
        ensures refused { rules.is_refused (rules.flush_turn self.old sent.old).answer ≡ true → IsOk result }
    {
        let answer = if self.file.unsent().is_empty() {
            Answer::Done
        } else {
            Answer::Waiting
        };
        given.begin(answer);
        self.send_unsent(sent, &mut given.requests)?;
        Ok(())
    }
}

// The file as the application sees it, from the cache: it is answered and noted.
fn cached(file: FileNo, seen: SharedBytes, given: &mut Given) -> Result<(), Memory>
    ensures { OnOk result (given.new ≡ record {
      answer = model.Answer.Bytes seen true;
      requests = [];
      notes = model.Note.CachedRead file.0 seen ∷ [];
    }) }
{
    let copy = seen.try_copy(*given.notes.allocator())?;
    given.begin(Answer::Bytes(copy, true));
    given.notes.push(Note::CachedRead(file, seen))?;
    Ok(())
}
