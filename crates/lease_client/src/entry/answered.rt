ghost use Rattle.std.specs.Prelude.{◌≡◌, IfOk, map, find, Some, ◌∷◌, [], OnOk, if◌then◌else◌, ◌&&◌, ◌==◌};
ghost use Rattle.std.specs.List.{list_any};
ghost use Rattle.lease_state.specs.Content.{patch};
ghost use Rattle.lease_model.specs.client.Taken.{read_done_turn, not_read_turn, not_written_turn, is_file_closed};
ghost use Rattle.lease_model.specs.client.State.{live_entry};
ghost use Rattle.lease_model.specs.client.Taken as rules;
ghost use Rattle.lease_client.specs.Answers.{note_of};
ghost use Rattle.lease_client.specs.Turns.{turned_to, turn_written};
ghost use Rattle.lease_client.specs.Entries.{phase_of};

use crate::entry::turn::{Given, Turn};
use crate::entry::{Entry, Live, Pending, Phase};
use crate::values::command::Answer;
use crate::values::note::{Note, Settlement};
use crate::values::shared_bytes::SharedBytes;
use crate::writes::push_settled;
use crate::writes::queue::Writes;
use lease_state::{Bytes, FileId, Memory, Status};

impl Entry {
    /// Whether the entry is live under the FileId, and a Read of it isn't answered.
    pub fn reads_under(&self, file_id: FileId) -> bool
        ensures { result ≡ rules.reads_under file_id.0 self.now.phase }
    {
        match &self.phase {
            Phase::Live(live) => live.file_id == file_id && live.reads != 0,
            _ => false,
        }
    }

    /// Whether a sent write of this number isn't answered.
    pub fn has_sent(&self, number: u64) -> bool
        ensures { result ≡ list_any (rules.is_numbered number) self.now.sent }
    {
        self.sent.has(number)
    }

    /// A Read is answered with the file (MS-SMB2 3.2.5.11).
    ///
    /// # Errors
    ///
    /// `Memory` where there is none left for the bytes that the application sees.
    pub fn read_done(&mut self, bytes: Bytes, given: &mut Given) -> Result<(), Memory>
        ensures { OnOk result (turned_to self.new given.new ≡ turn_written (read_done_turn bytes self.old)) }
    {
        let Phase::Live(live) = &mut self.phase else {
            given.begin(Answer::Quiet);
            return Ok(());
        };
        live.read_done(&mut self.sent, bytes, given)
    }

    /// A Read is refused.
    ///
    /// # Errors
    ///
    /// `Memory` where there is none left for what is noted.
    pub fn not_read(&mut self, status: Status, given: &mut Given) -> Result<(), Memory>
        ensures { OnOk result (turned_to self.new given.new ≡ turn_written (not_read_turn status self.old)) }
    {
        let Entry { phase, sent } = self.take();
        match phase {
            Phase::Live(live) => {
                live.not_read(sent, status)?.put_into(self, given);
                Ok(())
            }
            phase => {
                self.put_back(phase, sent);
                given.begin(Answer::Quiet);
                Ok(())
            }
        }
    }

    /// The write of this number is done (3.2.5.12): a base has it from now on.
    ///
    /// # Errors
    ///
    /// `Memory` where there is none left for the base or the note.
    #[tactic(auto)]
    pub fn written(&mut self, number: u64, given: &mut Given) -> Result<(), Memory>
        ensures { OnOk result (turned_to self.new given.new
            ≡ turn_written (rules.write_done_turn number self.old)) }
    {
        let write = self.sent.take_numbered(number);
        put_write(&mut self.phase, &write)?;
        given.begin(Answer::Quiet);
        given.notes.push(Note::Settled(number, Settlement::Done))?;
        Ok(())
    }

    /// The write of this number is refused.
    ///
    /// # Errors
    ///
    /// `Memory` where there is none left for the notes.
    pub fn not_written(
        &mut self,
        file_id: FileId,
        number: u64,
        status: Status,
        given: &mut Given,
    ) -> Result<(), Memory>
        ensures { OnOk result (turned_to self.new given.new
            ≡ turn_written (not_written_turn file_id.0 number status self.old)) }
    {
        let Entry { phase, mut sent } = self.take();
        let alloc = sent.alloc();
        let _write = sent.take_numbered(number);
        let mut notes = Vec::new(alloc);
        notes.push(Note::Settled(number, Settlement::Failed))?;
        match phase {
            Phase::Live(live) => {
                let turn = live.not_written(sent, notes, file_id, status)?;
                turn.put_into(self, given);
                Ok(())
            }
            phase => {
                self.put_back(phase, sent);
                given.begin(Answer::Failed(status));
                given.notes = notes;
                Ok(())
            }
        }
    }
}

// A base, if there is one, has the write from now on.
fn put_write(phase: &mut Phase, write: &Option<Pending>) -> Result<(), Memory>
    ensures { OnOk result (phase_of phase.new ≡ rules.phase_with write.now (phase_of phase.old)) }
{
    match (phase, write) {
        (Phase::Live(live), Some(write)) => live.put_write(write),
        _ => Ok(()),
    }
}

impl Live {
    // A base, if there is one, has the write from now on.
    fn put_write(&mut self, write: &Pending) -> Result<(), Memory>
        ensures { OnOk result (self.new ≡ record self.old { base = rules.base_with (Some write.now) self.old.base }) }
    {
        self.file.change(&write.patch)
    }

    // The bytes become the base under R; the application sees its own unanswered writes in them.
    #[tactic(auto)]
    fn read_done(
        &mut self,
        sent: &mut Writes,
        bytes: Bytes,
        given: &mut Given,
    ) -> Result<(), Memory>
        ensures { OnOk result (turned_to (live_entry self.new sent.new) given.new
            ≡ turn_written (rules.read_turn self.old sent.old bytes)) }
    {
        let base = SharedBytes::new(bytes)?;
        let seen = self.file.over(&base, sent)?;
        let seen = seen.try_copy(sent.alloc())?;
        self.reads = self.reads.saturating_sub(1);
        self.learn(base);
        given.begin(Answer::Bytes(seen, false));
        Ok(())
    }

    // Under R the bytes become the base.
    fn learn(&mut self, bytes: SharedBytes)
        ensures { self.new ≡ record self.old {
          base = if self.old.belief.read then Some bytes else self.old.base;
        } }
    {
        if self.belief.caches_reads() {
            self.file.learn(bytes);
        }
    }

    // Another status, or that of another FileId, leaves the open as it is.
    fn not_written(
        self,
        sent: Writes,
        notes: Vec<Note>,
        file_id: FileId,
        status: Status,
    ) -> Result<Turn, Memory>
        ensures { IfOk result (λ turn. turn ≡ turn_written
            (if is_file_closed status && self.file_id == file_id.0
            then rules.closed_by_server self sent (map note_of notes.items) status
            else rules.still_open (live_entry self sent) (map note_of notes.items) status)) }
    {
        if status == Status::FileClosed && self.file_id == file_id {
            return self.closed_by_server(sent, notes, status);
        }
        let requests = Vec::new(sent.alloc());
        Ok(Turn {
            entry: Entry::live(self, sent),
            answer: Answer::Failed(status),
            requests,
            notes,
        })
    }

    #[tactic(auto, unfolding(lease_model::specs::client::Taken::read_failed_turn))]
    fn not_read(self, sent: Writes, status: Status) -> Result<Turn, Memory>
        ensures { IfOk result (λ turn. turn ≡ turn_written (rules.read_failed_turn self sent status)) }
    {
        if status == Status::FileClosed {
            let notes = Vec::new(sent.alloc());
            return self.closed_by_server(sent, notes, status);
        }
        let mut live = self;
        live.reads = live.reads.saturating_sub(1);
        Ok(Turn::still(Entry::live(live, sent), Answer::Failed(status)))
    }

    // The server has the open no more, and the unsent writes have failed. An entry that asked for more
    // waits for that create.
    // docs/DECISIONS.md: "FILE_CLOSED".
    #[tactic(auto)]
    fn closed_by_server(
        self,
        sent: Writes,
        notes: Vec<Note>,
        status: Status,
    ) -> Result<Turn, Memory>
        ensures { IfOk result (λ turn. turn ≡ turn_written (rules.closed_by_server self sent
            (map note_of notes.items) status)) }
    {
        let mut notes = notes;
        push_settled(&mut notes, Settlement::Failed, self.file.unsent())?;
        let phase = match self.handles.asking() {
            Some(asked) => Phase::Opening {
                access: asked.access,
                share: asked.share,
            },
            None => Phase::Closed,
        };
        let requests = Vec::new(sent.alloc());
        Ok(Turn {
            entry: Entry { phase, sent },
            answer: Answer::Failed(status),
            requests,
            notes,
        })
    }
}
