ghost use Rattle.std.specs.Prelude.{◌≡◌, OnOk, IsOk, Ok, Err, Some, None, true, length, List};
ghost use Rattle.lease_wire.specs.Gathering.{value_of};
ghost use Rattle.lease_wire.specs.declared.create.Direction.{Direction};
ghost use Rattle.lease_model.specs.messages.FromBytes.{reply_of, answer_found, notice_in};
ghost use Rattle.lease_model.specs.client.Step.{quiet_step};
ghost use Rattle.lease_model.specs.client.Taken as rules;
ghost use Rattle.lease_client.specs.Calls.{is_idle};
ghost use Rattle.lease_client.specs.Known.{client_of};
ghost use Rattle.lease_client.specs.Turns.{IsAfter};

use crate::entry::turn::Given;
use crate::machine::Machine;
use crate::machine::message::Message;
use crate::values::command::Answer;
use lease_laws::bytes_laws;
use lease_state::{Bytes, FILE_LIMIT, FileId, FileNo, Memory, Reply, Status};
use lease_wire::{Notification, read_create_reply};

impl Machine {
    /// A reply comes from the server.
    ///
    /// # Errors
    ///
    /// `Memory` where there is none left, and never where the reply answers a Close or an acknowledgment.
    #[tactic(auto, unfolding(lease_model::specs::client::Taken::taken))]
    #[inline]
    pub fn take(&mut self, reply: Reply, given: &mut Given) -> Result<(), Memory>
        ensures after { OnOk result (IsAfter self.new given.new
            (rules.taken (client_of self.old) (reply_of reply))) }
        ensures idle { is_idle reply ≡ true → IsOk result }
    {
        match reply {
            Reply::Created {
                file,
                fid,
                contexts,
            } => self.created(file, fid, &contexts, given),
            Reply::CreateFailed { file, status } => self.not_created(file, status, given),
            Reply::ReadDone { fid, bytes } => self.read_done(fid, bytes, given),
            Reply::ReadFailed { fid, status } => self.not_read(fid, status, given),
            Reply::WriteDone { number, .. } => self.written(number, given),
            Reply::WriteFailed {
                fid,
                number,
                status,
            } => self.not_written(fid, number, status, given),
            Reply::Break(bytes) => self.broken(&bytes, given),
            Reply::Closed { .. }
            | Reply::CloseFailed { .. }
            | Reply::AckDone(_)
            | Reply::AckFailed { .. } => {
                self.quiet(given);
                Ok(())
            }
        }
    }

    // Nothing is answered, sent or noted.
    fn quiet(&self, given: &mut Given)
        ensures { IsAfter self.now given.new (quiet_step (client_of self.now)) }
    {
        given.begin(Answer::Quiet);
    }

    fn created(
        &mut self,
        file: FileNo,
        file_id: FileId,
        contexts: &Bytes,
        given: &mut Given,
    ) -> Result<(), Memory>
        ensures { OnOk result (IsAfter self.new given.new (rules.create_answered (client_of self.old) file.0
            file_id.0 (answer_found (value_of Direction.Reply contexts.now)))) }
    {
        if !self.knows(file) {
            self.quiet(given);
            return Ok(());
        }
        match read_create_reply(contexts.as_slice()) {
            Ok(answer) => self.tell(file, Message::Created(file_id, answer), given),
            Err(_) => {
                self.quiet(given);
                Ok(())
            }
        }
    }

    fn not_created(&mut self, file: FileNo, status: Status, given: &mut Given) -> Result<(), Memory>
        ensures { OnOk result (IsAfter self.new given.new
            (rules.create_failed (client_of self.old) file.0 status)) }
    {
        if !self.knows(file) {
            self.quiet(given);
            return Ok(());
        }
        self.tell(file, Message::NotCreated(status), given)
    }

    // A Read of more bytes than a file may have is passed over.
    #[tactic(auto, unfolding(lease_model::specs::client::Taken::read_answered))]
    fn read_done(&mut self, file_id: FileId, bytes: Bytes, given: &mut Given) -> Result<(), Memory>
        ensures { OnOk result (IsAfter self.new given.new
            (rules.read_answered (client_of self.old) file_id.0 bytes)) }
    {
        if bytes.len() > FILE_LIMIT {
            self.quiet(given);
            return Ok(());
        }
        match self.file_read_under(file_id) {
            Some(file) => self.tell(file, Message::Read(bytes), given),
            None => {
                self.quiet(given);
                Ok(())
            }
        }
    }

    #[tactic(auto, unfolding(lease_model::specs::client::Taken::read_failed))]
    fn not_read(&mut self, file_id: FileId, status: Status, given: &mut Given) -> Result<(), Memory>
        ensures { OnOk result (IsAfter self.new given.new
            (rules.read_failed (client_of self.old) file_id.0 status)) }
    {
        match self.file_read_under(file_id) {
            Some(file) => self.tell(file, Message::NotRead(status), given),
            None => {
                self.quiet(given);
                Ok(())
            }
        }
    }

    #[tactic(auto, unfolding(lease_model::specs::client::Taken::write_done))]
    fn written(&mut self, number: u64, given: &mut Given) -> Result<(), Memory>
        ensures { OnOk result (IsAfter self.new given.new
            (rules.write_done (client_of self.old) number)) }
    {
        match self.file_with_sent(number) {
            Some(file) => self.tell(file, Message::Written(number), given),
            None => {
                self.quiet(given);
                Ok(())
            }
        }
    }

    #[tactic(auto, unfolding(lease_model::specs::client::Taken::write_failed))]
    fn not_written(
        &mut self,
        file_id: FileId,
        number: u64,
        status: Status,
        given: &mut Given,
    ) -> Result<(), Memory>
        ensures { OnOk result (IsAfter self.new given.new
            (rules.write_failed (client_of self.old) file_id.0 number status)) }
    {
        match self.file_with_sent(number) {
            Some(file) => self.tell(file, Message::NotWritten(file_id, number, status), given),
            None => {
                self.quiet(given);
                Ok(())
            }
        }
    }

    // A notification that can't be read, or of another client's key, is passed over.
    fn broken(&mut self, bytes: &[u8; 44], given: &mut Given) -> Result<(), Memory>
        ensures { OnOk result (IsAfter self.new given.new
            (rules.broken (client_of self.old) (notice_in bytes.now))) }
    {
        bytes_laws();
        match Notification::decode(bytes) {
            Ok((notice, _)) => match self.file_of_key(notice.key) {
                Some(file) => self.tell(file, Message::Broken(notice), given),
                None => {
                    self.quiet(given);
                    Ok(())
                }
            },
            Err(_) => {
                self.quiet(given);
                Ok(())
            }
        }
    }
}
