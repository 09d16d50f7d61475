ghost use Rattle.std.specs.Prelude.{◌≡◌, OnOk};
ghost use Rattle.lease_client.specs.Messages.{message_turn};
ghost use Rattle.lease_client.specs.Turns.{turned_to, turn_written};

use crate::entry::Entry;
use crate::entry::turn::Given;
use lease_state::{Bytes, FileId, LeaseKey, Memory, Status};
use lease_wire::{CreateAnswer, Notification};

/// A reply of the server that reached an entry.
#[derive(Debug, Drop)]
pub enum Message {
    Created(FileId, CreateAnswer),
    NotCreated(Status),
    Read(Bytes),
    NotRead(Status),
    Written(u64),
    NotWritten(FileId, u64, Status),
    Broken(Notification),
}

impl Entry {
    /// A reply reaches the entry of a file, whose key this is.
    ///
    /// # Errors
    ///
    /// `Memory` where there is none left.
    pub fn told(&mut self, key: LeaseKey, message: Message, given: &mut Given) -> Result<(), Memory>
        ensures { OnOk result (turned_to self.new given.new ≡ turn_written (message_turn key.0 message self.old)) }
    {
        match message {
            Message::Created(file_id, answer) => self.created(key, file_id, &answer, given),
            Message::NotCreated(status) => self.not_created(status, given),
            Message::Read(bytes) => self.read_done(bytes, given),
            Message::NotRead(status) => self.not_read(status, given),
            Message::Written(number) => self.written(number, given),
            Message::NotWritten(file_id, number, status) => {
                self.not_written(file_id, number, status, given)
            }
            Message::Broken(notice) => self.broken(&notice, given),
        }
    }
}
