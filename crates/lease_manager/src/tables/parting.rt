ghost use Rattle.std.specs.Prelude.{◌≡◌, ◌&&◌, Bool, IfOk, OnOk, filter};
ghost use Rattle.lease_laws.specs.server.Laws.{AreInOrder};
ghost use Rattle.lease_manager.specs.LeftOpens.{ids_of, numbers};
ghost use Rattle.lease_manager.specs.Parting.{IsParted, is_connected_named, is_connected_of};
ghost use Rattle.lease_manager.specs.Table.{server_of};
ghost use Rattle.lease_model.specs.server.State.{Open};

use crate::tables::Tables;
use crate::tables::changes::{close_all, disconnect_all, forget_opens};
use crate::tables::sets::listed;
use crate::tables::still::forget_files;
use crate::values::number::ClientNo;
use lease_state::{FileId, Memory};

/// Opens of a client whose connection goes (MS-SMB2 3.3.7.1), by their FileIds, rising.
#[derive(Debug, Drop)]
pub struct Parted {
    /// Those that were closed.
    pub ended: Vec<FileId>,
    /// Those that wait for the client.
    pub left: Vec<FileId>,
}

impl Tables {
    /// The FileIds of the client's connected opens, rising.
    ///
    /// # Errors
    ///
    /// `Memory` where there is none left for the list.
    pub fn of_client(&self, client: ClientNo) -> Result<Vec<FileId>, Memory>
        ensures { IfOk result (λ ids. numbers ids.items
            ≡ ids_of (filter (is_connected_of client.0) (server_of self.now).opens)) }
    {
        self.opens.of_client(self.alloc(), client)
    }

    /// Those of them that are among these, rising.
    ///
    /// # Errors
    ///
    /// `Memory` where there is none left for the list.
    pub fn named(&self, client: ClientNo, file_ids: &[FileId]) -> Result<Vec<FileId>, Memory>
        ensures { IfOk result (λ ids. numbers ids.items
            ≡ ids_of (filter (is_connected_named client.0 (numbers file_ids.now)) (server_of self.now).opens)) }
    {
        let names = self.opens.named(self.alloc(), client, file_ids)?;
        let ids = listed(self.alloc(), &names)?;
        Ok(ids)
    }

    /// Of these opens, which are all connected ones that pass a test, those that outlive a connection wait for their client from
    /// now on, and the others are closed.
    ///
    /// # Errors
    ///
    /// `Memory` where there is none left for the lists of FileIds; no open is left then, or nothing has changed.
    pub fn part(&mut self, named: &[FileId]) -> Result<Parted, Memory>
        ensures parted { IfOk result (λ parted. (test : Open → Bool)
            → numbers named.now ≡ ids_of (filter (λ (one : Open). test one && one.connected) (server_of self.old).opens)
            → IsParted test (server_of self.old) parted (server_of self.new)) }
        ensures queues { OnOk result (self.new.queues ≡ self.old.queues) }
        ensures in_order { AreInOrder (server_of self.old).opens }
    {
        let alloc = self.alloc();
        let ended = self.opens.lasting(alloc, named, &self.summaries, false)?;
        let left = self.opens.lasting(alloc, named, &self.summaries, true)?;
        forget_files(&mut self.waiting, &self.opens, named);
        close_all(&mut self.opens, &mut self.summaries, &ended);
        match disconnect_all(&mut self.opens, alloc, &left) {
            Ok(()) => Ok(Parted { ended, left }),
            Err(memory) => {
                self.waiting.clear();
                forget_opens(&mut self.opens, &mut self.summaries, alloc);
                Err(memory)
            }
        }
    }
}
