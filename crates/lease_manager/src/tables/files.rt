ghost use Rattle.std.specs.Prelude.{◌≡◌, IfOk, map, filter, find};
ghost use Rattle.std.specs.Option.{option_map};
ghost use Rattle.lease_manager.specs.Filed.{has_id};
ghost use Rattle.lease_manager.specs.Listing.{open_of};
ghost use Rattle.lease_manager.specs.Parting.{is_connected_of};
ghost use Rattle.lease_manager.specs.Queues.{file_numbers};
ghost use Rattle.lease_manager.specs.Table.{server_of};
ghost use Rattle.lease_model.specs.server.State.{has_key};

use crate::tables::Tables;
use crate::values::key::LeaseName;
use crate::values::number::{ClientNo, FileNo};
use crate::values::open::ListedOpen;
use lease_state::{FileId, Memory};

impl Tables {
    /// The open of this FileId, for a listing.
    pub fn listed_open(&self, fid: FileId) -> Option<ListedOpen>
        ensures { option_map open_of result ≡ find (has_id fid.0) (server_of self.now).opens }
    {
        match self.opens.find(fid) {
            Some(one) => Some(one.listed()),
            None => None,
        }
    }

    /// The file of the key's opens; `None` where no open has the key.
    pub fn file_of_key(&self, key: LeaseName) -> Option<FileNo>
        ensures { option_map (λ file. file.0) result
            ≡ option_map (λ one. one.file) (find (has_key key) (server_of self.now).opens) }
    {
        if self.summaries.has_lease(key) {
            self.summaries.home(key)
        } else {
            None
        }
    }

    /// The files of the client's connected opens, in the order of their FileIds.
    ///
    /// # Errors
    ///
    /// `Memory` where there is none left for the list.
    pub fn files_of_client(&self, client: ClientNo) -> Result<Vec<FileNo>, Memory>
        ensures { IfOk result (λ files. file_numbers files.items
            ≡ map (λ one. one.file) (filter (is_connected_of client.0) (server_of self.now).opens)) }
    {
        self.opens.files_of_client(self.alloc(), client)
    }
}
