ghost use Rattle.std.specs.Prelude.{◌≡◌, IfOk, map, filter, find};
ghost use Rattle.std.specs.Option.{option_map};
ghost use Rattle.lease_manager.specs.Filed.{has_id};
ghost use Rattle.lease_manager.specs.Listing.{open_of};
ghost use Rattle.lease_manager.specs.Parting.{is_connected_of};
ghost use Rattle.lease_manager.specs.Queues.{file_numbers};
ghost use Rattle.lease_manager.specs.Table.{server_of};
ghost use Rattle.lease_model.specs.server.Naming.{key_of};
ghost use Rattle.lease_model.specs.server.State.{has_key};

use crate::manager::Manager;
use crate::values::key::LeaseName;
use crate::values::number::{ClientNo, FileNo};
use crate::values::open::ListedOpen;
use lease_state::{FileId, LeaseKey, Memory};

impl Manager {
    /// The open of this FileId, connected or not (MS-SMB2 3.3.1.10); `None` where there is none.
    pub fn open(&self, fid: FileId) -> Option<ListedOpen>
        ensures { option_map open_of result ≡ find (has_id fid.0) (server_of self.now).opens }
    {
        self.tables.listed_open(fid)
    }

    /// The file that the client's key has a lease on (MS-SMB2 3.3.1.12); `None` where no open has the key.
    pub fn leased_file(&self, client: ClientNo, key: LeaseKey) -> Option<FileNo>
        ensures { option_map (λ file. file.0) result
            ≡ option_map (λ one. one.file) (find (has_key (key_of client.0 key.0)) (server_of self.now).opens) }
    {
        self.tables.file_of_key(LeaseName { client, bytes: key })
    }

    /// The file of each connected open of the client, in the order of their FileIds: a file twice where the client opened it
    /// twice.
    ///
    /// # Errors
    ///
    /// `Memory` where there is none left for the list.
    pub fn opened_files(&self, client: ClientNo) -> Result<Vec<FileNo>, Memory>
        ensures { IfOk result (λ files. file_numbers files.items
            ≡ map (λ one. one.file) (filter (is_connected_of client.0) (server_of self.now).opens)) }
    {
        self.tables.files_of_client(client)
    }
}
