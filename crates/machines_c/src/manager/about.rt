ghost use Rattle.std.specs.Prelude.{◌≡◌, [], ◌==◌, true, false, length, None, IfOk, IsOk};
ghost use Rattle.std.specs.List.{list_any};
ghost use Rattle.std.specs.Option.{option_map};
ghost use Rattle.lease_manager.specs.Queues.{file_numbers};
ghost use Rattle.lease_manager.specs.Requests.{request_like};
ghost use Rattle.lease_manager.specs.Table.{manager_of};
ghost use Rattle.lease_model.specs.server.Naming.{key_of};
ghost use Rattle.machines_c.specs.manager.About.{at, at_client, at_key, at_open, closed_by, if_breaking, if_left, if_present};
ghost use Rattle.machines_c.specs.manager.About.{if_waiting, listed};
ghost use Rattle.machines_c.specs.manager.Asked.{is_absent, is_answered, is_gone, is_settled};

use crate::manager::managing::Managing;
use lease_manager::{Ask, ClientNo, FileNo, Tag};
use lease_state::{FileId, LeaseKey, Memory};
use std::alloc::Global;

// Where no change waits, no file is looked for.
impl Managing {
    /// The file of what a request closes, where changes wait; none where the client isn't connected.
    pub(crate) fn file_closed(&self, client: ClientNo, ask: Ask) -> Option<FileNo>
        ensures file { (length self.now.changes == 0) ≡ false
            → listed result ≡ closed_by client.0 (request_like ask) (manager_of self.now.manager) }
        ensures idle { is_absent client.0 (manager_of self.now.manager) ≡ true → result ≡ None }
    {
        match ask {
            Ask::Close { fid } => self.file_if(self.manager.is_connected(client), fid),
            _ => None,
        }
    }

    // The file of the open of this FileId, where changes wait and this is so.
    fn file_if(&self, is_so: bool, fid: FileId) -> Option<FileNo>
        ensures file { (length self.now.changes == 0) ≡ false → is_so ≡ true
            → listed result ≡ at_open fid.0 (manager_of self.now.manager) }
        ensures idle { is_so ≡ false → result ≡ None }
    {
        if self.changes.is_empty() || !is_so {
            return None;
        }
        match self.manager.open(fid) {
            Some(one) => Some(one.file),
            None => None,
        }
    }

    /// The file of the open of this FileId that waits for its client, where changes wait.
    pub(crate) fn file_left(&self, fid: FileId) -> Option<FileNo>
        ensures file { (length self.now.changes == 0) ≡ false
            → listed result ≡ if_left fid.0 (at_open fid.0) (manager_of self.now.manager) }
        ensures idle { is_gone fid.0 (manager_of self.now.manager) ≡ true → result ≡ None }
    {
        self.file_if(self.manager.has_left_behind(fid), fid)
    }

    // The file of the client's lease of this key, where changes wait and this is so.
    fn leased_if(&self, is_so: bool, client: ClientNo, key: LeaseKey) -> Option<FileNo>
        ensures file { (length self.now.changes == 0) ≡ false → is_so ≡ true
            → listed result ≡ at_key (key_of client.0 key.0) (manager_of self.now.manager) }
        ensures idle { is_so ≡ false → result ≡ None }
    {
        if self.changes.is_empty() || !is_so {
            return None;
        }
        self.manager.leased_file(client, key)
    }

    /// The file of a lease that its client acknowledges the break of, where changes wait; none where the client isn't connected.
    pub(crate) fn file_acknowledged(&self, client: ClientNo, key: LeaseKey) -> Option<FileNo>
        ensures file { (length self.now.changes == 0) ≡ false → listed result
            ≡ if_present client.0 (at_key (key_of client.0 key.0)) (manager_of self.now.manager) }
        ensures idle { is_absent client.0 (manager_of self.now.manager) ≡ true → result ≡ None }
    {
        self.leased_if(self.manager.is_connected(client), client, key)
    }

    /// The file of a lease that is breaking, where changes wait.
    pub(crate) fn file_breaking(&self, client: ClientNo, key: LeaseKey) -> Option<FileNo>
        ensures file { (length self.now.changes == 0) ≡ false → listed result
            ≡ if_breaking (key_of client.0 key.0) (at_key (key_of client.0 key.0)) (manager_of self.now.manager) }
        ensures idle { is_settled client.0 key.0 (manager_of self.now.manager) ≡ true → result ≡ None }
    {
        self.leased_if(self.manager.is_breaking(client, key), client, key)
    }

    /// The files of the client's connected opens, where changes wait; none where it isn't connected.
    ///
    /// # Errors
    ///
    /// `Memory` where there is none left for the list, and never where the client isn't connected.
    pub(crate) fn files_opened(
        &self,
        alloc: Global,
        client: ClientNo,
    ) -> Result<Vec<FileNo>, Memory>
        ensures files { IfOk result (λ files. (length self.now.changes == 0) ≡ false
            → file_numbers files.items ≡ if_present client.0 (at_client client.0) (manager_of self.now.manager)) }
        ensures none { is_absent client.0 (manager_of self.now.manager) ≡ true → IfOk result (λ files. files.items ≡ []) }
        ensures idle { is_absent client.0 (manager_of self.now.manager) ≡ true → IsOk result }
    {
        if self.changes.is_empty() || !self.manager.is_connected(client) {
            return Ok(Vec::new(alloc));
        }
        self.manager.opened_files(client)
    }

    /// The file, where changes wait and so does a request of the client there under the tag.
    pub(crate) fn file_waited_on(&self, file: FileNo, client: ClientNo, tag: Tag) -> Option<FileNo>
        ensures file { (length self.now.changes == 0) ≡ false
            → listed result ≡ if_waiting file.0 client.0 tag.0 (at file.0) (manager_of self.now.manager) }
        ensures idle { is_answered client.0 tag.0 file.0 (manager_of self.now.manager) ≡ true → result ≡ None }
    {
        if self.changes.is_empty() || !self.manager.is_waiting(file, client, tag) {
            return None;
        }
        Some(file)
    }
}
