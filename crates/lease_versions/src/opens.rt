ghost use Rattle.std.specs.Prelude.{◌≡◌, ℕ, true, false, IfSome, OnErr, OnOk, None, is_some};
ghost use Rattle.std.specs.Option.{option_map};
ghost use Rattle.lease_model.specs.values.Tables.{put};
ghost use Rattle.lease_versions.specs.Kept.{open_of, opens_of};
ghost use Rattle.lease_versions.specs.Refusals.{is_open_under};
ghost use Rattle.lease_versions.specs.Rows as rows;

use capture_wire::Guid;
use lease_manager::ClientNo;
use lease_state::{FileId, LeaseKey, Memory};
use std::alloc::Global;
use std::collections::BTreeMap;

/// What is known of an open.
#[derive(Clone, Copy, Debug, PartialEq, Eq)]
pub struct Open {
    /// Its client.
    pub client: ClientNo,
    /// The key of its lease.
    pub key: Option<LeaseKey>,
    /// Its CreateGuid, where it is a durable open of version 2.
    pub guid: Option<Guid>,
}

/// The opens by their FileIds.
#[derive(Debug, Drop)]
pub struct Opens {
    by_number: BTreeMap<u64, Open>,
}

impl Opens {
    /// None. Allocates nothing.
    pub fn new(alloc: Global) -> Opens
        ensures { (file_id : ℕ) → opens_of result file_id ≡ None }
    {
        Opens {
            by_number: BTreeMap::new(alloc),
        }
    }

    /// The open of this FileId.
    pub fn open(&self, file_id: FileId) -> Option<Open>
        ensures { option_map open_of result ≡ opens_of self.now file_id.0 }
    {
        self.by_number.get(&file_id.0).copied()
    }

    /// Whether there is an open of this FileId.
    pub fn has(&self, file_id: FileId) -> bool
        ensures { result ≡ is_some (opens_of self.now file_id.0) }
    {
        self.by_number.get(&file_id.0).is_some()
    }

    /// This is the open of this FileId, if there is none.
    ///
    /// # Errors
    ///
    /// `Memory` where there is none left; nothing has changed then.
    pub fn note(&mut self, file_id: FileId, one: Open) -> Result<(), Memory>
        ensures noted { OnOk result (opens_of self.new ≡ rows.noted file_id.0 (open_of one) (opens_of self.old)) }
        ensures refused { OnErr result (opens_of self.new ≡ opens_of self.old) }
    {
        if self.has(file_id) {
            return Ok(());
        }
        self.by_number.insert(file_id.0, one)?;
        Ok(())
    }

    /// There is no open of this FileId any longer.
    pub fn remove(&mut self, file_id: FileId)
        ensures { opens_of self.new ≡ put (opens_of self.old) file_id.0 None }
    {
        self.by_number.remove(&file_id.0);
    }

    // Whether this FileId is that of an open of the client under this CreateGuid.
    fn is_under(&self, file_id: u64, client: ClientNo, guid: Guid) -> bool
        ensures { result ≡ is_open_under client.0 guid.0 (opens_of self.now file_id) }
    {
        match self.open(FileId(file_id)) {
            Some(one) => one.client == client && one.guid == Some(guid),
            None => false,
        }
    }

    /// The open of the client under this CreateGuid.
    pub fn under(&self, client: ClientNo, guid: Guid) -> Option<FileId>
        ensures found { IfSome result (λ file_id. is_open_under client.0 guid.0 (opens_of self.now file_id.0) ≡ true) }
        ensures none { result ≡ None → (file_id : ℕ) → is_open_under client.0 guid.0 (opens_of self.now file_id) ≡ false }
    {
        for file_id in self.by_number.keys() {
            if self.is_under(*file_id, client, guid) {
                return Some(FileId(*file_id));
            }
        }
        None
    }
}
