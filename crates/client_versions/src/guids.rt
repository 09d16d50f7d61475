ghost use Rattle.std.specs.Prelude.{◌≡◌, ℕ, IsOk, OnErr, OnOk, None, false};
ghost use Rattle.std.specs.Option.{option_map};
ghost use Rattle.lease_model.specs.values.Tables.{put};
ghost use Rattle.lease_wire_v2.specs.Views.{granted_durable};
ghost use Rattle.client_versions.specs.Kept.{guid_of, guids_of};
ghost use Rattle.client_versions.specs.Rows as rows;

use capture_wire::Guid;
use lease_state::{FileId, Memory};
use lease_wire_v2::DurableAnswer;
use std::alloc::Global;
use std::collections::BTreeMap;

fn is_second(durable: Option<DurableAnswer>) -> bool
    ensures { result ≡ rows.is_second (option_map granted_durable durable) }
{
    matches!(durable, Some(DurableAnswer::Second(_)))
}

/// The CreateGuids of durable opens of version 2, by the FileIds of the opens (MS-SMB2 3.2.1.6).
#[derive(Debug, Drop)]
pub struct Guids {
    by_number: BTreeMap<u64, Guid>,
}

impl Guids {
    /// None. Allocates nothing.
    pub fn new(alloc: Global) -> Guids
        ensures { (file_id : ℕ) → guids_of result file_id ≡ None }
    {
        Guids {
            by_number: BTreeMap::new(alloc),
        }
    }

    /// The CreateGuid of the open of this FileId.
    pub fn guid(&self, file_id: FileId) -> Option<Guid>
        ensures { option_map guid_of result ≡ guids_of self.now file_id.0 }
    {
        self.by_number.get(&file_id.0).copied()
    }

    /// A create that was asked for under this guid is answered by an open of this FileId, which is durable or isn't.
    ///
    /// # Errors
    ///
    /// `Memory` where the open is durable by `DH2Q`, and no memory is left; nothing has changed then.
    pub fn answered(
        &mut self,
        file_id: FileId,
        guid: Guid,
        durable: Option<DurableAnswer>,
    ) -> Result<(), Memory>
        ensures answered { OnOk result (guids_of self.new
            ≡ rows.guids_answered file_id.0 guid.0 (option_map granted_durable durable) (guids_of self.old)) }
        ensures refused { OnErr result (guids_of self.new ≡ guids_of self.old) }
        ensures free { rows.is_second (option_map granted_durable durable) ≡ false → IsOk result }
    {
        if !is_second(durable) {
            return Ok(());
        }
        self.by_number.insert(file_id.0, guid)?;
        Ok(())
    }

    /// There is no CreateGuid of this FileId any longer.
    pub fn remove(&mut self, file_id: FileId)
        ensures { guids_of self.new ≡ put (guids_of self.old) file_id.0 None }
    {
        self.by_number.remove(&file_id.0);
    }

    // The CreateGuid of this FileId, which has one, is this one from now on.
    fn set(&mut self, file_id: FileId, guid: Guid)
        ensures { guids_of self.new
            ≡ put (guids_of self.old) file_id.0 (option_map (λ old. guid.0) (guids_of self.old file_id.0)) }
    {
        if let Some(kept) = self.by_number.get_mut(&file_id.0) {
            *kept = guid;
        }
    }

    /// The CreateGuid of this FileId is the one that it was before an answer that isn't taken after all.
    pub fn set_back(&mut self, file_id: FileId, before: Option<Guid>)
        ensures { guids_of self.new ≡ rows.set_back file_id.0 (option_map guid_of before) (guids_of self.old) }
    {
        match before {
            Some(guid) => self.set(file_id, guid),
            None => self.remove(file_id),
        }
    }
}
