ghost use Rattle.std.specs.Prelude.{◌≡◌};
ghost use Rattle.lease_manager.specs.Closing.{closes};

use crate::values::key::LeaseName;
use crate::values::open::OpenEntry;
use lease_state::FileId;

/// Which opens are closed together.
#[derive(Clone, Copy, Debug)]
pub enum Closing {
    /// The one of this FileId (MS-SMB2 3.3.5.10).
    Named(FileId),
    /// The one of this FileId, if its client is away (3.3.6.2).
    LeftBehind(FileId),
    /// Those of the key (3.3.6.5; profile).
    Of(LeaseName),
    /// Those of the key whose clients are away (profile).
    LeftOf(LeaseName),
}

impl Closing {
    /// Whether the open is one of them.
    pub fn closes(&self, one: &OpenEntry) -> bool
        ensures { result ≡ closes self.now one.now }
    {
        match self {
            Closing::Named(fid) => one.file_id == *fid,
            Closing::LeftBehind(fid) => one.is_left_behind(*fid),
            Closing::Of(key) => one.has_key(*key),
            Closing::LeftOf(key) => one.is_left_open(*key),
        }
    }
}
