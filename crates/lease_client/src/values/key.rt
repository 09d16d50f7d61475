ghost use Rattle.std.specs.Prelude.{◌≡◌};
ghost use Rattle.lease_model.specs.client.State as model;

use lease_state::{FileNo, LeaseKey};

/// The LeaseKey under which the client of a ClientGuid opens a file (MS-SMB2 3.2.4.3.8): the first
/// 12 bytes of the GUID, and the file's number in 4 bytes, little-endian (profile). Allocates
/// nothing.
#[tactic(auto, using(std::proofs::lemmas::List::drop_all), unfolding(lease_model::specs::client::State::lease_key))]
pub fn lease_key(guid: [u8; 16], file: FileNo) -> LeaseKey
    ensures { result.0 ≡ model.lease_key guid file.0 }
{
    let mut key = guid;
    key[12..].copy_from_slice(&[file.0, 0, 0, 0]);
    LeaseKey(key)
}
