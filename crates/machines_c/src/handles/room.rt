ghost use Rattle.std.specs.Prelude.{◌≡◌, length, IfOk, MatchOption};
ghost use Rattle.machines_c.specs.declared.handles.outcome.Outcome.TheVariants as outcomes;
ghost use Rattle.machines_c.specs.handles.Outcomes.{IsFilled};

use crate::handles::Outcome;
use lease_state::{Bytes, FileId, Memory};
use std::alloc::Global;

/// Writes all of the bytes to the front of the room, or nothing where it is shorter. Returns how
/// many bytes there are.
pub fn fill(room: &mut [u8], bytes: &[u8]) -> usize
    ensures length { result ≡ length bytes.now }
    ensures filled { IsFilled bytes.now room.old room.new }
{
    if bytes.len() <= room.len() {
        room[..bytes.len()].copy_from_slice(bytes);
    }
    bytes.len()
}

/// The bytes in memory of their own.
///
/// # Errors
///
/// `Memory` where there is none left.
pub fn copied(alloc: Global, bytes: &[u8]) -> Result<Bytes, Memory>
    ensures { IfOk result (λ copy. copy ≡ bytes.now) }
{
    Ok(Bytes::new(Vec::from_slice(alloc, bytes)?))
}

/// A FileId that is there is written into `out`.
pub fn write_id(found: Option<FileId>, out: &mut u64) -> Outcome
    ensures { MatchOption found ((result ≡ outcomes.NoSuch) × (out.new ≡ out.old))
        (λ id. (result ≡ outcomes.Done) × (out.new ≡ id.0)) }
{
    match found {
        Some(id) => {
            *out = id.0;
            Outcome::Done
        }
        None => Outcome::NoSuch,
    }
}
