ghost use Rattle.std.specs.Prelude.{◌≡◌, ◌<◌, ◌^◌, ◌++◌, ℕ, length, IfOk, OnOk};
ghost use Rattle.byteorder.specs.Endian.{little_bytes};
ghost use Rattle.kept_opens.specs.Kept.{magic, kept_bytes, AllBorne, SaysOnly};

use crate::entry::entry_bytes;
use byteorder::{ByteOrder, LittleEndian};
use lease_manager::KeptOpen;
use lease_state::{FileId, Memory};
use sha2::{Digest, Sha256};
use std::alloc::Global;

/// The first bytes of all texts.
pub(crate) const MAGIC: [u8; 8] = *b"SMBKEPT1";

// What stands before the opens.
fn heading(last: FileId, count: u64) -> [u8; 24]
    ensures text { result ≡ magic ++ (little_bytes 8 last.0 ++ little_bytes 8 count) }
    ensures fits { last.0 < 2 ^ 64 }
{
    let mut bytes = [0u8; 24];
    bytes[..8].copy_from_slice(&MAGIC);
    LittleEndian::write_u64(&mut bytes[8..], last.0);
    LittleEndian::write_u64(&mut bytes[16..], count);
    bytes
}

/// The bytes of opens that are kept, with the FileId that their server gave last (own). Bits of a state that name nothing are
/// not written.
///
/// # Errors
///
/// `Memory` where there is none left for the bytes.
pub fn write(alloc: Global, last: FileId, kept: &[KeptOpen]) -> Result<Vec<u8>, Memory>
    ensures bytes { IfOk result (λ bytes. bytes.items ≡ kept_bytes last.0 kept.now) }

    // What the laws ask of opens.
    ensures borne { OnOk result ((last.0 < 2 ^ 64) × AllBorne kept.now) }

    // What is read of the bytes says the same.
    ensures read_back { IfOk result (λ bytes. SaysOnly bytes.items last.0 kept.now) }
{
    let mut bytes = Vec::new(alloc);
    bytes.extend_from_slice(&heading(last, kept.len() as u64))?;
    for one in kept {
        bytes.extend_from_slice(&entry_bytes(*one))?;
    }
    let digest = Sha256::digest(bytes.as_slice());
    bytes.extend_from_slice(&digest)?;
    Ok(bytes)
}
