ghost use Rattle.std.specs.Prelude.{◌≡◌, ◌≤◌, IfOk, IfSome};

use byteorder::{ByteOrder, LittleEndian};
use bytes::Bytes as Shared;
use lease_state::{Bytes, Memory};
use std::alloc::Global;
use std::collections::BTreeMap;

// Contents that nobody holds any more are looked for once there are so many.
const FEW: usize = 16;
// The bytes of a number that digests are made of.
const WORD: usize = 8;
// How many such numbers a sample has.
const SAMPLED: usize = 16;

/// The contents of files that were read: a later read that gives the same bytes shares them. Most files weren't changed since
/// they were read, so what was read last is found by a sample and compared; a digest of all bytes finds what was read before.
// docs/DESIGN.md: "Replies on their way share what was read".
#[derive(Debug, Drop)]
pub struct Contents {
    /// Those read last, by their samples.
    last: BTreeMap<u64, Shared>,
    /// All, by their digests.
    kept: BTreeMap<u64, Shared>,
    room: usize,
}

impl Contents {
    /// None yet. Allocates nothing.
    pub fn new(alloc: Global) -> Contents {
        Contents {
            last: BTreeMap::new(alloc),
            kept: BTreeMap::new(alloc),
            room: FEW,
        }
    }

    /// These bytes, which are those of an earlier read where it gave the same.
    ///
    /// # Errors
    ///
    /// `Memory` where there is none left for the count of those that hold them, or for the list of contents.
    pub fn share(&mut self, bytes: Bytes) -> Result<Shared, Memory>
        ensures { IfOk result (λ shared. shared ≡ bytes) }
    {
        let sample = sample_of(bytes.as_slice());
        if let Some(shared) = found(&self.last, sample, &bytes)? {
            return Ok(shared);
        }
        let shared = self.share_by_digest(bytes)?;
        if self.last.insert(sample, shared.clone()?).is_err() {
            return Err(Memory);
        }
        Ok(shared)
    }

    // The same, by the digest of all bytes.
    fn share_by_digest(&mut self, bytes: Bytes) -> Result<Shared, Memory>
        ensures { IfOk result (λ shared. shared ≡ bytes) }
    {
        let digest = digest_of(bytes.as_slice(), WORD);
        if let Some(shared) = found(&self.kept, digest, &bytes)? {
            return Ok(shared);
        }
        self.make_room();
        let shared = new_shared(bytes)?;
        if self.kept.insert(digest, shared.clone()?).is_err() {
            return Err(Memory);
        }
        Ok(shared)
    }

    // Contents that nobody else holds are forgotten, where there are many.
    fn make_room(&mut self) {
        if self.kept.len() >= self.room {
            self.last.clear();
            self.kept.retain(|_, kept| !kept.is_unique());
            self.room = self.kept.len().saturating_mul(2).max(FEW);
        }
    }
}

// What is kept under the number, where it is these bytes.
fn found(kept: &BTreeMap<u64, Shared>, number: u64, bytes: &Bytes) -> Result<Option<Shared>, Memory>
    ensures { IfOk result (λ found. IfSome found (λ shared. shared ≡ bytes.now)) }
{
    match kept.get(&number) {
        Some(one) if one.as_slice() == bytes.as_slice() => Ok(Some(one.clone()?)),
        _ => Ok(None),
    }
}

fn new_shared(bytes: Bytes) -> Result<Shared, Memory>
    ensures { IfOk result (λ shared. shared ≡ bytes) }
{
    match Shared::from_vec(bytes.into_vec()) {
        Ok(shared) => Ok(shared),
        Err(_) => Err(Memory),
    }
}

// The digest of a few of the bytes.
fn sample_of(bytes: &[u8]) -> u64 {
    digest_of(bytes, (bytes.len() / SAMPLED).max(WORD))
}

// A number by which contents are found, of their length and of the eight bytes at each so many bytes. Other contents may have it.
fn digest_of(bytes: &[u8], step: usize) -> u64
    requires { 8 ≤ step }
{
    let mut digest = bytes.len() as u64;
    let mut rest = bytes;
    while rest.len() >= step {
        digest = (digest.rotate_left(5) ^ LittleEndian::read_u64(rest)).wrapping_mul(
            0x9e37_79b9_7f4a_7c15,
        );
        rest = &rest[step..];
    }
    digest
}
