ghost use Rattle.std.specs.Prelude.{◌≡◌, ◌≤◌, ◌+◌, ◌++◌, [], length, take, drop, nat_le, vec_len, IsOk, IfOk, OnOk, OnErr};
ghost use Rattle.lease_state.specs.Content.{patch, end_of};

use crate::content::FILE_LIMIT;
use crate::{Bytes, Memory};

/// Bytes to be put into a file (profile): its content from byte `offset` on becomes `bytes`.
#[derive(Debug, Drop, PartialEq, Eq)]
pub struct Patch {
    /// The place of the first byte, counted in bytes from the file's start.
    pub offset: u32,
    pub bytes: Bytes,
}

impl Patch {
    /// An equal patch in memory of its own.
    ///
    /// # Errors
    ///
    /// `Memory` where there is none left.
    pub fn try_copy(&self) -> Result<Patch, Memory>
        ensures { IfOk result (λ copy. copy ≡ self.now) }
    {
        Ok(Patch {
            offset: self.offset,
            bytes: self.bytes.try_copy()?,
        })
    }

    /// Whether the patch ends within `FILE_LIMIT` (profile), also one without bytes.
    pub fn is_within_limit(&self) -> bool
        ensures { result ≡ nat_le (end_of self.now) FILE_LIMIT }
    {
        let count = self.bytes.len();
        count <= FILE_LIMIT && self.offset as usize <= FILE_LIMIT - count
    }

    /// Puts the patch's bytes at its offset, and zeros into a gap before them; an empty patch changes
    /// nothing. The limit of a file is not looked at.
    ///
    /// # Errors
    ///
    /// `Memory` only where the bytes have to grow and there is none left. They are as they were then.
    pub fn apply(&self, bytes: &mut Vec<u8>) -> Result<(), Memory>
        ensures patched { OnOk result (bytes.new.items ≡ patch bytes.old.items self.now) }
        ensures err { OnErr result (bytes.new.items ≡ bytes.old.items) }

        // A patch that adds no byte allocates nothing.
        ensures inside { end_of self.now ≤ vec_len bytes.old → IsOk result }
        ensures empty { self.now.bytes ≡ [] → IsOk result }
    {
        let held = bytes.len();
        let offset = self.offset as usize;
        let added = self.bytes.as_slice();
        if !added.is_empty() {
            let Some(end) = offset.checked_add(added.len()) else {
                return Err(Memory);
            };
            bytes.resize(end.max(held), 0)?;
            write_over(bytes, offset, added);
        }
        Ok(())
    }
}

// Writes bytes over those from `offset` on.
fn write_over(items: &mut [u8], offset: usize, bytes: &[u8])
    requires { offset + length bytes.now ≤ length items.old }
    ensures { items.new ≡ take offset items.old ++ (bytes.now ++ drop (offset + length bytes.now) items.old) }
{
    items[offset..offset + bytes.len()].copy_from_slice(bytes);
}

#[cfg(test)]
mod tests {
    use super::*;
    use std::test::Fail;

    #[test]
    fn copies_a_patch(rt: HostRuntime) -> Result<(), Fail> {
        let patch = Patch {
            offset: 4,
            bytes: Bytes::new(Vec::from_slice(rt.alloc(), b"Y")?),
        };
        let copy = patch.try_copy()?;
        assert_eq!(rt; copy, patch);
        assert_eq!(rt; copy.offset, 4);
        assert_eq!(rt; copy.bytes.as_slice(), b"Y".as_slice());
        Ok(())
    }

    #[test]
    fn patches_bytes_past_the_limit_of_a_file(rt: HostRuntime) -> Result<(), Fail> {
        let patch = Patch {
            offset: 1_048_575,
            bytes: Bytes::new(Vec::from_slice(rt.alloc(), b"YZ")?),
        };
        assert!(rt; !patch.is_within_limit());
        let mut bytes = Vec::from_slice(rt.alloc(), b"abc")?;
        patch.apply(&mut bytes)?;
        assert_eq!(rt; bytes.len(), 1_048_577);
        assert_eq!(rt; &bytes.as_slice()[..4], b"abc\0".as_slice());
        assert_eq!(rt; &bytes.as_slice()[1_048_574..], b"\0YZ".as_slice());
        Ok(())
    }
}
