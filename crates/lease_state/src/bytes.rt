ghost use Rattle.std.specs.Prelude.{◌≡◌, ◌↔◌, ℕ, List, [], length, IfOk, IsTrue, nat_eq};
ghost use Rattle.std.specs.Cmp.{partial_equiv_from_equiv};
ghost use Rattle.std.specs.Cmp.Lexicographic.{pointwise, nat_list_eq_equiv};

use crate::Memory;
use std::convert::AsSlice;
use std::marker::Model;

/// Bytes that a value owns, such as those of a write or of a request's create contexts (profile). To contracts they are a list.
#[derive(Debug, Drop)]
pub struct Bytes {
    items: Vec<u8>,
}

impl Model for Bytes {
    ghost Value = { List ℕ };

    ghost view = { λ b. b.items.items };
}

impl Bytes {
    /// The bytes of `items`, which stay where they are. Allocates nothing.
    pub fn new(items: Vec<u8>) -> Bytes
        ensures { result ≡ items.items }
    {
        Bytes { items }
    }

    /// The bytes, in order.
    pub fn as_slice(&self) -> &[u8]
        ensures { result.now ≡ self.now }
    {
        self.items.as_slice()
    }

    /// How many bytes there are.
    pub fn len(&self) -> usize
        ensures { result ≡ length self.now }
    {
        self.items.len()
    }

    /// Whether there are none.
    pub fn is_empty(&self) -> bool
        ensures { IsTrue result ↔ (self.now ≡ []) }
    {
        self.items.is_empty()
    }

    /// The bytes as a vector. Allocates nothing.
    pub fn into_vec(self) -> Vec<u8>
        ensures { result.items ≡ self }
    {
        let Bytes { items } = self;
        items
    }

    /// Equal bytes in memory of their own, from the allocator of these.
    ///
    /// # Errors
    ///
    /// `Memory` where there is none left.
    pub fn try_copy(&self) -> Result<Bytes, Memory>
        ensures { IfOk result (λ copy. copy ≡ self.now) }
    {
        let items = Vec::from_slice(*self.items.allocator(), self.items.as_slice())?;
        Ok(Bytes { items })
    }
}

impl From<Vec<u8>> for Bytes {
    ghost from_gives = { λ items bytes. bytes ≡ items.items };

    fn from(items: Vec<u8>) -> Bytes {
        Bytes::new(items)
    }
}

impl AsSlice<u8> for Bytes {
    ghost items = { λ bytes. bytes };

    fn as_slice(&self) -> &[u8] {
        self.items.as_slice()
    }
}

impl PartialEq for Bytes {
    ghost eq = { pointwise nat_eq };

    ghost laws = { partial_equiv_from_equiv nat_list_eq_equiv };

    fn eq(&self, other: &Bytes) -> bool {
        self.items == other.items
    }
}

impl Eq for Bytes {
    ghost laws = { nat_list_eq_equiv };
}

#[cfg(test)]
mod tests {
    use super::*;
    use std::test::Fail;

    #[test]
    fn holds_a_vector_and_gives_it_back(rt: HostRuntime) -> Result<(), Fail> {
        let bytes = Bytes::new(Vec::from_slice(rt.alloc(), b"abc")?);
        assert_eq!(rt; bytes.as_slice(), b"abc".as_slice());
        let copy = bytes.try_copy()?;
        assert!(rt; copy == bytes);
        assert_eq!(rt; (bytes.len(), bytes.is_empty()), (3, false));
        assert!(rt; Bytes::from(Vec::new(rt.alloc())).is_empty());
        assert_eq!(rt; AsSlice::as_slice(&bytes), b"abc".as_slice());
        assert_eq!(rt; bytes.into_vec().as_slice(), b"abc".as_slice());
        assert!(rt; copy != Bytes::new(Vec::from_slice(rt.alloc(), b"abd")?));
        Ok(())
    }
}
