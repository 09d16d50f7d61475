ghost use Rattle.std.specs.Prelude.{◌≡◌};
ghost use Rattle.uuid.specs.Text.{hyphenated_text, lower};

use uuid::Uuid;

/// The LeaseKey with which a client names a lease (MS-SMB2 2.2.13.2): sixteen bytes.
#[derive(Clone, Copy, Debug, PartialEq, Eq, PartialOrd, Ord, Hash)]
pub struct LeaseKey(pub [u8; 16]);

impl LeaseKey {
    /// The key as text: its bytes as they stand in lower-case hexadecimal digits, 36 characters
    /// with hyphens after 8, 12, 16 and 20 digits (profile). The text is written into `buffer`.
    pub fn text<'b>(&self, buffer: &'b mut [u8; 36]) -> &'b str
        ensures { result.now ≡ hyphenated_text lower self.now.0 }
    {
        Uuid::from_bytes(self.0).hyphenated().encode_lower(buffer)
    }
}

#[cfg(test)]
mod tests {
    use super::*;

    #[test]
    fn a_key_is_written_byte_by_byte(rt: HostRuntime) {
        let key = LeaseKey([0, 1, 2, 3, 4, 5, 6, 7, 8, 9, 10, 11, 12, 13, 14, 15]);
        let mut buffer = [0; 36];
        assert_eq!(rt;
            key.text(&mut buffer),
            "00010203-0405-0607-0809-0a0b0c0d0e0f"
        );
    }
}
