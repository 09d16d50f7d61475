ghost use Rattle.std.specs.Prelude.{◌≡◌, ◌^◌, ◌<◌, is_none};
ghost use Rattle.lease_wire.specs.WireFaults.{message_fault};
ghost use Rattle.lease_c.specs.Kind.{message_kind};

use byteorder::{ByteOrder, LittleEndian};

// Whether the bytes begin with a message of this size, whose StructureSize gives that size.
fn begins_with_size(bytes: &[u8], size: u16) -> bool
    requires { 1 < size }
    ensures { result ≡ is_none (message_fault size bytes.now) }
{
    bytes.len() >= usize::from(size) && LittleEndian::read_u16(bytes) == size
}

/// Returns which message the body of an OPLOCK_BREAK command is, by its StructureSize and length
/// (MS-SMB2 2.2.23 to 2.2.25): `enum smblease_message_kind`. Bytes after the message are passed
/// over.
#[unsafe(no_mangle)]
pub extern "C" fn smblease_message_kind(bytes: &[u8]) -> u32
    ensures { result ≡ message_kind bytes.now }
{
    if begins_with_size(bytes, 44) {
        1
    } else if begins_with_size(bytes, 36) {
        2
    } else if begins_with_size(bytes, 24) {
        3
    } else {
        0
    }
}
