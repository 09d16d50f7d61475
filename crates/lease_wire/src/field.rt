ghost use Rattle.std.specs.Prelude.{◌≡◌, ◌+◌, ◌≤◌, length, take, drop};
ghost use Rattle.lease_state.specs.State.{state_of, state_of_bits};
ghost use Rattle.lease_wire.specs.Field.{number_at, bytes_at};

use byteorder::{ByteOrder, LittleEndian};
use lease_state::{LeaseKey, LeaseState};

/// The lease key in the sixteen bytes at a place of a message.
pub(crate) fn key_at(message: &[u8], place: usize) -> LeaseKey
    requires { place + 16 ≤ length message.now }
    ensures { result.0 ≡ bytes_at place 16 message.now }
{
    let mut key = [0u8; 16];
    key.copy_from_slice(&message[place..place + 16]);
    LeaseKey(key)
}

/// The lease state in the four bytes at a place of a message. Bits past 7 are dropped.
pub(crate) fn state_at(message: &[u8], place: usize) -> LeaseState
    requires { place + 4 ≤ length message.now }
    ensures { state_of result ≡ state_of_bits (number_at place 4 message.now) }
{
    LeaseState::from_wire(LittleEndian::read_u32(&message[place..]))
}
