ghost use Rattle.std.specs.Prelude.{◌≡◌, ◌+◌};
ghost use Rattle.std.specs.Option.{option_map};
ghost use Rattle.capture_wire.specs.Contexts.{IsLeaseV2};
ghost use Rattle.lease_wire_v2.specs.LeaseData.{lease_of, lease_bytes, break_flag, parent_flag, parent_bytes, IsCalm};
ghost use Rattle.lease_wire_v2.specs.LeaseData.{LeaseIsRead, LeaseReadsBack, LeaseWritesBack};

use byteorder::{ByteOrder, LittleEndian};
use capture_wire::LeaseV2;
use lease_state::LeaseKey;
use lease_wire::Direction;

/// How many bytes the data of an `RqLs` context of version 2 take.
pub const LEASE_SIZE: usize = 52;

// Where the fields stand that carry a value.
const STATE_OFFSET: usize = 16;

const FLAGS_OFFSET: usize = 20;

const PARENT_KEY_OFFSET: usize = 32;

const EPOCH_OFFSET: usize = 48;

// SMB2_LEASE_FLAG_BREAK_IN_PROGRESS
const BREAK_IN_PROGRESS: u32 = 2;

// SMB2_LEASE_FLAG_PARENT_LEASE_KEY_SET
const PARENT_LEASE_KEY_SET: u32 = 4;

fn break_flag(direction: Direction, lease: &LeaseV2) -> u32
    ensures { result ≡ break_flag direction (lease_of lease.now) }
{
    match direction {
        Direction::Request => 0,
        Direction::Reply if lease.breaking => BREAK_IN_PROGRESS,
        Direction::Reply => 0,
    }
}

fn flags(direction: Direction, lease: &LeaseV2) -> u32
    ensures { result ≡ break_flag direction (lease_of lease.now) + parent_flag (lease_of lease.now) }
{
    if lease.parent.is_some() {
        break_flag(direction, lease) + PARENT_LEASE_KEY_SET
    } else {
        break_flag(direction, lease)
    }
}

fn parent_bytes(parent: Option<LeaseKey>) -> [u8; 16]
    ensures { result ≡ parent_bytes (option_map (λ key. key.0) parent) }
{
    match parent {
        Some(key) => key.0,
        None => [0u8; 16],
    }
}

/// The data of an `RqLs` context of version 2 (MS-SMB2 2.2.13.2.10, 2.2.14.2.11) in a request or in a response, as their 52 bytes.
/// LeaseDuration and Reserved are 0, and so is ParentLeaseKey where there is none. A request has no bit for a break in
/// progress: none is written there. `capture_wire::read_lease_v2` reads the value back.
pub fn encode_lease_v2(direction: Direction, lease: &LeaseV2) -> [u8; LEASE_SIZE]
    ensures text { result ≡ lease_bytes direction (lease_of lease.now) }
    ensures layout { IsCalm direction lease.now.breaking → IsLeaseV2 direction result lease.now }
{
    let LeaseV2 {
        key,
        state,
        breaking: _,
        parent,
        epoch,
    } = *lease;
    let mut bytes = [0u8; LEASE_SIZE];
    LittleEndian::write_u32(&mut bytes[STATE_OFFSET..], state.to_wire());
    LittleEndian::write_u32(&mut bytes[FLAGS_OFFSET..], flags(direction, lease));
    LittleEndian::write_u16(&mut bytes[EPOCH_OFFSET..], epoch);
    bytes[PARENT_KEY_OFFSET..PARENT_KEY_OFFSET + 16].copy_from_slice(&parent_bytes(parent));
    bytes[..16].copy_from_slice(&key.0);
    bytes
}

/// Laws of the data of leases: what `capture_wire::read_lease_v2` gives is what 52 bytes say; what is written is read back, and
/// what is read of data whose free fields are 0 is written back. Does nothing.
pub fn lease_laws()
    ensures is_read { LeaseIsRead }
    ensures reads_back { LeaseReadsBack }
    ensures writes_back { LeaseWritesBack }
{}
