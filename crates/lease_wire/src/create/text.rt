ghost use Rattle.std.specs.Prelude.{◌≡◌, ◌+◌, ◌≤◌, ◌++◌, length, if◌then◌else◌};
ghost use Rattle.arrayvec.specs.ArrayVec.{array_vec_len};
ghost use Rattle.lease_wire.specs.Canonical.{header_bytes, context_bytes, lease_body, lease_bytes, durable_bytes};
ghost use Rattle.lease_wire.specs.Canonical.{reconnect_bytes, reconnect_body, canonical_text};
ghost use Rattle.lease_wire.specs.Views.{lease_of, values_of};
ghost use Rattle.std.specs.Option.{option_map};

use crate::create::Direction;
use crate::create::meaning::Lease;
use crate::create::reading::ContextValues;
use arrayvec::ArrayVec;
use byteorder::{ByteOrder, LittleEndian};
use lease_state::FileId;

// The names of the contexts that are known (MS-SMB2 2.2.13.2).
const LEASE: &[u8; 4] = b"RqLs";

const DURABLE: &[u8; 4] = b"DHnQ";

const RECONNECT: &[u8; 4] = b"DHnC";

// The header of a context with its name, which is four bytes long.
fn header(next: u32, name: &[u8; 4], count: u32) -> [u8; 24]
    ensures { result ≡ header_bytes next name.now count }
{
    let mut bytes = [0u8; 24];
    LittleEndian::write_u32(&mut bytes[0..], next);
    LittleEndian::write_u16(&mut bytes[4..], 16);
    LittleEndian::write_u16(&mut bytes[6..], 4);
    LittleEndian::write_u16(&mut bytes[10..], 24);
    LittleEndian::write_u32(&mut bytes[12..], count);
    bytes[16..20].copy_from_slice(name);
    bytes
}

fn lease_flags(breaking: bool) -> u32
    ensures { result ≡ (if breaking then 2 else 0) }
{
    if breaking { 2 } else { 0 }
}

fn lease_data(lease: &Lease) -> [u8; 32]
    ensures { result ≡ lease_body (lease_of lease.now) }
{
    let mut bytes = [0u8; 32];
    LittleEndian::write_u32(&mut bytes[16..], lease.state.to_wire());
    LittleEndian::write_u32(&mut bytes[20..], lease_flags(lease.breaking));
    bytes[0..16].copy_from_slice(&lease.key.0);
    bytes
}

fn reconnect_data(file_id: FileId) -> [u8; 16]
    ensures { result ≡ reconnect_body file_id.0 }
{
    let mut bytes = [0u8; 16];
    LittleEndian::write_u64(&mut bytes[0..], file_id.0);
    LittleEndian::write_u64(&mut bytes[8..], file_id.0);
    bytes
}

// Appends bytes that the text has room for.
fn push(text: &mut ArrayVec<u8, 136>, part: &[u8])
    requires { array_vec_len text.old + length part.now ≤ 136 }
    ensures text { text.new.items ≡ text.old.items ++ part.now }
    ensures length { array_vec_len text.new ≡ array_vec_len text.old + length part.now }
{
    let _fits = text.try_extend_from_slice(part);
}

fn push_context(text: &mut ArrayVec<u8, 136>, followed: bool, name: &[u8; 4], data: &[u8])
    requires { array_vec_len text.old + (24 + length «data».now) ≤ 136 }
    ensures text { text.new.items ≡ text.old.items ++ context_bytes followed name.now «data».now }
    ensures length { array_vec_len text.new ≡ array_vec_len text.old + (24 + length «data».now) }
{
    let count = data.len() as u32;
    let next = if followed { 24 + count } else { 0 };
    push(text, &header(next, name, count));
    push(text, data);
}

fn push_lease(text: &mut ArrayVec<u8, 136>, followed: bool, lease: &Option<Lease>)
    requires { array_vec_len text.old + 56 ≤ 136 }
    ensures text { text.new.items ≡ text.old.items ++ lease_bytes followed (option_map lease_of lease.now) }
    ensures length { array_vec_len text.new ≤ array_vec_len text.old + 56 }
{
    if let Some(lease) = lease {
        push_context(text, followed, LEASE, &lease_data(lease));
    }
}

fn push_durable(text: &mut ArrayVec<u8, 136>, direction: Direction, followed: bool, durable: bool)
    requires { array_vec_len text.old + 40 ≤ 136 }
    ensures text { text.new.items ≡ text.old.items ++ durable_bytes direction followed durable }
    ensures length { array_vec_len text.new ≤ array_vec_len text.old + 40 }
{
    if !durable {
        return;
    }
    match direction {
        Direction::Request => push_context(text, followed, DURABLE, &[0u8; 16]),
        Direction::Reply => push_context(text, followed, DURABLE, &[0u8; 8]),
    }
}

fn push_reconnect(text: &mut ArrayVec<u8, 136>, reconnect: Option<FileId>)
    requires { array_vec_len text.old + 40 ≤ 136 }
    ensures text { text.new.items ≡ text.old.items ++ reconnect_bytes (option_map (λ file_id. file_id.0) reconnect) }
{
    if let Some(file_id) = reconnect {
        push_context(text, false, RECONNECT, &reconnect_data(file_id));
    }
}

/// Puts the canonical text of what is asked for or granted into a text of no bytes: 136 bytes at
/// most, where it has a lease, a durable open and a reconnect.
#[inline(always)]
#[tactic(auto, unfolding(crate::specs::Canonical::canonical_text))]
pub(crate) fn push_text(text: &mut ArrayVec<u8, 136>, direction: Direction, values: &ContextValues)
    requires { array_vec_len text.old ≡ 0 }
    ensures { text.new.items ≡ canonical_text direction (values_of values.now) }
{
    let reconnects = values.reconnect.is_some();
    push_lease(text, values.durable || reconnects, &values.lease);
    push_durable(text, direction, reconnects, values.durable);
    push_reconnect(text, values.reconnect);
}
