ghost use Rattle.std.specs.Prelude.{◌≡◌, ◌≢◌, ◌↔◌, ◌≤◌, ◌+◌, [], ◌∷◌, IsTrue, length, take, drop, IfSome, IfNone};
ghost use Rattle.lease_state.specs.Access.{uses_of, allowed_by, bits_of_uses};
ghost use Rattle.lease_state.specs.State.{State, state_of, bits_of_state};
ghost use Rattle.lease_state.specs.declared.access.Access.{Access};
ghost use Rattle.lease_state.specs.declared.access.Share.{Share};
ghost use Rattle.lease_wire.specs.Field.{number_at};
ghost use Rattle.kept_opens.specs.Entry.{Entry, entry_of, entry_bytes, rights_bytes, HasKey, IsBorne, IsNamed};

use byteorder::{ByteOrder, LittleEndian};
use lease_manager::{ClientNo, FileNo, KeptOpen};
use lease_state::{Access, FileId, LeaseKey, LeaseState, Share};

/// How many bytes an open takes.
pub(crate) const ENTRY_SIZE: usize = 48;

// Where the fields stand.
const CLIENT_OFFSET: usize = 8;

const FILE_OFFSET: usize = 16;

const KEY_OFFSET: usize = 24;

const ACCESS_OFFSET: usize = 40;

const SHARE_OFFSET: usize = 41;

const STATE_OFFSET: usize = 42;

const RESERVED_OFFSET: usize = 43;

/// The bytes of an open.
#[tactic(auto, unfolding(crate::specs::Entry::entry_bytes))]
pub(crate) fn entry_bytes(one: KeptOpen) -> [u8; ENTRY_SIZE]
    ensures text { result ≡ entry_bytes (entry_of one) }
    ensures borne { IsBorne (entry_of one) }
{
    let mut bytes = [0u8; ENTRY_SIZE];
    LittleEndian::write_u64(&mut bytes[0..], one.file_id.0);
    LittleEndian::write_u64(&mut bytes[CLIENT_OFFSET..], one.client.0);
    LittleEndian::write_u64(&mut bytes[FILE_OFFSET..], one.file.0);
    bytes[ACCESS_OFFSET] = one.access.bits();
    bytes[SHARE_OFFSET] = one.share.bits();
    bytes[STATE_OFFSET] = one.state.to_wire() as u8;
    bytes[KEY_OFFSET..KEY_OFFSET + 16].copy_from_slice(&one.key.0);
    bytes
}

/// The number in the eight bytes at a place.
pub(crate) fn number_at(bytes: &[u8], place: usize) -> u64
    requires { place + 8 ≤ length bytes.now }
    ensures { result ≡ number_at place 8 bytes.now }
{
    LittleEndian::read_u64(&bytes[place..])
}

fn access_of(byte: u8) -> Option<Access>
    ensures some { IfSome result (λ access. bits_of_uses (uses_of access) ≡ byte) }
    ensures none { IfNone result ((access : Access) → bits_of_uses (uses_of access) ≢ byte) }
{
    match byte {
        1 => Some(Access::Read),
        2 => Some(Access::Write),
        3 => Some(Access::ReadWrite),
        _ => None,
    }
}

fn share_of(byte: u8) -> Option<Share>
    ensures some { IfSome result (λ share. bits_of_uses (allowed_by share) ≡ byte) }
    ensures none { IfNone result ((share : Share) → bits_of_uses (allowed_by share) ≢ byte) }
{
    match byte {
        0 => Some(Share::Nothing),
        1 => Some(Share::Read),
        2 => Some(Share::Write),
        3 => Some(Share::ReadWrite),
        _ => None,
    }
}

fn state_of(byte: u8) -> Option<LeaseState>
    ensures some { IfSome result (λ state. bits_of_state (state_of state) ≡ byte) }
    ensures named { IfSome result (λ state. bits_of_state (state_of state) ≡ state.0) }
    ensures none { IfNone result ((state : State) → bits_of_state state ≢ byte) }
{
    if byte < 8 {
        Some(LeaseState::from_wire(u32::from(byte)))
    } else {
        None
    }
}

fn are_reserved(bytes: &[u8]) -> bool
    ensures { IsTrue result ↔ (bytes.now ≡ 0 ∷ 0 ∷ 0 ∷ 0 ∷ 0 ∷ []) }
{
    bytes == [0u8; 5].as_slice()
}

// The access, the share and the state of an open, where its bytes have them and zeros after them.
fn rights_of(bytes: &[u8]) -> Option<(Access, Share, LeaseState)>
    requires { length bytes.now ≡ 48 }
    ensures some { IfSome result (λ r. rights_bytes r.0 r.1 (state_of r.2) ≡ drop 40 bytes.now) }
    ensures named { IfSome result (λ r. bits_of_state (state_of r.2) ≡ r.2.0) }
    ensures none { IfNone result ((access : Access) (share : Share) (state : State)
        → rights_bytes access share state ≢ drop 40 bytes.now) }
{
    if !are_reserved(&bytes[RESERVED_OFFSET..]) {
        return None;
    }
    let access = access_of(bytes[ACCESS_OFFSET])?;
    let share = share_of(bytes[SHARE_OFFSET])?;
    let state = state_of(bytes[STATE_OFFSET])?;
    Some((access, share, state))
}

// The key at its place.
fn key_of(bytes: &[u8]) -> LeaseKey
    requires { length bytes.now ≡ 48 }
    ensures { result.0 ≡ take 16 (drop 24 bytes.now) }
{
    let mut key = [0u8; 16];
    key.copy_from_slice(&bytes[KEY_OFFSET..KEY_OFFSET + 16]);
    LeaseKey(key)
}

/// The open that 48 bytes hold, if they hold one.
pub(crate) fn entry_of(bytes: &[u8]) -> Option<KeptOpen>
    requires { length bytes.now ≡ 48 }
    ensures some { IfSome result (λ one. entry_bytes (entry_of one) ≡ bytes.now) }
    ensures borne { IfSome result (λ one. IsBorne (entry_of one)) }
    ensures named { IfSome result (λ one. IsNamed one) }
    ensures none { IfNone result ((v : Entry) → HasKey v → entry_bytes v ≢ bytes.now) }
{
    match rights_of(bytes) {
        Some((access, share, state)) => Some(KeptOpen {
            file_id: FileId(number_at(bytes, 0)),
            client: ClientNo(number_at(bytes, CLIENT_OFFSET)),
            file: FileNo(number_at(bytes, FILE_OFFSET)),
            key: key_of(bytes),
            access,
            share,
            state,
        }),
        None => None,
    }
}
