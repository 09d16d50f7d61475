ghost use Rattle.std.specs.Prelude.{◌≡◌};
ghost use Rattle.lease_state.specs.State.{bits_of_state, state_of_bits, granted_form_of, needs_acknowledgment, is_state_within};
ghost use Rattle.lease_c.specs.Numbers.{access_of_bits, share_of_bits, conflict_of};

use lease_state::{Access, LeaseState, Share};

/// The access that the bits name; `None` where it neither reads nor writes.
pub(crate) fn access_of_bits(bits: u8) -> Option<Access>
    ensures { result ≡ access_of_bits bits }
{
    match (bits & 1 == 1, bits & 2 == 2) {
        (false, false) => None,
        (true, false) => Some(Access::Read),
        (false, true) => Some(Access::Write),
        (true, true) => Some(Access::ReadWrite),
    }
}

/// The share that the bits name.
pub(crate) fn share_of_bits(bits: u8) -> Share
    ensures { result ≡ share_of_bits bits }
{
    match (bits & 1 == 1, bits & 2 == 2) {
        (false, false) => Share::Nothing,
        (true, false) => Share::Read,
        (false, true) => Share::Write,
        (true, true) => Share::ReadWrite,
    }
}

/// Returns whether two opens of a file conflict (MS-SMB2 2.2.13, 3.3.5.9): whether the access of
/// one isn't within the share of the other. An open that neither reads nor writes conflicts with
/// none (profile).
#[unsafe(no_mangle)]
pub extern "C" fn smblease_opens_conflict(
    access: u8,
    share: u8,
    other_access: u8,
    other_share: u8,
) -> bool
    ensures { result ≡ conflict_of (access_of_bits access) (share_of_bits share) (access_of_bits other_access)
        (share_of_bits other_share) }
{
    match (access_of_bits(access), access_of_bits(other_access)) {
        (Some(one), Some(other)) => {
            one.conflicts(share_of_bits(share), other, share_of_bits(other_share))
        }
        _ => false,
    }
}

/// Returns the state as a server grants it: itself, or 0 where it has no READ_CACHING (profile).
/// Bits that name nothing are dropped.
#[unsafe(no_mangle)]
pub extern "C" fn smblease_granted_form(state: u32) -> u32
    ensures { result ≡ bits_of_state (granted_form_of (state_of_bits state)) }
{
    LeaseState::from_wire(state).granted_form().to_wire()
}

/// Returns whether a break of a lease of this state is to be acknowledged (MS-SMB2 3.3.4.7).
#[unsafe(no_mangle)]
pub extern "C" fn smblease_needs_acknowledgment(state: u32) -> bool
    ensures { result ≡ needs_acknowledgment (state_of_bits state) }
{
    LeaseState::from_wire(state).needs_ack()
}

/// Returns whether all that the state caches is cached in the other too.
#[unsafe(no_mangle)]
pub extern "C" fn smblease_is_within(state: u32, other: u32) -> bool
    ensures { result ≡ is_state_within (state_of_bits state) (state_of_bits other) }
{
    LeaseState::from_wire(state).is_within(LeaseState::from_wire(other))
}
