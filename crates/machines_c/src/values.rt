ghost use Rattle.std.specs.Prelude.{◌≡◌};
ghost use Rattle.std.specs.Option.{option_map};
ghost use Rattle.machines_c.specs.Values.{key_coded, key_given};

use lease_state::LeaseKey;

/// A lease key: `smblease_key`.
#[repr(C)]
#[derive(Clone, Copy, Debug, PartialEq, Eq)]
pub struct KeyBytes {
    pub bytes: [u8; 16],
}

/// A lease break acknowledgment or response without its header (2.2.24.2, 2.2.25.2):
/// `smblease_ack_message`.
#[repr(C)]
#[derive(Clone, Copy, Debug, PartialEq, Eq)]
pub struct AckMessage {
    pub bytes: [u8; 36],
}

/// A lease key, or none: `smblease_maybe_key`.
#[repr(C)]
#[derive(Clone, Copy, Debug, PartialEq, Eq)]
pub struct MaybeKey {
    pub bytes: [u8; 16],
    /// Whether there is a key.
    pub has_key: u8,
}

impl MaybeKey {
    /// The key, where there is one.
    pub(crate) fn key(&self) -> Option<LeaseKey>
        ensures given { option_map (λ key. key.0) result ≡ key_given self.now }
        ensures coded { result ≡ key_coded self.now }
    {
        if self.has_key != 0 {
            Some(LeaseKey(self.bytes))
        } else {
            None
        }
    }
}
