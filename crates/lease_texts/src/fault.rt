ghost use Rattle.std.specs.Prelude.{◌≡◌};
ghost use Rattle.lease_texts.specs.declared.fault.LineFault.TheVariants as fault;

use lease_state::Memory;
use std::alloc::{AllocError, AllocFailed};

/// Why a line of a schedule or of a record gives nothing.
#[derive(Clone, Copy, Debug, PartialEq, Eq)]
pub enum LineFault {
    /// No line reads so.
    Refused,
    /// There was no memory for what it holds.
    Memory,
}

impl From<AllocError> for LineFault {
    ghost from_gives = { λ _ e. e ≡ fault.Memory };

    fn from(_error: AllocError) -> LineFault {
        LineFault::Memory
    }
}

impl<T: Drop> From<AllocFailed<T>> for LineFault {
    ghost from_gives = { λ _ e. e ≡ fault.Memory };

    fn from(_error: AllocFailed<T>) -> LineFault {
        LineFault::Memory
    }
}

/// Why a text is no schedule.
#[derive(Clone, Copy, Debug, PartialEq, Eq)]
pub enum TextFault {
    /// The line of this number, from 1, is the first that is refused.
    Line(u64),
    /// There was no memory for what it holds.
    Memory,
}

impl From<Memory> for LineFault {
    ghost from_gives = { λ _ e. e ≡ fault.Memory };

    fn from(_error: Memory) -> LineFault {
        LineFault::Memory
    }
}
