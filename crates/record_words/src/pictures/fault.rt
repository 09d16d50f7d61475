ghost use Rattle.std.specs.Prelude.{◌≡◌};
ghost use Rattle.record_words.specs.declared.pictures.fault.PictureFault.TheVariants as fault;

use std::alloc::{AllocError, AllocFailed};

/// Why there is no picture.
#[derive(Clone, Copy, Debug, PartialEq, Eq)]
pub enum PictureFault {
    /// The record has more than [`MOST_FACTS`](crate::MOST_FACTS) facts.
    TooMany,
    /// There was no memory.
    Memory,
}

impl From<AllocError> for PictureFault {
    ghost from_gives = { λ _ given. given ≡ fault.Memory };

    fn from(_error: AllocError) -> PictureFault {
        PictureFault::Memory
    }
}

impl<T: Drop> From<AllocFailed<T>> for PictureFault {
    ghost from_gives = { λ _ given. given ≡ fault.Memory };

    fn from(_error: AllocFailed<T>) -> PictureFault {
        PictureFault::Memory
    }
}
