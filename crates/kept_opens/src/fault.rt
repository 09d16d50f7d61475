use lease_state::Memory;
use thiserror::Error;

/// Why no opens were read (own).
#[derive(Clone, Copy, Debug, PartialEq, Eq, Error)]
pub enum ReadError {
    /// The bytes are not those of any opens: they were cut off or changed, or are another file's.
    #[error("1 Damaged")]
    Damaged,
    /// There is no memory left for the opens.
    #[error("2 Memory")]
    Memory,
}

impl From<Memory> for ReadError {
    ghost use Rattle.std.specs.Prelude.{◌≡◌};
    ghost use Rattle.kept_opens.specs.declared.fault.ReadError.TheVariants as fault;

    ghost from_gives = { λ _ e. e ≡ fault.Memory };

    fn from(_refused: Memory) -> ReadError {
        ReadError::Memory
    }
}

/// Why bytes make no manager (own).
#[derive(Clone, Copy, Debug, PartialEq, Eq, Error)]
pub enum ImportError {
    /// The bytes are not those of any opens.
    #[error("1 Damaged")]
    Damaged,
    /// Their opens would break a law that holds of every manager.
    #[error("2 Unlawful")]
    Unlawful,
    /// There is no memory left for the manager.
    #[error("3 Memory")]
    Memory,
}
