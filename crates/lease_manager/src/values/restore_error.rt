use lease_state::Memory;

/// Why kept opens aren't restored. MS-SMB2 says nothing of restarts.
#[derive(Clone, Copy, Debug, PartialEq, Eq)]
pub enum RestoreError {
    /// A law that holds of every manager would be broken.
    Unlawful,
    /// There is no memory left.
    Memory,
}

/// So that `?` passes want of memory on.
impl From<Memory> for RestoreError {
    ghost use Rattle.std.specs.Prelude.{◌≡◌};
    ghost use Rattle.lease_manager.specs.declared.values.restore_error.RestoreError.TheVariants as errors;

    ghost from_gives = { λ refused made. made ≡ errors.Memory };

    fn from(_refused: Memory) -> RestoreError {
        RestoreError::Memory
    }
}
