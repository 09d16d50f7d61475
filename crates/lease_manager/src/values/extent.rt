ghost use Rattle.std.specs.Prelude.{◌≡◌};
ghost use Rattle.lease_manager.specs.GivingUp.{wish_of};

use crate::values::want::Wish;

/// What other keys on a file are to give up for something that no open of a client asks (own).
#[derive(Clone, Copy, Debug, PartialEq, Eq)]
pub enum Extent {
    /// Handle caching: what renames the file, removes it or changes its disposition.
    Handles,
    /// All that is cached: what changes its bytes or its size, or locks a part of it.
    All,
}

impl Extent {
    /// What it wishes of their leases.
    pub fn wish(self) -> Wish
        ensures { result ≡ wish_of self }
    {
        match self {
            Extent::Handles => Wish::AnyHandles,
            Extent::All => Wish::Nothing,
        }
    }
}
