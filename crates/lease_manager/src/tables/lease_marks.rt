ghost use Rattle.std.specs.Prelude.{◌≡◌};
ghost use Rattle.lease_model.specs.server.Ready as ready;
ghost use Rattle.lease_manager.specs.Hindering.{hinders_writes, marks_of};
ghost use Rattle.lease_manager.specs.Leases.{lease_of};

use crate::values::lease::HeldLease;

/// What a file's summary marks of the lease of a key.
#[derive(Clone, Copy, Debug, PartialEq, Eq)]
pub struct LeaseMarks {
    /// It holds `WRITE_CACHING`.
    pub writes: bool,
    /// It holds `HANDLE_CACHING`.
    pub handles: bool,
    /// It holds `HANDLE_CACHING`, and is breaking.
    pub breaks: bool,
    /// It hinders no write under another key.
    pub harmless: bool,
}

impl LeaseMarks {
    /// What is marked of this lease.
    pub fn of(lease: HeldLease) -> LeaseMarks
        ensures { result ≡ marks_of (lease_of lease) }
    {
        LeaseMarks {
            writes: lease.state.caches_writes(),
            handles: lease.state.caches_handles(),
            breaks: lease.state.caches_handles() && lease.is_breaking(),
            harmless: !hinders_writes(lease),
        }
    }
}

// Whether a write under another key isn't ready before the lease is broken: it holds something, and is
// not breaking to nothing yet.
fn hinders_writes(lease: HeldLease) -> bool
    ensures { result ≡ hinders_writes (lease_of lease) }
{
    lease.state.holds_any() && !breaks_to_nothing(lease)
}

fn breaks_to_nothing(lease: HeldLease) -> bool
    ensures { result ≡ ready.breaks_to_none (lease_of lease) }
{
    match lease.broken_to {
        Some(lowered) => !lowered.holds_any(),
        None => false,
    }
}
