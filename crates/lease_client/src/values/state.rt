ghost use Rattle.std.specs.Prelude.{◌≡◌};
ghost use Rattle.lease_state.specs.State.{state_of};
ghost use Rattle.lease_model.specs.client.Taken.{gives_up};
ghost use Rattle.lease_model.specs.values.LeaseStates.{same_state};

use lease_state::LeaseState;

/// Whether both hold the same.
pub fn is_same(one: LeaseState, other: LeaseState) -> bool
    ensures { result ≡ same_state (state_of one) (state_of other) }
{
    one.caches_reads() == other.caches_reads()
        && one.caches_writes() == other.caches_writes()
        && one.caches_handles() == other.caches_handles()
}

/// Whether writes or handles go.
pub fn gives_up(old: LeaseState, new: LeaseState) -> bool
    ensures { result ≡ gives_up (state_of old) (state_of new) }
{
    (old.caches_writes() && !new.caches_writes()) || (old.caches_handles() && !new.caches_handles())
}
