ghost use Rattle.std.specs.Prelude.{◌≡◌, ℕ, List, IfOk, IsOk, OnErr, OnOk, Some, None, is_some, false, true};
ghost use Rattle.std.specs.Option.{option_map};
ghost use Rattle.lease_model.specs.values.LeaseStates.{same_state};
ghost use Rattle.lease_state.specs.State.{state_of};
ghost use Rattle.lease_wire.specs.Create.{granted_view};
ghost use Rattle.lease_wire_v2.specs.Views.{lease_view_of, second_of};
ghost use Rattle.client_versions.specs.Epochs as epochs;
ghost use Rattle.client_versions.specs.Kept.{known_of, leases_of};
ghost use Rattle.client_versions.specs.Layer.{put_known};
ghost use Rattle.client_versions.specs.Rows as rows;

use lease_state::{LeaseKey, LeaseState, Memory};
use lease_wire_v2::{LeaseAnswer, SecondVersion};
use std::alloc::Global;
use std::collections::BTreeMap;

/// What is known of a lease (MS-SMB2 3.2.1.5).
#[derive(Clone, Copy, Debug, PartialEq, Eq)]
pub struct Known {
    /// The newest epoch that a message had.
    pub epoch: u16,
    /// The newest state that one had.
    pub state: LeaseState,
}

fn is_newer(before: u16, now: u16) -> bool
    ensures { result ≡ epochs.is_newer before now }
{
    let ahead = now.wrapping_sub(before);
    0 < ahead && ahead < 0x8000
}

fn is_same(one: LeaseState, other: LeaseState) -> bool
    ensures { result ≡ same_state (state_of one) (state_of other) }
{
    one.caches_reads() == other.caches_reads()
        && one.caches_writes() == other.caches_writes()
        && one.caches_handles() == other.caches_handles()
}

fn goes_down(before: LeaseState, now: LeaseState) -> bool
    ensures { result ≡ epochs.goes_down (state_of before) (state_of now) }
{
    now.is_within(before) && !is_same(now, before)
}

impl Known {
    // What the lease context of an answer tells.
    fn told_by(lease: LeaseAnswer, second: SecondVersion) -> Known
        ensures { known_of result ≡ rows.told_by (lease_view_of lease) (second_of second) }
    {
        Known {
            epoch: second.epoch,
            state: lease.state,
        }
    }

    /// Whether what a message says is taken.
    pub fn takes(self, told: Known) -> bool
        ensures { result ≡ epochs.is_taken (known_of self) (known_of told) }
    {
        is_newer(self.epoch, told.epoch)
            || (told.epoch == self.epoch && goes_down(self.state, told.state))
    }

    // After a message that tells this.
    fn after(found: Option<Known>, told: Known) -> Known
        ensures { known_of result ≡ epochs.known_after (option_map known_of found) (known_of told) }
    {
        match found {
            Some(known) if !known.takes(told) => known,
            _ => told,
        }
    }

    // After an answer that tells this while a break is in progress.
    fn in_break(found: Option<Known>, told: Known) -> Known
        ensures { known_of result ≡ epochs.known_in_break (option_map known_of found) (known_of told) }
    {
        match found {
            Some(known) if !is_newer(known.epoch, told.epoch) => known,
            _ => told,
        }
    }
}

// What the lease context of an answer leaves known.
fn known_by(lease: LeaseAnswer, second: SecondVersion, found: Option<Known>) -> Known
    ensures { known_of result ≡ rows.known_by (lease_view_of lease) (second_of second) (option_map known_of found) }
{
    let told = Known::told_by(lease, second);
    if lease.breaking {
        Known::in_break(found, told)
    } else {
        Known::after(found, told)
    }
}

// The state of an answer that the machine is given.
fn state_given(lease: LeaseAnswer, found: Option<Known>) -> LeaseState
    ensures { state_of result ≡ rows.state_given (lease_view_of lease) (lease_view_of lease).second (option_map known_of found) }
{
    match lease.second {
        Some(second) if !lease.breaking => known_by(lease, second, found).state,
        _ => lease.state,
    }
}

/// The leases by their keys.
#[derive(Debug, Drop)]
pub struct Leases {
    by_key: BTreeMap<LeaseKey, Known>,
}

impl Leases {
    /// None. Allocates nothing.
    pub fn new(alloc: Global) -> Leases
        ensures { (key : List ℕ) → leases_of result key ≡ None }
    {
        Leases {
            by_key: BTreeMap::new(alloc),
        }
    }

    /// What is known of the lease of this key.
    pub fn known(&self, key: LeaseKey) -> Option<Known>
        ensures { option_map known_of result ≡ leases_of self.now key.0 }
    {
        self.by_key.get(&key).copied()
    }

    /// This is known of the lease of this key from now on.
    ///
    /// # Errors
    ///
    /// `Memory` where nothing was known of it, and no memory is left; nothing has changed then.
    pub fn put(&mut self, key: LeaseKey, known: Known) -> Result<(), Memory>
        ensures put { OnOk result (leases_of self.new ≡ put_known (leases_of self.old) key.0 (Some (known_of known))) }
        ensures refused { OnErr result (leases_of self.new ≡ leases_of self.old) }
        ensures free { is_some (leases_of self.old key.0) ≡ true → IsOk result }
    {
        self.by_key.insert(key, known)?;
        Ok(())
    }

    /// A create is answered with this lease.
    ///
    /// # Errors
    ///
    /// `Memory` where nothing was known of it, and no memory is left; nothing has changed then.
    pub fn answered(&mut self, lease: Option<LeaseAnswer>) -> Result<(), Memory>
        ensures answered { OnOk result (leases_of self.new
            ≡ rows.leases_answered (option_map lease_view_of lease) (leases_of self.old)) }
        ensures refused { OnErr result (leases_of self.new ≡ leases_of self.old) }
        ensures free { rows.is_news (option_map lease_view_of lease) (leases_of self.old) ≡ false → IsOk result }
    {
        let Some(lease) = lease else {
            return Ok(());
        };
        let Some(second) = lease.second else {
            return Ok(());
        };
        let known = known_by(lease, second, self.known(lease.key));
        self.put(lease.key, known)
    }

    /// A create is answered with this lease, after all that was sent before (own).
    ///
    /// # Errors
    ///
    /// `Memory` where nothing was known of it, and no memory is left; nothing has changed then.
    pub fn answered_in_order(&mut self, lease: Option<LeaseAnswer>) -> Result<(), Memory>
        ensures answered { OnOk result (leases_of self.new
            ≡ rows.leases_answered_in_order (option_map lease_view_of lease) (leases_of self.old)) }
        ensures refused { OnErr result (leases_of self.new ≡ leases_of self.old) }
        ensures free { rows.is_news (option_map lease_view_of lease) (leases_of self.old) ≡ false → IsOk result }
    {
        let Some(lease) = lease else {
            return Ok(());
        };
        let Some(second) = lease.second else {
            return Ok(());
        };
        self.put(lease.key, Known::told_by(lease, second))
    }

    /// The lease that the machine is given for an answer, before that is taken.
    pub fn lease_given(&self, lease: LeaseAnswer) -> (LeaseKey, LeaseState, bool)
        ensures { granted_view result ≡ rows.lease_given (leases_of self.now) (lease_view_of lease) }
    {
        let state = state_given(lease, self.known(lease.key));
        (lease.key, state, lease.breaking)
    }
}
