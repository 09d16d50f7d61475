ghost use Rattle.std.specs.Prelude.{◌≡◌, ◌==◌};
ghost use Rattle.std.specs.Cmp.{partial_order_from_own_ties};
ghost use Rattle.std.specs.Cmp.Lexicographic.{slice_cmp, pointwise};
ghost use Rattle.std.specs.Cmp.Rules.{comparing};
ghost use Rattle.std.specs.Ordering.{nat_cmp, on, then_cmp, as_partial_cmp, eq_of_both};
ghost use Rattle.std.proofs.Common.{rules};
ghost use Rattle.lease_model.specs.values.Keys.{key_eq};

use crate::values::number::ClientNo;
use lease_state::LeaseKey;
use std::cmp::Ordering;
use std::marker::Model;

/// What names a lease (MS-SMB2 3.3.1.4, 3.3.5.9.8): its client and the client's LeaseKey.
#[derive(Clone, Copy, Debug)]
pub struct LeaseName {
    pub client: ClientNo,
    pub bytes: LeaseKey,
}

impl Model for LeaseName {
    ghost use Rattle.lease_model.specs.values.Keys as model;

    ghost Value = { model.Key };

    ghost view = { λ key. record { client = key.client.0; bytes = key.bytes.0 } };

    ghost inverse = { λ key. record { client = record { 0 = key.client }; bytes = record { 0 = key.bytes } } };
}

impl PartialEq for LeaseName {
    ghost eq = { eq_of_both (on (λ key. key.client) ◌==◌) (on (λ key. key.bytes) (pointwise ◌==◌)) };

    ghost laws = { Prim.search (comparing, rules) };

    fn eq(&self, other: &LeaseName) -> bool {
        self.client == other.client && self.bytes == other.bytes
    }
}

impl Eq for LeaseName {
    ghost laws = { Prim.search (comparing, rules) };
}

/// The order in which leases are broken (profile): by their clients' numbers, then by their bytes.
impl Ord for LeaseName {
    ghost cmp = { then_cmp (on (λ key. key.client) nat_cmp) (on (λ key. key.bytes) (slice_cmp nat_cmp)) };

    ghost total = { Prim.search (comparing, rules) };

    ghost matches_partial_cmp = { Prim.search (comparing, rules) };

    ghost matches_eq = { Prim.search (comparing, rules) };

    fn cmp(&self, other: &LeaseName) -> Ordering {
        match self.client.cmp(&other.client) {
            Ordering::Equal => self.bytes.cmp(&other.bytes),
            apart => apart,
        }
    }
}

impl PartialOrd for LeaseName {
    ghost partial_cmp = { as_partial_cmp
        (then_cmp (on (λ key. key.client) nat_cmp) (on (λ key. key.bytes) (slice_cmp nat_cmp))) };

    ghost laws = { partial_order_from_own_ties (Prim.search (comparing, rules)) (Prim.search (comparing, rules)) };

    fn partial_cmp(&self, other: &LeaseName) -> Option<Ordering> {
        Some(self.cmp(other))
    }
}

impl LeaseName {
    /// Whether both name one lease.
    #[tactic(auto, unfolding(lease_model::specs::values::Keys::key_eq))]
    pub(crate) fn is(self, other: LeaseName) -> bool
        ensures { result ≡ key_eq self other }
    {
        self.client == other.client && self.bytes == other.bytes
    }
}
