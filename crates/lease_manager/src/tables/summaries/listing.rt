ghost use Rattle.std.specs.BTreeMap.{IsOrdered};
ghost use Rattle.std.specs.Prelude.{◌≡◌, IfOk};
ghost use Rattle.lease_manager.specs.KeyOrder.{key_order};
ghost use Rattle.lease_manager.specs.Listings.{lease_by, leases_in};

use crate::tables::summaries::{LeaseRecord, Summaries};
use crate::values::key::LeaseName;
use crate::values::listed::ListedLease;
use lease_state::Memory;
use std::alloc::Global;

impl Summaries {
    /// The leases, for a listing, in order of their keys.
    ///
    /// # Errors
    ///
    /// `Memory` where there is none left for the list.
    pub fn listed(&self, alloc: Global) -> Result<Vec<ListedLease>, Memory>
        ensures listed { IfOk result (λ leases. leases.items ≡ leases_in self.now) }
        ensures ordered { IsOrdered key_order self.now.leases }
    {
        let mut leases = Vec::new(alloc);
        for (key, known) in self.leases.iter() {
            leases.push(listed(*key, known))?;
        }
        Ok(leases)
    }
}

// The lease of a key, as it is listed.
fn listed(key: LeaseName, known: &LeaseRecord) -> ListedLease
    ensures { result ≡ lease_by key known.now }
{
    ListedLease {
        client: key.client,
        key: key.bytes,
        file: known.file,
        state: known.lease.state,
        broken_to: known.lease.broken_to,
        opens: known.tally.opens,
    }
}
