ghost use Rattle.std.specs.Prelude.{◌≡◌, IfOk, map};
ghost use Rattle.lease_manager.specs.Listings.{AreLeases, AreWaiting, waiting_of};
ghost use Rattle.lease_manager.specs.Table.{server_of};

use crate::tables::Tables;
use crate::values::listed::{ListedLease, ListedRequest};
use lease_state::Memory;

impl Tables {
    /// The leases that are there, in order of their keys.
    ///
    /// # Errors
    ///
    /// `Memory` where there is none left for the list.
    pub fn listed_leases(&self) -> Result<Vec<ListedLease>, Memory>
        ensures { IfOk result (λ leases. AreLeases (server_of self.now) leases.items) }
    {
        self.summaries.listed(self.alloc())
    }

    /// The requests that wait, in order of their files and of arrival.
    ///
    /// # Errors
    ///
    /// `Memory` where there is none left for the list.
    pub fn listed_requests(&self) -> Result<Vec<ListedRequest>, Memory>
        ensures { IfOk result (λ requests. AreWaiting self.now (map waiting_of requests.items)) }
    {
        self.queues.listed(self.alloc())
    }
}
