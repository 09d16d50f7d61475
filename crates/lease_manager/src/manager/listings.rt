ghost use Rattle.std.specs.Prelude.{IfOk, map};
ghost use Rattle.lease_manager.specs.Listings.{AreLeases, AreWaiting, waiting_of};
ghost use Rattle.lease_manager.specs.Table.{server_of};

use crate::manager::Manager;
use crate::values::listed::{ListedLease, ListedRequest};
use lease_state::Memory;

impl Manager {
    /// The leases that are there (MS-SMB2 3.3.1.12), each once, in order of their clients' numbers, then of their keys' bytes,
    /// with what they hold, what they are broken to, their file and how many opens they have: what a host lists of itself.
    ///
    /// # Errors
    ///
    /// `Memory` where there is none left for the list.
    pub fn leases(&self) -> Result<Vec<ListedLease>, Memory>
        ensures { IfOk result (λ leases. AreLeases (server_of self.now) leases.items) }
    {
        self.tables.listed_leases()
    }

    /// The requests that wait (MS-SMB2 3.3.4.2), in order of their files' numbers, and on each file in order of arrival, with
    /// their clients, their tags and what they ask.
    ///
    /// # Errors
    ///
    /// `Memory` where there is none left for the list.
    pub fn waiting(&self) -> Result<Vec<ListedRequest>, Memory>
        ensures { IfOk result (λ requests. AreWaiting self.now (map waiting_of requests.items)) }
    {
        self.tables.listed_requests()
    }
}
