ghost use Rattle.std.specs.BTreeMap.{IsOrdered};
ghost use Rattle.std.specs.Prelude.{◌≡◌, ◌++◌, IfOk, OnOk, map};
ghost use Rattle.lease_manager.specs.Listings.{waiting_in, waiting_of, waiting_on};
ghost use Rattle.lease_manager.specs.Queues.{filed};
ghost use Rattle.lease_manager.specs.Summaries.{file_order};

use crate::tables::queues::Queues;
use crate::values::listed::ListedRequest;
use crate::values::number::FileNo;
use crate::values::request::Held;
use lease_state::Memory;
use std::alloc::Global;

impl Queues {
    /// What waits, for a listing, file by file, and on each in order of arrival.
    ///
    /// # Errors
    ///
    /// `Memory` where there is none left for the list.
    pub fn listed(&self, alloc: Global) -> Result<Vec<ListedRequest>, Memory>
        ensures listed { IfOk result (λ requests. map waiting_of requests.items ≡ waiting_in (filed self.now)) }
        ensures ordered { IsOrdered file_order self.now.by_file }
    {
        let mut requests = Vec::new(alloc);
        for (file, queue) in self.by_file.iter() {
            list_on(&mut requests, *file, queue.as_slice())?;
        }
        Ok(requests)
    }
}

// What waits on the file comes onto the list.
fn list_on(requests: &mut Vec<ListedRequest>, file: FileNo, queue: &[Held]) -> Result<(), Memory>
    ensures { OnOk result (map waiting_of requests.new.items
        ≡ map waiting_of requests.old.items ++ map (waiting_on file.0) queue.now) }
{
    for one in queue {
        requests.push(listed(file, one))?;
    }
    Ok(())
}

// A request that waits on the file, as it is listed.
fn listed(file: FileNo, one: &Held) -> ListedRequest
    ensures { waiting_of result ≡ waiting_on file.0 one.now }
{
    ListedRequest {
        file,
        client: one.client,
        tag: one.tag,
        ask: one.ask,
    }
}
