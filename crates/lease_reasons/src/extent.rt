ghost use Rattle.std.specs.Prelude.{◌≡◌, not, IfOk};
ghost use Rattle.std.specs.List.{filter};
ghost use Rattle.lease_facts.specs.Verdicts.{verdict_of};
ghost use Rattle.lease_reasons.specs.Clients.{standing_in};
ghost use Rattle.lease_reasons.specs.Extent.{judged_count, IsExtent};

use crate::clients::Clients;
use lease_facts::{Fact, Verdict};
use lease_state::{ClientNo, Memory};
use std::alloc::Global;

/// How much of a record was judged. A judge goes no further than the first bad fact.
#[derive(Debug, Drop)]
pub struct Extent {
    /// How many facts were judged.
    pub facts: usize,
    /// The clients that these are about, in the order in which they come.
    pub clients: Vec<ClientNo>,
    /// Those of them that didn't join: their caches and cached reads aren't judged.
    pub unjoined: Vec<ClientNo>,
    /// Those of them that strayed, in whose name a request was sent that their machine didn't make:
    /// no rule says anything of them.
    pub strayed: Vec<ClientNo>,
}

fn unjoined(alloc: Global, clients: &Clients) -> Result<Vec<ClientNo>, Memory>
    ensures { IfOk result (λ some. some.items
        ≡ filter (λ client. not (standing_in clients.now.standings.items client.0).joined) clients.now.named.items) }
{
    let mut some = Vec::new(alloc);
    for client in &clients.named {
        if !clients.standing(*client).joined {
            some.push(*client)?;
        }
    }
    Ok(some)
}

fn strayed(alloc: Global, clients: &Clients) -> Result<Vec<ClientNo>, Memory>
    ensures { IfOk result (λ some. some.items
        ≡ filter (λ client. (standing_in clients.now.standings.items client.0).strayed) clients.now.named.items) }
{
    let mut some = Vec::new(alloc);
    for client in &clients.named {
        if clients.standing(*client).strayed {
            some.push(*client)?;
        }
    }
    Ok(some)
}

// How many of so many facts were judged.
fn judged_count(count: usize, verdict: &Verdict) -> usize
    ensures { result ≡ judged_count count verdict.now }
{
    match verdict {
        Verdict::Safe => count,
        Verdict::Unsafe { place, .. } | Verdict::Malformed { place } => count.min(*place as usize),
    }
}

/// How much of a record was judged, by the verdict on it.
///
/// # Errors
///
/// `Memory` where there is none left for the lists of clients.
pub fn extent_of(alloc: Global, facts: &[Fact], verdict: &Verdict) -> Result<Extent, Memory>
    ensures { IfOk result (IsExtent facts.now verdict.now) }
{
    let count = judged_count(facts.len(), verdict);
    let clients = Clients::of(alloc, &facts[..count])?;
    let unjoined = unjoined(alloc, &clients)?;
    let strayed = strayed(alloc, &clients)?;
    Ok(Extent {
        facts: count,
        clients: clients.named,
        unjoined,
        strayed,
    })
}
