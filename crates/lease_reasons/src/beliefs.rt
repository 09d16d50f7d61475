ghost use Rattle.std.specs.Prelude.{◌≡◌, ◌++◌, ◌==◌, ℕ, List, OnOk, IfOk, MatchOption, not};
ghost use Rattle.std.specs.List.{filter, find};
ghost use Rattle.std.specs.List.Sorted.{IsNonDecreasingBy, IsPermutation};
ghost use Rattle.std.specs.Option.{option_to_list};
ghost use Rattle.lease_state.specs.State.{state_of};
ghost use Rattle.lease_model.specs.records.Facts as model;
ghost use Rattle.lease_model.specs.records.Safe.{OneWriteCache};
ghost use Rattle.lease_reasons.specs.Beliefs.{AreRivals, AreRivalsIfAny, AreLastOf, clashing, may_clash, rivals_among};
ghost use Rattle.lease_reasons.specs.Clients.{Describes, is_good_in};
ghost use Rattle.lease_reasons.specs.Places.{past_of};

use crate::clients::Clients;
use crate::last_beliefs::LastBeliefs;
use crate::reason::Belief;
use lease_facts::Fact;
use lease_state::{ClientNo, FileNo, Memory};
use std::alloc::Global;

// Whether the belief may go ill with another: its client is good, and it holds something.
fn may_clash(clients: &Clients, belief: &Belief) -> bool
    ensures { result ≡ may_clash (is_good_in clients.now.standings.items) belief.now }
{
    !belief.state.is_none() && clients.is_good(belief.client)
}

fn note_clash(
    clashing: &mut Vec<Belief>,
    clients: &Clients,
    last: Option<Belief>,
) -> Result<(), Memory>
    ensures { OnOk result (clashing.new.items
        ≡ clashing.old.items ++ filter (may_clash (is_good_in clients.now.standings.items)) (option_to_list last)) }
{
    let Some(belief) = last else {
        return Ok(());
    };
    if may_clash(clients, &belief) {
        clashing.push(belief)?;
    }
    Ok(())
}

// Of the last beliefs of a file those that may go ill with another.
fn clashing(
    alloc: Global,
    clients: &Clients,
    beliefs: &[Option<Belief>],
) -> Result<Vec<Belief>, Memory>
    ensures { IfOk result (λ found. found.items ≡ clashing (is_good_in clients.now.standings.items) beliefs.now) }
{
    let mut clashing = Vec::new(alloc);
    for belief in beliefs {
        note_clash(&mut clashing, clients, *belief)?;
    }
    Ok(clashing)
}

fn writer_among(beliefs: &[Belief]) -> Option<Belief>
    ensures { result ≡ find (λ belief. (state_of belief.state).write) beliefs.now }
{
    beliefs
        .iter()
        .copied()
        .find(|belief| belief.state.caches_writes())
}

fn other_among(beliefs: &[Belief], client: ClientNo) -> Option<Belief>
    ensures { result ≡ find (λ belief. not (belief.client.0 == client.0)) beliefs.now }
{
    beliefs
        .iter()
        .copied()
        .find(|belief| belief.client != client)
}

/// Two beliefs of a file: one may cache writes, and another client may cache something.
#[derive(Clone, Copy, Debug)]
pub struct Rivals {
    pub writer: Belief,
    pub other: Belief,
}

fn rivals_among(beliefs: &[Belief]) -> Option<Rivals>
    ensures { result ≡ rivals_among beliefs.now }
{
    let writer = writer_among(beliefs)?;
    let other = other_among(beliefs, writer.client)?;
    Some(Rivals { writer, other })
}

// Puts beliefs into the order in which they were noted.
fn put_in_order(beliefs: &mut Vec<Belief>)
    ensures same { IsPermutation beliefs.old.items beliefs.new.items }
    ensures ordered { IsNonDecreasingBy (λ belief. belief.place) beliefs.new.items }
{
    beliefs.sort_unstable_by_key(|belief| belief.place);
}

// Two good clients that cache a file, one of them writes, by the last beliefs of the file. The earliest are told.
fn rivals_on(
    alloc: Global,
    clients: &Clients,
    beliefs: &[Option<Belief>],
) -> Result<Option<Rivals>, Memory>
    ensures { IfOk result (λ found. (past : List model.Fact) (file : ℕ) → Describes past clients.now
        → AreLastOf past file beliefs.now → AreRivalsIfAny past file found) }
{
    let mut clashing = clashing(alloc, clients, beliefs)?;
    put_in_order(&mut clashing);
    Ok(rivals_among(clashing.as_slice()))
}

/// Two good clients that cache one file, one of them writes: of the file that a belief was noted of first, the earliest beliefs.
///
/// # Errors
///
/// `Memory` where there is none left for the beliefs of a file.
pub fn two_caches(alloc: Global, facts: &[Fact]) -> Result<Option<(FileNo, Rivals)>, Memory>
    ensures { IfOk result (λ found. MatchOption found (OneWriteCache (past_of facts.now))
        (λ there. AreRivals (past_of facts.now) there.0.0 there.1.writer there.1.other)) }
{
    let clients = Clients::of(alloc, facts)?;
    let beliefs = LastBeliefs::of(alloc, facts)?;
    for file in beliefs.files.as_slice() {
        if let Some(rivals) = rivals_on(alloc, &clients, beliefs.of_file(*file))? {
            return Ok(Some((*file, rivals)));
        }
    }
    Ok(None)
}
