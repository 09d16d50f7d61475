ghost use Rattle.std.specs.Prelude.{◌≡◌, ◌++◌, None, IfOk, OnOk};
ghost use Rattle.std.specs.Option.{option_map};
ghost use Rattle.capture_walk.specs.Index.{IsIndex};
ghost use Rattle.capture_walk.specs.Tails.{told_after};
ghost use Rattle.capture_walk.specs.Told.{acknowledged_now, broken_now, leases_told, told_of, told_until};

use crate::event::{Acknowledged, Break, Event, Grant, Lease};
use crate::index::Index;
use crate::slices::from;
use lease_state::Memory;
use std::alloc::Global;

/// What was said last of a lease.
#[derive(Clone, Copy, Debug, PartialEq, Eq)]
pub struct LeaseTold {
    /// The last grant of it.
    pub grant: Grant,
    /// The last break of it since then.
    pub broken: Option<Break>,
    /// The last acknowledgment since that.
    pub acknowledged: Option<Acknowledged>,
}

fn broken_now(told: Option<LeaseTold>, broken: Break) -> Option<LeaseTold>
    ensures { result ≡ option_map (broken_now broken) told }
{
    let told = told?;
    Some(LeaseTold {
        grant: told.grant,
        broken: Some(broken),
        acknowledged: None,
    })
}

fn acknowledged_now(told: Option<LeaseTold>, given: Acknowledged) -> Option<LeaseTold>
    ensures { result ≡ option_map (acknowledged_now given) told }
{
    let told = told?;
    Some(LeaseTold {
        grant: told.grant,
        broken: told.broken,
        acknowledged: Some(given),
    })
}

// What was said of a lease up to a position once an event is said, too.
fn told_after(
    lease: Lease,
    until: u64,
    found: Option<LeaseTold>,
    event: &Event,
) -> Option<LeaseTold>
    ensures { result ≡ told_after lease until found event.now }
{
    match event {
        Event::Granted(one) if one.lease.is(lease) && one.sent.position <= until => {
            Some(LeaseTold {
                grant: *one,
                broken: None,
                acknowledged: None,
            })
        }
        Event::Broken(one) if one.lease.is(lease) && one.sent.position <= until => {
            broken_now(found, *one)
        }
        Event::Acknowledged(given) if given.lease.is(lease) && given.last <= until => {
            acknowledged_now(found, *given)
        }
        Event::Ended(end) if end.lease.is(lease) && end.last <= until => None,
        _ => found,
    }
}

// What was said of a lease up to a position.
fn told_until(lease: Lease, until: u64, events: &[Event], index: &Index) -> Option<LeaseTold>
    requires { IsIndex events.now index.now }
    ensures { result ≡ told_until lease until None events.now }
{
    let mut found: Option<LeaseTold> = None;
    for place in index.places(lease) {
        if let [event, ..] = from(events, *place) {
            found = told_after(lease, until, found, event);
        }
    }
    found
}

fn push_told(
    told: &mut Vec<LeaseTold>,
    lease: Lease,
    until: u64,
    events: &[Event],
    index: &Index,
) -> Result<(), Memory>
    requires { IsIndex events.now index.now }
    ensures { OnOk result (told.new.items ≡ told.old.items ++ told_of until events.now lease) }
{
    if let Some(one) = told_until(lease, until, events, index) {
        told.push(one)?;
    }
    Ok(())
}

/// What was said last, up to a position, of the leases on a file that hadn't ended by then, in the order in which they were
/// granted first: the grants of which some clash, and the breaks that there were.
///
/// # Errors
///
/// `Memory` where there is none left.
#[tactic(auto, using(crate::proofs::Shown::leases_by_index))]
pub fn leases_told(
    alloc: Global,
    file: u64,
    until: u64,
    events: &[Event],
    index: &Index,
) -> Result<Vec<LeaseTold>, Memory>
    requires { IsIndex events.now index.now }
    ensures { IfOk result (λ told. told.items ≡ leases_told file until events.now) }
{
    let mut told = Vec::new(alloc);
    for lease in index.leases_on(file) {
        push_told(&mut told, *lease, until, events, index)?;
    }
    Ok(told)
}
