ghost use Rattle.std.specs.Prelude.{◌≡◌, true, false, ◌&&◌, ◌≤◌, ◌+◌, ◌++◌, [], None, length, drop, map, filter, OnOk, IfOk};
ghost use Rattle.std.specs.List.{list_any};
ghost use Rattle.capture_judge.specs.Worked.{shown};
ghost use Rattle.capture_walk.specs.Chains.{answer, taken, is_accepted, acknowledgment, is_for, is_use, is_own, shows};
ghost use Rattle.capture_walk.specs.Chains.{cuts, shown_before, last_shown, is_gone};
ghost use Rattle.capture_walk.specs.Chains.{sure_by, kept_until, changes_by_grant, changes_by_break, changes, changes_by};
ghost use Rattle.capture_walk.specs.Chains.{doubt, earliest, lost_since, is_before, is_known, cut_off, known_changes};
ghost use Rattle.capture_walk.specs.Chains.{chains_on, is_same, chain_by, chain_of};
ghost use Rattle.capture_walk.specs.Index.{Covers, IsIndex, from_places, places_at};
ghost use Rattle.capture_walk.specs.Tails.{acknowledgment_in, changes_in, changes_with};
ghost use Rattle.std.specs.Prelude.{◌∷◌};

use crate::event::{Acknowledged, Asked, Break, Event, Grant, Lease, Sent};
use crate::index::Index;
use crate::slices::from;
use capture_judge::{Chain, Change, Level};
use lease_state::Memory;
use std::alloc::Global;

fn is_before(since: u64, event: &Event) -> bool
    ensures { result ≡ is_before since event.now }
{
    match event {
        Event::Granted(grant) => grant.sent.position <= since,
        Event::Broken(broken) => broken.sent.position <= since,
        Event::Acknowledged(given) => given.last <= since,
        Event::Asked(one) => one.position <= since,
        Event::Answered(one) => one.position <= since,
        Event::Closed(_) | Event::Gone(_) => true,
        Event::Ended(end) => end.last <= since,
        Event::Taken(proof) => proof.last <= since,
        Event::Stray(_) | Event::Misnumbered(_) | Event::Lost(_) | Event::Remade(_) => false,
    }
}

/// Whether an event counts, where something may be missing from a position on.
pub(crate) fn is_known(since: Option<u64>, event: &Event) -> bool
    ensures { result ≡ is_known since event.now }
{
    match since {
        Some(since) => is_before(since, event),
        None => true,
    }
}

// The position at which a message of the server is first shown to have been taken.
#[tactic(auto, using(crate::proofs::Shown::never_taken))]
fn taken(sent: Sent, later: &[Event], since: Option<u64>, index: &Index) -> Option<u64>
    requires { Covers later.now index.now }
    ensures { result ≡ taken sent (filter (is_known since) later.now) }
{
    if !index.may_be_taken(sent) {
        return None;
    }
    for event in later {
        if let Event::Taken(proof) = event {
            if proof.connection == sent.connection
                && sent.number <= proof.number
                && is_known(since, event)
            {
                return Some(proof.last);
            }
        }
    }
    None
}

// Whether the server did what a request asks, where it answers it before the next break of a lease.
fn answer(
    lease: Lease,
    connection: u64,
    id: u64,
    later: &[Event],
    since: Option<u64>,
) -> Option<bool>
    ensures { result ≡ answer lease connection id (filter (is_known since) later.now) }
{
    for event in later {
        match event {
            _ if !is_known(since, event) => {}
            Event::Answered(one) if one.connection == connection && one.id == id => {
                return Some(one.done);
            }
            Event::Broken(broken) if broken.lease.is(lease) => return None,
            _ => {}
        }
    }
    None
}

fn is_accepted(lease: Lease, given: &Acknowledged, later: &[Event], since: Option<u64>) -> bool
    ensures { result ≡ is_accepted lease given.now (filter (is_known since) later.now) }
{
    given.lease.is(lease)
        && answer(lease, given.connection, given.id, later, since).unwrap_or(false)
}

/// The acknowledgment of a break of a lease that the server accepts.
pub(crate) fn acknowledgment(
    lease: Lease,
    later: &[Event],
    since: Option<u64>,
) -> Option<Acknowledged>
    ensures { result ≡ acknowledgment lease (filter (is_known since) later.now) }
{
    for (index, event) in later.iter().enumerate() {
        match event {
            _ if !is_known(since, event) => {}
            Event::Acknowledged(given) if is_accepted(lease, given, &later[index + 1..], since) => {
                return Some(*given);
            }
            Event::Broken(broken) if broken.lease.is(lease) => return None,
            _ => {}
        }
    }
    None
}

/// The acknowledgment of a break of a lease that the server accepts, by where the events are that are about the lease after it.
pub(crate) fn acknowledgment_at(
    lease: Lease,
    places: &[usize],
    events: &[Event],
    since: Option<u64>,
) -> Option<Acknowledged>
    ensures { result ≡ acknowledgment_in lease since (from_places events.now places.now) }
{
    for place in places {
        if let [event, later @ ..] = from(events, *place) {
            match event {
                _ if !is_known(since, event) => {}
                Event::Acknowledged(given) if is_accepted(lease, given, later, since) => {
                    return Some(*given);
                }
                Event::Broken(broken) if broken.lease.is(lease) => return None,
                _ => {}
            }
        }
    }
    None
}

fn is_for(lease: Lease, other: Option<Lease>) -> bool
    ensures { result ≡ is_for lease other }
{
    match other {
        Some(other) => other.is(lease),
        None => false,
    }
}

// Whether the request is about the lease, by an open that was made with the message of this number, or before it.
fn is_use(lease: Lease, number: u64, one: &Asked) -> bool
    ensures { result ≡ is_use lease number one.now }
{
    is_for(lease, one.lease) && one.opened <= number
}

// Whether it is about the open that was made with that message.
fn is_own(lease: Lease, number: u64, one: &Asked) -> bool
    ensures { result ≡ is_own lease number one.now }
{
    is_for(lease, one.lease) && one.opened == number
}

fn is_gone(number: u64, event: &Event) -> bool
    ensures { result ≡ is_gone number event.now }
{
    match event {
        Event::Gone(one) => one.opened == number,
        _ => false,
    }
}

// Whether the server is found to have ended the open that was made with a message.
#[tactic(auto, using(crate::proofs::Shown::never_gone))]
fn has_gone(number: u64, later: &[Event], since: Option<u64>, index: &Index) -> bool
    requires { Covers later.now index.now }
    ensures { result ≡ list_any (is_gone number) (filter (is_known since) later.now) }
{
    if !index.may_be_gone(number) {
        return false;
    }
    for event in later {
        if is_known(since, event) && is_gone(number, event) {
            return true;
        }
    }
    false
}

// Whether the request shows the lease, where the open that was made with the message is known to be there or not.
fn shows(
    lease: Lease,
    sent: Sent,
    is_live: bool,
    one: &Asked,
    later: &[Event],
    since: Option<u64>,
    index: &Index,
) -> bool
    requires { Covers later.now index.now }
    ensures { result ≡ shows lease sent is_live one.now (filter (is_known since) later.now) }
{
    if is_use(lease, sent.number, one) {
        return answer(lease, one.connection, one.id, later, since).unwrap_or(false);
    }
    is_live
        && one.connection == sent.connection
        && !has_gone(sent.number, later, since, index)
        && answer(lease, one.connection, one.id, later, since).is_some()
}

// Whether nothing of the lease is sure from the break on.
fn cuts(lease: Lease, broken: &Break, later: &[Event], since: Option<u64>) -> bool
    ensures { result ≡ cuts lease broken.now (filter (is_known since) later.now) }
{
    broken.lease.is(lease) && broken.acknowledged && acknowledgment(lease, later, since).is_none()
}

fn shown_before(broken: &Break, found: Option<Asked>) -> Option<Asked>
    ensures { result ≡ shown_before broken.now found }
{
    let one = found?;
    if one.connection == broken.sent.connection {
        Some(one)
    } else {
        None
    }
}

/// The last request that shows a lease after a message of the server.
#[tactic(auto, using(crate::proofs::Shown::covers_later))]
pub(crate) fn last_shown(
    lease: Lease,
    sent: Sent,
    later: &[Event],
    since: Option<u64>,
    index: &Index,
) -> Option<Asked>
    requires { Covers later.now index.now }
    ensures { result ≡ last_shown lease sent false None (filter (is_known since) later.now) }
{
    let mut is_live = false;
    let mut found: Option<Asked> = None;
    for (place, event) in later.iter().enumerate() {
        let rest = from(later, place + 1);
        match event {
            _ if !is_known(since, event) => {}
            Event::Asked(one) if shows(lease, sent, is_live, one, rest, since, index) => {
                is_live = is_live || is_own(lease, sent.number, one);
                found = Some(*one);
            }
            Event::Closed(one) => is_live = is_live && one.opened != sent.number,
            Event::Gone(one) => is_live = is_live && one.opened != sent.number,
            Event::Ended(end) if end.lease.is(lease) => return found,
            Event::Broken(broken) if cuts(lease, broken, rest, since) => {
                return shown_before(broken, found);
            }
            _ => {}
        }
    }
    found
}

/// From a position on the client may have lost its lease.
pub(crate) fn push_doubt(
    changes: &mut Vec<Change>,
    is_doubtful: bool,
    position: u64,
) -> Result<(), Memory>
    ensures { OnOk result (changes.new.items ≡ changes.old.items ++ doubt is_doubtful position) }
{
    if is_doubtful {
        changes.push(Change {
            level: Level::Nothing,
            first: position,
            last: None,
        })?;
    }
    Ok(())
}

fn sure_by(last: Option<u64>, shown: Option<Asked>) -> Option<u64>
    ensures { result ≡ sure_by last shown }
{
    let (last, shown) = (last?, shown?);
    if last <= shown.position {
        Some(last)
    } else {
        None
    }
}

// What a grant gives, where these events come after it.
fn push_granted(
    changes: &mut Vec<Change>,
    grant: &Grant,
    later: &[Event],
    since: Option<u64>,
    index: &Index,
) -> Result<(), Memory>
    requires { Covers later.now index.now }
    ensures { OnOk result (changes.new.items ≡ changes.old.items ++ changes_by_grant grant.now
        (taken grant.now.sent (filter (is_known since) later.now))
        (last_shown grant.now.lease grant.now.sent false None (filter (is_known since) later.now))) }
{
    let shown = last_shown(grant.lease, grant.sent, later, since, index);
    changes.push(Change {
        level: grant.level,
        first: grant.sent.position,
        last: sure_by(taken(grant.sent, later, since, index), shown),
    })?;
    match shown {
        Some(one) => push_doubt(changes, true, one.position),
        None => Ok(()),
    }
}

/// The position of an acknowledgment that the server accepted, or of a later request that shows the lease to be there.
pub(crate) fn kept_until(last: u64, shown: Option<Asked>) -> u64
    ensures { result ≡ kept_until last shown }
{
    match shown {
        Some(one) if last < one.position => one.position,
        _ => last,
    }
}

// What a break leaves, where it is acknowledged so, and these events come after it.
fn push_broken(
    changes: &mut Vec<Change>,
    broken: &Break,
    given: Option<Acknowledged>,
    later: &[Event],
    since: Option<u64>,
    index: &Index,
) -> Result<(), Memory>
    requires { Covers later.now index.now }
    ensures { OnOk result (changes.new.items
        ≡ changes.old.items ++ changes_by_break broken.now given (filter (is_known since) later.now)) }
{
    let first = broken.sent.position;
    match given {
        Some(given) => {
            changes.push(Change {
                level: given.level,
                first,
                last: Some(given.last),
            })?;
            let shown = last_shown(broken.lease, broken.sent, later, since, index);
            push_doubt(changes, true, kept_until(given.last, shown))
        }
        None if broken.acknowledged => Ok(()),
        None => {
            changes.push(Change {
                level: broken.level,
                first,
                last: taken(broken.sent, later, since, index),
            })?;
            Ok(())
        }
    }
}

// The changes that an event makes of a lease, where a break by it is acknowledged so, and these events come after it.
fn push_changes(
    changes: &mut Vec<Change>,
    lease: Lease,
    event: &Event,
    given: Option<Acknowledged>,
    later: &[Event],
    since: Option<u64>,
    index: &Index,
) -> Result<(), Memory>
    requires { Covers later.now index.now }
    ensures { OnOk result
        (changes.new.items ≡ changes.old.items ++ changes_with lease event.now (filter (is_known since) later.now) given) }
{
    match event {
        Event::Granted(grant) if grant.lease.is(lease) => {
            push_granted(changes, grant, later, since, index)
        }
        Event::Broken(broken) if broken.lease.is(lease) => {
            push_broken(changes, broken, given, later, since, index)
        }
        Event::Ended(end) if end.lease.is(lease) => {
            changes.push(Change {
                level: Level::Nothing,
                first: end.first,
                last: Some(end.last),
            })?;
            Ok(())
        }
        _ => Ok(()),
    }
}

// The changes by the first of these events, where these are the places of those about the lease after it.
#[tactic(auto, using(crate::proofs::Shown::covers_later))]
fn push_first(
    changes: &mut Vec<Change>,
    lease: Lease,
    from: &[Event],
    places: &[usize],
    events: &[Event],
    since: Option<u64>,
    index: &Index,
) -> Result<(), Memory>
    requires { Covers from.now index.now }
    ensures { OnOk result (changes.new.items ++ changes_in lease since (from_places events.now places.now)
        ≡ changes.old.items ++ changes_in lease since (from.now ∷ from_places events.now places.now)) }
{
    let [event, later @ ..] = from else {
        return Ok(());
    };
    if !is_known(since, event) {
        return Ok(());
    }
    let given = acknowledgment_at(lease, places, events, since);
    push_changes(changes, lease, event, given, later, since, index)
}

// All changes of a lease, by the events that count.
#[tactic(auto, using(crate::proofs::Shown::covers_from))]
fn changes_of(
    alloc: Global,
    lease: Lease,
    events: &[Event],
    since: Option<u64>,
    index: &Index,
) -> Result<Vec<Change>, Memory>
    requires { IsIndex events.now index.now }
    ensures { IfOk result (λ found. found.items
        ≡ changes_in lease since (from_places events.now (places_at index.now.places lease))) }
{
    let mut changes = Vec::new(alloc);
    let places = index.places(lease);
    for (number, place) in places.iter().enumerate() {
        let rest = &places[number + 1..];
        push_first(
            &mut changes,
            lease,
            from(events, *place),
            rest,
            events,
            since,
            index,
        )?;
    }
    Ok(changes)
}

/// From where on something may be missing any lease may be lost.
pub(crate) fn cut_off(since: Option<u64>, changes: &mut Vec<Change>) -> Result<(), Memory>
    ensures { OnOk result (changes.new.items ≡ cut_off since changes.old.items) }
{
    let Some(since) = since else {
        return Ok(());
    };
    let is_any = !changes.is_empty();
    push_doubt(changes, is_any, since)
}

// The changes of a lease up to where something of its client may be missing.
#[tactic(auto, using(crate::proofs::Shown::known_by_index))]
fn known_changes(
    alloc: Global,
    lease: Lease,
    events: &[Event],
    index: &Index,
) -> Result<Vec<Change>, Memory>
    requires { IsIndex events.now index.now }
    ensures { IfOk result (λ found. found.items
        ≡ known_changes lease events.now (lost_since lease None events.now)) }
{
    let since = index.lost_since(lease);
    let mut changes = changes_of(alloc, lease, events, since, index)?;
    cut_off(since, &mut changes)?;
    Ok(changes)
}

/// The chain of a lease, where any changes of it are known.
pub(crate) fn push_chain(
    chains: &mut Vec<Chain>,
    client: u64,
    changes: Vec<Change>,
) -> Result<(), Memory>
    ensures { OnOk result (map shown chains.new.items ≡ map shown chains.old.items ++ chain_by client changes.items) }
{
    if !changes.is_empty() {
        chains.push(Chain { client, changes })?;
    }
    Ok(())
}

/// The chains of a file: for each lease on it the changes of what its client caches, with the positions between which they
/// happen, for `capture_judge::judge_placing`. From where something of a client may be missing it may have lost its leases,
/// and what comes later doesn't count. The events are in the order of the capture.
///
/// # Errors
///
/// `Memory` where there is none left.
#[tactic(auto, using(crate::proofs::Shown::leases_by_index))]
pub fn chains_on(
    alloc: Global,
    file: u64,
    events: &[Event],
    index: &Index,
) -> Result<Vec<Chain>, Memory>
    requires { IsIndex events.now index.now }
    ensures { IfOk result (λ chains. map shown chains.items ≡ chains_on file events.now) }
{
    let mut chains = Vec::new(alloc);
    for lease in index.leases_on(file) {
        let changes = known_changes(alloc, *lease, events, index)?;
        push_chain(&mut chains, lease.client, changes)?;
    }
    Ok(chains)
}
