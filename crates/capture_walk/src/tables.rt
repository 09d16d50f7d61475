//! The server's own table of leases.

ghost use Rattle.std.specs.Prelude.{◌≡◌, ◌++◌, [], None, true, false, filter, map, OnOk, IfOk};
ghost use Rattle.capture_judge.specs.Worked.{shown};
ghost use Rattle.capture_walk.specs.Chains.{chain_by, is_known, last_shown, lost_since};
ghost use Rattle.capture_walk.specs.Index.{Covers, IsIndex, from_places, places_at};
ghost use Rattle.capture_walk.specs.Tails.{held_in, held_with};
ghost use Rattle.std.specs.Prelude.{◌∷◌};
ghost use Rattle.capture_walk.specs.Tables.{answered_at, granted_by, held_by_grant, changed_by, held_by_break, closed_by};
ghost use Rattle.capture_walk.specs.Tables.{ended_with, held_by, broken_at, held, known_held, tables_on};

use crate::chains::{
    acknowledgment_at, cut_off, is_known, kept_until, last_shown, push_chain, push_doubt,
};
use crate::event::{Acknowledged, Answered, Asked, Break, End, Event, Grant, Lease};
use crate::index::Index;
use crate::slices::from;
use capture_judge::{Chain, Change, Level};
use lease_state::Memory;
use std::alloc::Global;

// The answer to a request with a MessageId on a connection.
fn answered_at(connection: u64, id: u64, later: &[Event], since: Option<u64>) -> Option<Answered>
    ensures { result ≡ answered_at connection id (filter (is_known since) later.now) }
{
    for event in later {
        if let Event::Answered(one) = event {
            if one.connection == connection && one.id == id && is_known(since, event) {
                return Some(*one);
            }
        }
    }
    None
}

// The last position of what a grant gives, where the lease was broken last at a position.
fn granted_by(grant: &Grant, broken: u64) -> Option<u64>
    ensures { result ≡ granted_by grant.now broken }
{
    if broken <= grant.asked {
        Some(grant.sent.position)
    } else {
        None
    }
}

// What a grant gives, where this request shows the lease last.
fn push_granted(
    changes: &mut Vec<Change>,
    grant: &Grant,
    broken: u64,
    shown: Option<Asked>,
) -> Result<(), Memory>
    ensures { OnOk result (changes.new.items ≡ changes.old.items ++ held_by_grant grant.now broken shown) }
{
    changes.push(Change {
        level: grant.level,
        first: grant.asked,
        last: granted_by(grant, broken),
    })?;
    push_doubt(changes, true, kept_until(grant.asked, shown))
}

// What a request changes, by its answer.
fn push_changed(
    changes: &mut Vec<Change>,
    level: Level,
    asked: u64,
    answer: Option<Answered>,
) -> Result<(), Memory>
    ensures { OnOk result (changes.new.items ≡ changes.old.items ++ changed_by level asked answer) }
{
    let last = match answer {
        Some(one) if !one.done => return Ok(()),
        Some(one) => Some(one.position),
        None => None,
    };
    changes.push(Change {
        level,
        first: asked,
        last,
    })?;
    Ok(())
}

// What an acknowledgment that the server accepts leaves.
fn push_acknowledged(
    changes: &mut Vec<Change>,
    given: &Acknowledged,
    later: &[Event],
    since: Option<u64>,
) -> Result<(), Memory>
    ensures { OnOk result (changes.new.items ≡ changes.old.items ++ changed_by given.now.level given.now.last
        (answered_at given.now.connection given.now.id (filter (is_known since) later.now))) }
{
    let answer = answered_at(given.connection, given.id, later, since);
    push_changed(changes, given.level, given.last, answer)
}

// What a break leaves, where it is acknowledged so, this request shows the lease last, and these events come after the break.
fn push_broken(
    changes: &mut Vec<Change>,
    broken: &Break,
    given: Option<Acknowledged>,
    shown: Option<Asked>,
    later: &[Event],
    since: Option<u64>,
) -> Result<(), Memory>
    ensures { OnOk result (changes.new.items
        ≡ changes.old.items ++ held_by_break broken.now given shown (filter (is_known since) later.now)) }
{
    match given {
        Some(given) => {
            push_acknowledged(changes, &given, later, since)?;
            push_doubt(changes, true, kept_until(given.last, shown))
        }
        None if broken.acknowledged => Ok(()),
        None => {
            changes.push(Change {
                level: broken.level,
                first: 0,
                last: Some(broken.sent.position),
            })?;
            push_doubt(changes, true, kept_until(0, shown))
        }
    }
}

// What a CLOSE ends, by its answer.
fn push_closed(
    changes: &mut Vec<Change>,
    asked: u64,
    answer: Option<Answered>,
) -> Result<(), Memory>
    ensures { OnOk result (changes.new.items ≡ changes.old.items ++ closed_by asked answer) }
{
    match answer {
        None => push_doubt(changes, true, asked),
        Some(one) if one.done => {
            changes.push(Change {
                level: Level::Nothing,
                first: asked,
                last: Some(one.position),
            })?;
            Ok(())
        }
        Some(_) => push_doubt(changes, true, 0),
    }
}

// What the end of the last open leaves, where these events come after it.
fn push_ended(
    changes: &mut Vec<Change>,
    end: &End,
    later: &[Event],
    since: Option<u64>,
) -> Result<(), Memory>
    ensures { OnOk result
        (changes.new.items ≡ changes.old.items ++ ended_with end.now.closing end.now (filter (is_known since) later.now)) }
{
    match end.closing {
        Some(id) => push_closed(
            changes,
            end.last,
            answered_at(end.connection, id, later, since),
        ),
        None => push_doubt(changes, true, end.first),
    }
}

// What an event changes of what the server holds for a lease, where a break by it is acknowledged so, and these come after it.
fn push_held(
    changes: &mut Vec<Change>,
    lease: Lease,
    broken: u64,
    event: &Event,
    given: Option<Acknowledged>,
    later: &[Event],
    since: Option<u64>,
    index: &Index,
) -> Result<(), Memory>
    requires { Covers later.now index.now }
    ensures { OnOk result (changes.new.items
        ≡ changes.old.items ++ held_with lease broken event.now (filter (is_known since) later.now) given) }
{
    match event {
        Event::Granted(grant) if grant.lease.is(lease) => {
            let shown = last_shown(grant.lease, grant.sent, later, since, index);
            push_granted(changes, grant, broken, shown)
        }
        Event::Broken(one) if one.lease.is(lease) => {
            let shown = last_shown(one.lease, one.sent, later, since, index);
            push_broken(changes, one, given, shown, later, since)
        }
        Event::Ended(end) if end.lease.is(lease) => push_ended(changes, end, later, since),
        _ => Ok(()),
    }
}

// Where the lease was broken last, where it was so before.
fn broken_at(lease: Lease, before: u64, event: &Event) -> u64
    ensures { result ≡ broken_at lease before event.now }
{
    match event {
        Event::Broken(one) if one.lease.is(lease) => one.sent.position,
        _ => before,
    }
}

// What the first of these events changes, where these are the places of those about the lease after it. Says where the lease is
// broken last then.
#[tactic(auto, using(crate::proofs::Shown::covers_later))]
fn push_first(
    changes: &mut Vec<Change>,
    lease: Lease,
    broken: u64,
    from: &[Event],
    places: &[usize],
    events: &[Event],
    since: Option<u64>,
    index: &Index,
) -> Result<u64, Memory>
    requires { Covers from.now index.now }
    ensures { IfOk result (λ last. changes.new.items ++ held_in lease since last (from_places events.now places.now)
        ≡ changes.old.items ++ held_in lease since broken (from.now ∷ from_places events.now places.now)) }
{
    let [event, later @ ..] = from else {
        return Ok(broken);
    };
    if !is_known(since, event) {
        return Ok(broken);
    }
    let given = acknowledgment_at(lease, places, events, since);
    push_held(changes, lease, broken, event, given, later, since, index)?;
    Ok(broken_at(lease, broken, event))
}

// What the server holds for a lease, change by change, by the events that count.
#[tactic(auto, using(crate::proofs::Shown::covers_from))]
fn held(
    alloc: Global,
    lease: Lease,
    events: &[Event],
    since: Option<u64>,
    index: &Index,
) -> Result<Vec<Change>, Memory>
    requires { IsIndex events.now index.now }
    ensures { IfOk result (λ found. found.items
        ≡ held_in lease since 0 (from_places events.now (places_at index.now.places lease))) }
{
    let mut changes = Vec::new(alloc);
    let mut broken = 0;
    let places = index.places(lease);
    for (number, place) in places.iter().enumerate() {
        broken = push_first(
            &mut changes,
            lease,
            broken,
            from(events, *place),
            &places[number + 1..],
            events,
            since,
            index,
        )?;
    }
    Ok(changes)
}

// That up to where something of its client may be missing.
#[tactic(auto, using(crate::proofs::Shown::held_by_index))]
fn known_held(
    alloc: Global,
    lease: Lease,
    events: &[Event],
    index: &Index,
) -> Result<Vec<Change>, Memory>
    requires { IsIndex events.now index.now }
    ensures { IfOk result (λ found. found.items ≡ known_held lease events.now (lost_since lease None events.now)) }
{
    let since = index.lost_since(lease);
    let mut changes = held(alloc, lease, events, since, index)?;
    cut_off(since, &mut changes)?;
    Ok(changes)
}

/// The chains of the server's own table for a file: for each lease on it what the server holds, change by change, with the
/// positions between which each happens, for `capture_judge::judge_placing`. Where they have no clean placement, the server held
/// leases that clash. From where something of a client may be missing its leases may be lost, and what comes later doesn't count.
/// The events are in the order of the capture.
///
/// # Errors
///
/// `Memory` where there is none left.
#[tactic(auto, using(crate::proofs::Shown::leases_by_index))]
pub fn tables_on(
    alloc: Global,
    file: u64,
    events: &[Event],
    index: &Index,
) -> Result<Vec<Chain>, Memory>
    requires { IsIndex events.now index.now }
    ensures { IfOk result (λ chains. map shown chains.items ≡ tables_on file events.now) }
{
    let mut chains = Vec::new(alloc);
    for lease in index.leases_on(file) {
        let changes = known_held(alloc, *lease, events, index)?;
        push_chain(&mut chains, lease.client, changes)?;
    }
    Ok(chains)
}
