ghost use Rattle.std.specs.Prelude.{◌≡◌, Some, None, ◌++◌, ◌∷◌, [], if◌then◌else◌, OnOk};
ghost use Rattle.std.specs.List.{list_any, flat_map};
ghost use Rattle.std.specs.Option.{option_map};
ghost use Rattle.capture_walk.specs.Events.{open_under, lease_under, open_named, keeps, ended_by, ended, proof_of, sent_at};
ghost use Rattle.capture_walk.specs.Events.{is_elsewhere, disputed, last_break, taken_break};
ghost use Rattle.capture_walk.specs.Events.{last_said, without_epoch, is_newer, is_same_level, is_in_order, shows_order};
ghost use Rattle.capture_walk.specs.Events.{has_order, follows_on, misnumbered, ordered, new_epoch, grant_of, break_of};
ghost use Rattle.capture_walk.specs.Events.{dispute, is_stray_of, strayed, stray};
ghost use Rattle.capture_walk.specs.Events.{granted_lease, granted_of, lost_under, broken_of, broken, lost_of, lost_at, missing};
ghost use Rattle.capture_walk.specs.Events.{closing, last_asked, gone, acknowledged, closed, asked_of, asked_by, answer_by, heard, told_remade, told_by, is_of, all_taken};
ghost use Rattle.capture_walk.specs.Opens.{is_under};
ghost use Rattle.capture_walk.specs.Events.{KnowsLatest};
ghost use Rattle.capture_walk.specs.declared.event.Event.TheVariants as event;

use crate::event::{
    Acknowledged, Answered, Asked, Break, Closed, End, Event, Gone, Grant, Lease, Loss,
    Misnumbered, NotJudged, Proof, Remade, Said, Sent, Stray,
};
use crate::latest::Latest;
use crate::note::{BreakNote, KeyLevel, LeaseGiven, Note, OpenName, Seen};
use crate::opens::{Open, is_under, may_end};
use capture_judge::Level;
use lease_state::{LeaseKey, Memory};

// The last open of a client with a lease under a key.
fn open_under(opens: &[Open], client: Option<u64>, key: LeaseKey) -> Option<Open>
    ensures { result ≡ open_under client key.0 opens.now }
{
    let client = client?;
    for one in opens {
        if is_under(one.lease, client, key) {
            return Some(*one);
        }
    }
    None
}

// The lease that a client holds under a key.
fn lease_under(opens: &[Open], client: Option<u64>, key: LeaseKey) -> Option<Lease>
    ensures { result ≡ lease_under client key.0 opens.now }
{
    let client = client?;
    for one in opens {
        if is_under(one.lease, client, key) {
            return one.lease;
        }
    }
    None
}

// The open that a session names by a FileId.
fn open_named(opens: &[Open], server: u64, name: OpenName) -> Option<Open>
    ensures { result ≡ open_named server name.session name.file_id opens.now }
{
    for one in opens {
        if one.is_named(server, name.session, name.file_id) {
            return Some(*one);
        }
    }
    None
}

fn is_of(lease: Lease, other: Option<Lease>) -> bool
    ensures { result ≡ is_of lease other }
{
    match other {
        Some(other) => other.is(lease),
        None => false,
    }
}

// A request, by the open that it is about, if it is about one.
fn push_asked_of(
    events: &mut Vec<Event>,
    seen: &Seen<'_>,
    id: u64,
    one: Option<Open>,
) -> Result<(), Memory>
    ensures { OnOk result (events.new.items ≡ events.old.items ++ asked_of seen.now id one ∷ []) }
{
    let (lease, opened) = match one {
        Some(one) => (one.lease, one.number),
        None => (None, 0),
    };
    events.push(Event::Asked(Asked {
        lease,
        opened,
        connection: seen.connection,
        id,
        position: seen.latest,
    }))?;
    Ok(())
}

fn push_asked(
    events: &mut Vec<Event>,
    seen: &Seen<'_>,
    client: Option<u64>,
    opens: &[Open],
) -> Result<(), Memory>
    ensures { OnOk result (events.new.items ≡ events.old.items ++ asked_by seen.now.note seen.now client opens.now) }
{
    match seen.note {
        Note::OnOpen(name) | Note::Close(name) => {
            push_asked_of(events, seen, name.id, open_named(opens, seen.server, name))
        }
        Note::Acknowledge(given) => {
            push_asked_of(events, seen, given.id, open_under(opens, client, given.key))
        }
        Note::CreateAsked(asked) => push_asked_of(events, seen, asked.id, None),
        Note::TreeAsked(asked) => push_asked_of(events, seen, asked.id, None),
        Note::RenameAsked(id) | Note::Asked(id) => push_asked_of(events, seen, id, None),
        _ => Ok(()),
    }
}

/// The request that the message is, or the answer to one.
pub(crate) fn push_heard(
    events: &mut Vec<Event>,
    seen: &Seen<'_>,
    client: Option<u64>,
    opens: &[Open],
) -> Result<(), Memory>
    ensures { OnOk result (events.new.items ≡ events.old.items ++ heard seen.now client opens.now) }
{
    push_asked(events, seen, client, opens)?;
    if let Some(id) = seen.note.answered() {
        events.push(Event::Answered(Answered {
            connection: seen.connection,
            id,
            done: seen.note.is_done(),
            position: seen.latest,
        }))?;
    }
    Ok(())
}

// The last request with a MessageId on a connection.
fn last_asked(events: &[Event], connection: u64, id: u64) -> Option<Asked>
    ensures { result ≡ last_asked connection id None events.now }
{
    let mut found = None;
    for event in events {
        if let Event::Asked(one) = event {
            if one.connection == connection && one.id == id {
                found = Some(*one);
            }
        }
    }
    found
}

// The open that a request is about isn't there any more.
fn push_gone(events: &mut Vec<Event>, asked: Option<Asked>) -> Result<(), Memory>
    ensures { OnOk result (events.new.items ≡ events.old.items ++ gone asked) }
{
    if let Some(one) = asked {
        events.push(Event::Gone(Gone { opened: one.opened }))?;
    }
    Ok(())
}

// Whether an open under the lease is left after a message.
fn is_kept(seen: &Seen<'_>, made: Option<Open>, opens: &[Open], lease: Lease) -> bool
    ensures { result ≡ list_any (keeps made seen.now lease) opens.now }
{
    opens
        .iter()
        .any(|one| !one.ends(seen, made) && is_of(lease, one.lease))
}

// The MessageId of a CLOSE.
fn closing(seen: &Seen<'_>) -> Option<u64>
    ensures { result ≡ closing seen.now.note }
{
    match seen.note {
        Note::Close(name) => Some(name.id),
        _ => None,
    }
}

// The end of the lease of an open that ends.
fn push_ended_lease(
    events: &mut Vec<Event>,
    seen: &Seen<'_>,
    made: Option<Open>,
    opens: &[Open],
    one: &Open,
) -> Result<(), Memory>
    ensures { OnOk result (events.new.items ≡ events.old.items ++ ended_by made seen.now opens.now one.now) }
{
    if !one.ends(seen, made) {
        return Ok(());
    }
    let Some(lease) = one.lease else {
        return Ok(());
    };
    events.push(Event::Closed(Closed { opened: one.number }))?;
    if !is_kept(seen, made, opens, lease) {
        events.push(Event::Ended(End {
            lease,
            first: seen.earliest,
            last: seen.latest,
            connection: seen.connection,
            closing: closing(seen),
        }))?;
    }
    Ok(())
}

/// The leases that end with the opens that a message ends, by the open that it makes.
pub(crate) fn push_ended(
    events: &mut Vec<Event>,
    seen: &Seen<'_>,
    made: Option<Open>,
    opens: &[Open],
) -> Result<(), Memory>
    ensures { OnOk result (events.new.items ≡ events.old.items ++ ended made seen.now opens.now) }
{
    if !may_end(seen, made) {
        return Ok(());
    }
    for one in opens {
        push_ended_lease(events, seen, made, opens, one)?;
    }
    Ok(())
}

fn sent_at(seen: &Seen<'_>) -> Sent
    ensures { result ≡ sent_at seen.now }
{
    Sent {
        connection: seen.connection,
        number: seen.number,
        position: seen.latest,
    }
}

// That the response with an open was taken.
fn push_proof(events: &mut Vec<Event>, seen: &Seen<'_>, one: Option<Open>) -> Result<(), Memory>
    ensures { OnOk result (events.new.items ≡ events.old.items ++ proof_of seen.now one) }
{
    if let Some(one) = one {
        events.push(Event::Taken(Proof {
            connection: one.connection,
            number: one.number,
            last: seen.latest,
        }))?;
    }
    Ok(())
}

// A client of which nothing is sure.
fn lost(client: u64, reason: NotJudged) -> Event
    ensures { result ≡ event.Lost (record { client = client; since = 0; reason = reason }) }
{
    Event::Lost(Loss {
        client,
        since: 0,
        reason,
    })
}

// Whether an open is under the lease's key, and not of the lease.
fn is_elsewhere(lease: Lease, one: &Open) -> bool
    ensures { result ≡ is_elsewhere lease one.now }
{
    is_under(one.lease, lease.client, lease.key) && !is_of(lease, one.lease)
}

fn has_dispute(lease: Lease, opens: &[Open]) -> bool
    ensures { result ≡ list_any (is_elsewhere lease) opens.now }
{
    opens.iter().any(|one| is_elsewhere(lease, one))
}

// A lease whose key is that of another file, too.
fn push_disputed(events: &mut Vec<Event>, lease: Lease, opens: &[Open]) -> Result<(), Memory>
    ensures { OnOk result (events.new.items ≡ events.old.items ++ disputed lease opens.now) }
{
    if has_dispute(lease, opens) {
        events.push(lost(lease.client, NotJudged::Disputed))?;
    }
    Ok(())
}

fn is_newer(before: u16, now: u16) -> bool
    ensures { result ≡ is_newer before now }
{
    let ahead = now.wrapping_sub(before);
    0 < ahead && ahead < 0x8000
}

fn is_same_level(one: Level, other: Level) -> bool
    ensures { result ≡ is_same_level one other }
{
    matches!(
        (one, other),
        (Level::Nothing, Level::Nothing)
            | (Level::Something, Level::Something)
            | (Level::Writes, Level::Writes)
    )
}

fn is_in_order(before: Said, now: Said, asked: Option<u64>) -> bool
    ensures { result ≡ is_in_order before now asked }
{
    match asked {
        Some(asked) => {
            now.sent.connection == before.sent.connection || before.sent.position < asked
        }
        None => now.sent.connection == before.sent.connection,
    }
}

fn shows_order(before: Said, now: Said, old: u16, new: u16) -> bool
    ensures { result ≡ shows_order before now old new }
{
    is_newer(old, new) || (new == old && is_same_level(before.level, now.level))
}

fn follows_on(before: Said, now: Said, old: u16, new: u16) -> bool
    ensures { result ≡ follows_on before now old new }
{
    shows_order(before, now, old, new) || (new == old && (!now.breaks || before.breaks))
}

fn push_misnumbered(
    events: &mut Vec<Event>,
    lease: Lease,
    before: Said,
    now: Said,
) -> Result<(), Memory>
    ensures { OnOk result (events.new.items ≡ events.old.items ++ misnumbered lease before now before.epoch now.epoch) }
{
    let (Some(old), Some(new)) = (before.epoch, now.epoch) else {
        return Ok(());
    };
    if !follows_on(before, now, old, new) {
        events.push(Event::Misnumbered(Misnumbered {
            lease,
            before: old,
            epoch: new,
            position: now.sent.position,
        }))?;
    }
    Ok(())
}

fn has_order(before: Said, now: Said) -> bool
    ensures { result ≡ has_order before now before.epoch now.epoch }
{
    match (before.epoch, now.epoch) {
        (Some(old), Some(new)) => shows_order(before, now, old, new),
        _ => false,
    }
}

// What is to be said of the order of a message of the server.
fn push_order(
    events: &mut Vec<Event>,
    lease: Lease,
    before: Option<Said>,
    now: Said,
    asked: Option<u64>,
) -> Result<(), Memory>
    ensures { OnOk result (events.new.items ≡ events.old.items ++ ordered lease before now asked) }
{
    let Some(before) = before else {
        return Ok(());
    };
    if is_in_order(before, now, asked) {
        return push_misnumbered(events, lease, before, now);
    }
    if !has_order(before, now) {
        events.push(lost(lease.client, NotJudged::Disputed))?;
    }
    Ok(())
}

fn push_strayed(events: &mut Vec<Event>, lease: Lease, is_strayed: bool) -> Result<(), Memory>
    ensures { OnOk result (events.new.items ≡ events.old.items ++ (if is_strayed then dispute lease ∷ [] else [])) }
{
    if is_strayed {
        events.push(lost(lease.client, NotJudged::Disputed))?;
    }
    Ok(())
}

fn grant_of(seen: &Seen<'_>, given: LeaseGiven, lease: Lease, asked: u64) -> Grant
    ensures { result ≡ grant_of seen.now given lease asked }
{
    Grant {
        lease,
        state: given.state,
        level: given.level,
        sent: sent_at(seen),
        asked,
        epoch: given.epoch,
    }
}

fn push_granted_lease(
    events: &mut Vec<Event>,
    seen: &Seen<'_>,
    given: LeaseGiven,
    lease: Lease,
    asked: u64,
    said: Option<Said>,
) -> Result<(), Memory>
    ensures { OnOk result (events.new.items ≡ events.old.items ++ granted_lease seen.now given lease asked said) }
{
    if given.breaking {
        return Ok(());
    }
    let grant = grant_of(seen, given, lease, asked);
    push_order(events, lease, said, grant.said(), Some(asked))?;
    events.push(Event::Granted(grant))?;
    Ok(())
}

// The lease that a CREATE response grants to the open that it makes.
fn push_granted(
    events: &mut Vec<Event>,
    seen: &Seen<'_>,
    given: Option<LeaseGiven>,
    made: Option<Open>,
    opens: &[Open],
    latest: &Latest,
) -> Result<(), Memory>
    ensures { OnOk result (KnowsLatest events.old.items latest.now → events.new.items
        ≡ events.old.items ++ granted_of seen.now given made opens.now events.old.items) }
{
    let (Some(given), Some(one)) = (given, made) else {
        return Ok(());
    };
    let Some(lease) = one.lease else {
        return Ok(());
    };
    let said = latest.said(lease);
    let is_strayed = latest.has_stray(lease, seen.connection, one.asked);
    push_disputed(events, lease, opens)?;
    push_strayed(events, lease, is_strayed)?;
    push_granted_lease(events, seen, given, lease, one.asked, said)
}

fn push_lost_under(
    events: &mut Vec<Event>,
    key: LeaseKey,
    lease: Option<Lease>,
) -> Result<(), Memory>
    ensures { OnOk result (events.new.items ≡ events.old.items ++ lost_under key.0 lease) }
{
    if let Some(lease) = lease {
        if lease.key.0.as_slice() == key.0.as_slice() {
            events.push(lost(lease.client, NotJudged::Stranger))?;
        }
    }
    Ok(())
}

// A break where it isn't known whose its connection is.
fn push_strange_break(events: &mut Vec<Event>, key: LeaseKey, opens: &[Open]) -> Result<(), Memory>
    ensures { OnOk result (events.new.items ≡ events.old.items ++ flat_map (λ other. lost_under key.0 other.lease) opens.now) }
{
    for one in opens {
        push_lost_under(events, key, one.lease)?;
    }
    Ok(())
}

fn new_epoch(said: Option<Said>, epoch: u16) -> Option<u16>
    ensures { result ≡ new_epoch said epoch }
{
    match said?.epoch {
        Some(_) => Some(epoch),
        None => None,
    }
}

fn break_of(seen: &Seen<'_>, one: BreakNote, lease: Lease, said: Option<Said>) -> Break
    ensures { result ≡ break_of seen.now one lease said }
{
    Break {
        lease,
        state: one.state,
        level: one.level,
        sent: sent_at(seen),
        acknowledged: one.acknowledged,
        epoch: new_epoch(said, one.epoch),
    }
}

fn push_stray(
    events: &mut Vec<Event>,
    seen: &Seen<'_>,
    one: BreakNote,
    client: u64,
) -> Result<(), Memory>
    ensures { OnOk result (events.new.items ≡ events.old.items ++ stray seen.now one client ∷ []) }
{
    events.push(Event::Stray(Stray {
        client,
        key: one.key,
        sent: sent_at(seen),
    }))?;
    Ok(())
}

fn push_broken_lease(
    events: &mut Vec<Event>,
    seen: &Seen<'_>,
    one: BreakNote,
    client: u64,
    opens: &[Open],
    latest: &Latest,
) -> Result<(), Memory>
    ensures { OnOk result (KnowsLatest events.old.items latest.now → events.new.items
        ≡ events.old.items ++ broken_of seen.now one client
        (lease_under (Some client) one.key.0 opens.now) opens.now events.old.items) }
{
    let Some(lease) = lease_under(opens, Some(client), one.key) else {
        return push_stray(events, seen, one, client);
    };
    let said = latest.said(lease);
    let broken = break_of(seen, one, lease, said);
    push_disputed(events, lease, opens)?;
    push_order(events, lease, said, broken.said(), None)?;
    events.push(Event::Broken(broken))?;
    Ok(())
}

fn push_broken(
    events: &mut Vec<Event>,
    seen: &Seen<'_>,
    one: BreakNote,
    client: Option<u64>,
    opens: &[Open],
    latest: &Latest,
) -> Result<(), Memory>
    ensures { OnOk result (KnowsLatest events.old.items latest.now → events.new.items
        ≡ events.old.items ++ broken seen.now one client opens.now events.old.items) }
{
    match client {
        Some(client) => push_broken_lease(events, seen, one, client, opens, latest),
        None => push_strange_break(events, one.key, opens),
    }
}

// That a break was taken.
fn push_taken_break(
    events: &mut Vec<Event>,
    seen: &Seen<'_>,
    sent: Option<Sent>,
) -> Result<(), Memory>
    ensures { OnOk result (events.new.items ≡ events.old.items ++ taken_break seen.now sent) }
{
    if let Some(sent) = sent {
        events.push(Event::Taken(Proof {
            connection: sent.connection,
            number: sent.number,
            last: seen.latest,
        }))?;
    }
    Ok(())
}

fn push_acknowledged(
    events: &mut Vec<Event>,
    seen: &Seen<'_>,
    given: KeyLevel,
    lease: Option<Lease>,
    latest: &Latest,
) -> Result<(), Memory>
    ensures { OnOk result (KnowsLatest events.old.items latest.now → events.new.items
        ≡ events.old.items ++ acknowledged seen.now given lease events.old.items) }
{
    let Some(lease) = lease else {
        return Ok(());
    };
    let sent = latest.broken(lease);
    events.push(Event::Acknowledged(Acknowledged {
        lease,
        level: given.level,
        connection: seen.connection,
        id: given.id,
        last: seen.latest,
    }))?;
    push_taken_break(events, seen, sent)
}

fn missing(client: u64, since: u64) -> Event
    ensures { result ≡ missing client since }
{
    Event::Lost(Loss {
        client,
        since,
        reason: NotJudged::Missing,
    })
}

fn push_lost_at(events: &mut Vec<Event>, server: u64, since: u64, one: &Open) -> Result<(), Memory>
    ensures { OnOk result (events.new.items ≡ events.old.items ++ lost_at server since one.now one.now.lease) }
{
    if let Some(lease) = one.lease {
        if one.server == server {
            events.push(missing(lease.client, since))?;
        }
    }
    Ok(())
}

// A gap in a connection of which it isn't known whose it is.
fn push_lost_around(
    events: &mut Vec<Event>,
    server: u64,
    since: u64,
    opens: &[Open],
) -> Result<(), Memory>
    ensures { OnOk result (events.new.items
        ≡ events.old.items ++ flat_map (λ one. lost_at server since one one.lease) opens.now) }
{
    for one in opens {
        push_lost_at(events, server, since, one)?;
    }
    Ok(())
}

// A gap in a connection.
fn push_lost(
    events: &mut Vec<Event>,
    seen: &Seen<'_>,
    client: Option<u64>,
    since: u64,
    opens: &[Open],
) -> Result<(), Memory>
    ensures { OnOk result (events.new.items ≡ events.old.items ++ lost_of seen.now client since opens.now) }
{
    match client {
        Some(client) => events.push(missing(client, since))?,
        None => push_lost_around(events, seen.server, since, opens)?,
    }
    Ok(())
}

// That all messages of the server on a connection were taken.
fn push_all_taken(events: &mut Vec<Event>, seen: &Seen<'_>) -> Result<(), Memory>
    ensures { OnOk result (events.new.items ≡ events.old.items ++ all_taken seen.now ∷ []) }
{
    events.push(Event::Taken(Proof {
        connection: seen.connection,
        number: seen.number,
        last: seen.latest,
    }))?;
    Ok(())
}

/// A file is made in the place of another one.
pub(crate) fn push_remade(events: &mut Vec<Event>, remade: Option<Remade>) -> Result<(), Memory>
    ensures { OnOk result (events.new.items ≡ events.old.items ++ told_remade remade) }
{
    if let Some(one) = remade {
        events.push(Event::Remade(one))?;
    }
    Ok(())
}

/// What a message shows besides, by the client of its connection, the open that it makes, from where on something is missing if
/// it is a gap, the opens before it, and what the events before say last.
pub(crate) fn push_told(
    events: &mut Vec<Event>,
    seen: &Seen<'_>,
    client: Option<u64>,
    made: Option<Open>,
    since: u64,
    opens: &[Open],
    latest: &Latest,
) -> Result<(), Memory>
    ensures { OnOk result (KnowsLatest events.old.items latest.now → events.new.items
        ≡ events.old.items ++ told_by seen.now.note seen.now client made since opens.now events.old.items) }
{
    match seen.note {
        Note::CreateGiven(given) => push_granted(events, seen, given.lease, made, opens, latest),
        Note::OnOpen(name) | Note::Close(name) => {
            push_proof(events, seen, open_named(opens, seen.server, name))
        }
        Note::Acknowledge(given) => {
            let lease = lease_under(opens, client, given.key);
            push_acknowledged(events, seen, given, lease, latest)
        }
        Note::Break(one) => push_broken(events, seen, one, client, opens, latest),
        Note::Gone(id) => {
            let asked = last_asked(events, seen.connection, id);
            push_gone(events, asked)
        }
        Note::Gap => push_lost(events, seen, client, since, opens),
        Note::Taken => push_all_taken(events, seen),
        _ => Ok(()),
    }
}
