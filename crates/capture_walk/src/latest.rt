ghost use Rattle.std.specs.Prelude.{◌≡◌, ◌++◌, ◌∷◌, [], ℕ, List, None, OnOk, IfOk, ◌+◌};
ghost use Rattle.std.specs.List.{list_any};
ghost use Rattle.capture_walk.specs.Events.{is_stray_of, last_break, last_said, without_epoch};
ghost use Rattle.std.specs.Prelude.{if◌then◌else◌};
ghost use Rattle.std.specs.Option.{option_map};
ghost use Rattle.capture_walk.specs.Chains.{is_same};
ghost use Rattle.capture_walk.specs.Events.{KnowsLatest};
ghost use Rattle.capture_walk.specs.LeaseMaps.{broken_in, said_in};
ghost use Rattle.capture_walk.specs.declared.event.Event.{Event};
ghost use Rattle.capture_walk.specs.declared.event.Lease.{Lease};

use crate::event::{Event, Lease, Said, Sent};
use crate::opens::is_under;
use crate::slices::from;
use lease_state::Memory;
use std::alloc::Global;
use std::collections::BTreeMap;

/// What events say last of leases, so that nobody has to look back in them.
#[derive(Debug, Drop)]
pub(crate) struct Latest {
    // How many events were taken.
    count: usize,
    said: BTreeMap<Lease, Said>,
    broken: BTreeMap<Lease, Sent>,
    // The breaks of no open that is known.
    strays: Vec<Event>,
}

fn without_epoch(said: Said) -> Said
    ensures { result ≡ without_epoch said }
{
    Said {
        epoch: None,
        ..said
    }
}

// Its epoch counts no more once a lease has ended.
#[tactic(auto, using(crate::proofs::Leases::none_at))]
fn end(said: &mut BTreeMap<Lease, Said>, lease: Lease) -> Result<(), Memory>
    ensures { OnOk result ((other : Lease) → said_in said.new other
        ≡ (if is_same lease other then option_map without_epoch (said_in said.old other) else said_in said.old other)) }
{
    let Some(before) = said.get(&lease) else {
        return Ok(());
    };
    let ended = without_epoch(*before);
    said.insert(lease, ended)?;
    Ok(())
}

#[tactic(auto, using(crate::proofs::Leases::changed_at))]
fn note_said(said: &mut BTreeMap<Lease, Said>, event: &Event) -> Result<(), Memory>
    ensures { OnOk result ((lease : Lease) (later : List Event)
        → last_said lease (said_in said.new lease) later ≡ last_said lease (said_in said.old lease) (event.now ∷ later)) }
{
    match event {
        Event::Granted(one) => {
            said.insert(one.lease, one.said())?;
        }
        Event::Broken(one) => {
            said.insert(one.lease, one.said())?;
        }
        Event::Ended(one) => end(said, one.lease)?,
        _ => {}
    }
    Ok(())
}

#[tactic(auto, using(crate::proofs::Leases::changed_at))]
fn note_broken(broken: &mut BTreeMap<Lease, Sent>, event: &Event) -> Result<(), Memory>
    ensures { OnOk result ((lease : Lease) (later : List Event)
        → last_break lease (broken_in broken.new lease) later
        ≡ last_break lease (broken_in broken.old lease) (event.now ∷ later)) }
{
    if let Event::Broken(one) = event {
        broken.insert(one.lease, one.sent)?;
    }
    Ok(())
}

fn note_stray(strays: &mut Vec<Event>, event: &Event) -> Result<(), Memory>
    ensures { OnOk result ((lease : Lease) (connection asked : ℕ) (later : List Event)
        → list_any (is_stray_of lease connection asked) (strays.new.items ++ later)
        ≡ list_any (is_stray_of lease connection asked) (strays.old.items ++ event.now ∷ later)) }
{
    if let Event::Stray(_) = event {
        strays.push(*event)?;
    }
    Ok(())
}

fn is_stray_of(lease: Lease, connection: u64, asked: u64, event: &Event) -> bool
    ensures { result ≡ is_stray_of lease connection asked event.now }
{
    match event {
        Event::Stray(one) => {
            is_under(Some(lease), one.client, one.key)
                && !(one.sent.connection == connection || one.sent.position < asked)
        }
        _ => false,
    }
}

fn has_stray(events: &[Event], lease: Lease, connection: u64, asked: u64) -> bool
    ensures { result ≡ list_any (is_stray_of lease connection asked) events.now }
{
    events
        .iter()
        .any(|event| is_stray_of(lease, connection, asked, event))
}

// The number after one.
fn next(count: usize) -> Result<usize, Memory>
    ensures { IfOk result (λ next. next ≡ count + 1) }
{
    count.checked_add(1).ok_or(Memory)
}

impl Latest {
    /// Before any event. Allocates nothing.
    pub(crate) fn new(alloc: Global) -> Latest
        ensures { KnowsLatest [] result }
    {
        Latest {
            count: 0,
            said: BTreeMap::new(alloc),
            broken: BTreeMap::new(alloc),
            strays: Vec::new(alloc),
        }
    }

    /// What the server said last of a lease.
    pub(crate) fn said(&self, lease: Lease) -> Option<Said>
        ensures { (before : List Event) → KnowsLatest before self.now → result ≡ last_said lease None before }
    {
        match self.said.get(&lease) {
            Some(said) => Some(*said),
            None => None,
        }
    }

    /// The last break of a lease.
    pub(crate) fn broken(&self, lease: Lease) -> Option<Sent>
        ensures { (before : List Event) → KnowsLatest before self.now → result ≡ last_break lease None before }
    {
        match self.broken.get(&lease) {
            Some(sent) => Some(*sent),
            None => None,
        }
    }

    /// Whether a break of no open that was known may be of a lease that is granted on a connection, where that was asked for at a
    /// position.
    pub(crate) fn has_stray(&self, lease: Lease, connection: u64, asked: u64) -> bool
        ensures { (before : List Event) → KnowsLatest before self.now
            → result ≡ list_any (is_stray_of lease connection asked) before }
    {
        has_stray(&self.strays, lease, connection, asked)
    }

    fn note(&mut self, event: &Event) -> Result<(), Memory>
        ensures { OnOk result ((before : List Event) → KnowsLatest before self.old
            → KnowsLatest (before ++ event.now ∷ []) self.new) }
    {
        self.count = next(self.count)?;
        note_said(&mut self.said, event)?;
        note_broken(&mut self.broken, event)?;
        note_stray(&mut self.strays, event)
    }

    /// Takes note of the events that were added to those of which it took note.
    pub(crate) fn take(&mut self, events: &[Event]) -> Result<(), Memory>
        ensures { OnOk result ((before added : List Event) → KnowsLatest before self.old → events.now ≡ before ++ added
            → KnowsLatest events.now self.new) }
    {
        for event in from(events, self.count) {
            self.note(event)?;
        }
        Ok(())
    }
}
