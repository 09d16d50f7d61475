ghost use Rattle.std.specs.Prelude.{◌≡◌, ◌↔◌, ◌≤◌, ◌++◌, [], Ok, Err, Some, None, true, false, map, length};
ghost use Rattle.std.specs.Prelude.{IfOk, OnOk, if◌then◌else◌};
ghost use Rattle.lease_model.specs.messages.FromBytes.{reply_of};
ghost use Rattle.lease_model.specs.records.Safe.{Safe};
ghost use Rattle.lease_model.specs.records.Verdict.{Verdict, verdict};
ghost use Rattle.lease_model.specs.world.Allowed.{is_allowed_setup, are_too_many};
ghost use Rattle.lease_model.specs.world.Events.{after, recorded, recorded_under};
ghost use Rattle.lease_model.specs.world.World.{first_world_under};
ghost use Rattle.lease_facts.specs.Facts.{fact_of};
ghost use Rattle.lease_facts.specs.Passages.{passage_meant};
ghost use Rattle.lease_facts.specs.Setups.{setup_of, event_of};
ghost use Rattle.lease_world.specs.world.Kept.{IfKept};
ghost use Rattle.lease_world.specs.world.Messages.{messages_told_under, speaking};
ghost use Rattle.lease_world.specs.world.Obstacles.{idle_meant, idle_noted, idle_told_under, ObstaclesAreExact, RefusalsAreNamed};
ghost use Rattle.lease_world.specs.world.Passages.{passages_noted, passages_told_under};
ghost use Rattle.lease_world.specs.world.Stands.{Stands};
ghost use Rattle.lease_world.specs.world.Worlds.{KeepsBehind};

use crate::obstacle::{Idle, Obstacle};
use crate::setup::{RunFault, is_allowed};
use crate::world::World;
use crate::world::messages::Messages;
use lease_coherence::coherent;
use lease_facts::{Event, Fact, Passage, Setup};
use lease_laws::verdict_decides;
use lease_state::{Memory, Reply, Rules};
use std::alloc::Global;

/// What a run keeps in addition to its record. Messages have the bytes that were read, and passages those that were written.
#[derive(Clone, Copy, Debug, PartialEq, Eq)]
pub struct Kept {
    pub messages: bool,
    pub idle: bool,
    pub passages: bool,
}

impl Kept {
    /// The record alone.
    pub fn nothing() -> Kept
        ensures { result ≡ record { messages = false; idle = false; passages = false } }
    {
        Kept {
            messages: false,
            idle: false,
            passages: false,
        }
    }

    /// All of it.
    pub fn all() -> Kept
        ensures { result ≡ record { messages = true; idle = true; passages = true } }
    {
        Kept {
            messages: true,
            idle: true,
            passages: true,
        }
    }
}

/// What a run tells. What isn't kept of it is empty.
#[derive(Debug, Drop)]
pub struct Told {
    /// Its record.
    pub facts: Vec<Fact>,
    /// The messages that the record speaks of: one for each `Sent` and each `Took`, in their order. A break is there as it was
    /// sent, and so are the contexts of a created file.
    pub messages: Vec<Reply>,
    /// The events that did nothing, in order.
    pub idle: Vec<Idle>,
    /// What became of the requests that clients sent, in order.
    pub passages: Vec<Passage>,
}

// The most events of a run.
const EVENTS_LIMIT: usize = 10_000;

/// The record of a run: what happens in a world of this setup by these events, in order. An event that doesn't apply
/// does nothing.
///
/// The record is safe, whatever the events. Among clients whose connection the server has, that
/// never strayed (only their machines made the requests sent in their name) and let no break timer
/// run out since they connected, none caches writes of a file that another caches, and a cached
/// read gives the file as it stood when the message that the client took last was sent, with its
/// unanswered writes. Of clients that never strayed, no write is settled as done that wasn't
/// accepted, and no buffered write is accepted after another client opened or changed the file. So
/// `judge` calls it safe.
///
/// # Errors
///
/// `BadSetup` exactly where the setup breaks its limits, else `TooMany` exactly where there are too many events, else
/// `Memory` where there is none left.
pub fn run(alloc: Global, setup: &Setup, events: &[Event]) -> Result<Vec<Fact>, RunFault>
    ensures bad_setup { (result ≡ Err RunFault.BadSetup) ↔ (is_allowed_setup (setup_of setup.now) ≡ false) }
    ensures too_many { (result ≡ Err RunFault.TooMany)
        ↔ ((is_allowed_setup (setup_of setup.now) ≡ true) × (are_too_many (map event_of events.now) ≡ true)) }
    ensures record { IfOk result (λ facts. map fact_of facts.items
        ≡ recorded (setup_of setup.now) (map event_of events.now)) }
    ensures safe { IfOk result (λ facts. Safe (map fact_of facts.items)) }
    ensures judged { IfOk result (λ facts. verdict (map fact_of facts.items) ≡ Verdict.Safe) }
{
    match run_under(alloc, Rules::profile(), Kept::nothing(), setup, events) {
        Ok(told) => Ok(told.facts),
        Err(fault) => Err(fault),
    }
}

/// A run with a server of these rules: its record, as `run` gives it, whose server has the profile's, and of the
/// rest what is to be kept: the messages that the record speaks of, the events that did nothing, each with what stood in its
/// way, and what became of requests. The record is safe under all rules. The events that did nothing are those that leave the
/// world as it was; commands that are refused are among them.
///
/// # Errors
///
/// Those of `run`, in the same cases.
#[tactic(auto, using(crate::proofs::worlds::Kept::kept_messages, crate::proofs::worlds::Speaking::each_kept))]
pub fn run_under(
    alloc: Global,
    rules: Rules,
    kept: Kept,
    setup: &Setup,
    events: &[Event],
) -> Result<Told, RunFault>
    ensures bad_setup { (result ≡ Err RunFault.BadSetup) ↔ (is_allowed_setup (setup_of setup.now) ≡ false) }
    ensures too_many { (result ≡ Err RunFault.TooMany)
        ↔ ((is_allowed_setup (setup_of setup.now) ≡ true) × (are_too_many (map event_of events.now) ≡ true)) }
    ensures record { IfOk result (λ told. map fact_of told.facts.items
        ≡ recorded_under rules (setup_of setup.now) (map event_of events.now)) }
    ensures messages { IfOk result (λ told. IfKept kept.messages told.messages.items (map reply_of told.messages.items
        ≡ messages_told_under rules (setup_of setup.now) (map event_of events.now))) }
    ensures each { IfOk result (λ told. IfKept kept.messages told.messages.items
        (speaking (map fact_of told.facts.items) ≡ length told.messages.items)) }
    ensures idle { IfOk result (λ told. IfKept kept.idle told.idle.items (map idle_meant told.idle.items
        ≡ idle_told_under rules (setup_of setup.now) (map event_of events.now))) }
    ensures passages { IfOk result (λ told. IfKept kept.passages told.passages.items (map passage_meant told.passages.items
        ≡ passages_told_under rules (setup_of setup.now) (map event_of events.now))) }
    ensures safe { IfOk result (λ told. Safe (map fact_of told.facts.items)) }
    ensures judged { IfOk result (λ told. verdict (map fact_of told.facts.items) ≡ Verdict.Safe) }
{
    coherent();
    verdict_decides();
    if !is_allowed(setup) {
        return Err(RunFault::BadSetup);
    }
    if are_too_many(events) {
        return Err(RunFault::TooMany);
    }
    let (mut idle, mut passages) = (Vec::new(alloc), Vec::new(alloc));
    match play(alloc, rules, kept, setup, events, &mut idle, &mut passages) {
        Ok(world) => {
            let (facts, messages) = world.into_parts();
            Ok(Told {
                facts,
                messages: messages.into_list(alloc),
                idle,
                passages,
            })
        }
        Err(Memory) => Err(RunFault::Memory),
    }
}

/// What stands in the way of an event stands there exactly where the event leaves the world as it was; of a command that is
/// refused it is the refusal. Does nothing.
pub fn obstacles_are_exact()
    ensures exact { ObstaclesAreExact }
    ensures refusals { RefusalsAreNamed }
{}

fn are_too_many(events: &[Event]) -> bool
    ensures { result ≡ are_too_many (map event_of events.now) }
{
    events.len() > EVENTS_LIMIT
}

// Messages that are kept, or not, before a run.
fn messages_before(alloc: Global, are_kept: bool) -> Messages
    ensures { result ≡ (if are_kept then Some [] else None) }
{
    if are_kept {
        Messages::new(alloc)
    } else {
        Messages::unkept()
    }
}

// The world after a run whose setup has few files. The events that did nothing and what became of requests come into lists that
// are empty, where they are to be kept.
fn play(
    alloc: Global,
    rules: Rules,
    kept: Kept,
    setup: &Setup,
    events: &[Event],
    idle: &mut Vec<Idle>,
    passages: &mut Vec<Passage>,
) -> Result<World, Memory>
    requires few { length setup.now.files.items ≤ 255 }
    requires none { idle.old.items ≡ [] }
    requires none_sent { passages.old.items ≡ [] }
    ensures stands { IfOk result
        (λ world. Stands world (after (first_world_under rules (setup_of setup.now)) (map event_of events.now))) }
    ensures kept { IfOk result (λ world. KeepsBehind (if kept.messages then Some [] else None)
        (messages_told_under rules (setup_of setup.now) (map event_of events.now)) world) }
    ensures idle { OnOk result (IfKept kept.idle idle.new.items (map idle_meant idle.new.items
        ≡ idle_told_under rules (setup_of setup.now) (map event_of events.now))) }
    ensures passages { OnOk result (IfKept kept.passages passages.new.items (map passage_meant passages.new.items
        ≡ passages_told_under rules (setup_of setup.now) (map event_of events.now))) }
{
    let messages = messages_before(alloc, kept.messages);
    let mut world = World::new(alloc, rules, setup, messages)?;
    for (place, event) in events.iter().enumerate() {
        let facts = world.count();
        let waiting = world.waiting(event.client());
        let obstacle = world.happen_explained(event)?;
        note_idle(idle, kept.idle, place, facts, obstacle)?;
        note_passages(passages, kept.passages, &world, event, facts, waiting)?;
    }
    Ok(world)
}

// Adds the event in this place, where something stood in its way, if such events are kept.
fn note_idle(
    idle: &mut Vec<Idle>,
    is_kept: bool,
    event: usize,
    facts: usize,
    obstacle: Option<Obstacle>,
) -> Result<(), Memory>
    ensures { OnOk result (idle.new.items
        ≡ idle.old.items ++ (if is_kept then idle_noted event facts obstacle else [])) }
{
    if !is_kept {
        return Ok(());
    }
    if let Some(obstacle) = obstacle {
        idle.push(Idle {
            event,
            facts,
            obstacle,
        })?;
    }
    Ok(())
}

// Adds what became of requests by an event that happened, as `World::note_passages` does, if that is kept.
fn note_passages(
    passages: &mut Vec<Passage>,
    is_kept: bool,
    world: &World,
    event: &Event,
    facts: usize,
    waiting: usize,
) -> Result<(), Memory>
    ensures { OnOk result (passages.new.items
        ≡ passages.old.items ++ (if is_kept then passages_noted event.now facts waiting world.now else [])) }
{
    if is_kept {
        world.note_passages(passages, event, facts, waiting)?;
    }
    Ok(())
}
