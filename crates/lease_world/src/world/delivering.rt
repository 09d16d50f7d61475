ghost use Rattle.std.specs.Prelude.{◌≡◌, ◌++◌, [], ◌∷◌, map, length, OnOk};
ghost use Rattle.lease_client.specs.Answers.{note_of};
ghost use Rattle.lease_model.specs.world.World as model;
ghost use Rattle.lease_facts.specs.Facts.{fact_of};
ghost use Rattle.lease_world.specs.world.Seats.{HasSeat, HasReplies, HasKept, fact_given, replies_among, with_replies};

use crate::world::contents::Contents;
use crate::world::messages::Messages;
use crate::world::seat::Seat;
use lease_client::{Given, Note};
use lease_facts::Fact;
use lease_state::{ClientNo, Memory, Reply};
use share_server::Out;

/// Records what the server gave out, in order, sends its replies, and keeps them where messages are
/// kept.
///
/// # Errors
///
/// `Memory` where there is none left for the record, a queue or the messages.
pub fn deliver(
    seats: &mut Vec<Seat>,
    facts: &mut Vec<Fact>,
    messages: &mut Messages,
    contents: &mut Contents,
    outs: Vec<Out>,
) -> Result<(), Memory>
    ensures replies { OnOk result (HasReplies seats.old.items seats.new.items outs.items) }
    ensures count { OnOk result (length seats.new.items ≡ length seats.old.items) }
    ensures facts { OnOk result (map fact_of facts.new.items ≡ map fact_of facts.old.items ++ map fact_given outs.items) }
    ensures kept { OnOk result (HasKept messages.old messages.new (replies_among outs.items)) }
{
    for out in outs {
        deliver_one(seats, facts, messages, contents, out)?;
    }
    Ok(())
}

fn deliver_one(
    seats: &mut Vec<Seat>,
    facts: &mut Vec<Fact>,
    messages: &mut Messages,
    contents: &mut Contents,
    out: Out,
) -> Result<(), Memory>
    ensures replies { OnOk result (HasReplies seats.old.items seats.new.items (out ∷ [])) }
    ensures count { OnOk result (length seats.new.items ≡ length seats.old.items) }
    ensures facts { OnOk result (map fact_of facts.new.items ≡ map fact_of facts.old.items ++ fact_given out ∷ []) }
    ensures kept { OnOk result (HasKept messages.old messages.new (replies_among (out ∷ []))) }
{
    let fact = match out {
        Out::Sent(client, reply) => {
            messages.push(&reply)?;
            push_reply(seats, contents, client, reply)?;
            Fact::Sent(client)
        }
        Out::Opened(file, client) => Fact::Opened(file, client),
        Out::Changed(file, client, number, patch) => Fact::Changed(file, client, number, patch),
    };
    facts.push(fact)?;
    Ok(())
}

// A reply is on its way to the client, if there is one of this number.
fn push_reply(
    seats: &mut Vec<Seat>,
    contents: &mut Contents,
    client: ClientNo,
    reply: Reply,
) -> Result<(), Memory>
    ensures seats { OnOk result (HasSeat seats.old.items seats.new.items client.0 (with_replies (reply ∷ []))) }
    ensures count { OnOk result (length seats.new.items ≡ length seats.old.items) }
{
    let number = usize::from(client.0);
    if number >= 1 && number <= seats.len() {
        let seat = &mut seats[number - 1];
        seat.push_reply(contents, reply)?;
    }
    Ok(())
}

/// Records what a client noted, in order.
///
/// # Errors
///
/// `Memory` where there is none left for the record.
pub fn tell_notes(facts: &mut Vec<Fact>, client: ClientNo, given: &mut Given) -> Result<(), Memory>
    ensures { OnOk result (map fact_of facts.new.items
        ≡ map fact_of facts.old.items ++ map (model.fact_of client.0) given.old.notes) }
{
    if given.notes.is_empty() {
        return Ok(());
    }
    for note in given.notes.drain(..) {
        facts.push(fact_noted(client, note))?;
    }
    Ok(())
}

fn fact_noted(client: ClientNo, note: Note) -> Fact
    ensures { fact_of result ≡ model.fact_of client.0 (note_of note) }
{
    match note {
        Note::Settled(number, outcome) => Fact::Settled(client, number, outcome),
        Note::Wrote(file, number, patch, buffered) => {
            Fact::Wrote(client, file, number, patch, buffered)
        }
        Note::Believes(file, state) => Fact::Believes(client, file, state),
        Note::CachedRead(file, bytes) => Fact::CachedRead(client, file, bytes),
    }
}
