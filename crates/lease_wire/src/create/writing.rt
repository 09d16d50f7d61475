ghost use Rattle.std.specs.Prelude.{◌≡◌, ◌<◌, ◌≤◌, ◌++◌, length, drop, OnOk, OnErr};
ghost use Rattle.lease_wire.specs.Canonical.{canonical_text};
ghost use Rattle.lease_wire.specs.Views.{lease_of, values_of};
ghost use Rattle.std.specs.Option.{option_map};
ghost use Rattle.lease_wire.specs.declared.create.Direction.TheVariants.{Request, Reply};
ghost use Rattle.lease_wire.specs.Create.{ask_of, answer_of, WrittenHoldsValue, WrittenReadsBack};

use crate::create::meaning::Lease;
use crate::create::reading::ContextValues;
use crate::create::text::push_text;
use crate::create::{CreateAnswer, CreateAsk, Direction};
use arrayvec::ArrayVec;
use lease_state::Memory;

// Appends all of the canonical text, or nothing.
// docs/DECISIONS.md: "Canonical texts are made in an array".
#[inline(always)]
fn append(out: &mut Vec<u8>, direction: Direction, values: &ContextValues) -> Result<(), Memory>
    ensures ok { OnOk result (out.new.items ≡ out.old.items ++ canonical_text direction (values_of values.now)) }
    ensures err { OnErr result (out.new.items ≡ out.old.items) }
{
    let mut text = ArrayVec::new();
    push_text(&mut text, direction, values);
    match out.extend_from_slice(text.as_slice()) {
        Ok(()) => Ok(()),
        Err(_) => Err(Memory),
    }
}

// Writes all of the canonical text to the front of the room, or nothing; gives how long the text
// is.
#[inline(always)]
fn fill(room: &mut [u8], direction: Direction, values: &ContextValues) -> usize
    ensures length { result ≡ length (canonical_text direction (values_of values.now)) }
    ensures written { result ≤ length room.old → room.new ≡ canonical_text direction (values_of values.now)
        ++ drop result room.old }
    ensures no_room { length room.old < result → room.new ≡ room.old }
{
    let mut text = ArrayVec::new();
    push_text(&mut text, direction, values);
    if text.len() <= room.len() {
        room[..text.len()].copy_from_slice(text.as_slice());
    }
    text.len()
}

fn lease_asked(ask: &CreateAsk) -> Option<Lease>
    ensures { option_map lease_of result ≡ (ask_of ask.now).lease }
{
    match ask.lease {
        Some((key, state)) => Some(Lease {
            key,
            state,
            breaking: false,
        }),
        None => None,
    }
}

fn lease_granted(answer: &CreateAnswer) -> Option<Lease>
    ensures { option_map lease_of result ≡ (answer_of answer.now).lease }
{
    match answer.lease {
        Some((key, state, breaking)) => Some(Lease {
            key,
            state,
            breaking,
        }),
        None => None,
    }
}

fn values_asked(ask: &CreateAsk) -> ContextValues
    ensures { values_of result ≡ ask_of ask.now }
{
    ContextValues {
        lease: lease_asked(ask),
        durable: ask.durable,
        reconnect: ask.reconnect,
    }
}

fn values_granted(answer: &CreateAnswer) -> ContextValues
    ensures { values_of result ≡ answer_of answer.now }
{
    ContextValues {
        lease: lease_granted(answer),
        durable: answer.durable,
        reconnect: None,
    }
}

/// Appends the create contexts of a request (MS-SMB2 2.2.13.2) in their canonical text: `RqLs`,
/// `DHnQ`, `DHnC`, those that are asked for, without padding between them.
///
/// # Errors
///
/// `Memory` where there is none, and the vector is then as it was.
pub fn write_create_ask(ask: &CreateAsk, out: &mut Vec<u8>) -> Result<(), Memory>
    ensures ok { OnOk result (out.new.items ≡ out.old.items ++ canonical_text Request (ask_of ask.now)) }
    ensures err { OnErr result (out.new.items ≡ out.old.items) }
{
    append(out, Direction::Request, &values_asked(ask))
}

/// Appends the create contexts of a response (MS-SMB2 2.2.14.2) in their canonical text: `RqLs`,
/// `DHnQ`, those that are granted.
///
/// # Errors
///
/// `Memory` where there is none, and the vector is then as it was.
pub fn write_create_reply(answer: &CreateAnswer, out: &mut Vec<u8>) -> Result<(), Memory>
    ensures ok { OnOk result (out.new.items ≡ out.old.items ++ canonical_text Reply (answer_of answer.now)) }
    ensures err { OnErr result (out.new.items ≡ out.old.items) }
{
    append(out, Direction::Reply, &values_granted(answer))
}

/// Writes what [`write_create_ask`] appends to the front of `room`, and allocates nothing. Returns
/// the length of the text, 136 bytes at most; where `room` is shorter, nothing is written.
pub fn fill_create_ask(ask: &CreateAsk, room: &mut [u8]) -> usize
    ensures length { result ≡ length (canonical_text Request (ask_of ask.now)) }
    ensures written { result ≤ length room.old → room.new ≡ canonical_text Request (ask_of ask.now) ++ drop result room.old }
    ensures no_room { length room.old < result → room.new ≡ room.old }
{
    fill(room, Direction::Request, &values_asked(ask))
}

/// Writes what [`write_create_reply`] appends to the front of `room`, and allocates nothing.
/// Returns the length of the text, 88 bytes at most; where `room` is shorter, nothing is written.
pub fn fill_create_reply(answer: &CreateAnswer, room: &mut [u8]) -> usize
    ensures length { result ≡ length (canonical_text Reply (answer_of answer.now)) }
    ensures written { result ≤ length room.old → room.new ≡ canonical_text Reply (answer_of answer.now) ++ drop result room.old }
    ensures no_room { length room.old < result → room.new ≡ room.old }
{
    fill(room, Direction::Reply, &values_granted(answer))
}

/// Laws of the canonical text: it holds the value that it was written for, and so is read back.
/// Does nothing.
pub fn canonical_laws()
    ensures holds { WrittenHoldsValue }
    ensures reads_back { WrittenReadsBack }
{}
