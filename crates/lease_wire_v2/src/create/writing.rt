ghost use Rattle.std.specs.Prelude.{◌≡◌, ◌<◌, ◌≤◌, ◌++◌, length, drop, OnOk, OnErr};
ghost use Rattle.std.specs.Option.{option_map};
ghost use Rattle.lease_wire.specs.declared.create.Direction.TheVariants.{Request, Reply};
ghost use Rattle.lease_wire_v2.specs.Canonical.{canonical_text, WrittenHoldsValue, WrittenReadsBack};
ghost use Rattle.lease_wire_v2.specs.FirstVersion.{FirstVersionIsRead, FirstVersionIsWritten};
ghost use Rattle.lease_wire_v2.specs.Views.{lease_view_of, asked_lease, any_durable, asked_durable, granted_durable};
ghost use Rattle.lease_wire_v2.specs.Views.{values_of, ask_of, answer_of};

use crate::create::meaning::AnyDurable;
use crate::create::reading::Values;
use crate::create::text::push_text;
use crate::create::{
    CreateAnswerV2, CreateAskV2, DurableAnswer, DurableAsk, LeaseAnswer, LeaseAsk,
};
use arrayvec::ArrayVec;
use lease_state::Memory;
use lease_wire::Direction;

// Appends all of the canonical text, or nothing.
// docs/DECISIONS.md: "Canonical texts are made in an array".
fn append(out: &mut Vec<u8>, direction: Direction, values: &Values) -> Result<(), Memory>
    ensures ok { OnOk result (out.new.items ≡ out.old.items ++ canonical_text direction (values_of values.now)) }
    ensures err { OnErr result (out.new.items ≡ out.old.items) }
{
    let mut text = ArrayVec::new();
    push_text(&mut text, direction, values);
    match out.extend_from_slice(text.as_slice()) {
        Ok(()) => Ok(()),
        Err(_) => Err(Memory),
    }
}

// Writes all of the canonical text to the front of the room, or nothing; gives how long the text
// is.
fn fill(room: &mut [u8], direction: Direction, values: &Values) -> usize
    ensures length { result ≡ length (canonical_text direction (values_of values.now)) }
    ensures written { result ≤ length room.old → room.new ≡ canonical_text direction (values_of values.now)
        ++ drop result room.old }
    ensures no_room { length room.old < result → room.new ≡ room.old }
    ensures limit { result ≤ 204 }
{
    let mut text = ArrayVec::new();
    push_text(&mut text, direction, values);
    if text.len() <= room.len() {
        room[..text.len()].copy_from_slice(text.as_slice());
    }
    text.len()
}

fn any_lease(lease: Option<LeaseAsk>) -> Option<LeaseAnswer>
    ensures { option_map lease_view_of result ≡ option_map asked_lease lease }
{
    match lease {
        Some(lease) => Some(LeaseAnswer {
            key: lease.key,
            state: lease.state,
            breaking: false,
            second: lease.second,
        }),
        None => None,
    }
}

fn any_asked(durable: Option<DurableAsk>) -> Option<AnyDurable>
    ensures { option_map any_durable result ≡ option_map asked_durable durable }
{
    match durable {
        Some(DurableAsk::First) => Some(AnyDurable::First),
        Some(DurableAsk::Second(ask)) => Some(AnyDurable::Asked(ask)),
        None => None,
    }
}

fn any_granted(durable: Option<DurableAnswer>) -> Option<AnyDurable>
    ensures { option_map any_durable result ≡ option_map granted_durable durable }
{
    match durable {
        Some(DurableAnswer::First) => Some(AnyDurable::First),
        Some(DurableAnswer::Second(grant)) => Some(AnyDurable::Granted(grant)),
        None => None,
    }
}

fn values_asked(ask: &CreateAskV2) -> Values
    ensures { values_of result ≡ ask_of ask.now }
{
    Values {
        lease: any_lease(ask.lease),
        durable: any_asked(ask.durable),
        reconnect: ask.reconnect,
    }
}

fn values_granted(answer: &CreateAnswerV2) -> Values
    ensures { values_of result ≡ answer_of answer.now }
{
    Values {
        lease: answer.lease,
        durable: any_granted(answer.durable),
        reconnect: None,
    }
}

/// Appends the create contexts of a request (MS-SMB2 2.2.13.2) in their canonical text, each in the version that it has: `RqLs`,
/// then `DHnQ` or `DH2Q`, then `DHnC` or `DH2C`, those that are asked for. A context that another one follows is padded with
/// zeros to a multiple of 8. The text takes `CONTEXTS_LIMIT` bytes at most.
///
/// # Errors
///
/// `Memory` where there is none, and the vector is then as it was.
pub fn write_create_ask_v2(ask: &CreateAskV2, out: &mut Vec<u8>) -> Result<(), Memory>
    ensures ok { OnOk result (out.new.items ≡ out.old.items ++ canonical_text Request (ask_of ask.now)) }
    ensures err { OnErr result (out.new.items ≡ out.old.items) }
{
    append(out, Direction::Request, &values_asked(ask))
}

/// Appends the create contexts of a response (MS-SMB2 2.2.14.2) in their canonical text, as [`write_create_ask_v2`] those of a
/// request: `RqLs`, then `DHnQ` or `DH2Q`, those that are granted.
///
/// # Errors
///
/// `Memory` where there is none, and the vector is then as it was.
pub fn write_create_reply_v2(answer: &CreateAnswerV2, out: &mut Vec<u8>) -> Result<(), Memory>
    ensures ok { OnOk result (out.new.items ≡ out.old.items ++ canonical_text Reply (answer_of answer.now)) }
    ensures err { OnErr result (out.new.items ≡ out.old.items) }
{
    append(out, Direction::Reply, &values_granted(answer))
}

/// Writes what [`write_create_ask_v2`] appends to the front of `room`, and allocates nothing. Returns the length of the text, in
/// bytes, `CONTEXTS_LIMIT` at most; where `room` is shorter than the text, nothing is written.
pub fn fill_create_ask_v2(ask: &CreateAskV2, room: &mut [u8]) -> usize
    ensures length { result ≡ length (canonical_text Request (ask_of ask.now)) }
    ensures written { result ≤ length room.old → room.new ≡ canonical_text Request (ask_of ask.now) ++ drop result room.old }
    ensures no_room { length room.old < result → room.new ≡ room.old }
    ensures limit { result ≤ 204 }
{
    fill(room, Direction::Request, &values_asked(ask))
}

/// Writes what [`write_create_reply_v2`] appends to the front of `room`, and allocates nothing. Returns the length of the text,
/// in bytes, `CONTEXTS_LIMIT` at most; where `room` is shorter than the text, nothing is written.
pub fn fill_create_reply_v2(answer: &CreateAnswerV2, room: &mut [u8]) -> usize
    ensures length { result ≡ length (canonical_text Reply (answer_of answer.now)) }
    ensures written { result ≤ length room.old → room.new ≡ canonical_text Reply (answer_of answer.now) ++ drop result room.old }
    ensures no_room { length room.old < result → room.new ≡ room.old }
    ensures limit { result ≤ 204 }
{
    fill(room, Direction::Reply, &values_granted(answer))
}

/// Laws of the canonical text: it holds the value that it was written for, and so is read back.
/// Does nothing.
pub fn written_laws()
    ensures holds { WrittenHoldsValue }
    ensures reads_back { WrittenReadsBack }
{}

/// Laws of version 1: of a text that has a value here, `lease_wire` reads what is of version 1 alone; and what is of version 1
/// is written as `lease_wire` writes it. Does nothing.
pub fn first_version_laws()
    ensures read { FirstVersionIsRead }
    ensures written { FirstVersionIsWritten }
{}
