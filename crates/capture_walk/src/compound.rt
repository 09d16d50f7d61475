ghost use Rattle.std.specs.Prelude.{◌≡◌, ◌≤◌, length, List, ◌++◌, ◌∷◌, [], OnOk, IfOk, IfErr};
ghost use Rattle.lease_wire.specs.Message.{first_message};
ghost use Rattle.capture_wire.specs.Messages.{IsMessage};
ghost use Rattle.capture_walk.specs.Compounds.{is_last, HoldsMessages, FailsAfter, IsFirstFault};
ghost use Rattle.capture_wire.specs.declared.message.Message.{Message};

use byteorder::{ByteOrder, LittleEndian};
use capture_wire::{Message, Unreadable, read_message};
use lease_state::Memory;
use lease_wire::{WireFault, first_message};
use std::alloc::Global;

/// Why the messages of a frame can't be read.
#[derive(Clone, Copy, Debug, PartialEq, Eq)]
pub enum FrameFault {
    /// A header, or where it has the next message.
    Header(WireFault),
    /// What a message says.
    Message(Unreadable),
    /// There is no memory left.
    Memory,
}

impl From<WireFault> for FrameFault {
    ghost use Rattle.std.specs.Prelude.{◌≡◌};
    ghost use Rattle.capture_walk.specs.declared.compound.FrameFault.TheVariants as fault;

    ghost from_gives = { λ found made. made ≡ fault.Header found };

    fn from(found: WireFault) -> FrameFault {
        FrameFault::Header(found)
    }
}

impl From<Unreadable> for FrameFault {
    ghost use Rattle.std.specs.Prelude.{◌≡◌};
    ghost use Rattle.capture_walk.specs.declared.compound.FrameFault.TheVariants as fault;

    ghost from_gives = { λ found made. made ≡ fault.Message found };

    fn from(found: Unreadable) -> FrameFault {
        FrameFault::Message(found)
    }
}

impl From<Memory> for FrameFault {
    ghost use Rattle.std.specs.Prelude.{◌≡◌};
    ghost use Rattle.capture_walk.specs.declared.compound.FrameFault.TheVariants as fault;

    ghost from_gives = { λ found made. made ≡ fault.Memory };

    fn from(_refused: Memory) -> FrameFault {
        FrameFault::Memory
    }
}

// Whether no message follows the first one.
#[tactic(auto, unfolding(lease_wire::specs::Message::next_command_of))]
fn is_last(bytes: &[u8]) -> bool
    requires { 64 ≤ length bytes.now }
    ensures { result ≡ is_last bytes.now }
{
    LittleEndian::read_u32(&bytes[20..]) == 0
}

// The first message, with the bytes that it takes.
#[tactic(auto, unfolding(lease_wire::specs::Message::first_message))]
fn read_first(bytes: &[u8]) -> Result<(Message<'_>, usize), FrameFault>
    ensures read { IfOk result (λ r. IsMessage (first_message bytes.now) r.0) }
    ensures size { IfOk result (λ r. r.1 ≡ length (first_message bytes.now)) }
    ensures within { IfOk result (λ r. (64 ≤ r.1) × (r.1 ≤ length bytes.now)) }
    ensures fault { IfErr result (λ found. IsFirstFault bytes.now found) }
{
    let first = first_message(bytes)?;
    let message = read_message(first)?;
    Ok((message, first.len()))
}

fn push<'a>(messages: &mut Vec<Message<'a>>, message: Message<'a>) -> Result<(), Memory>
    ensures { OnOk result (messages.new.items ≡ messages.old.items ++ message.entry ∷ []) }
{
    messages.push(message)?;
    Ok(())
}

/// The messages of a frame: one, or those of a compound.
///
/// # Errors
///
/// `Header` and `Message` for the first message that can't be read, and `Memory` where there is none left.
pub fn read_frame(alloc: Global, bytes: &[u8]) -> Result<Vec<Message<'_>>, FrameFault>
    ensures read { IfOk result (λ messages. HoldsMessages bytes.now messages.items) }
    ensures fault { IfErr result (λ found. (messages : List Message) × FailsAfter bytes.now messages found) }
{
    let mut messages = Vec::new(alloc);
    let mut rest = bytes;
    loop {
        let (message, size) = match read_first(rest) {
            Ok(first) => first,
            Err(fault) => return Err(fault),
        };
        push(&mut messages, message)?;
        if is_last(rest) {
            return Ok(messages);
        }
        rest = rest.split_at(size).1;
    }
}
