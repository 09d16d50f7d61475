ghost use Rattle.std.specs.Prelude.{◌≡◌, ◌+◌, ◌≤◌, ◌≢◌, length, IfOk};
ghost use Rattle.std.specs.Result.{result_err};
ghost use Rattle.lease_wire.specs.Contexts.{items_left};
ghost use Rattle.lease_wire.specs.Message.{begins_message, next_command_of, has_bad_next_command, header_fault, first_message};
ghost use Rattle.lease_wire.specs.Message.{fixed_end, create_size, area_offset, area_length, has_bad_area, area_fault, items_in};

use crate::chain::Contexts;
use crate::create::Direction;
use crate::fault::WireFault;
use byteorder::{ByteOrder, LittleEndian};

/// How many bytes the header of an SMB2 message takes (MS-SMB2 2.2.1).
pub const HEADER_SIZE: usize = 64;

const PROTOCOL_ID: [u8; 4] = [0xfe, b'S', b'M', b'B'];

const NEXT_COMMAND_OFFSET: usize = 20;

/// Whether bytes begin with the ProtocolId of an SMB2 message.
// docs/DECISIONS.md: "show reads a whole message".
pub fn begins_message(bytes: &[u8]) -> bool
    ensures { result ≡ begins_message bytes.now }
{
    bytes.starts_with(&PROTOCOL_ID)
}

fn is_next_command_bad(count: usize, next: usize) -> bool
    ensures { result ≡ has_bad_next_command count next }
{
    next != 0 && (next < HEADER_SIZE || count < next)
}

/// The message that bytes begin with, from its header (MS-SMB2 2.2.1) to where NextCommand has the next one of a compound, or
/// else to the end of the bytes.
///
/// # Errors
///
/// `Short` where there are fewer bytes than a header takes, `WrongSize` where its StructureSize is not 64, and `BadNext` where
/// the next message would begin within the header or past the end of the bytes; each at 0.
#[tactic(auto, unfolding(crate::specs::Message::header_fault, crate::specs::Message::first_message, crate::specs::Message::next_command_of))]
pub fn first_message(bytes: &[u8]) -> Result<&[u8], WireFault>
    ensures refused { result_err result ≡ header_fault bytes.now }
    ensures message { IfOk result (λ message. message.now ≡ first_message bytes.now) }
    ensures header { IfOk result (λ message. 64 ≤ length message.now) }
{
    if bytes.len() < HEADER_SIZE {
        return Err(WireFault::Short(0));
    }
    if usize::from(LittleEndian::read_u16(&bytes[4..])) != HEADER_SIZE {
        return Err(WireFault::WrongSize(0));
    }
    let next = LittleEndian::read_u32(&bytes[NEXT_COMMAND_OFFSET..]) as usize;
    if is_next_command_bad(bytes.len(), next) {
        return Err(WireFault::BadNext(0));
    }
    Ok(if next == 0 { bytes } else { &bytes[..next] })
}

// The end of the fixed part of a CREATE message, from the header's start.
fn fixed_end(direction: Direction) -> usize
    ensures { result ≡ fixed_end direction }
{
    match direction {
        Direction::Request => HEADER_SIZE + 56,
        Direction::Reply => HEADER_SIZE + 88,
    }
}

fn create_size(direction: Direction) -> u16
    ensures { result ≡ create_size direction }
{
    match direction {
        Direction::Request => 57,
        Direction::Reply => 89,
    }
}

// CreateContextsOffset and CreateContextsLength.
#[tactic(auto, unfolding(crate::specs::Message::area_offset, crate::specs::Message::area_length))]
fn area(direction: Direction, message: &[u8]) -> (u32, u32)
    requires { fixed_end direction ≤ length message.now }
    ensures offset { result.0 ≡ area_offset direction message.now }
    ensures length { result.1 ≡ area_length direction message.now }
{
    let end = fixed_end(direction);
    (
        LittleEndian::read_u32(&message[end - 8..]),
        LittleEndian::read_u32(&message[end - 4..]),
    )
}

fn is_area_bad(count: usize, fixed: usize, offset: u32, many: u32) -> bool
    ensures { result ≡ has_bad_area count fixed offset many }
{
    many != 0 && ((offset as usize) < fixed || count < offset as usize + many as usize)
}

/// The create contexts of a whole CREATE request or response (MS-SMB2 2.2.13, 2.2.14), which begins with its header, where
/// CreateContextsOffset and CreateContextsLength have them: none where that length is 0. The places of contexts and of their
/// faults count from the header's start.
///
/// # Errors
///
/// `Short` at 64 where the message ends within the fixed part, `WrongSize` at 64 where
/// StructureSize is that of another message, and `BadData` at their start where contexts are not
/// after the fixed part and within the message.
#[tactic(auto, unfolding(crate::specs::Message::area_fault))]
pub fn contexts_of_create(direction: Direction, message: &[u8]) -> Result<Contexts<'_>, WireFault>
    ensures refused { result_err result ≡ area_fault direction message.now }
    ensures items { IfOk result (λ contexts. items_left contexts ≡ items_in direction message.now) }
{
    if message.len() < fixed_end(direction) {
        return Err(WireFault::Short(HEADER_SIZE));
    }
    if LittleEndian::read_u16(&message[HEADER_SIZE..]) != create_size(direction) {
        return Err(WireFault::WrongSize(HEADER_SIZE));
    }
    let (offset, many) = area(direction, message);
    if is_area_bad(message.len(), fixed_end(direction), offset, many) {
        return Err(WireFault::BadData(offset as usize));
    }
    Ok(contexts_in(direction, message, offset, many))
}

// The contexts of an area that is within the message, or that is empty.
#[tactic(auto, unfolding(crate::specs::Message::items_in, crate::specs::Message::area_of))]
fn contexts_in(direction: Direction, message: &[u8], offset: u32, many: u32) -> Contexts<'_>
    requires offset { offset ≡ area_offset direction message.now }
    requires many { many ≡ area_length direction message.now }
    requires within { many ≢ 0 → offset + many ≤ length message.now }
    ensures { items_left result ≡ items_in direction message.now }
{
    let (start, count) = (offset as usize, many as usize);
    if count == 0 {
        Contexts::from_place(start, &[])
    } else {
        Contexts::from_place(start, &message[start..start + count])
    }
}
