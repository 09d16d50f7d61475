ghost use Rattle.std.specs.Prelude.{◌≡◌, ◌≤◌, ◌+◌, length, IfOk};
ghost use Rattle.std.specs.Result.{result_err};
ghost use Rattle.lease_wire.specs.Field.{number_at, bytes_at};
ghost use Rattle.capture_wire.specs.Fields.{part_at};
ghost use Rattle.capture_wire.specs.Faults.{fixed_fault, part_fault};

use crate::fault::MessageFault;
use byteorder::{ByteOrder, LittleEndian};
use lease_wire::HEADER_SIZE;

/// Sees that the message reaches to the end of its fixed part, counted from the header's start, and that its StructureSize is
/// the one of such messages.
pub(crate) fn check_fixed(message: &[u8], end: usize, size: u16) -> Result<(), MessageFault>
    requires { 66 ≤ end }
    ensures refused { result_err result ≡ fixed_fault end size message.now }
    ensures whole { IfOk result (λ done. end ≤ length message.now) }
{
    if message.len() < end {
        return Err(MessageFault::Short);
    }
    if LittleEndian::read_u16(&message[HEADER_SIZE..]) != size {
        return Err(MessageFault::WrongSize);
    }
    Ok(())
}

/// The part of a message that is so many bytes long, from an offset on; it has to be after the fixed part, unless it is empty.
pub(crate) fn part(
    message: &[u8],
    end: usize,
    offset: u32,
    count: u32,
) -> Result<&[u8], MessageFault>
    ensures refused { result_err result ≡ part_fault end offset count message.now }
    ensures value { IfOk result (λ part. part.now ≡ bytes_at offset count message.now) }
{
    if count == 0 {
        return Ok(&[]);
    }
    let (start, after) = (offset as usize, offset as usize + count as usize);
    if start < end || message.len() < after {
        return Err(MessageFault::Outside);
    }
    Ok(&message[start..after])
}

/// The part that an offset of two bytes leads to, which stands at a place with its length of two bytes after it.
pub(crate) fn part_at(message: &[u8], end: usize, place: usize) -> Result<&[u8], MessageFault>
    requires { place + 4 ≤ length message.now }
    ensures refused { result_err result
        ≡ part_fault end (number_at place 2 message.now) (number_at (place + 2) 2 message.now) message.now }
    ensures value { IfOk result (λ part. part.now ≡ part_at place message.now) }
{
    let offset = LittleEndian::read_u16(&message[place..]);
    let count = LittleEndian::read_u16(&message[place + 2..]);
    part(message, end, u32::from(offset), u32::from(count))
}
