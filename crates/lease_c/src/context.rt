ghost use Rattle.std.specs.Prelude.{◌≡◌, ◌≢◌, ◌+◌, ◌^◌, ◌<◌, ◌≤◌, ◌==◌, if◌then◌else◌, length, drop, None};
ghost use Rattle.lease_wire.specs.Chain.{next_of};
ghost use Rattle.lease_wire.specs.Reading.{items_of, item_before, context_at};
ghost use Rattle.std.specs.Prelude.{is_some, IfSome};
ghost use Rattle.std.specs.Option.{option_map};
ghost use Rattle.lease_c.specs.Context.{context_held, context_fields, fault_at, items_from};
ghost use Rattle.lease_c.specs.Found.{found};
ghost use Rattle.lease_c.specs.Told.{told};

use crate::fault::LeaseFault;
use byteorder::{ByteOrder, LittleEndian};
use lease_wire::read_context_at;

/// A create context, by the places of its parts in the text that it was read from:
/// `struct smblease_context`.
#[repr(C)]
#[derive(Clone, Copy, Debug, PartialEq, Eq)]
pub struct LeaseContext {
    /// Where the name begins, in bytes from the start of the text.
    pub name_place: u64,
    pub name_length: u64,
    /// Where the data begin, in bytes from the start of the text; 0 where there are none.
    pub data_place: u64,
    pub data_length: u64,
    /// Where the next context begins; 0 where this one is the last.
    pub next_place: u64,
}

// A place after another one, or 0 where the offset stands for nothing.
fn place_behind(place: usize, offset: u32, is_there: bool) -> u64
    requires { place < 2 ^ 63 }
    ensures { result ≡ (if is_there then place + offset else 0) }
{
    if is_there {
        place as u64 + u64::from(offset)
    } else {
        0
    }
}

// The fields of the context that the bytes from a place on begin with.
#[tactic(auto, unfolding(lease_wire::specs::Chain::next_of, lease_wire::specs::Chain::name_offset_of, lease_wire::specs::Chain::name_length_of, lease_wire::specs::Chain::data_offset_of, lease_wire::specs::Chain::data_length_of))]
fn context_from(place: usize, bytes: &[u8]) -> LeaseContext
    requires header { 16 ≤ length bytes.now }
    requires fits { place < 2 ^ 63 }
    ensures { result ≡ context_fields place bytes.now }
{
    let next = LittleEndian::read_u32(bytes);
    let name_offset = LittleEndian::read_u16(&bytes[4..]);
    let name_length = LittleEndian::read_u16(&bytes[6..]);
    let data_offset = LittleEndian::read_u16(&bytes[10..]);
    let data_length = LittleEndian::read_u32(&bytes[12..]);
    LeaseContext {
        name_place: place as u64 + u64::from(name_offset),
        name_length: u64::from(name_length),
        data_place: place_behind(place, u32::from(data_offset), data_length != 0),
        data_length: u64::from(data_length),
        next_place: place_behind(place, next, next != 0),
    }
}

// The bytes of the text from a place on.
fn bytes_from(text: &[u8], place: usize) -> &[u8]
    requires { place ≤ length text.now }
    ensures { result.now ≡ drop place text.now }
{
    &text[place..]
}

/// Reads the create context that begins at a place of the text of a request or a response (MS-SMB2
/// 2.2.13.2) into `out`. The first one begins at 0; a text of no bytes has none.
///
/// Returns the first test of the layout that the context fails, and then `out` is as it was.
#[unsafe(no_mangle)]
pub extern "C" fn smblease_read_context(
    text: &[u8],
    place: u64,
    out: &mut LeaseContext,
) -> LeaseFault
    ensures fault { result ≡ told (fault_at place text.now) }
    ensures items { items_from place text.now ≡ item_before (fault_at place text.now)
        (context_held place out.new text.now) out.new.next_place (items_from out.new.next_place text.now) }
    ensures value { fault_at place text.now ≡ None → context_held place out.new text.now
        ≡ context_at place (drop place text.now) }
    ensures fields { fault_at place text.now ≡ None → out.new ≡ context_fields place (drop place text.now) }
    ensures name_within { fault_at place text.now ≡ None → out.new.name_place + out.new.name_length ≤ length text.now }
    ensures data_within { fault_at place text.now ≡ None → out.new.data_place + out.new.data_length ≤ length text.now }
    ensures next_within { fault_at place text.now ≡ None → out.new.next_place ≤ length text.now }
    ensures unchanged { fault_at place text.now ≢ None → out.new ≡ out.old }
{
    let start = place as usize;
    match read_context_at(text, start) {
        Ok(_) => {
            *out = context_from(start, bytes_from(text, start));
            LeaseFault::none()
        }
        Err(fault) => LeaseFault::of(fault),
    }
}

// Where the first context of this name begins.
fn place_of(text: &[u8], name: &[u8]) -> Option<usize>
    ensures found { found name.now text.now ≡ option_map (λ place. context_at place (drop place text.now)) result }
    ensures readable { IfSome result (λ place. fault_at place text.now ≡ None) }
{
    if text.is_empty() {
        return None;
    }
    let mut place = 0;
    loop {
        let (context, next) = match read_context_at(text, place) {
            Ok(read) => read,
            Err(_) => return None,
        };
        if context.name == name {
            return Some(place);
        }
        if next == 0 {
            return None;
        }
        place += next;
    }
}

/// Reads the first create context of this name, in the text of a request or a response (MS-SMB2
/// 2.2.13.2), into `out`, and returns whether there is one. Where the text has a fault, only what
/// stands before it is looked at. Where there is none, `out` is as it was.
#[unsafe(no_mangle)]
pub extern "C" fn smblease_find_context(text: &[u8], name: &[u8], out: &mut LeaseContext) -> bool
    ensures found { result ≡ is_some (found name.now text.now) }
    ensures value { IfSome (found name.now text.now) (λ c. context_held c.place out.new text.now ≡ c) }
    ensures fields { IfSome (found name.now text.now) (λ c. out.new ≡ context_fields c.place (drop c.place text.now)) }
    ensures name_within { found name.now text.now ≢ None → out.new.name_place + out.new.name_length ≤ length text.now }
    ensures data_within { found name.now text.now ≢ None → out.new.data_place + out.new.data_length ≤ length text.now }
    ensures unchanged { found name.now text.now ≡ None → out.new ≡ out.old }
{
    match place_of(text, name) {
        Some(place) => {
            let _read = smblease_read_context(text, place as u64, out);
            true
        }
        None => false,
    }
}
