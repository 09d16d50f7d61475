ghost use Rattle.std.specs.Prelude.{◌≡◌, ◌+◌, ◌-◌, ◌^◌, ◌<◌, ◌≤◌, true, length, take, replicate, Some, None, IfSome};
ghost use Rattle.byteorder.specs.Endian.{little_bytes};
ghost use Rattle.lease_c.specs.Appended.{gap, data_place, next_place, header_bytes, context_bytes, last_of, fits, appended_end};
ghost use Rattle.lease_c.specs.Appended.{appended_length, appended, put};

use byteorder::{ByteOrder, LittleEndian};
use lease_wire::contexts;

// How many bytes are missing to a multiple of 8.
fn gap(count: usize) -> usize
    ensures value { result ≡ gap count }
    ensures small { result < 8 }
{
    (8 - count % 8) % 8
}

// Where the last context begins; None where the text has a fault.
fn last_place(text: &[u8]) -> Option<usize>
    ensures last { result ≡ last_of text.now }
    ensures within { IfSome result (λ last. last ≤ length text.now) }
{
    let mut last = 0;
    for item in contexts(text) {
        match item {
            Ok(context) => last = context.place,
            Err(_) => return None,
        }
    }
    Some(last)
}

fn put(room: &mut [u8], place: usize, part: &[u8])
    requires { place + length part.now ≤ length room.old }
    ensures { room.new ≡ put place part.now room.old }
{
    room[place..place + part.len()].copy_from_slice(part);
}

fn put_zeros(room: &mut [u8], place: usize, count: usize)
    requires small { count < 8 }
    requires room { place + count ≤ length room.old }
    ensures { room.new ≡ put place (replicate count 0) room.old }
{
    room[place..place + count].fill(0);
}

fn header(name_length: usize, data_length: usize) -> [u8; 16]
    requires name { data_place name_length < 2 ^ 16 }
    requires body { data_length < 2 ^ 32 }
    ensures { result ≡ header_bytes name_length data_length }
{
    let mut bytes = [0u8; 16];
    LittleEndian::write_u16(&mut bytes[4..], 16);
    LittleEndian::write_u16(&mut bytes[6..], name_length as u16);
    if data_length != 0 {
        LittleEndian::write_u16(
            &mut bytes[10..],
            (16 + name_length + gap(name_length)) as u16,
        );
    }
    LittleEndian::write_u32(&mut bytes[12..], data_length as u32);
    bytes
}

// Writes the context into the room, from a place on.
fn put_context(room: &mut [u8], place: usize, name: &[u8], body: &[u8])
    requires name { data_place (length name.now) < 2 ^ 16 }
    requires body { length body.now < 2 ^ 32 }
    requires room { place + (data_place (length name.now) + length body.now) ≤ length room.old }
    ensures { room.new ≡ put place (context_bytes name.now body.now) room.old }
{
    let name_end = 16 + name.len();
    let zeros = gap(name.len());
    put(room, place, &header(name.len(), body.len()));
    put(room, place + 16, name);
    put_zeros(room, place + name_end, zeros);
    put(room, place + (name_end + zeros), body);
}

// Whether the distance from the last context, DataOffset and DataLength fit into their fields.
fn fits(distance: usize, name_length: usize, data_length: usize) -> bool
    requires { name_length < 2 ^ 63 }
    ensures { result ≡ fits distance name_length data_length }
{
    let data_place = 16 + name_length + gap(name_length);
    distance <= 0xFFFF_FFFF && data_place <= 0xFFFF && data_length <= 0xFFFF_FFFF
}

fn next_bytes(next: usize) -> [u8; 4]
    requires { next < 2 ^ 32 }
    ensures { result ≡ little_bytes 4 next }
{
    let mut bytes = [0u8; 4];
    LittleEndian::write_u32(&mut bytes, next as u32);
    bytes
}

// Leads from the last context of the text, which is so many bytes long, to one more, and writes that
// one after the text.
fn write(room: &mut [u8], count: usize, last: usize, name: &[u8], body: &[u8])
    requires last { last ≤ count }
    requires fits { fits (next_place count - last) (length name.now) (length body.now) ≡ true }
    requires room { appended_end count (length name.now) (length body.now) ≤ length room.old }
    ensures { room.new ≡ appended count last name.now body.now room.old }
{
    let zeros = gap(count);
    put(room, last, &next_bytes(count + zeros - last));
    put_zeros(room, count, zeros);
    put_context(room, count + zeros, name, body);
}

// Where the text ends that is the first `count` bytes of the room.
fn text_end(room: &[u8], count: u64) -> usize
    ensures length { result ≡ length (take count room.now) }
    ensures same { take result room.now ≡ take count room.now }
{
    if count < room.len() as u64 {
        count as usize
    } else {
        room.len()
    }
}

// Appends to the text that the room begins with.
fn append(room: &mut [u8], count: usize, name: &[u8], body: &[u8]) -> usize
    requires { count ≤ length room.old }
    ensures length { result ≡ appended_length (last_of (take count room.old)) count (length name.now) (length body.now) }
    ensures written { IfSome (last_of (take count room.old))
        (λ last. 0 < result → result ≤ length room.old → room.new ≡ appended count last name.now body.now room.old) }
    ensures no_room { length room.old < result → room.new ≡ room.old }
    ensures refused { result ≡ 0 → room.new ≡ room.old }
{
    let last = match last_place(&room[..count]) {
        Some(last) => last,
        None => return 0,
    };
    let place = count + gap(count);
    if !fits(place - last, name.len(), body.len()) {
        return 0;
    }
    let length = place + (16 + name.len() + gap(name.len()) + body.len());
    if length <= room.len() {
        write(room, count, last, name, body);
    }
    length
}

/// Appends a create context (MS-SMB2 2.2.13.2) of any name and data to the text of a request or a
/// response, which is the first `count` bytes of `room`, so the whole room at most: Next of the last
/// context leads to this one, which begins at the next multiple of 8, with zeros before it. Its data
/// begin at a multiple of 8 after its name; without data DataOffset is 0. A text of no bytes gets its
/// first context.
///
/// Gives the length of the new text; where `room` is shorter, nothing is written. Gives 0, and writes
/// nothing, where the text has a fault (`smblease_read_context` says which), or where Next, DataOffset
/// or DataLength don't fit into their fields: a name has at most 65,512 bytes.
#[unsafe(no_mangle)]
pub extern "C" fn smblease_append_context(
    room: &mut [u8],
    count: u64,
    name: &[u8],
    data: &[u8],
) -> usize
    ensures length { result
        ≡ appended_length (last_of (take count room.old)) (length (take count room.old)) (length name.now) (length «data».now) }
    ensures written { IfSome (last_of (take count room.old))
        (λ last. 0 < result → result ≤ length room.old → room.new
        ≡ appended (length (take count room.old)) last name.now «data».now room.old) }
    ensures no_room { length room.old < result → room.new ≡ room.old }
    ensures refused { result ≡ 0 → room.new ≡ room.old }
{
    let count = text_end(room, count);
    append(room, count, name, data)
}
