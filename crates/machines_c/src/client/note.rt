ghost use Rattle.std.specs.Prelude.{◌≡◌, ◌≢◌, None, IfSome, length, slice_get};
ghost use Rattle.std.specs.Option.{option_map};
ghost use Rattle.machines_c.specs.handles.Outcomes.{IsFilled};
ghost use Rattle.machines_c.specs.declared.handles.outcome.Outcome.TheVariants as outcomes;
ghost use Rattle.machines_c.specs.client.Fields.{note_fields, note_bytes, notes_of, number_of_settlement};

use crate::client::handle::ClientHandle;
use crate::handles::{Outcome, fill};
use lease_client::{Note, Settlement};
use std::alloc::Global;

/// What a client notes for its program: `smblease_client_note`. What has no meaning for the kind is 0.
#[repr(C)]
#[derive(Clone, Copy, Debug, PartialEq, Eq)]
pub struct ClientNote {
    /// The number of the write.
    pub number: u64,
    /// How many bytes there are: those of the write, or of the file.
    pub length: u64,
    /// 1 a write is settled, 2 a write was taken, 3 the belief of a lease, 4 a read from the cache.
    pub kind: u32,
    /// What became of the write: 1 done, 2 failed, 3 unknown, 4 lost.
    pub outcome: u32,
    /// Where the bytes of the write go.
    pub offset: u32,
    /// What is believed: the bits of LeaseState.
    pub state: u32,
    /// The number of the file.
    pub file: u8,
    /// Whether the write was buffered, and else it was sent.
    pub buffered: u8,
    /// Room for later versions: 0.
    pub reserved: [u8; 30],
}

// The number of what became of a write.
fn number_of(outcome: Settlement) -> u32
    ensures { result ≡ number_of_settlement outcome }
{
    match outcome {
        Settlement::Done => 1,
        Settlement::Failed => 2,
        Settlement::Unknown => 3,
        Settlement::Lost => 4,
    }
}

// The bytes of a note.
fn bytes_of(note: &Note) -> &[u8]
    ensures { result.now ≡ note_bytes note.now }
{
    match note {
        Note::Wrote(_, _, patch, _) => patch.bytes.as_slice(),
        Note::CachedRead(_, bytes) => bytes.as_slice(),
        Note::Settled(_, _) | Note::Believes(_, _) => b"",
    }
}

impl ClientNote {
    const NOTHING: ClientNote = ClientNote {
        number: 0,
        length: 0,
        kind: 0,
        outcome: 0,
        offset: 0,
        state: 0,
        file: 0,
        buffered: 0,
        reserved: [0; 30],
    };

    // The fields that hold a note.
    fn holding(note: &Note) -> ClientNote
        ensures { result ≡ note_fields note.now }
    {
        match note {
            Note::Settled(number, outcome) => ClientNote {
                number: *number,
                kind: 1,
                outcome: number_of(*outcome),
                ..ClientNote::NOTHING
            },
            Note::Wrote(file, number, patch, buffered) => ClientNote {
                number: *number,
                length: patch.bytes.len() as u64,
                kind: 2,
                offset: patch.offset,
                file: file.0,
                buffered: u8::from(*buffered),
                ..ClientNote::NOTHING
            },
            Note::Believes(file, state) => ClientNote {
                kind: 3,
                state: state.to_wire(),
                file: file.0,
                ..ClientNote::NOTHING
            },
            Note::CachedRead(file, bytes) => ClientNote {
                length: bytes.as_slice().len() as u64,
                kind: 4,
                file: file.0,
                ..ClientNote::NOTHING
            },
        }
    }
}

// Writes a note that is there into `out`, and its bytes to the front of `room` where they fit.
fn tell(note: Option<&Note>, out: &mut ClientNote, room: &mut [u8]) -> Outcome
    ensures some { IfSome (option_map (λ one. one.now) note.entry) (λ one. (result ≡ outcomes.Done)
        × (out.new ≡ note_fields one) × IsFilled (note_bytes one) room.old room.new) }
    ensures none { note.entry ≡ None → (result ≡ outcomes.NoSuch) × (out.new ≡ out.old) × (room.new ≡ room.old) }
{
    match note {
        Some(note) => {
            *out = ClientNote::holding(note);
            fill(room, bytes_of(note));
            Outcome::Done
        }
        None => Outcome::NoSuch,
    }
}

/// How many notes the last call gave out; 0 where there is no machine.
#[unsafe(no_mangle)]
pub extern "C" fn smblease_client_note_count(alloc: Global, client: &mut ClientHandle) -> usize
    ensures count { result ≡ length (notes_of client.old.held) }
    ensures same { client.new.held ≡ client.old.held }
{
    match client.take(alloc) {
        None => 0,
        Some(stepping) => {
            let count = stepping.step.notes.len();
            client.put(alloc, stepping);
            count
        }
    }
}

/// The note of this index, from 0, that the last call gave out. Its bytes are written to the front
/// of `room` where they fit, and else nothing is written there.
///
/// Returns 0; 3 where there is no machine; 4 where there is no note of the index. Then nothing is
/// written.
#[unsafe(no_mangle)]
pub extern "C" fn smblease_client_note_at(
    alloc: Global,
    client: &mut ClientHandle,
    index: usize,
    out: &mut ClientNote,
    room: &mut [u8],
) -> u32
    ensures same { client.new.held ≡ client.old.held }
    ensures note { IfSome (slice_get (notes_of client.old.held) index) (λ note. (result ≡ 0)
        × (out.new ≡ note_fields note) × IsFilled (note_bytes note) room.old room.new) }
    ensures no_note { slice_get (notes_of client.old.held) index ≡ None → (out.new ≡ out.old) × (room.new ≡ room.old) }
    ensures no_index { client.old.held ≢ None → slice_get (notes_of client.old.held) index ≡ None → result ≡ 4 }
    ensures none { client.old.held ≡ None → result ≡ 3 }
{
    match client.take(alloc) {
        None => Outcome::Nothing.code(),
        Some(stepping) => {
            let outcome = tell(stepping.step.notes.get(index), out, room);
            client.put(alloc, stepping);
            outcome.code()
        }
    }
}
