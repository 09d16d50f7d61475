ghost use Rattle.std.specs.Prelude.{◌≡◌, None, IfSome};
ghost use Rattle.machines_c.specs.handles.Outcomes.{IsFilled, reading};
ghost use Rattle.machines_c.specs.client.Fields.{answer_fields, answer_bytes, number_of_refusal, status_told};

use crate::client::handle::ClientHandle;
use crate::handles::{Outcome, fill};
use lease_client::{Answer, Refusal};
use lease_state::Status;
use std::alloc::Global;

/// What the application is answered: `struct smblease_answer`. What has no meaning for the kind is
/// 0.
#[repr(C)]
#[derive(Clone, Copy, Debug, PartialEq, Eq)]
pub struct ClientAnswer {
    /// How many bytes there are, where they are those of a file.
    pub length: u64,
    /// 1 done, 2 waiting, 3 bytes, 4 refused, 5 failed, 6 quiet.
    pub kind: u32,
    /// Why it was refused, from 1 to 7.
    pub refusal: u32,
    /// With which NTSTATUS it failed, as it came.
    pub status: u32,
    /// Whether the bytes came from the cache.
    pub cached: u8,
    /// Room for later versions: 0.
    pub reserved: [u8; 27],
}

// The number of a refusal.
fn number_of(refusal: Refusal) -> u32
    ensures { result ≡ number_of_refusal refusal }
{
    match refusal {
        Refusal::NotOpen => 1,
        Refusal::Busy => 2,
        Refusal::Differs => 3,
        Refusal::Offline => 4,
        Refusal::TooLong => 5,
        Refusal::Denied => 6,
        Refusal::UsedUp => 7,
    }
}

// The status of a reply as it came, where one is known.
fn told_as(status: Status, code: u32) -> u32
    ensures { result ≡ status_told code status }
{
    if code == 0 { status.code() } else { code }
}

// The bytes of an answer.
fn bytes_of(answer: &Answer) -> &[u8]
    ensures { result.now ≡ answer_bytes answer.now }
{
    match answer {
        Answer::Bytes(bytes, _) => bytes.as_slice(),
        _ => b"",
    }
}

impl ClientAnswer {
    const NOTHING: ClientAnswer = ClientAnswer {
        length: 0,
        kind: 0,
        refusal: 0,
        status: 0,
        cached: 0,
        reserved: [0; 27],
    };

    // The fields that hold an answer, where the last reply had this status.
    fn holding(answer: &Answer, code: u32) -> ClientAnswer
        ensures { result ≡ answer_fields code answer.now }
    {
        let mut fields = ClientAnswer::NOTHING;
        match answer {
            Answer::Done => fields.kind = 1,
            Answer::Waiting => fields.kind = 2,
            Answer::Bytes(bytes, cached) => {
                fields.kind = 3;
                fields.length = bytes.len() as u64;
                fields.cached = u8::from(*cached);
            }
            Answer::Refused(refusal) => {
                fields.kind = 4;
                fields.refusal = number_of(*refusal);
            }
            Answer::Failed(status) => {
                fields.kind = 5;
                fields.status = told_as(*status, code);
            }
            Answer::Quiet => fields.kind = 6,
        }
        fields
    }
}

/// The answer of the last call. Its bytes are written to the front of `room` where they fit, and
/// else nothing is written there.
///
/// Returns 0, or 3 where there is no machine; then nothing is written.
#[unsafe(no_mangle)]
pub extern "C" fn smblease_client_answer(
    alloc: Global,
    client: &mut ClientHandle,
    out: &mut ClientAnswer,
    room: &mut [u8],
) -> u32
    ensures outcome { result ≡ reading client.old.held }
    ensures same { client.new.held ≡ client.old.held }
    ensures fields { IfSome client.old.held (λ one. out.new ≡ answer_fields one.code one.step.answer) }
    ensures bytes { IfSome client.old.held (λ one. IsFilled (answer_bytes one.step.answer) room.old room.new) }
    ensures none { client.old.held ≡ None → (out.new ≡ out.old) × (room.new ≡ room.old) }
{
    match client.take(alloc) {
        None => Outcome::Nothing.code(),
        Some(stepping) => {
            *out = ClientAnswer::holding(&stepping.step.answer, stepping.code);
            fill(room, bytes_of(&stepping.step.answer));
            client.put(alloc, stepping);
            Outcome::Done.code()
        }
    }
}
