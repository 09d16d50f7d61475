ghost use Rattle.std.specs.Prelude.{◌≡◌, ◌<◌, ◌≤◌, ◌++◌, length, drop, Bool, false, Some, None, IfOk, IfErr, if◌then◌else◌};
ghost use Rattle.std.specs.Option.{option_map};
ghost use Rattle.std.specs.Result.{result_err};
ghost use Rattle.lease_wire.specs.Canonical.{canonical_text};
ghost use Rattle.lease_wire.specs.Create.{ask_of, answer_of, asked_view, granted_view, IsReadingOf};
ghost use Rattle.lease_wire.specs.Gathering.{value_of};
ghost use Rattle.lease_wire.specs.declared.create.Direction.TheVariants.{Request, Reply};
ghost use Rattle.lease_wire.specs.Contexts.{item_view};
ghost use Rattle.lease_c.specs.Create.{ask_held, answer_held, ask_fields, answer_fields};
ghost use Rattle.lease_c.specs.OtherLease.{has_other_lease, is_other_lease};
ghost use Rattle.lease_c.specs.Told.{told};

use crate::fault::LeaseFault;
use lease_state::{FileId, LeaseKey, LeaseState};
use lease_wire::{
    Context, CreateAnswer, CreateAsk, WireFault, contexts, fill_create_ask, fill_create_reply,
    read_create, read_create_reply,
};

/// What the create contexts of a CREATE request ask for: `struct smblease_create_ask`.
#[repr(C)]
#[derive(Clone, Copy, Debug, PartialEq, Eq)]
pub struct LeaseCreateAsk {
    /// The lease key, where `has_lease` is set.
    pub key: [u8; 16],
    /// The durable open that is to be connected again, where `has_reconnect` is set.
    pub file_id: u64,
    /// The state that is wanted, where `has_lease` is set: the bits of LeaseState.
    pub state: u32,
    /// `RqLs`: a lease is asked for.
    pub has_lease: u8,
    /// `DHnQ`: a durable open is asked for.
    pub durable: u8,
    /// `DHnC`: a durable open is to be connected again.
    pub has_reconnect: u8,
    /// `RqLs` of 52 bytes, the lease context of version 2 (2.2.13.2.10): it is there, and is passed
    /// over. A writer passes over this field.
    pub has_other_lease: u8,
    /// Left 0, for what later versions may read.
    pub reserved: [u64; 6],
}

/// What the create contexts of a CREATE response grant: `struct smblease_create_answer`.
#[repr(C)]
#[derive(Clone, Copy, Debug, PartialEq, Eq)]
pub struct LeaseCreateAnswer {
    /// The lease key, where `has_lease` is set.
    pub key: [u8; 16],
    /// The state that the lease has, where `has_lease` is set: the bits of LeaseState.
    pub state: u32,
    /// `RqLs`: a lease is granted.
    pub has_lease: u8,
    /// A break of the lease is in progress.
    pub breaking: u8,
    /// `DHnQ`: the open is durable.
    pub durable: u8,
    /// `RqLs` of 52 bytes, the lease context of version 2 (2.2.14.2.11), as in [`LeaseCreateAsk`].
    pub has_other_lease: u8,
    /// Left 0, for what later versions may read.
    pub reserved: [u64; 6],
}

impl LeaseCreateAsk {
    // The value that the fields hold.
    fn value(&self) -> CreateAsk
        ensures { ask_of result ≡ ask_held self.now }
    {
        CreateAsk {
            lease: if self.has_lease != 0 {
                Some((LeaseKey(self.key), LeaseState::from_wire(self.state)))
            } else {
                None
            },
            durable: self.durable != 0,
            reconnect: if self.has_reconnect != 0 {
                Some(FileId(self.file_id))
            } else {
                None
            },
        }
    }

    // The fields that hold a value: those of what isn't there are 0.
    fn holding(ask: &CreateAsk, other_lease: bool) -> LeaseCreateAsk
        ensures { result ≡ ask_fields other_lease (ask_of ask.now) }
    {
        let (key, state) = match ask.lease {
            Some((key, state)) => {
                let bytes = key.0;
                (bytes, state.to_wire())
            }
            None => ([0; 16], 0),
        };
        let file_id = match ask.reconnect {
            Some(file_id) => file_id.0,
            None => 0,
        };
        LeaseCreateAsk {
            key,
            file_id,
            state,
            has_lease: u8::from(ask.lease.is_some()),
            durable: u8::from(ask.durable),
            has_reconnect: u8::from(ask.reconnect.is_some()),
            has_other_lease: u8::from(other_lease),
            reserved: [0; 6],
        }
    }
}

impl LeaseCreateAnswer {
    // The value that the fields hold.
    fn value(&self) -> CreateAnswer
        ensures { answer_of result ≡ answer_held self.now }
    {
        CreateAnswer {
            lease: if self.has_lease != 0 {
                Some((
                    LeaseKey(self.key),
                    LeaseState::from_wire(self.state),
                    self.breaking != 0,
                ))
            } else {
                None
            },
            durable: self.durable != 0,
        }
    }

    // The fields that hold a value: those of what isn't there are 0.
    fn holding(answer: &CreateAnswer, other_lease: bool) -> LeaseCreateAnswer
        ensures { result ≡ answer_fields other_lease (answer_of answer.now) }
    {
        let (key, state, breaking) = match answer.lease {
            Some((key, state, breaking)) => {
                let bytes = key.0;
                (bytes, state.to_wire(), breaking)
            }
            None => ([0; 16], 0, false),
        };
        LeaseCreateAnswer {
            key,
            state,
            has_lease: u8::from(answer.lease.is_some()),
            breaking: u8::from(breaking),
            durable: u8::from(answer.durable),
            has_other_lease: u8::from(other_lease),
            reserved: [0; 6],
        }
    }
}

// Whether one of the contexts is a lease context of version 2.
fn has_other_lease(text: &[u8]) -> bool
    ensures { result ≡ has_other_lease text.now }
{
    for item in contexts(text) {
        if is_other_lease(&item) {
            return true;
        }
    }
    false
}

fn is_other_lease(item: &Result<Context<'_>, WireFault>) -> bool
    ensures { result ≡ is_other_lease (item_view item.now) }
{
    match item {
        Ok(context) => context.name == b"RqLs".as_slice() && context.body.len() == 52,
        Err(_) => false,
    }
}

/// Reads the create contexts of a CREATE request (MS-SMB2 2.2.13.2) into `out`. A text of no bytes
/// asks for nothing; contexts that aren't known are passed over, also an `RqLs` of 52 bytes, which
/// `has_other_lease` reports.
///
/// Returns the first fault in the order of the text, and then `out` is as it was.
#[unsafe(no_mangle)]
pub extern "C" fn smblease_read_create_ask(text: &[u8], out: &mut LeaseCreateAsk) -> LeaseFault
    ensures reading { IsReadingOf Request text.now (value_of Request text.now) }
    ensures fault { result ≡ told (result_err (value_of Request text.now)) }
    ensures value { IfOk (value_of Request text.now) (λ v. ask_held out.new ≡ v) }
    ensures fields { IfOk (value_of Request text.now) (λ v. out.new ≡ ask_fields (has_other_lease text.now) v) }
    ensures unchanged { IfErr (value_of Request text.now) (λ fault. out.new ≡ out.old) }
{
    match read_create(text) {
        Ok(ask) => {
            *out = LeaseCreateAsk::holding(&ask, has_other_lease(text));
            LeaseFault::none()
        }
        Err(fault) => LeaseFault::of(fault),
    }
}

/// Reads the create contexts of a CREATE response (MS-SMB2 2.2.14.2) into `out`, as
/// [`smblease_read_create_ask`] those of a request. A `DHnC` is not known there.
#[unsafe(no_mangle)]
pub extern "C" fn smblease_read_create_answer(
    text: &[u8],
    out: &mut LeaseCreateAnswer,
) -> LeaseFault
    ensures reading { IsReadingOf Reply text.now (value_of Reply text.now) }
    ensures fault { result ≡ told (result_err (value_of Reply text.now)) }
    ensures value { IfOk (value_of Reply text.now) (λ v. answer_held out.new ≡ v) }
    ensures fields { IfOk (value_of Reply text.now) (λ v. out.new ≡ answer_fields (has_other_lease text.now) v) }
    ensures unchanged { IfErr (value_of Reply text.now) (λ fault. out.new ≡ out.old) }
{
    match read_create_reply(text) {
        Ok(answer) => {
            *out = LeaseCreateAnswer::holding(&answer, has_other_lease(text));
            LeaseFault::none()
        }
        Err(fault) => LeaseFault::of(fault),
    }
}

/// Writes the create contexts of a request (MS-SMB2 2.2.13.2) in their canonical text to the front
/// of `room`. Returns the length of the text, 136 bytes at most; where `room` is shorter, nothing
/// is written.
#[unsafe(no_mangle)]
pub extern "C" fn smblease_write_create_ask(ask: &LeaseCreateAsk, room: &mut [u8]) -> usize
    ensures length { result ≡ length (canonical_text Request (ask_held ask.now)) }
    ensures written { result ≤ length room.old → room.new ≡ canonical_text Request (ask_held ask.now) ++ drop result room.old }
    ensures no_room { length room.old < result → room.new ≡ room.old }
{
    fill_create_ask(&ask.value(), room)
}

/// Writes the create contexts of a response (MS-SMB2 2.2.14.2), as [`smblease_write_create_ask`] those
/// of a request: 88 bytes at most.
#[unsafe(no_mangle)]
pub extern "C" fn smblease_write_create_answer(answer: &LeaseCreateAnswer, room: &mut [u8]) -> usize
    ensures length { result ≡ length (canonical_text Reply (answer_held answer.now)) }
    ensures written { result ≤ length room.old → room.new ≡ canonical_text Reply (answer_held answer.now)
        ++ drop result room.old }
    ensures no_room { length room.old < result → room.new ≡ room.old }
{
    fill_create_reply(&answer.value(), room)
}
