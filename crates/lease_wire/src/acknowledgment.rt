ghost use Rattle.std.specs.Prelude.{◌≡◌, length, take, drop, IfOk};
ghost use Rattle.std.specs.Result.{result_err};
ghost use Rattle.lease_state.specs.State.{state_of};
ghost use Rattle.lease_wire.specs.Acknowledgment.{IsAcknowledgment, acknowledgment_bytes, AcknowledgmentReadsBack};
ghost use Rattle.lease_wire.specs.Acknowledgment.{AcknowledgmentIsUnique, AcknowledgmentFreeFields, acknowledged_of};
ghost use Rattle.lease_wire.specs.Acknowledgment.{acknowledgment_due, responded_of};
ghost use Rattle.lease_wire.specs.WireFaults.{message_fault};
ghost use Rattle.std.specs.Option.{option_map};
ghost use Rattle.lease_wire.specs.Notification.{notice_of};

use crate::fault::WireFault;
use crate::field::{key_at, state_at};
use crate::notification::Notification;
use byteorder::{ByteOrder, LittleEndian};
use lease_state::{LeaseKey, LeaseState};

// The layout that an acknowledgment and a response share, without the SMB2 header.
const SIZE: usize = 36;

const KEY_OFFSET: usize = 8;

const STATE_OFFSET: usize = 24;

/// A lease break acknowledgment (MS-SMB2 2.2.24.2), by which a client gives up what a break takes.
#[derive(Clone, Copy, Debug, PartialEq, Eq)]
pub struct Acknowledgment {
    pub key: LeaseKey,
    /// LeaseState: the state that the client keeps.
    pub state: LeaseState,
}

impl Acknowledgment {
    /// The acknowledgment that a break asks for (MS-SMB2 3.2.5.19.2): of the notification's key,
    /// with the state that the lease is broken to. None where ACK_REQUIRED is not set.
    pub fn due(notification: &Notification) -> Option<Acknowledgment>
        ensures { option_map acknowledged_of result ≡ acknowledgment_due (notice_of notification.now) }
    {
        if !notification.ack_required {
            return None;
        }
        Some(Acknowledgment {
            key: notification.key,
            state: notification.new,
        })
    }

    /// How many bytes an acknowledgment takes, without the SMB2 header.
    pub const SIZE: usize = SIZE;

    /// The message as its 36 bytes. Free fields are 0.
    pub fn encode(&self) -> [u8; Acknowledgment::SIZE]
        ensures text { result ≡ acknowledgment_bytes (acknowledged_of self.now) }
        ensures layout { IsAcknowledgment result (acknowledged_of self.now) }
    {
        encode_key_and_state(self.key, self.state)
    }

    /// Reads an acknowledgment from the front of `bytes`: the value, and the bytes after its 36.
    /// Other fields, and state bits past 7, are passed over.
    ///
    /// # Errors
    ///
    /// `Short` where there are fewer bytes, else `WrongSize` where StructureSize is not 36.
    pub fn decode(bytes: &[u8]) -> Result<(Acknowledgment, &[u8]), WireFault>
        ensures refused { result_err result ≡ message_fault 36 bytes.now }
        ensures value { IfOk result (λ r. IsAcknowledgment (take 36 bytes.now) (acknowledged_of r.0)) }
        ensures rest { IfOk result (λ r. r.1.now ≡ drop 36 bytes.now) }
    {
        let (key, state, rest) = decode_key_and_state(bytes)?;
        Ok((Acknowledgment { key, state }, rest))
    }
}

/// A lease break response (MS-SMB2 2.2.25.2), by which the server accepts an acknowledgment.
#[derive(Clone, Copy, Debug, PartialEq, Eq)]
pub struct BreakResponse {
    pub key: LeaseKey,
    /// LeaseState: the state that the lease now has.
    pub state: LeaseState,
}

impl BreakResponse {
    /// How many bytes a response takes, without the SMB2 header.
    pub const SIZE: usize = SIZE;

    /// The message as its 36 bytes. Free fields are 0.
    pub fn encode(&self) -> [u8; BreakResponse::SIZE]
        ensures text { result ≡ acknowledgment_bytes (responded_of self.now) }
        ensures layout { IsAcknowledgment result (responded_of self.now) }
    {
        encode_key_and_state(self.key, self.state)
    }

    /// Reads a response from the front of `bytes`: the value, and the bytes after its 36. Other
    /// fields, and state bits past 7, are passed over.
    ///
    /// # Errors
    ///
    /// `Short` where there are fewer bytes, else `WrongSize` where StructureSize is not 36.
    pub fn decode(bytes: &[u8]) -> Result<(BreakResponse, &[u8]), WireFault>
        ensures refused { result_err result ≡ message_fault 36 bytes.now }
        ensures value { IfOk result (λ r. IsAcknowledgment (take 36 bytes.now) (responded_of r.0)) }
        ensures rest { IfOk result (λ r. r.1.now ≡ drop 36 bytes.now) }
    {
        let (key, state, rest) = decode_key_and_state(bytes)?;
        Ok((BreakResponse { key, state }, rest))
    }
}

// The 36 bytes of a key with its state. Free fields are 0.
fn encode_key_and_state(key: LeaseKey, state: LeaseState) -> [u8; SIZE]
    ensures text { result ≡ acknowledgment_bytes (record { key = key.0; state = state_of state }) }
    ensures layout { IsAcknowledgment result (record { key = key.0; state = state_of state }) }
{
    let mut message = [0u8; SIZE];
    LittleEndian::write_u16(&mut message[0..], SIZE as u16);
    LittleEndian::write_u32(&mut message[STATE_OFFSET..], state.to_wire());
    message[KEY_OFFSET..KEY_OFFSET + 16].copy_from_slice(&key.0);
    message
}

// A key with its state, from the front of the bytes, and the bytes after its 36.
fn decode_key_and_state(bytes: &[u8]) -> Result<(LeaseKey, LeaseState, &[u8]), WireFault>
    ensures refused { result_err result ≡ message_fault 36 bytes.now }
    ensures value { IfOk result (λ r. IsAcknowledgment (take 36 bytes.now) (record { key = r.0.0; state = state_of r.1 })) }
    ensures rest { IfOk result (λ r. r.2.now ≡ drop 36 bytes.now) }
{
    if bytes.len() < SIZE {
        return Err(WireFault::Short(0));
    }
    let (message, rest) = bytes.split_at(SIZE);
    if usize::from(LittleEndian::read_u16(message)) != SIZE {
        return Err(WireFault::WrongSize(0));
    }
    let key = key_at(message, KEY_OFFSET);
    Ok((key, state_at(message, STATE_OFFSET), rest))
}

/// Laws of the layout of acknowledgments and responses: what is written is read back, with whatever
/// bytes follow; no bytes hold two values; free fields are written as 0. Does nothing.
pub fn acknowledgment_laws()
    ensures reads_back { AcknowledgmentReadsBack }
    ensures unique { AcknowledgmentIsUnique }
    ensures free_fields { AcknowledgmentFreeFields }
{}
