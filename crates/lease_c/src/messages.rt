ghost use Rattle.std.specs.Prelude.{◌≡◌, ◌≢◌, ◌<◌, ◌≤◌, ◌++◌, length, take, drop, None, is_some, IfSome};
ghost use Rattle.lease_wire.specs.Acknowledgment.{IsAcknowledgment, acknowledgment_bytes, acknowledged_of, responded_of};
ghost use Rattle.lease_wire.specs.Acknowledgment.{acknowledgment_due};
ghost use Rattle.lease_wire.specs.Notification.{IsNotification, notice_of, notification_bytes};
ghost use Rattle.lease_wire.specs.WireFaults.{message_fault};
ghost use Rattle.lease_c.specs.Messages.{notice_held, notice_fields, acknowledged_held, acknowledged_fields, responded_held};
ghost use Rattle.lease_c.specs.Messages.{responded_fields};
ghost use Rattle.lease_c.specs.Told.{told};

use crate::fault::LeaseFault;
use crate::room::fill;
use lease_state::{LeaseKey, LeaseState};
use lease_wire::{Acknowledgment, BreakResponse, Notification};

/// A lease break notification: `struct smblease_notification`.
#[repr(C)]
#[derive(Clone, Copy, Debug, PartialEq, Eq)]
pub struct LeaseNotification {
    pub key: [u8; 16],
    /// CurrentLeaseState: the state that the server breaks.
    pub current_state: u32,
    /// NewLeaseState: the state that it is broken to.
    pub new_state: u32,
    /// SMB2_NOTIFY_BREAK_LEASE_FLAG_ACK_REQUIRED: the client has to acknowledge the break.
    pub ack_required: u8,
    /// Left 0, for what later versions may read.
    pub reserved: [u8; 15],
}

/// A lease break acknowledgment: `struct smblease_acknowledgment`.
#[repr(C)]
#[derive(Clone, Copy, Debug, PartialEq, Eq)]
pub struct LeaseAcknowledgment {
    pub key: [u8; 16],
    /// LeaseState: the state that the client keeps.
    pub state: u32,
    /// Left 0, for what later versions may read.
    pub reserved: [u8; 12],
}

/// A lease break response: `struct smblease_response`.
#[repr(C)]
#[derive(Clone, Copy, Debug, PartialEq, Eq)]
pub struct LeaseResponse {
    pub key: [u8; 16],
    /// LeaseState: the state that the lease now has.
    pub state: u32,
    /// Left 0, for what later versions may read.
    pub reserved: [u8; 12],
}

impl LeaseNotification {
    // The message that the fields hold.
    fn value(&self) -> Notification
        ensures { notice_of result ≡ notice_held self.now }
    {
        Notification {
            ack_required: self.ack_required != 0,
            key: LeaseKey(self.key),
            current: LeaseState::from_wire(self.current_state),
            new: LeaseState::from_wire(self.new_state),
        }
    }

    // The fields that hold a message.
    #[tactic(auto, using(crate::proofs::Held::notice_is_held))]
    fn holding(message: &Notification) -> LeaseNotification
        ensures fields { result ≡ notice_fields (notice_of message.now) }
        ensures value { notice_held result ≡ notice_of message.now }
    {
        LeaseNotification {
            key: message.key.0,
            current_state: message.current.to_wire(),
            new_state: message.new.to_wire(),
            ack_required: u8::from(message.ack_required),
            reserved: [0; 15],
        }
    }
}

impl LeaseAcknowledgment {
    // The message that the fields hold.
    fn value(&self) -> Acknowledgment
        ensures { acknowledged_of result ≡ acknowledged_held self.now }
    {
        Acknowledgment {
            key: LeaseKey(self.key),
            state: LeaseState::from_wire(self.state),
        }
    }

    // The fields that hold a message.
    #[tactic(auto, using(crate::proofs::Held::acknowledged_is_held))]
    fn holding(message: &Acknowledgment) -> LeaseAcknowledgment
        ensures fields { result ≡ acknowledged_fields (acknowledged_of message.now) }
        ensures value { acknowledged_held result ≡ acknowledged_of message.now }
    {
        LeaseAcknowledgment {
            key: message.key.0,
            state: message.state.to_wire(),
            reserved: [0; 12],
        }
    }
}

impl LeaseResponse {
    // The message that the fields hold.
    fn value(&self) -> BreakResponse
        ensures { responded_of result ≡ responded_held self.now }
    {
        BreakResponse {
            key: LeaseKey(self.key),
            state: LeaseState::from_wire(self.state),
        }
    }

    // The fields that hold a message.
    #[tactic(auto, using(crate::proofs::Held::responded_is_held))]
    fn holding(message: &BreakResponse) -> LeaseResponse
        ensures fields { result ≡ responded_fields (responded_of message.now) }
        ensures value { responded_held result ≡ responded_of message.now }
    {
        LeaseResponse {
            key: message.key.0,
            state: message.state.to_wire(),
            reserved: [0; 12],
        }
    }
}

/// Reads a lease break notification (MS-SMB2 2.2.23.2) from the front of `bytes` into `out`. Other
/// fields that carry no value of the message, and state bits past 7, are passed over, as are the
/// bytes after its 44.
///
/// Returns the fault where there is one, and then `out` is as it was.
#[unsafe(no_mangle)]
pub extern "C" fn smblease_read_notification(
    bytes: &[u8],
    out: &mut LeaseNotification,
) -> LeaseFault
    ensures fault { result ≡ told (message_fault 44 bytes.now) }
    ensures value { message_fault 44 bytes.now ≡ None → IsNotification (take 44 bytes.now) (notice_held out.new) }
    ensures fields { message_fault 44 bytes.now ≡ None → out.new ≡ notice_fields (notice_held out.new) }
    ensures unchanged { message_fault 44 bytes.now ≢ None → out.new ≡ out.old }
{
    match Notification::decode(bytes) {
        Ok((message, _)) => {
            *out = LeaseNotification::holding(&message);
            LeaseFault::none()
        }
        Err(fault) => LeaseFault::of(fault),
    }
}

/// Writes a lease break notification (MS-SMB2 2.2.23.2) to the front of `room`. Returns its length,
/// 44; where `room` is shorter, nothing is written. Free fields are 0.
#[unsafe(no_mangle)]
pub extern "C" fn smblease_write_notification(message: &LeaseNotification, room: &mut [u8]) -> usize
    ensures length { result ≡ 44 }
    ensures layout { 44 ≤ length room.old → IsNotification (take 44 room.new) (notice_held message.now) }
    ensures written { 44 ≤ length room.old → room.new ≡ notification_bytes (notice_held message.now) ++ drop 44 room.old }
    ensures no_room { length room.old < 44 → room.new ≡ room.old }
{
    let notification = message.value();
    fill(room, &notification.encode())
}

/// Reads a lease break acknowledgment (MS-SMB2 2.2.24.2) from the front of `bytes` into `out`. Other
/// fields, and state bits past 7, are passed over, as are the bytes after its 36.
///
/// Returns the fault where there is one, and then `out` is as it was.
#[unsafe(no_mangle)]
pub extern "C" fn smblease_read_acknowledgment(
    bytes: &[u8],
    out: &mut LeaseAcknowledgment,
) -> LeaseFault
    ensures fault { result ≡ told (message_fault 36 bytes.now) }
    ensures value { message_fault 36 bytes.now ≡ None → IsAcknowledgment (take 36 bytes.now) (acknowledged_held out.new) }
    ensures fields { message_fault 36 bytes.now ≡ None → out.new ≡ acknowledged_fields (acknowledged_held out.new) }
    ensures unchanged { message_fault 36 bytes.now ≢ None → out.new ≡ out.old }
{
    match Acknowledgment::decode(bytes) {
        Ok((message, _)) => {
            *out = LeaseAcknowledgment::holding(&message);
            LeaseFault::none()
        }
        Err(fault) => LeaseFault::of(fault),
    }
}

/// Writes a lease break acknowledgment (MS-SMB2 2.2.24.2) to the front of `room`. Returns its
/// length, 36; where `room` is shorter, nothing is written. Free fields are 0.
#[unsafe(no_mangle)]
pub extern "C" fn smblease_write_acknowledgment(
    message: &LeaseAcknowledgment,
    room: &mut [u8],
) -> usize
    ensures length { result ≡ 36 }
    ensures layout { 36 ≤ length room.old → IsAcknowledgment (take 36 room.new) (acknowledged_held message.now) }
    ensures written { 36 ≤ length room.old → room.new ≡ acknowledgment_bytes (acknowledged_held message.now) ++ drop 36 room.old }
    ensures no_room { length room.old < 36 → room.new ≡ room.old }
{
    let acknowledgment = message.value();
    fill(room, &acknowledgment.encode())
}

/// Reads a lease break response (MS-SMB2 2.2.25.2), as [`smblease_read_acknowledgment`] an
/// acknowledgment.
#[unsafe(no_mangle)]
pub extern "C" fn smblease_read_response(bytes: &[u8], out: &mut LeaseResponse) -> LeaseFault
    ensures fault { result ≡ told (message_fault 36 bytes.now) }
    ensures value { message_fault 36 bytes.now ≡ None → IsAcknowledgment (take 36 bytes.now) (responded_held out.new) }
    ensures fields { message_fault 36 bytes.now ≡ None → out.new ≡ responded_fields (responded_held out.new) }
    ensures unchanged { message_fault 36 bytes.now ≢ None → out.new ≡ out.old }
{
    match BreakResponse::decode(bytes) {
        Ok((message, _)) => {
            *out = LeaseResponse::holding(&message);
            LeaseFault::none()
        }
        Err(fault) => LeaseFault::of(fault),
    }
}

/// Writes a lease break response (MS-SMB2 2.2.25.2), as [`smblease_write_acknowledgment`] an
/// acknowledgment.
#[unsafe(no_mangle)]
pub extern "C" fn smblease_write_response(message: &LeaseResponse, room: &mut [u8]) -> usize
    ensures length { result ≡ 36 }
    ensures layout { 36 ≤ length room.old → IsAcknowledgment (take 36 room.new) (responded_held message.now) }
    ensures written { 36 ≤ length room.old → room.new ≡ acknowledgment_bytes (responded_held message.now) ++ drop 36 room.old }
    ensures no_room { length room.old < 36 → room.new ≡ room.old }
{
    let response = message.value();
    fill(room, &response.encode())
}

/// Returns whether a break asks for an acknowledgment (MS-SMB2 3.2.5.19.2), and writes it to `out`
/// where it does: that of the notification's key, with the state that the lease is broken to.
#[unsafe(no_mangle)]
pub extern "C" fn smblease_acknowledgment_due(
    notification: &LeaseNotification,
    out: &mut LeaseAcknowledgment,
) -> bool
    ensures due { result ≡ is_some (acknowledgment_due (notice_held notification.now)) }
    ensures value { IfSome (acknowledgment_due (notice_held notification.now)) (λ v. acknowledged_held out.new ≡ v) }
    ensures fields { IfSome (acknowledgment_due (notice_held notification.now)) (λ v. out.new ≡ acknowledged_fields v) }
    ensures unchanged { acknowledgment_due (notice_held notification.now) ≡ None → out.new ≡ out.old }
{
    match Acknowledgment::due(&notification.value()) {
        Some(acknowledgment) => {
            *out = LeaseAcknowledgment::holding(&acknowledgment);
            true
        }
        None => false,
    }
}
