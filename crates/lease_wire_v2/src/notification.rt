ghost use Rattle.std.specs.Prelude.{◌≡◌, ◌<◌, ◌^◌, ◌++◌, take, drop, IfOk};
ghost use Rattle.byteorder.specs.Endian.{little_bytes};
ghost use Rattle.std.specs.Result.{result_err};
ghost use Rattle.lease_wire.specs.WireFaults.{message_fault};
ghost use Rattle.lease_wire_v2.specs.EpochNotice.{IsEpochNotice, epoch_notice_of, epoch_notice_bytes};
ghost use Rattle.lease_wire_v2.specs.EpochNotice.{EpochNoticeReadsBack, EpochNoticeIsUnique, EpochNoticeWritesBack};
ghost use Rattle.lease_wire_v2.specs.EpochNotice.{FirstVersionHasNoEpoch};

use byteorder::{ByteOrder, LittleEndian};
use lease_wire::{Notification, WireFault};

const NEW_EPOCH_OFFSET: usize = 2;

/// A lease break notification (MS-SMB2 2.2.23.2) with its NewEpoch.
#[derive(Clone, Copy, Debug, PartialEq, Eq)]
pub struct NotificationV2 {
    pub notification: Notification,
    /// NewEpoch: the epoch after the break of a lease of version 2, and 0 for a lease of version 1.
    pub new_epoch: u16,
}

// The notification with another NewEpoch.
fn with_epoch(mut message: [u8; Notification::SIZE], new_epoch: u16) -> [u8; Notification::SIZE]
    ensures text { result ≡ take 2 message ++ (little_bytes 2 new_epoch ++ drop 4 message) }
    ensures fits { new_epoch < 2 ^ 16 }
{
    message[NEW_EPOCH_OFFSET..NEW_EPOCH_OFFSET + 2].copy_from_slice(&new_epoch.to_le_bytes());
    message
}

impl NotificationV2 {
    /// The message as its 44 bytes, without the SMB2 header. Free fields are 0.
    pub fn encode(&self) -> [u8; Notification::SIZE]
        ensures text { result ≡ epoch_notice_bytes (epoch_notice_of self.now) }
        ensures layout { IsEpochNotice result (epoch_notice_of self.now) }
    {
        let NotificationV2 {
            notification,
            new_epoch,
        } = *self;
        with_epoch(notification.encode(), new_epoch)
    }

    /// Reads a notification from the front of `bytes`, as `lease_wire::Notification::decode` does, and its NewEpoch: the value,
    /// and the bytes after its 44.
    ///
    /// # Errors
    ///
    /// `Short` where there are fewer bytes, else `WrongSize` where StructureSize is not 44.
    pub fn decode(bytes: &[u8]) -> Result<(NotificationV2, &[u8]), WireFault>
        ensures refused { result_err result ≡ message_fault 44 bytes.now }
        ensures value { IfOk result (λ r. IsEpochNotice (take 44 bytes.now) (epoch_notice_of r.0)) }
        ensures rest { IfOk result (λ r. r.1.now ≡ drop 44 bytes.now) }
    {
        match Notification::decode(bytes) {
            Err(fault) => Err(fault),
            Ok((notification, rest)) => {
                let new_epoch = LittleEndian::read_u16(&bytes[NEW_EPOCH_OFFSET..]);
                Ok((
                    NotificationV2 {
                        notification,
                        new_epoch,
                    },
                    rest,
                ))
            }
        }
    }
}

/// Laws of the layout: what is written is read back, with whatever bytes follow; no bytes hold two values; what is read of
/// bytes whose free fields are 0 is written back; and with NewEpoch 0 the bytes are those of `lease_wire`. Does nothing.
pub fn epoch_notice_laws()
    ensures reads_back { EpochNoticeReadsBack }
    ensures unique { EpochNoticeIsUnique }
    ensures writes_back { EpochNoticeWritesBack }
    ensures first_version { FirstVersionHasNoEpoch }
{}
