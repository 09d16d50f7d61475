ghost use Rattle.std.specs.Prelude.{◌≡◌};
ghost use Rattle.std.specs.Option.{option_map};
ghost use Rattle.lease_manager.specs.Outs.{answer_told, lease_told, notice_of};
ghost use Rattle.lease_versions.specs.Kept.{carried_of};
ghost use Rattle.lease_versions.specs.Sent.{answer_sent, durable_sent, lease_sent, notice_sent};
ghost use Rattle.lease_wire_v2.specs.EpochNotice.{epoch_notice_of};
ghost use Rattle.lease_wire_v2.specs.Views.{answer_of, granted_durable, lease_view_of, second_of};

use crate::carried::Carried;
use capture_wire::DurableResponseV2;
use lease_manager::{BreakNotice, CreateAnswer};
use lease_state::{LeaseKey, LeaseState};
use lease_wire::Notification;
use lease_wire_v2::{CreateAnswerV2, DurableAnswer, LeaseAnswer, NotificationV2, SecondVersion};

fn lease_sent(
    given: Option<(LeaseKey, LeaseState, bool)>,
    second: Option<SecondVersion>,
) -> Option<LeaseAnswer>
    ensures { option_map lease_view_of result
        ≡ option_map (lease_sent (option_map second_of second)) (option_map lease_told given) }
{
    match given {
        Some((key, state, breaking)) => Some(LeaseAnswer {
            key,
            state,
            breaking,
            second,
        }),
        None => None,
    }
}

fn durable_sent(durable: bool, is_second: bool, timeout: u32) -> Option<DurableAnswer>
    ensures { option_map granted_durable result ≡ durable_sent durable is_second timeout }
{
    if !durable {
        return None;
    }
    if is_second {
        let persistent = false;
        Some(DurableAnswer::Second(DurableResponseV2 {
            timeout,
            persistent,
        }))
    } else {
        Some(DurableAnswer::First)
    }
}

impl Carried {
    /// What the create contexts of an answer grant (MS-SMB2 2.2.14.2): `RqLs` in the version of its lease, and for a durable open
    /// `DH2Q` with this timeout, in milliseconds, or `DHnQ`.
    pub fn answer(self, answer: &CreateAnswer, timeout: u32) -> CreateAnswerV2
        ensures { answer_of result ≡ answer_sent (carried_of self) (answer_told answer.now) timeout }
    {
        let (second, is_second) = match self {
            Carried::Answer { second, durable } => (second, durable),
            _ => (None, false),
        };
        CreateAnswerV2 {
            lease: lease_sent(answer.lease, second),
            durable: durable_sent(answer.durable, is_second, timeout),
        }
    }

    /// The notification of a break (MS-SMB2 2.2.23.2), with its NewEpoch.
    pub fn notification(self, notice: &BreakNotice) -> NotificationV2
        ensures { epoch_notice_of result ≡ notice_sent (carried_of self) (notice_of notice.now) }
    {
        let new_epoch = match self {
            Carried::Notice(epoch) => epoch,
            _ => 0,
        };
        let notification = Notification {
            ack_required: notice.ack_required,
            key: notice.key,
            current: notice.current,
            new: notice.lowered,
        };
        NotificationV2 {
            notification,
            new_epoch,
        }
    }
}
