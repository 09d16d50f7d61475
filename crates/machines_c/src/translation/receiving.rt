ghost use Rattle.std.specs.Prelude.{◌≡◌, ◌≤◌, [], IfOk, IfSome, None, IsOk, OnErr, OnOk, false, length};
ghost use Rattle.std.specs.Option.{option_map};
ghost use Rattle.client_versions.specs.Kept.{layer_of};
ghost use Rattle.client_versions.specs.Rows.{notice_takes_memory};
ghost use Rattle.machines_c.specs.translation.Layers.{Goes};
ghost use Rattle.machines_c.specs.translation.Messages.{HasAnswered, HasNoticed, IsAnswered, IsNoticed};
ghost use Rattle.machines_c.specs.translation.Messages.{notice_given_as, noticed_as};
ghost use Rattle.machines_c.specs.handles.Codes.{is_set};
ghost use Rattle.machines_c.specs.handles.Outcomes.{code_of};
ghost use Rattle.machines_c.specs.versions.Messages.{message_fields};
ghost use Rattle.lease_wire.specs.Canonical.{canonical_text};
ghost use Rattle.lease_wire.specs.Create as first;
ghost use Rattle.lease_wire.specs.Notification.{notification_bytes, notice_of};
ghost use Rattle.lease_wire.specs.declared.create.Direction.TheVariants.{Reply};
ghost use Rattle.lease_wire_v2.specs.EpochNotice.{epoch_notice_of};
ghost use Rattle.lease_wire_v2.specs.Views as views;

use crate::client::values::{BreakMessage, ClientGuid};
use crate::handles::Outcome;
use crate::translation::handle::ClientVersionsHandle;
use crate::translation::translating::Translating;
use crate::versions::messages::MessageFields;
use capture_wire::Guid;
use lease_state::{FileId, LeaseKey, LeaseState, Memory};
use lease_wire::{CreateAnswer, Notification, fill_create_reply};
use lease_wire_v2::{CreateAnswerV2, NotificationV2, read_create_reply_v2};
use std::alloc::Global;

// An answer of version 1 fits into a message, since a key has 16 bytes. These functions do nothing.
fn key_is_whole(key: LeaseKey)
    ensures { length key.0 ≡ 16 }
{}

fn lease_is_whole(lease: Option<(LeaseKey, LeaseState, bool)>)
    ensures { IfSome (option_map first.granted_view lease) (λ lease. length lease.key ≡ 16) }
{
    match lease {
        Some((key, _, _)) => key_is_whole(key),
        None => {}
    }
}

fn answer_fits(answer: &CreateAnswer)
    ensures { length (canonical_text Reply (first.answer_of answer.now)) ≤ 204 }
{
    lease_is_whole(answer.lease);
}

impl MessageFields {
    // The create contexts of an answer, in version 1.
    fn of_given(answer: &CreateAnswer) -> MessageFields
        ensures { result ≡ message_fields (canonical_text Reply (first.answer_of answer.now)) }
    {
        answer_fits(answer);
        let mut bytes = [0; 204];
        let length = fill_create_reply(answer, &mut bytes) as u32;
        MessageFields { bytes, length }
    }

    // A notification, in version 1.
    fn of_notification(notification: &Notification) -> MessageFields
        ensures { result ≡ message_fields (notification_bytes (notice_of notification.now)) }
    {
        let mut bytes = [0; 204];
        let message = notification.encode();
        bytes[..message.len()].copy_from_slice(&message);
        MessageFields { bytes, length: 44 }
    }

    // No message.
    fn nothing() -> MessageFields
        ensures { result ≡ message_fields [] }
    {
        MessageFields {
            bytes: [0; 204],
            length: 0,
        }
    }
}

impl Translating {
    // The answer is taken.
    fn take_answer(
        &mut self,
        in_order: bool,
        file_id: FileId,
        guid: Guid,
        answer: &CreateAnswerV2,
        out: &mut MessageFields,
    ) -> Outcome
        ensures { IsAnswered in_order file_id.0 guid.0 (views.answer_of answer.now) out.old out.new (code_of result)
            (layer_of self.old.versions) (layer_of self.new.versions) }
    {
        let came = if in_order {
            self.versions.answered_in_order(file_id, guid, answer)
        } else {
            self.versions.answered(file_id, guid, answer)
        };
        match came {
            Ok(given) => {
                *out = MessageFields::of_given(&given);
                Outcome::Done
            }
            Err(_) => Outcome::NoMemory,
        }
    }

    // The contexts of an answer come.
    fn answered(
        &mut self,
        in_order: bool,
        file_id: FileId,
        guid: Guid,
        contexts: &[u8],
        out: &mut MessageFields,
    ) -> Outcome
        ensures { HasAnswered in_order file_id.0 guid.0 contexts.now out.old out.new (code_of result)
            (layer_of self.old.versions) (layer_of self.new.versions) }
    {
        let Ok(answer) = read_create_reply_v2(contexts) else {
            return Outcome::Damaged;
        };
        self.take_answer(in_order, file_id, guid, &answer, out)
    }

    // What the machine is given of a notice, or nothing.
    fn given(
        &mut self,
        in_order: bool,
        notice: &NotificationV2,
    ) -> Result<Option<Notification>, Memory>
        ensures given { IfOk result (λ given. option_map notice_of given
            ≡ notice_given_as in_order (epoch_notice_of notice.now) (layer_of self.old.versions)) }
        ensures noticed { OnOk result (layer_of self.new.versions
            ≡ noticed_as in_order (epoch_notice_of notice.now) (layer_of self.old.versions)) }
        ensures refused { OnErr result (layer_of self.new.versions ≡ layer_of self.old.versions) }
        ensures free { notice_takes_memory (epoch_notice_of notice.now)
            ((layer_of self.old.versions).leases (epoch_notice_of notice.now).notice.key) ≡ false → IsOk result }
    {
        if in_order {
            let notification = self.versions.noticed_in_order(notice)?;
            Ok(Some(notification))
        } else {
            self.versions.noticed(notice)
        }
    }

    // The notice is taken.
    fn take_notice(
        &mut self,
        in_order: bool,
        notice: &NotificationV2,
        out: &mut MessageFields,
    ) -> Outcome
        ensures { IsNoticed in_order (epoch_notice_of notice.now) out.old out.new (code_of result)
            (layer_of self.old.versions) (layer_of self.new.versions) }
    {
        match self.given(in_order, notice) {
            Ok(Some(notification)) => {
                *out = MessageFields::of_notification(&notification);
                Outcome::Done
            }
            Ok(None) => {
                *out = MessageFields::nothing();
                Outcome::Done
            }
            Err(_) => Outcome::NoMemory,
        }
    }

    // A notification comes.
    fn noticed(&mut self, in_order: bool, message: &[u8], out: &mut MessageFields) -> Outcome
        ensures { HasNoticed in_order message.now out.old out.new (code_of result)
            (layer_of self.old.versions) (layer_of self.new.versions) }
    {
        let Ok((notice, _)) = NotificationV2::decode(message) else {
            return Outcome::Damaged;
        };
        self.take_notice(in_order, &notice, out)
    }
}

/// The create contexts of an answer come (MS-SMB2 2.2.14.2), to a create that was sent under this CreateGuid; its open has this
/// FileId. Written are those that the client's machine takes, in version 1. Where `in_order` is set the answer came over the only
/// connection, after all that was sent before it.
///
/// Returns 0; 1 where there is no memory; 3 where the handle holds nothing; 5 where the contexts have a fault. But for 0 nothing is
/// written, and nothing changed.
#[unsafe(no_mangle)]
pub extern "C" fn smblease_client_versions_answered(
    alloc: Global,
    versions: &mut ClientVersionsHandle,
    in_order: u8,
    file_id: u64,
    guid: &ClientGuid,
    contexts: &[u8],
    out: &mut MessageFields,
) -> u32
    ensures answered { Goes (HasAnswered (is_set in_order) file_id guid.now.bytes contexts.now out.old out.new result)
        versions.old.held versions.new.held }
    ensures none { versions.old.held ≡ None → (result ≡ 3) × (versions.new.held ≡ None) × (out.new ≡ out.old) }
{
    match versions.take(alloc) {
        None => Outcome::Nothing.code(),
        Some(mut translating) => {
            let outcome = translating.answered(
                in_order != 0,
                FileId(file_id),
                Guid(guid.bytes),
                contexts,
                out,
            );
            versions.put(alloc, translating);
            outcome.code()
        }
    }
}

/// The notification of a break comes (MS-SMB2 2.2.23.2), without its header. Written is the one that the client's machine takes, in
/// version 1, or no bytes: then it is dropped, and not acknowledged. Where `in_order` is set it came over the only connection,
/// after all that was sent before it.
///
/// Returns 0; 1 where there is no memory; 3 where the handle holds nothing; 5 where it can't be read. But for 0 nothing is written,
/// and nothing changed.
#[unsafe(no_mangle)]
pub extern "C" fn smblease_client_versions_noticed(
    alloc: Global,
    versions: &mut ClientVersionsHandle,
    in_order: u8,
    message: &BreakMessage,
    out: &mut MessageFields,
) -> u32
    ensures noticed { Goes (HasNoticed (is_set in_order) message.now.bytes out.old out.new result)
        versions.old.held versions.new.held }
    ensures none { versions.old.held ≡ None → (result ≡ 3) × (versions.new.held ≡ None) × (out.new ≡ out.old) }
{
    match versions.take(alloc) {
        None => Outcome::Nothing.code(),
        Some(mut translating) => {
            let outcome = translating.noticed(in_order != 0, &message.bytes, out);
            versions.put(alloc, translating);
            outcome.code()
        }
    }
}
