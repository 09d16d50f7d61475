ghost use Rattle.std.specs.Prelude.{◌≡◌, ◌≢◌, None, IfSome, slice_get};
ghost use Rattle.lease_manager.specs.Outs.{answer_told, decision_of, notice_of};
ghost use Rattle.lease_versions.specs.Kept.{carried_of, layer_of};
ghost use Rattle.machines_c.specs.handles.Outcomes.{code_of};
ghost use Rattle.machines_c.specs.manager.Calls.{decided};
ghost use Rattle.machines_c.specs.versions.Layers.{Goes};
ghost use Rattle.machines_c.specs.versions.Messages.{HasFollowed, answer_text, message_fields, message_of, notice_text};

use crate::handles::Outcome;
use crate::manager::handle::ManagerHandle;
use crate::versions::following::Following;
use crate::versions::handle::VersionsHandle;
use lease_manager::{BreakNotice, CreateAnswer, Decision};
use lease_versions::Carried;
use lease_wire_v2::fill_create_reply_v2;
use std::alloc::Global;

/// What a host sends for a decision: `struct smblease_versions_message`.
#[repr(C)]
#[derive(Clone, Copy, Debug, PartialEq, Eq)]
pub struct MessageFields {
    /// The bytes, and zeros after them.
    pub bytes: [u8; 204],
    /// How many they are.
    pub length: u32,
}

impl MessageFields {
    // The create contexts of an answer.
    fn of_answer(carried: Carried, answer: &CreateAnswer, timeout: u32) -> MessageFields
        ensures { result ≡ message_fields (answer_text (carried_of carried) (answer_told answer.now) timeout) }
    {
        let mut bytes = [0; 204];
        let length = fill_create_reply_v2(&carried.answer(answer, timeout), &mut bytes) as u32;
        MessageFields { bytes, length }
    }

    // The notification of a break.
    fn of_notice(carried: Carried, notice: &BreakNotice) -> MessageFields
        ensures { result ≡ message_fields (notice_text (carried_of carried) (notice_of notice.now)) }
    {
        let mut bytes = [0; 204];
        let notification = carried.notification(notice).encode();
        bytes[..notification.len()].copy_from_slice(&notification);
        MessageFields { bytes, length: 44 }
    }

    // What is sent for a decision that carries this.
    fn of(decision: &Decision, carried: Carried, timeout: u32) -> MessageFields
        ensures { result ≡ message_fields (message_of (decision_of decision.now) (carried_of carried) timeout) }
    {
        match decision {
            Decision::Opened { answer, .. } => MessageFields::of_answer(carried, answer, timeout),
            Decision::Breaks { notice, .. } => MessageFields::of_notice(carried, notice),
            _ => MessageFields {
                bytes: [0; 204],
                length: 0,
            },
        }
    }
}

impl Following {
    // A decision is followed.
    fn follow(&mut self, decision: &Decision, timeout: u32, out: &mut MessageFields) -> Outcome
        ensures { HasFollowed (decision_of decision.now) timeout out.old out.new (code_of result)
            (layer_of self.old.versions) (layer_of self.new.versions) }
    {
        match self.versions.follow(decision) {
            Ok(carried) => {
                *out = MessageFields::of(decision, carried, timeout);
                Outcome::Done
            }
            Err(_) => Outcome::NoMemory,
        }
    }
}

impl VersionsHandle {
    // The decision at the index is followed.
    fn follow(
        &mut self,
        alloc: Global,
        decisions: &[Decision],
        index: usize,
        timeout: u32,
        out: &mut MessageFields,
    ) -> Outcome
        ensures followed { IfSome (slice_get decisions.now index) (λ one. Goes
            (HasFollowed (decision_of one) timeout out.old out.new (code_of result)) self.old.held self.new.held) }
        ensures none { self.old.held ≡ None → (code_of result ≡ 3) × (self.new.held ≡ None) × (out.new ≡ out.old) }
        ensures nothing { slice_get decisions.now index ≡ None → (self.new.held ≡ self.old.held) × (out.new ≡ out.old) }
        ensures no_index { self.old.held ≢ None → slice_get decisions.now index ≡ None → code_of result ≡ 4 }
    {
        let Some(mut following) = self.take(alloc) else {
            return Outcome::Nothing;
        };
        let outcome = match decisions.get(index) {
            Some(decision) => following.follow(decision, timeout, out),
            None => Outcome::NoSuch,
        };
        self.put(alloc, following);
        outcome
    }
}

/// Follows the decision at this index, from 0, of the manager's last call: what the host sends for it. For an open these are the
/// create contexts of its answer (MS-SMB2 2.2.14.2), with this timeout in milliseconds where it is durable by `DH2Q`; for a break
/// its notification (2.2.23.2); for any other decision no bytes. Each decision of a call is followed once, in their order.
///
/// Returns 0; 1 where there is no memory, which is for an open alone; 3 where a handle holds nothing; 4 where nothing has the
/// index. But for 0 nothing is written, and nothing changed.
#[unsafe(no_mangle)]
pub extern "C" fn smblease_versions_follow(
    alloc: Global,
    versions: &mut VersionsHandle,
    manager: &mut ManagerHandle,
    index: usize,
    timeout: u32,
    out: &mut MessageFields,
) -> u32
    ensures same { manager.new.held ≡ manager.old.held }
    ensures followed { IfSome (slice_get (decided manager.old.held) index) (λ one. Goes
        (HasFollowed (decision_of one) timeout out.old out.new result) versions.old.held versions.new.held) }
    ensures nothing { slice_get (decided manager.old.held) index ≡ None → (versions.new.held ≡ versions.old.held)
        × (out.new ≡ out.old) }
    ensures no_index { manager.old.held ≢ None → versions.old.held ≢ None → slice_get (decided manager.old.held) index ≡ None
        → result ≡ 4 }
    ensures none { versions.old.held ≡ None → (result ≡ 3) × (versions.new.held ≡ None) × (out.new ≡ out.old) }
    ensures no_manager { manager.old.held ≡ None → result ≡ 3 }
{
    let Some(managing) = manager.take(alloc) else {
        return Outcome::Nothing.code();
    };
    let outcome = versions.follow(alloc, &managing.decisions, index, timeout, out);
    manager.put(alloc, managing);
    outcome.code()
}
