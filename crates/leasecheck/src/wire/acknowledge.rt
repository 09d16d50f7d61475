ghost use Rattle.std.specs.Prelude.{◌≡◌, ◌++◌, IfOk, OnOk};
ghost use Rattle.std.specs.String.{string_bytes};
ghost use Rattle.lease_wire.specs.Notification.{notice_of};
ghost use Rattle.lease_wire.specs.WireFaults.{message_fault};
ghost use Rattle.leasecheck.specs.Answer.{answer_line, rest_line, AnswersWith};
ghost use Rattle.leasecheck.specs.Refusals.{RefusesExactly};

use crate::failure::Failure;
use lease_wire::{Acknowledgment, Notification};
use std::alloc::{AllocError, Global};

// The line of the acknowledgment, or that none is due.
fn answer_text(alloc: Global, notification: &Notification) -> Result<String, AllocError>
    ensures { IfOk result (λ text. string_bytes text ≡ answer_line (notice_of notification.now)) }
{
    match Acknowledgment::due(notification) {
        Some(acknowledgment) => {
            let digits = hex::encode(alloc, acknowledgment.encode())?;
            format!(in alloc; "{digits}\n")
        }
        None => format!(in alloc; "no acknowledgment due\n"),
    }
}

/// Says how many bytes were left over, where there are any.
pub(crate) fn push_rest(text: &mut String, count: usize) -> Result<(), AllocError>
    ensures { OnOk result (string_bytes text.new ≡ string_bytes text.old ++ rest_line count) }
{
    if count > 0 {
        writeln!(text, "rest {count}")?;
    }
    Ok(())
}

/// What `leasecheck ack` prints for the bytes of a notification: the acknowledgment, and how many
/// bytes follow.
///
/// # Errors
///
/// The fault of the notification, and where it has none `Memory`, where there is none left.
pub fn ack_lines(alloc: Global, bytes: &[u8]) -> Result<String, Failure>
    ensures printed { IfOk result (λ text. AnswersWith bytes.now (string_bytes text)) }
    ensures refused { RefusesExactly (message_fault 44 bytes.now) result }
{
    let (notification, rest) = Notification::decode(bytes)?;
    let mut text = answer_text(alloc, &notification)?;
    push_rest(&mut text, rest.len())?;
    Ok(text)
}
