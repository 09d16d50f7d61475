ghost use Rattle.std.specs.Prelude.{◌≡◌, ◌⊎◌, IfOk, IfErr};
ghost use Rattle.lease_texts.specs.Drafts.{RefusesLine};
ghost use Rattle.capture_texts.specs.Captures.{IsReadFrom, capture_in};

use crate::capture::Capture;
use crate::line::Side;
use lease_texts::{LineFault, TextFault, first_line};
use std::alloc::Global;

/// The capture that a text is, made at this side of its connections.
///
/// # Errors
///
/// `Line` with the number of the first line that is refused, and `Memory` where there is none left.
#[tactic(auto, unfolding(lease_texts::specs::Reading::reads_on))]
pub fn read_capture(alloc: Global, at: Side, text: &[u8]) -> Result<Capture, TextFault>
    ensures read { IfOk result (IsReadFrom at text.now) }
    ensures refused { IfErr result (λ fault. (fault ≡ TextFault.Memory) ⊎ RefusesLine (capture_in text.now) fault) }
{
    let mut capture = Capture::new(alloc, at);
    let mut rest = text;
    let mut number = 0u64;
    while !rest.is_empty() {
        let (line, behind) = first_line(rest);
        number += 1;
        match capture.take_line(line) {
            Ok(()) => rest = behind,
            Err(LineFault::Refused) => return Err(TextFault::Line(number)),
            Err(LineFault::Memory) => return Err(TextFault::Memory),
        }
    }
    Ok(capture)
}
