ghost use Rattle.std.specs.Prelude.{◌≡◌, ◌⊎◌, ◌++◌, ℕ, List, Some, None, IfOk, IfErr, OnOk};
ghost use Rattle.std.specs.String.{string_bytes};
ghost use Rattle.lease_texts.specs.Records.{record_in};
ghost use Rattle.record_words.specs.words.Placed.{IsPlaced};
ghost use Rattle.leasecheck.specs.Explaining.{ExplainsVerdict};
ghost use Rattle.leasecheck.specs.Refusals.{line_refusal};
ghost use Rattle.leasecheck.specs.Replayed.{verdict_line};

use crate::failure::Failure;
use crate::judging::push_verdict;
use crate::refusal::Refusal;
use crate::remarks::line_at;
use lease_texts::TextFault;
use lease_world::{Verdict, judge};
use record_words::{Placed, push_explanation, read_placed};
use std::alloc::{AllocError, Global};

/// The facts of a text, with their lines.
///
/// # Errors
///
/// `Line` with the number of the first line that is refused, and `Memory` where there is none left.
pub(crate) fn placed_of(alloc: Global, text: &[u8]) -> Result<Placed, Refusal>
    ensures read { IfOk result (λ placed. IsPlaced text.now placed) }
    ensures refused { IfErr result (λ told. (told.failure ≡ Failure.Memory)
        ⊎ (line_refusal (record_in text.now) ≡ Some told.failure)) }
{
    match read_placed(alloc, text) {
        Ok(placed) => Ok(placed),
        Err(TextFault::Line(number)) => Err(Refusal::of_fact(alloc, number, line_at(text, number))),
        Err(TextFault::Memory) => Err(Refusal::bare(Failure::Memory)),
    }
}

/// Why the text of a record has its verdict: the facts that make it so, and the verdict.
///
/// # Errors
///
/// `Line` with the number of the first line that is refused, and what is said of that, and `Memory` where there is none left.
pub fn explanation_of(alloc: Global, text: &[u8]) -> Result<(String, Verdict), Refusal>
    ensures told { IfOk result (λ answer. ExplainsVerdict text.now answer.1 (string_bytes answer.0)) }
    ensures accepted { OnOk result (line_refusal (record_in text.now) ≡ None) }
    ensures refused { IfErr result (λ told. (told.failure ≡ Failure.Memory)
        ⊎ (line_refusal (record_in text.now) ≡ Some told.failure)) }
{
    let placed = placed_of(alloc, text)?;
    let verdict = judge(alloc, placed.facts.as_slice())?;
    let mut told = String::new(alloc);
    push_explanation(alloc, &mut told, &placed, &verdict)?;
    Ok((told, verdict))
}

/// What `leasecheck judge --explain` prints of these: the line of the verdict, and the explanation.
pub fn reason_text(
    alloc: Global,
    verdict: &Verdict,
    explanation: &str,
) -> Result<String, AllocError>
    ensures { IfOk result (λ text. string_bytes text ≡ verdict_line verdict.now ++ explanation.now) }
{
    let mut text = String::new(alloc);
    push_verdict(&mut text, verdict)?;
    text.push_str(explanation)?;
    Ok(text)
}
