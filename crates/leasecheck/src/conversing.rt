ghost use Rattle.std.specs.Prelude.{◌≡◌, IfOk, IfErr, MatchResult};
ghost use Rattle.std.specs.Io.KnownBytes.{Appends};
ghost use Rattle.std.specs.String.{string_bytes};
ghost use Rattle.lease_lines.specs.Machines.{answered};
ghost use Rattle.lease_lines.specs.Tables.{machines_of};
ghost use Rattle.leasecheck.specs.Conversing.{Converses, EndsAnswering, EndsSpeaking, GivesLine, HasBegun, HasSpoken};
ghost use Rattle.leasecheck.specs.FileFaults.{FailsReading};
ghost use Rattle.leasecheck.specs.Refusals.{Begins};
ghost use Rattle.leasecheck.specs.declared.failure.Failure.{Failure};

use crate::failure::Failure;
use crate::printing::print_text;
use lease_lines::{Answer, Machines};
use lease_texts::first_line;
use std::alloc::Global;
use std::io::{BufRead, Write};

// The bytes of the next line, with its line feed; none at the end.
fn next_bytes<I: BufRead>(alloc: Global, input: &mut I) -> Result<Vec<u8>, Failure>
    ensures given { IfOk result (λ bytes. GivesLine (I.remaining input.old) (I.remaining input.new) bytes.items) }
    ensures failed { IfErr result FailsReading }
{
    let mut bytes = Vec::new(alloc);
    match input.read_until(b'\n', &mut bytes) {
        Ok(_) => Ok(bytes),
        Err(error) => Err(Failure::of_reading(error.kind())),
    }
}

// Writes why a line is refused, where it is, and then its answer.
fn print_answer<O: Write, F: Write>(
    answer: &Answer,
    out: &mut O,
    faults: &mut F,
) -> Result<(), Failure>
    ensures printed { MatchResult result
        (λ _. Appends (O.contents out.old) (O.contents out.new) (string_bytes answer.now.text)
        × Appends (F.contents faults.old) (F.contents faults.new) (string_bytes answer.now.reason))
        (λ _. Begins (O.contents out.old) (O.contents out.new) (string_bytes answer.now.text)
        × Begins (F.contents faults.old) (F.contents faults.new) (string_bytes answer.now.reason)) }
    ensures failed { IfErr result (λ failure. failure ≡ Failure.Output) }
{
    if let Err(failure) = print_text(answer.reason.as_str(), faults) {
        return Err(failure);
    }
    print_text(answer.text.as_str(), out)
}

// Answers a line of this number, and writes why it is refused, where it is, and the answer.
fn answer_line<O: Write, F: Write>(
    alloc: Global,
    machines: Machines,
    number: u64,
    line: &[u8],
    out: &mut O,
    faults: &mut F,
) -> Result<Machines, Failure>
    ensures answered { MatchResult result
        (λ after. HasSpoken (answered (machines_of machines) number line.now) (machines_of after) (O.contents out.old)
        (O.contents out.new) (F.contents faults.old) (F.contents faults.new))
        (λ _. HasBegun (answered (machines_of machines) number line.now) (O.contents out.old) (O.contents out.new)
        (F.contents faults.old) (F.contents faults.new)) }
    ensures failed { IfErr result EndsAnswering }
{
    match machines.answer(alloc, number, line) {
        Ok((machines, answer)) => match print_answer(&answer, out, faults) {
            Ok(()) => Ok(machines),
            Err(failure) => Err(failure),
        },
        Err(_) => Err(Failure::Memory),
    }
}

/// Lets machines answer what a reader gives, line by line: the answer to a line is written and flushed before the next is read,
/// and before it why the line is refused, where it is, to the other writer.
///
/// # Errors
///
/// `File` where a read fails, `Memory` where there is none left, `Output` where a write fails, and `Lines` where there are more
/// lines than numbers of 64 bits. What was answered before stays written.
pub fn converse<I: BufRead, O: Write, F: Write>(
    alloc: Global,
    machines: Machines,
    input: &mut I,
    out: &mut O,
    faults: &mut F,
) -> Result<(), Failure>
    ensures answered { Converses (machines_of machines) (I.remaining input.old) (O.contents out.old) (O.contents out.new)
        (F.contents faults.old) (F.contents faults.new) result }
    ensures failed { IfErr result (EndsSpeaking (I.remaining input.old)) }
{
    let mut machines = machines;
    for number in 1..u64::MAX {
        let bytes = match next_bytes(alloc, input) {
            Ok(bytes) => bytes,
            Err(failure) => return Err(failure),
        };
        let text = bytes.as_slice();
        if text.is_empty() {
            return Ok(());
        }
        let (line, _) = first_line(text);
        match answer_line(alloc, machines, number, line, out, faults) {
            Ok(next) => machines = next,
            Err(failure) => return Err(failure),
        }
    }
    Err(Failure::Lines)
}
