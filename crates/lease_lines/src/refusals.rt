ghost use Rattle.std.specs.Prelude.{◌≡◌, IfOk, []};
ghost use Rattle.lease_lines.specs.Refused.{fault_line, lack_line, place_line};
ghost use Rattle.{std.specs.String.string_bytes, lease_texts.specs.Complaints.complaint, lease_texts.specs.Complaints.table_of};

use lease_state::Memory;
use lease_texts::{LineFault, Table, complaint_about, push_complaint_line};
use std::alloc::{AllocError, Global};

/// What a line is answered.
#[derive(Debug, Drop)]
pub struct Answer {
    /// The lines of the answer; none where the line isn't answered.
    pub text: String,
    /// Why the line is refused, as a line; nothing where it isn't.
    pub reason: String,
}

fn fault_line(alloc: Global, number: u64) -> Result<String, AllocError>
    ensures { IfOk result (λ text. string_bytes text ≡ fault_line number) }
{
    let mut text = String::new(alloc);
    writeln!(text, "fault line {number}")?;
    Ok(text)
}

// What a line of this number lacks to be one of a table, as a line.
fn lack_line(alloc: Global, table: Table, number: u64, line: &[u8]) -> Result<String, LineFault>
    ensures { IfOk result (λ text. string_bytes text ≡ lack_line number (complaint (table_of table) line.now)) }
{
    let mut text = String::new(alloc);
    if let Some(complaint) = complaint_about(alloc, table, line)? {
        push_complaint_line(alloc, &mut text, number, &complaint)?;
    }
    Ok(text)
}

impl Answer {
    /// No answer. Allocates nothing.
    pub fn nothing(alloc: Global) -> Answer
        ensures text { string_bytes result.text ≡ [] }
        ensures reason { string_bytes result.reason ≡ [] }
    {
        let (text, reason) = (String::new(alloc), String::new(alloc));
        Answer { text, reason }
    }

    /// The answer to a line of this number that is none of a table.
    pub fn unread(alloc: Global, table: Table, number: u64, line: &[u8]) -> Result<Answer, Memory>
        ensures text { IfOk result (λ answer. string_bytes answer.text ≡ fault_line number) }
        ensures reason { IfOk result (λ answer. string_bytes answer.reason
            ≡ lack_line number (complaint (table_of table) line.now)) }
    {
        let text = fault_line(alloc, number)?;
        match lack_line(alloc, table, number, line) {
            Ok(reason) => Ok(Answer { text, reason }),
            Err(_) => Err(Memory),
        }
    }

    /// The answer to a line of this number that may not stand there, with what is said of where such lines stand.
    pub fn misplaced(alloc: Global, number: u64, place: &str) -> Result<Answer, Memory>
        ensures text { IfOk result (λ answer. string_bytes answer.text ≡ fault_line number) }
        ensures reason { IfOk result (λ answer. string_bytes answer.reason ≡ place_line number place.now) }
    {
        let text = fault_line(alloc, number)?;
        let mut reason = String::new(alloc);
        writeln!(reason, "line {number}: {place}")?;
        Ok(Answer { text, reason })
    }
}
