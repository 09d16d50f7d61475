ghost use Rattle.std.specs.Prelude.{◌≡◌, ◌≢◌, ◌≤◌, ◌⊎◌, ℕ, List, IfOk, IsErr, map};
ghost use Rattle.std.specs.String.{string_bytes};
ghost use Rattle.std.specs.Io.KnownBytes.{Appends, Keeps};
ghost use Rattle.lease_lines.specs.Machines.{reasons, transcript};
ghost use Rattle.lease_lines.specs.Tables.{machines_of};
ghost use Rattle.leasecheck.specs.CommandLine.{AreRefused, TellsUsage, all_words};
ghost use Rattle.leasecheck.specs.Printed.{PrintsOf};
ghost use Rattle.leasecheck.specs.Refusals.{EndsOf};
ghost use Rattle.leasecheck.specs.Running.{Does};

use crate::command_line::asked;
use crate::conversing::converse;
use crate::failure::Failure;
use crate::printing::{perform, print_text, tell_failure, tell_refusal};
use crate::refusal::Refusal;
use crate::tasks::{Asked, Task, Usage};
use lease_lines::Machines;
use std::alloc::{AllocError, Global};
use std::io::{BufReader, Write};
use std::rt::Files;
use std::{fs, io};

// The exit status where a command line is refused.
const REFUSED: u8 = 2;

fn views<'a>(alloc: Global, words: &'a [String]) -> Result<Vec<&'a str>, AllocError>
    ensures { IfOk result (λ views. map (λ word. word.now) views.items ≡ map string_bytes words.now) }
{
    let mut views = Vec::new(alloc);
    for word in words {
        views.push(word.as_str())?;
    }
    Ok(views)
}

// Help goes to `out`, with status 1 and a line on `faults` where it can't be written; why there is no task goes to `faults`, with status 1 where that is
// want of memory.
fn tell_usage<O: Write, F: Write>(usage: &Usage, out: &mut O, faults: &mut F) -> u8
    ensures told { TellsUsage usage.now (O.contents out.old) (O.contents out.new) result }
    ensures status { result ≤ 2 }
    ensures kept { result ≡ 2 → Keeps (O.contents out.old) (O.contents out.new) }
    ensures silent { result ≡ 0 → Keeps (F.contents faults.old) (F.contents faults.new) }
{
    match usage {
        Usage::Help(text) => match print_text(text.as_str(), out) {
            Ok(()) => 0,
            Err(failure) => {
                let _ = tell_failure(failure, faults);
                1
            }
        },
        Usage::Refused(text) => {
            let _ = faults.write_all(text.as_bytes());
            REFUSED
        }
        Usage::Memory => {
            let _ = tell_failure(Failure::Memory, faults);
            1
        }
    }
}

// Does a task with the bytes of its file, which it opens.
fn perform_on_file<R: Files + Input + AllocGlobal, O: Write, F: Write>(
    rt: &R,
    asked: &Task,
    out: &mut O,
    faults: &mut F,
) -> u8
    ensures silent { result ≢ 1 → Keeps (F.contents faults.old) (F.contents faults.new) }
    ensures status { (result ≤ 1) ⊎ ((3 ≤ result) × (result ≤ 4)) }
    ensures printed { result ≢ 1 → (file : List ℕ)
        × PrintsOf asked.now file (O.contents out.old) (O.contents out.new) result }
    ensures ended { result ≡ 1 → (file : List ℕ)
        × EndsOf asked.now file (O.contents out.old) (O.contents out.new) (F.contents faults.old) (F.contents faults.new) }
{
    let alloc = rt.alloc();
    match asked.path() {
        None => {
            let mut nothing: &[u8] = &[];
            perform(alloc, asked, &mut nothing, out, faults)
        }
        Some("-") => perform(alloc, asked, &mut rt.reader(), out, faults),
        Some(path) => match fs::open(rt, path) {
            Ok(mut file) => perform(alloc, asked, &mut file, out, faults),
            Err(error) => {
                let refusal = Refusal::bare(Failure::of_reading(error.kind()));
                let _ = tell_refusal(&refusal.of_task(alloc, asked), faults);
                1
            }
        },
    }
}

// Lets machines speak on standard input and output, and say on the other stream why lines are refused. The input is read in
// blocks: a pipe by itself is read a byte at a time.
fn speak<R: Input + AllocGlobal, O: Write, F: Write>(
    rt: &R,
    machines: Machines,
    out: &mut O,
    faults: &mut F,
) -> u8
    ensures status { result ≤ 1 }
    ensures answered { result ≡ 0 → (lines : List (List ℕ))
        × Appends (O.contents out.old) (O.contents out.new) (transcript (machines_of machines) 1 lines)
        × Appends (F.contents faults.old) (F.contents faults.new) (reasons (machines_of machines) 1 lines) }
{
    let spoken = match BufReader::new(rt.alloc(), rt.reader()) {
        Ok(mut input) => converse(rt.alloc(), machines, &mut input, out, faults),
        Err(_) => Err(Failure::Memory),
    };
    match spoken {
        Ok(()) => 0,
        Err(failure) => {
            let _ = tell_failure(failure, faults);
            1
        }
    }
}

/// Does what the words of a command line ask for, those after the program's name, and returns the
/// exit status: 0 where it was done or help was printed, 1 where the input is refused, memory ran
/// out or a write failed, 2 where the words are refused, 3 where a judged record or capture is unsafe, 4 where nothing of a capture
/// is judged.
///
/// What is printed with status 0, 3 or 4 is what the words ask for. With these nothing goes to `faults`, but for why machines refuse
/// lines.
///
/// Where the words can't be had, since one is no text or there is no memory for them, they are
/// refused too.
pub fn run_words<R: Files + Input + AllocGlobal, O: Write, F: Write>(
    rt: &R,
    given: io::Result<Vec<String>>,
    out: &mut O,
    faults: &mut F,
) -> u8
    ensures status { result ≤ 4 }
    ensures refused { result ≡ 2 → Keeps (O.contents out.old) (O.contents out.new) }
    ensures faulty { IfOk given (λ words. result ≡ 2 → AreRefused (all_words (map string_bytes words.items))) }
    ensures unread { IsErr given → result ≡ 2 }
    ensures done { IfOk given (λ words. result ≢ 1 → result ≢ 2
        → Does (all_words (map string_bytes words.items)) (O.contents out.old) (O.contents out.new) (F.contents faults.old)
        (F.contents faults.new) result) }
{
    let Ok(owned) = given else {
        let _ = writeln!(
            faults,
            "error: an argument is no text, or there is no memory for it"
        );
        return REFUSED;
    };
    let Ok(words) = views(rt.alloc(), owned.as_slice()) else {
        let _ = tell_failure(Failure::Memory, faults);
        return 1;
    };
    match asked(rt.alloc(), words.as_slice()) {
        Err(usage) => tell_usage(&usage, out, faults),
        Ok(Asked::Task(task)) => perform_on_file(rt, &task, out, faults),
        Ok(Asked::Clients) => speak(rt, Machines::clients(rt.alloc()), out, faults),
        Ok(Asked::Server) => speak(rt, Machines::server(), out, faults),
    }
}
