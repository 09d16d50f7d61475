ghost use Rattle.std.specs.Prelude.{◌≡◌, ◌⊎◌, ℕ, true, Ok, Err};
ghost use Rattle.std.specs.Prelude.{IfOk, IfErr};
ghost use Rattle.lease_texts.specs.Drafts.{draft_of};
ghost use Rattle.lease_texts.specs.Schedules.{schedule_in};
ghost use Rattle.lease_texts.specs.Pieces.{lines_of};
ghost use Rattle.leasecheck.specs.Idle.{event_lines};
ghost use Rattle.leasecheck.specs.Recording.{facts_told, recorded_text};
ghost use Rattle.leasecheck.specs.Replayed.{Replays, Tells, RefusesReplay, RefusesRun, run_failure};
ghost use Rattle.leasecheck.specs.ReplayedSafe.{ReplaysAreReadBack, ReplaysAreSafe};

use crate::failure::Failure;
use crate::idle::{event_lines, unsaid_is_plain};
use crate::recording::Record;
use crate::refusal::Refusal;
use crate::tasks::Telling;
use lease_state::Rules;
use lease_texts::{Schedule, TextFault, read_schedule};
use lease_world::{Kept, RunFault, run_under};
use std::alloc::Global;
use text_laws::{facts_are_typed, remarks_change_nothing};

pub(crate) fn not_run(fault: RunFault) -> Failure
    ensures { result ≡ run_failure fault }
{
    match fault {
        RunFault::Memory => Failure::Memory,
        RunFault::BadSetup | RunFault::TooMany => Failure::Run(fault),
    }
}

// The record of a run with a server of these rules, with its messages where they are asked for, and with the events that did
// nothing, which stand in these lines, where that is.
fn ran(
    alloc: Global,
    telling: Telling,
    rules: Rules,
    schedule: &Schedule,
    lines: Vec<u64>,
) -> Result<Record, Refusal>
    ensures told { IfOk result (λ ran. Tells telling rules (draft_of schedule.now) lines.items (facts_told ran)) }
    ensures rules { IfOk result (λ ran. ran.rules ≡ rules) }
    ensures refused { RefusesRun (draft_of schedule.now) result }
{
    let kept = Kept {
        messages: telling.messages,
        idle: telling.idle,
        passages: false,
    };
    match run_under(
        alloc,
        rules,
        kept,
        &schedule.setup,
        schedule.events.as_slice(),
    ) {
        Ok(told) => {
            facts_are_typed(told.facts.as_slice());
            Ok(Record {
                facts: told.facts,
                messages: told.messages,
                lines,
                idle: told.idle,
                rules,
            })
        }
        Err(fault) => Err(Refusal::of_run(alloc, not_run(fault), schedule)),
    }
}

// The numbers of the lines that tell events, where they are asked for.
fn lines_asked_for(alloc: Global, telling: Telling, text: &[u8]) -> Result<Vec<u64>, Failure>
    ensures lines { telling.idle ≡ true → IfOk result (λ lines. lines.items ≡ event_lines 1 (lines_of text.now)) }
    ensures failed { IfErr result (λ failure. failure ≡ Failure.Memory) }
{
    if !telling.idle {
        return Ok(Vec::new(alloc));
    }
    match event_lines(alloc, text) {
        Ok(lines) => Ok(lines),
        Err(_) => Err(Failure::Memory),
    }
}

fn schedule_of(alloc: Global, text: &[u8]) -> Result<Schedule, Refusal>
    ensures schedule { IfOk result (λ schedule. schedule_in text.now ≡ Ok (draft_of schedule)) }
    ensures refused { IfErr result (λ told. (told.failure ≡ Failure.Memory)
        ⊎ ((number : ℕ) × (schedule_in text.now ≡ Err number) × (told.failure ≡ Failure.Line number))) }
{
    match read_schedule(alloc, text) {
        Ok(schedule) => Ok(schedule),
        Err(TextFault::Line(number)) => Err(Refusal::of_part(alloc, number, text)),
        Err(TextFault::Memory) => Err(Refusal::bare(Failure::Memory)),
    }
}

/// What is printed of a run, with its messages and the events that did nothing or without them, is read as the record of that
/// run, and the verdict on it is that it is safe. Does nothing.
pub fn replays_are_safe()
    ensures record { ReplaysAreReadBack }
    ensures safe { ReplaysAreSafe }
{
    remarks_change_nothing();
}

/// What `leasecheck replay` prints for the text of a schedule: the record of its run with a server of these rules, with its
/// messages where they are asked for, and the events that did nothing where these are. It is safe, as `replays_are_safe` says,
/// and isn't judged once more.
///
/// # Errors
///
/// `Line` with the number of the first line that is refused, else `Run` where there is no run of
/// the schedule, and `Memory` where there is none left; with what else is said of it.
pub fn replay(
    alloc: Global,
    telling: Telling,
    rules: Rules,
    schedule: &[u8],
) -> Result<Record, Refusal>
    ensures printed { IfOk result (λ ran. Replays telling rules schedule.now (recorded_text ran)) }
    ensures rules { IfOk result (λ ran. ran.rules ≡ rules) }
    ensures refused { RefusesReplay schedule.now result }
{
    unsaid_is_plain();
    replays_are_safe();
    let draft = schedule_of(alloc, schedule)?;
    let lines = lines_asked_for(alloc, telling, schedule)?;
    ran(alloc, telling, rules, &draft, lines)
}
