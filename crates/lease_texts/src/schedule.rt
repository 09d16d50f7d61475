//! Whole schedules: the setup of a run, and its events.

ghost use Rattle.std.specs.Prelude.{◌≡◌, ◌⊎◌, ◌+◌, ◌++◌, Some, None, Ok, Err, [], MatchResult, OnOk};
ghost use Rattle.std.specs.{List.flat_map, String.string_bytes};
ghost use Rattle.lease_texts.specs.{Drafts.draft_of, Drafts.RefusesLine, Reading.is_passed_over};
ghost use Rattle.lease_texts.specs.Schedules.{part_line, setup_lines, with_part, with_line, schedule_in};

use crate::fault::{LineFault, TextFault};
use crate::lines::{first_line, is_passed_over};
use crate::parts::{Part, read_part};
use crate::said::line;
use lease_facts::{Event, Setup};
use lease_state::Content;
use std::alloc::{AllocError, Global};

/// What a schedule asks for: a setup, and what happens in it.
#[derive(Debug, Drop)]
pub struct Schedule {
    pub setup: Setup,
    pub events: Vec<Event>,
}

impl Schedule {
    fn new(alloc: Global) -> Schedule
        ensures { draft_of result ≡ record { files = []; clients = []; events = [] } }
    {
        let (files, clients, events) = (Vec::new(alloc), Vec::new(alloc), Vec::new(alloc));
        let setup = Setup { files, clients };
        Schedule { setup, events }
    }

    // Files and clients stand before the first event.
    #[tactic(auto, unfolding(crate::specs::Schedules::with_part))]
    fn add(&mut self, part: Part) -> Result<(), LineFault>
        ensures added { MatchResult result (λ _. with_part (draft_of self.old) (Some part) ≡ Some (draft_of self.new))
            (λ fault. fault ≡ LineFault.Refused → with_part (draft_of self.old) (Some part) ≡ None) }
        ensures refused { with_part (draft_of self.old) (Some part) ≡ None → result ≡ Err LineFault.Refused }
    {
        match part {
            Part::Happens(event) => self.events.push(event)?,
            _ if !self.events.is_empty() => return Err(LineFault::Refused),
            Part::File(content) => self.setup.files.push(content)?,
            Part::Client(guid) => self.setup.clients.push(guid)?,
        }
        Ok(())
    }

    #[tactic(auto, unfolding(crate::specs::Schedules::with_line, crate::specs::Schedules::with_part))]
    fn add_line(&mut self, alloc: Global, line: &[u8]) -> Result<(), LineFault>
        ensures { MatchResult result (λ _. with_line (draft_of self.old) line.now ≡ Some (draft_of self.new))
            (λ fault. fault ≡ LineFault.Refused → with_line (draft_of self.old) line.now ≡ None) }
    {
        if is_passed_over(line) {
            return Ok(());
        }
        let part = read_part(alloc, line)?;
        self.add(part)
    }
}

/// The schedule that a text is.
///
/// # Errors
///
/// `Line` with the number of the first line that is refused, and `Memory` where there is none left.
#[tactic(auto, unfolding(crate::specs::Reading::reads_on))]
pub fn read_schedule(alloc: Global, text: &[u8]) -> Result<Schedule, TextFault>
    ensures { MatchResult result (λ schedule. schedule_in text.now ≡ Ok (draft_of schedule))
        (λ fault. (fault ≡ TextFault.Memory) ⊎ RefusesLine (schedule_in text.now) fault) }
{
    let mut schedule = Schedule::new(alloc);
    let mut rest = text;
    let mut number = 0u64;
    while !rest.is_empty() {
        let (line, behind) = first_line(rest);
        number += 1;
        match schedule.add_line(alloc, line) {
            Ok(()) => rest = behind,
            Err(LineFault::Refused) => return Err(TextFault::Line(number)),
            Err(LineFault::Memory) => return Err(TextFault::Memory),
        }
    }
    Ok(schedule)
}

fn push_files(text: &mut String, files: &[Content]) -> Result<(), AllocError>
    ensures { OnOk result (string_bytes text.new
        ≡ string_bytes text.old ++ flat_map (λ content. part_line (Part.File content)) files.now) }
{
    for content in files {
        line!(text, "file", Content: content.bytes())?;
    }
    Ok(())
}

fn push_clients(text: &mut String, guids: &[[u8; 16]]) -> Result<(), AllocError>
    ensures { OnOk result (string_bytes text.new
        ≡ string_bytes text.old ++ flat_map (λ guid. part_line (Part.Client guid)) guids.now) }
{
    for guid in guids {
        line!(text, "client", Guid: guid)?;
    }
    Ok(())
}

/// Adds the lines of a setup: those of its files, then those of its clients.
pub fn push_setup(text: &mut String, setup: &Setup) -> Result<(), AllocError>
    ensures { OnOk result (string_bytes text.new
        ≡ string_bytes text.old ++ setup_lines setup.now.files.items setup.now.clients.items) }
{
    push_files(text, setup.files.as_slice())?;
    push_clients(text, setup.clients.as_slice())
}
