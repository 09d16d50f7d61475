ghost use Rattle.std.specs.Prelude.{◌≡◌, ◌⊎◌, ◌++◌, ◌∷◌, [], ◌+◌, ℕ, Some, None, MatchResult, OnOk, if◌then◌else◌, ◌-◌};
ghost use Rattle.std.specs.Prelude.{slice_get};
ghost use Rattle.std.specs.Option.{option_copied};
ghost use Rattle.lease_texts.specs.Reading.{is_passed_over};
ghost use Rattle.lease_texts.specs.Records.{fact_in, with_line};
ghost use Rattle.record_words.specs.words.Placed.{IsPlaced, RefusesRecord, line_number};

use lease_facts::Fact;
use lease_texts::{LineFault, TextFault, first_line, is_passed_over, read_fact};
use std::alloc::Global;

/// The facts of a record, and the number of the line in which each stands. Lines count from 1, and
/// those that hold no fact count too.
#[derive(Debug, Drop)]
pub struct Placed {
    pub facts: Vec<Fact>,
    pub lines: Vec<u64>,
}

impl Placed {
    // Adds the fact of the line of this number.
    #[tactic(auto, unfolding(lease_texts::specs::Records::with_line, lease_texts::specs::Records::with_fact))]
    fn add(&mut self, alloc: Global, line: &[u8], number: u64) -> Result<(), LineFault>
        ensures added { MatchResult result (λ _. with_line self.old.facts.items line.now ≡ Some self.new.facts.items)
            (λ fault. fault ≡ LineFault.Refused → with_line self.old.facts.items line.now ≡ None) }
        ensures placed { OnOk result (self.new.lines.items
            ≡ (if is_passed_over line.now then self.old.lines.items else self.old.lines.items ++ number ∷ [])) }
    {
        if is_passed_over(line) {
            return Ok(());
        }
        let fact = read_fact(alloc, line)?;
        self.facts.push(fact)?;
        self.lines.push(number)?;
        Ok(())
    }

    /// The fact at this place, if there is one.
    pub fn fact(&self, place: usize) -> Option<&Fact>
        ensures { option_copied result ≡ slice_get self.now.facts.items (place - 1) }
    {
        self.facts.get(place.saturating_sub(1))
    }

    /// The number of the line of the fact at this place.
    pub fn line(&self, place: usize) -> u64
        ensures { result ≡ line_number self.now.lines.items place }
    {
        self.lines
            .get(place.saturating_sub(1))
            .copied()
            .unwrap_or(0)
    }
}

/// The facts of a record, with their lines.
///
/// # Errors
///
/// `Line` with the number of the first line that is refused, and `Memory` where there is none left.
#[tactic(auto, unfolding(lease_texts::specs::Reading::reads_on, crate::specs::words::Placed::fact_lines))]
pub fn read_placed(alloc: Global, text: &[u8]) -> Result<Placed, TextFault>
    ensures { MatchResult result (IsPlaced text.now) (λ fault. (fault ≡ TextFault.Memory) ⊎ RefusesRecord text.now fault) }
{
    let mut placed = Placed {
        facts: Vec::new(alloc),
        lines: Vec::new(alloc),
    };
    let mut rest = text;
    let mut number = 0u64;
    while !rest.is_empty() {
        let (line, behind) = first_line(rest);
        number += 1;
        match placed.add(alloc, line, number) {
            Ok(()) => rest = behind,
            Err(LineFault::Refused) => return Err(TextFault::Line(number)),
            Err(LineFault::Memory) => return Err(TextFault::Memory),
        }
    }
    Ok(placed)
}
