ghost use Rattle.std.specs.Prelude.{◌≡◌, ℕ, true, if◌then◌else◌, ◌==◌, OnOk};
ghost use Rattle.lease_world.specs.judge.Seen.{no_numbers, is_among, is_by};

use lease_state::Memory;
use std::alloc::Global;
use std::collections::BTreeSet;
use std::marker::Model;

// Fewer numbers than this may be left out before one that still stands in the list.
const GAP: usize = 64;

/// A set of numbers of writes. Those of a client machine have 1, 2, 3 and so on; whoever writes a record may choose any.
// docs/DECISIONS.md: "Numbers of writes aren't hashed".
#[derive(Debug, Drop)]
pub struct Numbers {
    /// Whether each number from 0 on is in it.
    first: Vec<bool>,
    rest: BTreeSet<u64>,
}

impl Model for Numbers {
    ghost use Rattle.lease_world.specs.judge.Seen as seen;

    ghost Value = { seen.Numbers };

    ghost view = { λ numbers. record { first = numbers.first.items; rest = numbers.rest.keys } };
}

impl Numbers {
    /// No number. Allocates nothing.
    pub fn new(alloc: Global) -> Numbers
        ensures { result ≡ no_numbers }
    {
        Numbers {
            first: Vec::new(alloc),
            rest: BTreeSet::new(alloc),
        }
    }

    /// Whether the number is one of them.
    #[tactic(auto, unfolding(crate::specs::judge::Seen::is_among))]
    pub fn contains(&self, number: u64) -> bool
        ensures { result ≡ is_among number self.now }
    {
        match self.first.get(number as usize) {
            Some(true) => true,
            _ => self.rest.contains(&number),
        }
    }

    /// The number is one of them from now on.
    ///
    /// # Errors
    ///
    /// `Memory` where there is none left for it.
    #[tactic(auto, unfolding(crate::specs::judge::Seen::is_among))]
    pub fn insert(&mut self, number: u64) -> Result<(), Memory>
        ensures { OnOk result ((n : ℕ) → is_among n self.new
            ≡ (if n == number then true else is_among n self.old)) }
    {
        let place = number as usize;
        let count = self.first.len();
        if place < count {
            self.first[place] = true;
        } else if place - count < GAP {
            self.first.resize(place, false)?;
            self.first.push(true)?;
        } else {
            put_number(&mut self.rest, number)?;
        }
        Ok(())
    }
}

fn put_number(numbers: &mut BTreeSet<u64>, number: u64) -> Result<(), Memory>
    ensures { OnOk result ((n : ℕ) → is_by n numbers.new.keys
        ≡ (if n == number then true else is_by n numbers.old.keys)) }
{
    numbers.insert(number)?;
    Ok(())
}
