ghost use Rattle.std.specs.Prelude.{◌≡◌, ◌↔◌, List, [], IfOk, OnErr, OnOk};
ghost use Rattle.lease_model.specs.records.Facts as model;
ghost use Rattle.lease_model.specs.records.Safe.{Safe};
ghost use Rattle.lease_model.specs.records.Verdict.{verdict};
ghost use Rattle.lease_laws.specs.records.Verdicts.{Says};
ghost use Rattle.lease_facts.specs.Facts.{fact_of};
ghost use Rattle.lease_facts.specs.Verdicts.{verdict_of};
ghost use Rattle.lease_world.specs.judge.Judged.{HasJudged, JudgesOneMore};

use crate::judging::known::Known;
use lease_facts::{Fact, Verdict};
use lease_state::Memory;
use std::alloc::Global;
use std::marker::Model;

mod cache;
mod caches;
mod client;
mod clients;
mod covers;
mod file;
mod files;
mod holders;
mod known;
mod marks;
mod numbers;
mod snapshot;
mod writes;

/// Judges a record (profile), of any origin, in one pass: it is given fact after fact, and can give
/// a verdict on the facts so far at any time. For each file it keeps the bytes with which it was
/// started, its changes and how many good clients may cache something of it, for each client its
/// beliefs, its writes, the numbers that were settled and the messages on their way, and for each
/// client and file that the client read from its cache the file as it stood and the writes over it.
// docs/DECISIONS.md: "How a judge's time and memory grow".
#[derive(Debug, Drop)]
pub struct Judge {
    verdict: Verdict,
    /// How many facts were taken.
    count: u64,
    known: Known,
}

impl Model for Judge {
    ghost use Rattle.lease_world.specs.judge.Judged as judged;

    ghost Value = { judged.Judging };

    ghost view = { λ judge. record {
      verdict = judge.verdict;
      count = judge.count;
      known = judge.known;
    } };
}

impl Judge {
    /// A judge that was given nothing. Allocates nothing.
    pub fn new(alloc: Global) -> Judge
        ensures { HasJudged result [] }
    {
        Judge {
            verdict: Verdict::Safe,
            count: 0,
            known: Known::new(alloc),
        }
    }

    /// The judge after the next fact of the record.
    ///
    /// # Errors
    ///
    /// `Memory` where there is none left for what is kept, or no number of 64 bits for the fact's place.
    // docs/DECISIONS.md: "Memory means a refused allocation".
    pub fn take(self, fact: &Fact) -> Result<Judge, Memory>
        ensures { IfOk result (λ judge. JudgesOneMore self (fact_of fact.now) judge) }
    {
        let mut judge = self;
        judge.add(fact)?;
        Ok(judge)
    }

    /// Takes the next fact of the record, in place.
    ///
    /// # Errors
    ///
    /// Those of `take`. The judge has forgotten all facts then, as a new one.
    // docs/DECISIONS.md: "A judge takes a fact in two ways".
    #[inline(always)]
    pub fn add(&mut self, fact: &Fact) -> Result<(), Memory>
        ensures judged { OnOk result (JudgesOneMore self.old (fact_of fact.now) self.new) }
        ensures forgotten { OnErr result (HasJudged self.new []) }
    {
        match self.add_next(fact) {
            Ok(()) => Ok(()),
            Err(fault) => {
                let alloc = self.known.alloc();
                *self = Judge::new(alloc);
                Err(fault)
            }
        }
    }

    #[inline(always)]
    fn add_next(&mut self, fact: &Fact) -> Result<(), Memory>
        ensures { OnOk result (JudgesOneMore self.old (fact_of fact.now) self.new) }
    {
        let Judge {
            verdict,
            count,
            known,
        } = self;
        if *verdict != Verdict::Safe {
            return Ok(());
        }
        let place = count.checked_add(1).ok_or(Memory)?;
        *verdict = known.add(place, fact)?;
        *count = place;
        Ok(())
    }

    /// The verdict on the record of the facts so far: `Safe` exactly where that record is safe, and else the first bad place,
    /// and there `Malformed` or the lowest rule that is broken.
    pub fn verdict(&self) -> Verdict
        ensures computed { (facts : List model.Fact) → HasJudged self.now facts → verdict_of result ≡ verdict facts }
        ensures safe { (facts : List model.Fact) → HasJudged self.now facts → (result ≡ Verdict.Safe) ↔ Safe facts }
        ensures first_bad { (facts : List model.Fact) → HasJudged self.now facts → Says facts (verdict_of result) }
    {
        self.verdict
    }
}
