ghost use Rattle.std.specs.Prelude.{◌≡◌, ◌↔◌, map, IfOk};
ghost use Rattle.std.specs.Iterator.{IsFinite};
ghost use Rattle.std.specs.Iterator.Runs.{WholeRun};
ghost use Rattle.lease_model.specs.records.Safe.{Safe};
ghost use Rattle.lease_model.specs.records.Verdict.{verdict};
ghost use Rattle.lease_laws.specs.records.Verdicts.{Says};
ghost use Rattle.lease_facts.specs.Facts.{fact_of};
ghost use Rattle.lease_facts.specs.Verdicts.{verdict_of, IsVerdictOn};

use crate::judging::Judge;
use lease_facts::{Fact, Verdict};
use lease_state::Memory;
use std::alloc::Global;

/// The verdict on the record of these facts: `Safe` exactly where that record is safe, and else the first bad place, and there
/// `Malformed` or the lowest rule that is broken.
///
/// # Errors
///
/// `Memory` where there is none left for what the judge keeps, or a place has no number of 64 bits.
pub fn judge_each<'a, I: Iterator<Item = &'a Fact>>(
    alloc: Global,
    facts: I,
) -> Result<Verdict, Memory>
    requires can { I.can_next facts }
    requires ends { IsFinite (I.remaining facts) }
    ensures { IfOk result (λ told. WholeRun I.next_gives facts
        (λ run. IsVerdictOn (map (λ fact. fact_of fact.now) run.items) told)) }
{
    let mut judge = Judge::new(alloc);
    for fact in facts {
        judge.add(fact)?;
    }
    Ok(judge.verdict())
}

/// The verdict on a record: `Safe` exactly where it is safe, as that of each run is (`run`), and else the first bad place, and
/// there `Malformed` or the lowest rule that is broken.
///
/// # Errors
///
/// `Memory` where there is none left for what the judge keeps.
pub fn judge(alloc: Global, facts: &[Fact]) -> Result<Verdict, Memory>
    ensures computed { IfOk result (λ told. verdict_of told ≡ verdict (map fact_of facts.now)) }
    ensures safe { IfOk result (λ told. (told ≡ Verdict.Safe) ↔ Safe (map fact_of facts.now)) }
    ensures first_bad { IfOk result (λ told. Says (map fact_of facts.now) (verdict_of told)) }
{
    judge_each(alloc, facts.iter())
}
