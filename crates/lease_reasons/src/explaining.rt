ghost use Rattle.std.specs.Prelude.{◌≡◌, ◌<◌, ◌+◌, ◌⊎◌, ◌∷◌, true, map, Some, None, IfOk, MatchOption, length, List};
ghost use Rattle.lease_facts.specs.Facts.{fact_of};
ghost use Rattle.lease_model.specs.records.Facts as model;
ghost use Rattle.lease_model.specs.records.Verdict as verdicts;
ghost use Rattle.lease_facts.specs.Verdicts.{verdict_of, rule_number};
ghost use Rattle.lease_facts.specs.declared.verdict.Rule.TheVariants as rule;
ghost use Rattle.lease_reasons.specs.Places.{past_of};
ghost use Rattle.lease_reasons.specs.Reasons.{Told, IsReasonAt, Explains};
ghost use Rattle.lease_reasons.specs.Searches.{late, done, IsReadReason, TellsRead};

use crate::beliefs::two_caches;
use crate::malformed::malformed;
use crate::reads::expected;
use crate::reason::Reason;
use crate::writes::{false_done, late_write};
use lease_client::Settlement;
use lease_facts::{Fact, Rule, Verdict};
use lease_state::{ClientNo, FileNo, Memory};
use std::alloc::Global;

// Why the client's cached read of the file isn't fresh.
fn read_reason(
    alloc: Global,
    facts: &[Fact],
    client: ClientNo,
    file: FileNo,
) -> Result<Reason, Memory>
    ensures { IfOk result (λ told. IsReadReason client file (past_of facts.now) told) }
{
    match expected(alloc, facts, client, file)? {
        None => Ok(Reason::NoMessage { client, file }),
        Some(expected) => Ok(Reason::StaleRead {
            client,
            file,
            expected,
        }),
    }
}

// Why a fact after these is no fresh cached read.
fn stale(alloc: Global, facts: &[Fact], fact: &Fact) -> Result<Option<Reason>, Memory>
    ensures { IfOk result (λ told. TellsRead fact.now (past_of facts.now) told) }
{
    match fact {
        Fact::CachedRead(client, file, _) => {
            let told = read_reason(alloc, facts, *client, *file)?;
            Ok(Some(told))
        }
        _ => Ok(None),
    }
}

// Why a fact after these is a late change.
fn late(facts: &[Fact], fact: &Fact) -> Option<Reason>
    ensures { result ≡ late fact.now (past_of facts.now) }
{
    match fact {
        Fact::Changed(file, client, number, _) => late_write(facts, *client, *file, *number),
        _ => None,
    }
}

// Why a fact after these reports a false done.
fn done(facts: &[Fact], fact: &Fact) -> Option<Reason>
    ensures { result ≡ done fact.now (past_of facts.now) }
{
    match fact {
        Fact::Settled(client, number, Settlement::Done) => {
            Some(false_done(facts, *client, *number))
        }
        _ => None,
    }
}

// Why two cache one file after these facts.
fn cached(alloc: Global, facts: &[Fact]) -> Result<Option<Reason>, Memory>
    ensures { IfOk result (λ told. (fact : model.Fact) → (past : List model.Fact) → past_of facts.now ≡ fact ∷ past
        → verdicts.has_two_caches (fact ∷ past) ≡ true → Told fact past (Some rule.OneWriteCache) told) }
{
    match two_caches(alloc, facts)? {
        None => Ok(None),
        Some((file, rivals)) => Ok(Some(Reason::TwoCaches {
            file,
            writer: rivals.writer,
            other: rivals.other,
        })),
    }
}

// Why the fact at this index breaks the rule.
fn broken(alloc: Global, facts: &[Fact], index: usize, rule: Rule) -> Result<Option<Reason>, Memory>
    requires { index < length facts.now }
    ensures { IfOk result (λ told.
        verdicts.verdict (map fact_of facts.now) ≡ verdicts.Verdict.Unsafe (index + 1) (rule_number rule)
        → IsReasonAt (map fact_of facts.now) (index + 1) (Some rule) told) }
{
    let (past, fact) = (&facts[..index], &facts[index]);
    match rule {
        Rule::OneWriteCache => cached(alloc, &facts[..index + 1]),
        Rule::FreshCachedReads => stale(alloc, past, fact),
        Rule::NoLateWrite => Ok(late(past, fact)),
        Rule::NoFalseDone => Ok(done(past, fact)),
    }
}

// The index of the fact at a place, if there is one.
fn index_of(place: u64, count: usize) -> Option<usize>
    ensures { MatchOption result ((place ≡ 0) ⊎ (count < place)) (λ index. (place ≡ index + 1) × (index < count)) }
{
    if place == 0 || place > count as u64 {
        None
    } else {
        Some((place - 1) as usize)
    }
}

/// Why the verdict on a record is what it is: a reason of its place and its rule, and none where the record is safe.
///
/// # Errors
///
/// `Memory` where there is none left for the search.
pub fn explain(alloc: Global, facts: &[Fact], verdict: &Verdict) -> Result<Option<Reason>, Memory>
    requires { verdict_of verdict.now ≡ verdicts.verdict (map fact_of facts.now) }
    ensures { IfOk result (λ told. Explains (map fact_of facts.now) verdict.now told) }
{
    match verdict {
        Verdict::Safe => Ok(None),
        Verdict::Unsafe { place, rule } => match index_of(*place, facts.len()) {
            None => Ok(None),
            Some(index) => broken(alloc, facts, index, *rule),
        },
        Verdict::Malformed { place } => match index_of(*place, facts.len()) {
            None => Ok(None),
            Some(index) => malformed(alloc, &facts[..index], &facts[index]),
        },
    }
}
