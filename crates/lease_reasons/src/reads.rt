ghost use Rattle.std.specs.Prelude.{◌≡◌, ◌||◌, None, ℕ, OnOk, IfOk, MatchOption, ◌==◌, List, if◌then◌else◌, ◌++◌, ◌∷◌, []};
ghost use Rattle.lease_state.specs.Content.{patches};
ghost use Rattle.lease_model.specs.records.Past.{start_of, changes_of, unsettled, last_sending};
ghost use Rattle.lease_model.specs.records.Facts as model;
ghost use Rattle.lease_facts.specs.Facts.{fact_of};
ghost use Rattle.lease_reasons.specs.Places.{past_of};
ghost use Rattle.lease_reasons.specs.Reads.{IsExpected, AreSettled, is_number, unsettled_places, settled_told, is_settled_by};
ghost use Rattle.lease_reasons.specs.Reads.{is_waiting, with_start, with_change, with_write};

use crate::marks::Mark;
use crate::messages::Messages;
use crate::reason::Expected;
use lease_facts::Fact;
use lease_state::{Bytes, ClientNo, FileNo, Memory};
use std::alloc::Global;
use std::collections::HashSet;

// The number of the client's write that a fact settles.
fn settled_told(fact: &Fact, client: ClientNo) -> Option<u64>
    ensures { result ≡ settled_told client.0 (fact_of fact.now) }
{
    match fact {
        Fact::Settled(other, number, _) if *other == client => Some(*number),
        _ => None,
    }
}

fn put_number(numbers: &mut HashSet<u64>, number: u64) -> Result<(), Memory>
    ensures { OnOk result ((n : ℕ) → is_number n numbers.new.keys ≡ (number == n || is_number n numbers.old.keys)) }
{
    numbers.insert(number)?;
    Ok(())
}

fn note_settled(numbers: &mut HashSet<u64>, told: Option<u64>) -> Result<(), Memory>
    ensures { OnOk result ((n : ℕ) → is_number n numbers.new.keys ≡ (is_settled_by n told || is_number n numbers.old.keys)) }
{
    match told {
        Some(number) => put_number(numbers, number),
        None => Ok(()),
    }
}

// The numbers of the client's writes that were settled.
fn settled(alloc: Global, facts: &[Fact], client: ClientNo) -> Result<HashSet<u64>, Memory>
    ensures { IfOk result (λ numbers. AreSettled client.0 (past_of facts.now) numbers.keys) }
{
    let mut numbers = HashSet::new(alloc);
    for fact in facts {
        note_settled(&mut numbers, settled_told(fact, client))?;
    }
    Ok(numbers)
}

fn put_start(bytes: &mut Vec<u8>, fact: &Fact, file: FileNo) -> Result<(), Memory>
    ensures { OnOk result (bytes.new.items ≡ with_start file.0 (fact_of fact.now) bytes.old.items) }
{
    match fact {
        Fact::Start(other, first) if *other == file => {
            *bytes = first.try_copy()?.into_vec();
            Ok(())
        }
        _ => Ok(()),
    }
}

// The bytes with which the file was started.
fn start_of(alloc: Global, facts: &[Fact], file: FileNo) -> Result<Vec<u8>, Memory>
    ensures { IfOk result (λ bytes. bytes.items ≡ start_of file.0 (past_of facts.now)) }
{
    let mut bytes = Vec::new(alloc);
    for fact in facts {
        put_start(&mut bytes, fact, file)?;
    }
    Ok(bytes)
}

fn put_change(bytes: &mut Vec<u8>, fact: &Fact, file: FileNo) -> Result<(), Memory>
    ensures { OnOk result (bytes.new.items ≡ with_change file.0 (fact_of fact.now) bytes.old.items) }
{
    match fact {
        Fact::Changed(other, _, _, change) if *other == file => change.apply(bytes),
        _ => Ok(()),
    }
}

// Puts the changes of the file onto its bytes, in order.
fn put_changes(bytes: &mut Vec<u8>, facts: &[Fact], file: FileNo) -> Result<(), Memory>
    ensures { OnOk result (bytes.new.items ≡ patches bytes.old.items (changes_of file.0 (past_of facts.now))) }
{
    for fact in facts {
        put_change(bytes, fact, file)?;
    }
    Ok(())
}

// Whether a fact gives the client a write of the file that has no answer.
fn is_waiting(fact: &Fact, client: ClientNo, file: FileNo, settled: &HashSet<u64>) -> bool
    ensures { result ≡ is_waiting client.0 file.0 settled.now.keys (fact_of fact.now) }
{
    match fact {
        Fact::Wrote(writer, other, number, _, _) => {
            *writer == client && *other == file && !settled.contains(number)
        }
        _ => false,
    }
}

fn put_write(bytes: &mut Vec<u8>, fact: &Fact, waits: bool) -> Result<(), Memory>
    ensures { OnOk result (bytes.new.items ≡ with_write waits (fact_of fact.now) bytes.old.items) }
{
    match fact {
        Fact::Wrote(_, _, _, write, _) if waits => write.apply(bytes),
        _ => Ok(()),
    }
}

// Puts the client's writes of the file that have no answer onto its bytes, in order.
fn put_writes(
    bytes: &mut Vec<u8>,
    facts: &[Fact],
    client: ClientNo,
    file: FileNo,
    settled: &HashSet<u64>,
) -> Result<(), Memory>
    ensures { OnOk result ((past : List model.Fact) → AreSettled client.0 past settled.now.keys
        → bytes.new.items ≡ patches bytes.old.items (unsettled client.0 file.0 past (past_of facts.now))) }
{
    for fact in facts {
        put_write(bytes, fact, is_waiting(fact, client, file, settled))?;
    }
    Ok(())
}

fn note_place(places: &mut Vec<usize>, place: usize, waits: bool) -> Result<(), Memory>
    ensures { OnOk result (places.new.items ≡ (if waits then places.old.items ++ place ∷ [] else places.old.items)) }
{
    if waits {
        places.push(place)?;
    }
    Ok(())
}

// Where these writes stand.
fn waiting(
    alloc: Global,
    facts: &[Fact],
    client: ClientNo,
    file: FileNo,
    settled: &HashSet<u64>,
) -> Result<Vec<usize>, Memory>
    ensures { IfOk result (λ places. (past : List model.Fact) → AreSettled client.0 past settled.now.keys
        → places.items ≡ unsettled_places client.0 file.0 past (past_of facts.now)) }
{
    let mut places = Vec::new(alloc);
    for (index, fact) in facts.iter().enumerate() {
        note_place(
            &mut places,
            index + 1,
            is_waiting(fact, client, file, settled),
        )?;
    }
    Ok(places)
}

/// What a cached read of the client should give of the file, and why; `None` where it took no message since it joined.
///
/// # Errors
///
/// `Memory` where there is none left for the bytes and what leads to them.
pub fn expected(
    alloc: Global,
    facts: &[Fact],
    client: ClientNo,
    file: FileNo,
) -> Result<Option<Expected>, Memory>
    ensures { IfOk result (λ found. MatchOption found (last_sending client.0 (past_of facts.now) ≡ None)
        (IsExpected client file (past_of facts.now))) }
{
    let messages = Messages::of(alloc, facts, client)?;
    let Some(sent) = messages.last_sent() else {
        return Ok(None);
    };
    let Some(taken) = Mark::Taking(client).last(facts) else {
        return Ok(None);
    };
    let before = &facts[..sent - 1];
    let settled = settled(alloc, facts, client)?;
    let mut bytes = start_of(alloc, facts, file)?;
    put_changes(&mut bytes, before, file)?;
    put_writes(&mut bytes, facts, client, file, &settled)?;
    Ok(Some(Expected {
        taken,
        sent,
        started: Mark::Start(file).last(facts),
        changed: Mark::Change(file).last(before),
        unanswered: waiting(alloc, facts, client, file, &settled)?,
        bytes: Bytes::new(bytes),
    }))
}
