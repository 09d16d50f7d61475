ghost use Rattle.std.specs.Prelude.{◌≡◌, ◌++◌, OnOk, codes};
ghost use Rattle.std.specs.String.{string_bytes};
ghost use Rattle.std.specs.Option.{option_copied};
ghost use Rattle.record_words.specs.words.ReasonWords.{words_of, place_line, place_line_if, other_line, unanswered_line};
ghost use Rattle.record_words.specs.words.ReasonWords.{waiting_lines};
ghost use Rattle.record_words.specs.words.ReasonWords.{expected_lines, reason_lines};

use crate::words::fact_words::{push_bytes, push_fact_words, push_words};
use crate::words::placed::Placed;
use lease_facts::Fact;
use lease_reasons::{Expected, Reason};
use std::alloc::{AllocError, Global};

const FRESH_READS: &str =
    "rule 2: a cached read gives the file as it stood when the message that the client took last was sent\n";

fn push_fact(alloc: Global, text: &mut String, fact: Option<&Fact>) -> Result<(), AllocError>
    ensures { OnOk result (string_bytes text.new ≡ string_bytes text.old ++ words_of (option_copied fact.entry)) }
{
    match fact {
        None => Ok(()),
        Some(fact) => push_fact_words(alloc, text, fact),
    }
}

/// Adds the line of the fact at a place: its number, the fact, and what it is to the rule.
#[tactic(auto, unfolding(crate::specs::words::ReasonWords::place_line))]
pub fn push_place(
    alloc: Global,
    text: &mut String,
    placed: &Placed,
    place: usize,
    role: &str,
) -> Result<(), AllocError>
    ensures { OnOk result (string_bytes text.new ≡ string_bytes text.old ++ place_line placed.now place role.now) }
{
    let number = placed.line(place);
    write!(text, "line {number}: ")?;
    push_fact(alloc, text, placed.fact(place))?;
    push_words(text, role)?;
    push_words(text, "\n")
}

fn push_place_if(
    alloc: Global,
    text: &mut String,
    placed: &Placed,
    place: Option<usize>,
    role: &str,
) -> Result<(), AllocError>
    ensures { OnOk result (string_bytes text.new ≡ string_bytes text.old ++ place_line_if placed.now place role.now) }
{
    match place {
        None => Ok(()),
        Some(place) => push_place(alloc, text, placed, place, role),
    }
}

// The line of a place that isn't printed already.
fn push_other(
    alloc: Global,
    text: &mut String,
    placed: &Placed,
    told: usize,
    place: usize,
) -> Result<(), AllocError>
    ensures { OnOk result
        (string_bytes text.new ≡ string_bytes text.old ++ other_line placed.now told place (codes ", since here")) }
{
    if place == told {
        return Ok(());
    }
    push_place(alloc, text, placed, place, ", since here")
}

fn push_unanswered(
    alloc: Global,
    text: &mut String,
    placed: &Placed,
    place: usize,
) -> Result<(), AllocError>
    ensures { OnOk result (string_bytes text.new ≡ string_bytes text.old ++ unanswered_line placed.now place) }
{
    push_place(alloc, text, placed, place, ", not answered before the read")
}

#[tactic(auto, unfolding(crate::specs::words::ReasonWords::waiting_lines))]
fn push_waiting(
    alloc: Global,
    text: &mut String,
    placed: &Placed,
    places: &[usize],
) -> Result<(), AllocError>
    ensures { OnOk result (string_bytes text.new ≡ string_bytes text.old ++ waiting_lines placed.now places.now) }
{
    for place in places {
        push_unanswered(alloc, text, placed, *place)?;
    }
    Ok(())
}

// What a cached read should have given, and since which facts.
fn push_expected(
    alloc: Global,
    text: &mut String,
    placed: &Placed,
    expected: &Expected,
) -> Result<(), AllocError>
    ensures { OnOk result (string_bytes text.new ≡ string_bytes text.old ++ expected_lines placed.now expected.now) }
{
    push_words(text, "it should read ")?;
    push_bytes(alloc, text, expected.bytes.as_slice())?;
    push_words(text, "\n")?;
    push_place(
        alloc,
        text,
        placed,
        expected.taken,
        ", its last before the read",
    )?;
    push_place(
        alloc,
        text,
        placed,
        expected.sent,
        ", the one that it takes last",
    )?;
    push_place_if(alloc, text, placed, expected.started, ", as it begins")?;
    push_place_if(
        alloc,
        text,
        placed,
        expected.changed,
        ", its last change before that message is sent",
    )?;
    push_waiting(alloc, text, placed, expected.unanswered.as_slice())
}

/// Adds the lines after that of the fact that is printed already: those that make it bad.
pub fn push_reason(
    alloc: Global,
    text: &mut String,
    placed: &Placed,
    told: usize,
    reason: &Reason,
) -> Result<(), AllocError>
    ensures { OnOk result (string_bytes text.new ≡ string_bytes text.old ++ reason_lines placed.now told reason.now) }
{
    match reason {
        Reason::NotStarted { file } => {
            let file = file.0;
            writeln!(text, "file {file} isn't started before that")
        }
        Reason::StartedAgain { before, .. } => {
            push_place(alloc, text, placed, *before, ", before that")
        }
        Reason::PastLimit { end } => {
            writeln!(
                text,
                "that ends at {end}, and a file holds at most 1048576 bytes"
            )
        }
        Reason::NumberUsed { before, .. } => {
            push_place(alloc, text, placed, *before, ", which has the number")
        }
        Reason::NotJoined { client } => {
            let client = client.0;
            writeln!(text, "client {client} hasn't joined before that")
        }
        Reason::NothingToTake { joined, sent, .. } => {
            push_place(
                alloc,
                text,
                placed,
                *joined,
                ", for the last time before that",
            )?;
            writeln!(text, "messages sent to it since, all of them taken: {sent}")
        }
        Reason::TwoCaches { writer, other, .. } => {
            push_other(alloc, text, placed, told, writer.place)?;
            push_other(alloc, text, placed, told, other.place)?;
            push_words(
                text,
                "rule 1: while one client may cache writes of a file, no other caches anything of it\n",
            )
        }
        Reason::NoMessage { client, .. } => {
            let client = client.0;
            writeln!(text, "client {client} has taken no message since it joined")?;
            push_words(text, FRESH_READS)
        }
        Reason::StaleRead { expected, .. } => {
            push_expected(alloc, text, placed, expected)?;
            push_words(text, FRESH_READS)
        }
        Reason::LateWrite { wrote, touched, .. } => {
            push_place(alloc, text, placed, *wrote, ", the write")?;
            push_place(
                alloc,
                text,
                placed,
                *touched,
                ", before that write changes it",
            )?;
            push_words(
                text,
                "rule 3: a buffered write changes its file before another client opens or changes it\n",
            )
        }
        Reason::FalseDone { wrote, changed, .. } => {
            push_place_if(alloc, text, placed, *wrote, ", the write")?;
            push_place_if(
                alloc,
                text,
                placed,
                *changed,
                ", which isn't that write after its line",
            )?;
            push_words(
                text,
                "rule 4: a write is settled as done only if it changed its file\n",
            )
        }
    }
}
