ghost use Rattle.std.specs.Prelude.{◌≡◌, ◌++◌, ℕ, List, map, OnOk};
ghost use Rattle.std.specs.List.{flat_map};
ghost use Rattle.std.specs.String.{string_bytes};
ghost use Rattle.lease_facts.specs.Facts.{fact_of};
ghost use Rattle.lease_model.specs.records.Verdict as verdicts;
ghost use Rattle.lease_facts.specs.Verdicts.{verdict_of};
ghost use Rattle.record_words.specs.words.Explained.{unjoined_line, strayed_line, count_line, extent_lines, bad_place};
ghost use Rattle.record_words.specs.words.Explained.{lines_behind};
ghost use Rattle.record_words.specs.words.Explained.{bad_lines, IsExplained};

use crate::words::placed::Placed;
use crate::words::reason_words::{push_place, push_reason};
use lease_facts::Verdict;
use lease_reasons::{Extent, Reason, explain, extent_of};
use lease_state::{ClientNo, Memory};
use std::alloc::{AllocError, Global};

fn push_unjoined(text: &mut String, clients: &[ClientNo]) -> Result<(), AllocError>
    ensures { OnOk result (string_bytes text.new ≡ string_bytes text.old ++ flat_map unjoined_line clients.now) }
{
    for client in clients {
        let client = client.0;
        writeln!(
            text,
            "client {client} hasn't joined: its caches and cached reads aren't judged"
        )?;
    }
    Ok(())
}

fn push_strayed(text: &mut String, clients: &[ClientNo]) -> Result<(), AllocError>
    ensures { OnOk result (string_bytes text.new ≡ string_bytes text.old ++ flat_map strayed_line clients.now) }
{
    for client in clients {
        let client = client.0;
        writeln!(
            text,
            "client {client} has strayed, so nothing of it is judged"
        )?;
    }
    Ok(())
}

fn push_count(text: &mut String, facts: usize, clients: usize) -> Result<(), AllocError>
    ensures { OnOk result (string_bytes text.new ≡ string_bytes text.old ++ count_line facts clients) }
{
    let some = if facts == 1 { "fact" } else { "facts" };
    let those = if clients == 1 { "client" } else { "clients" };
    writeln!(text, "judged: {facts} {some} of {clients} {those}")
}

fn push_extent(text: &mut String, extent: &Extent) -> Result<(), AllocError>
    ensures { OnOk result (string_bytes text.new ≡ string_bytes text.old ++ extent_lines extent.now) }
{
    push_count(text, extent.facts, extent.clients.len())?;
    push_unjoined(text, extent.unjoined.as_slice())?;
    push_strayed(text, extent.strayed.as_slice())
}

/// The place of a bad fact.
pub fn bad_place(verdict: &Verdict) -> Option<usize>
    ensures { result ≡ bad_place verdict.now }
{
    match verdict {
        Verdict::Safe => None,
        Verdict::Unsafe { place, .. } | Verdict::Malformed { place } => Some(*place as usize),
    }
}

fn push_behind(
    alloc: Global,
    text: &mut String,
    placed: &Placed,
    place: usize,
    reason: &Option<Reason>,
) -> Result<(), AllocError>
    ensures { OnOk result (string_bytes text.new ≡ string_bytes text.old ++ lines_behind placed.now place reason.now) }
{
    match reason {
        None => Ok(()),
        Some(reason) => push_reason(alloc, text, placed, place, reason),
    }
}

fn push_bad(
    alloc: Global,
    text: &mut String,
    placed: &Placed,
    place: Option<usize>,
    reason: &Option<Reason>,
) -> Result<(), AllocError>
    ensures { OnOk result (string_bytes text.new ≡ string_bytes text.old ++ bad_lines placed.now place reason.now) }
{
    let Some(place) = place else {
        return Ok(());
    };
    push_place(alloc, text, placed, place, "")?;
    push_behind(alloc, text, placed, place, reason)
}

/// Adds why the verdict on a record is what it is, by a reason that was found, and how much was judged.
pub fn push_reasoned(
    alloc: Global,
    text: &mut String,
    placed: &Placed,
    verdict: &Verdict,
    reason: &Option<Reason>,
    extent: &Extent,
) -> Result<(), AllocError>
    ensures { OnOk result (string_bytes text.new ≡ string_bytes text.old
        ++ (bad_lines placed.now (bad_place verdict.now) reason.now ++ extent_lines extent.now)) }
{
    push_bad(alloc, text, placed, bad_place(verdict), reason)?;
    push_extent(text, extent)
}

/// Adds why the verdict on a record is what it is.
///
/// # Errors
///
/// `Memory` where there is none left for the search or the text.
pub fn push_explanation(
    alloc: Global,
    text: &mut String,
    placed: &Placed,
    verdict: &Verdict,
) -> Result<(), Memory>
    requires { verdict_of verdict.now ≡ verdicts.verdict (map fact_of placed.now.facts.items) }
    ensures { OnOk result ((explanation : List ℕ) × IsExplained placed.now verdict.now explanation
        × (string_bytes text.new ≡ string_bytes text.old ++ explanation)) }
{
    let facts = placed.facts.as_slice();
    let reason = explain(alloc, facts, verdict)?;
    let extent = extent_of(alloc, facts, verdict)?;
    push_reasoned(alloc, text, placed, verdict, &reason, &extent)?;
    Ok(())
}
