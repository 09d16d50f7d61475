ghost use Rattle.std.specs.Prelude.{◌≡◌, ℕ, OnOk, IfOk, MatchBool, drop};
ghost use Rattle.std.specs.List.{Contains};
ghost use Rattle.std.specs.List.Sorted.{IsStrictlyIncreasing};
ghost use Rattle.capture_judge.specs.Searching.{IsFeasible, IsInfeasible, AreFeasible, HasInfeasible, is_overdue};
ghost use Rattle.capture_judge.specs.Searching.{Includes, IncludesAll};

use crate::values::{Chain, Change};
use lease_state::Memory;
use std::alloc::Global;

// Whether the changes can be placed in their order, wherever those of other chains are.
fn is_feasible(changes: &[Change]) -> bool
    ensures { MatchBool result (IsFeasible changes.now) (IsInfeasible changes.now) }
{
    let mut earliest = 0;
    for change in changes {
        if let Some(last) = change.last {
            earliest = earliest.max(change.first);
            if last < earliest {
                return false;
            }
        }
    }
    true
}

pub(crate) fn are_feasible(chains: &[Chain]) -> bool
    ensures { MatchBool result (AreFeasible chains.now) (HasInfeasible chains.now) }
{
    for chain in chains {
        if !is_feasible(chain.changes.as_slice()) {
            return false;
        }
    }
    true
}

// Whether a change that must happen at the position or before it is among those from an index on. Where the changes can be
// placed in their order, those behind one that comes later need no look.
pub(crate) fn is_overdue(changes: &[Change], from: usize, position: u64) -> bool
    ensures { result ≡ is_overdue position (drop from changes.now) }
{
    for i in from..changes.len() {
        let change = changes[i];
        if let Some(last) = change.last {
            if last <= position {
                return true;
            }
            if position < change.first {
                return false;
            }
        }
    }
    false
}

fn push_lasts(positions: &mut Vec<u64>, changes: &[Change]) -> Result<(), Memory>
    ensures { OnOk result (Includes positions.old.items positions.new.items changes.now) }
{
    for change in changes {
        if let Some(last) = change.last {
            positions.push(last)?;
        }
    }
    Ok(())
}

fn sort_once(positions: &mut Vec<u64>)
    ensures rises { IsStrictlyIncreasing positions.new.items }
    ensures keeps { (position : ℕ) → Contains positions.old.items position → Contains positions.new.items position }
{
    positions.sort_unstable();
    positions.dedup();
}

// The last positions of the changes that have one, each once and in order.
pub(crate) fn last_positions(alloc: Global, chains: &[Chain]) -> Result<Vec<u64>, Memory>
    ensures all { IfOk result (λ positions. IncludesAll positions.items chains.now) }
    ensures rises { IfOk result (λ positions. IsStrictlyIncreasing positions.items) }
{
    let mut positions = Vec::new(alloc);
    for chain in chains {
        push_lasts(&mut positions, chain.changes.as_slice())?;
    }
    sort_once(&mut positions);
    Ok(positions)
}
