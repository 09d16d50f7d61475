ghost use Rattle.std.specs.Prelude.{◌≡◌, ◌∷◌, List, None, Some, nat_lt, if◌then◌else◌, reverse, replicate, length, slice_get, IfOk};
ghost use Rattle.capture_judge.specs.Placing.{height};
ghost use Rattle.capture_judge.specs.Levels.{AreLevels, HaveCome, IsHighest, level_by};
ghost use Rattle.capture_judge.specs.declared.values.Chain.{Chain};
ghost use Rattle.capture_judge.specs.declared.values.Step.{Step};

use crate::values::{Chain, Level, Step};
use lease_state::Memory;
use std::alloc::Global;

fn higher(one: Level, other: Level) -> Level
    ensures { height result ≡ (if nat_lt (height one) (height other) then height other else height one) }
{
    match (one, other) {
        (Level::Writes, _) | (_, Level::Nothing) => one,
        (Level::Something, Level::Something) => one,
        _ => other,
    }
}

// The level of a chain whose change was placed last.
fn level_by(chain: &Chain, last: Option<usize>) -> Level
    ensures { height result ≡ level_by chain.now last }
{
    let Some(change) = last else {
        return Level::Nothing;
    };
    match chain.changes.as_slice().get(change) {
        Some(change) => change.level,
        None => Level::Nothing,
    }
}

// The highest level of a client's chains.
fn highest(chains: &[Chain], came: &[Option<usize>], client: u64) -> Level
    requires { length came.now ≡ length chains.now }
    ensures { IsHighest chains.now came.now client (length chains.now) (height result) }
{
    let mut level = Level::Nothing;
    for (index, chain) in chains.iter().enumerate() {
        if chain.client == client {
            level = higher(level, level_by(chain, came[index]));
        }
    }
    level
}

fn start(alloc: Global, count: usize) -> Result<Vec<Option<usize>>, Memory>
    ensures { IfOk result (λ came. came.items ≡ replicate count None) }
{
    let mut came = Vec::new(alloc);
    for _i in 0..count {
        came.push(None)?;
    }
    Ok(came)
}

// Takes note of a step.
fn note_step(came: &mut Vec<Option<usize>>, step: Step)
    ensures { (chains : List Chain) (past : List Step) → HaveCome chains past came.old.items
        → HaveCome chains (step ∷ past) came.new.items }
{
    if step.chain < came.len() {
        came[step.chain] = Some(step.change);
    }
}

// What a step's client caches after it.
fn level_after(chains: &[Chain], came: &[Option<usize>], step: Step) -> Level
    requires { length came.now ≡ length chains.now }
    ensures { (chain : Chain) → slice_get chains.now step.chain ≡ Some chain
        → IsHighest chains.now came.now chain.client (length chains.now) (height result) }
{
    match chains.get(step.chain) {
        Some(chain) => highest(chains, came, chain.client),
        None => Level::Nothing,
    }
}

/// What the client of each step caches after it, whichever of its chains lets it: one level for each step, in their order. The
/// steps are those of a placement of the chains; a step of no chain counts as one after which nothing is cached.
///
/// # Errors
///
/// `Memory` where there is none left.
pub fn levels_after(alloc: Global, chains: &[Chain], steps: &[Step]) -> Result<Vec<Level>, Memory>
    ensures levels { IfOk result (λ levels. AreLevels chains.now (reverse steps.now) (reverse levels.items)) }
    ensures count { IfOk result (λ levels. length levels.items ≡ length steps.now) }
{
    let mut came = start(alloc, chains.len())?;
    let mut levels = Vec::new(alloc);
    for step in steps {
        note_step(&mut came, *step);
        levels.push(level_after(chains, came.as_slice(), *step))?;
    }
    Ok(levels)
}
