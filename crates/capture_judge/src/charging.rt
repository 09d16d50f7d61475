ghost use Rattle.std.specs.Prelude.{◌≡◌, ◌<◌, length, reverse, IfOk};
ghost use Rattle.capture_judge.specs.Charges.{due_with, IsNextDue, sooner, IsNextStep, GoesOn, IsCharge};
ghost use Rattle.capture_judge.specs.Searching.{AreFeasible};

use crate::values::{Chain, Change, Charge, Step};
use lease_state::Memory;

// The first change of a chain that must happen after where it has come, and the last position at which that and all that must
// happen after it can still happen.
#[derive(Clone, Copy)]
pub(crate) struct Due {
    change: usize,
    position: u64,
}

// With one more change that must happen.
fn due_with(due: Option<Due>, change: usize, last: u64) -> Due
    ensures { result ≡ due_with due change last }
{
    match due {
        Some(due) if due.position <= last => due,
        Some(due) => Due {
            change: due.change,
            position: last,
        },
        None => Due {
            change,
            position: last,
        },
    }
}

fn next_due(changes: &[Change], from: usize) -> Option<Due>
    ensures { IsNextDue changes.now from (length changes.now) result }
{
    let mut due: Option<Due> = None;
    for index in from..changes.len() {
        if let Some(last) = changes[index].last {
            due = Some(due_with(due, index, last));
        }
    }
    due
}

// The one with the lower position.
fn sooner(found: Option<Step>, step: Step) -> Step
    ensures { result ≡ sooner found step }
{
    match found {
        Some(one) if one.position <= step.position => one,
        _ => step,
    }
}

// The step to what must happen next, of all chains.
fn next_step(chains: &[Chain], came: &[usize]) -> Option<Step>
    requires { length came.now ≡ length chains.now }
    ensures { IsNextStep chains.now came.now (length chains.now) result }
{
    let mut found: Option<Step> = None;
    for (index, chain) in chains.iter().enumerate() {
        if let Some(due) = next_due(chain.changes.as_slice(), came[index]) {
            found = Some(sooner(
                found,
                Step {
                    position: due.position,
                    chain: index,
                    change: due.change,
                },
            ));
        }
    }
    found
}

// The charge at a position, with these steps and after them all that must follow.
pub(crate) fn charge_after(
    chains: &[Chain],
    position: u64,
    came: Vec<usize>,
    steps: Vec<Step>,
) -> Result<Charge, Memory>
    requires feasible { AreFeasible chains.now }
    requires goes_on { GoesOn chains.now position came.items (reverse steps.items) }
    ensures { IfOk result (IsCharge chains.now position) }
{
    let mut came = came;
    let mut steps = steps;
    while let Some(step) = next_step(chains, came.as_slice()) {
        came[step.chain] = step.change + 1;
        steps.push(step)?;
    }
    Ok(Charge { position, steps })
}
