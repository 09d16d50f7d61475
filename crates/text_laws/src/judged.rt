ghost use Rattle.std.specs.Prelude.{◌≡◌, ◌↔◌, ◌++◌, true, false, map, Err, IfOk};
ghost use Rattle.lease_model.specs.world.{Allowed.is_allowed_setup, Allowed.are_too_many, Events.recorded_under};
ghost use Rattle.lease_facts.specs.{Facts.fact_of, Setups.setup_of, Setups.event_of};
ghost use Rattle.lease_texts.specs.{Records.record_text, Remarks.safe_end};
ghost use Rattle.text_laws.specs.Runs.{IsJudgedSafe};

use crate::reading_back::runs_are_read_back;
use crate::typing::facts_are_typed;
use lease_state::Rules;
use lease_world::{Event, Fact, Kept, RunFault, Setup, run_under};
use std::alloc::Global;

/// What a replay prints of a run with a server of these rules, its record and that it is safe, is the text of a record, and the
/// verdict on that is that it is safe. Reads the facts, and does nothing with them.
pub fn replays_are_judged_safe(rules: Rules, setup: &Setup, events: &[Event], facts: &[Fact])
    requires allowed { is_allowed_setup (setup_of setup.now) ≡ true }
    requires record { map fact_of facts.now ≡ recorded_under rules (setup_of setup.now) (map event_of events.now) }
    ensures safe { IsJudgedSafe (record_text facts.now ++ safe_end rules) }
{
    runs_are_read_back();
    facts_are_typed(facts);
}

/// The record of a run with a server of these rules, as `run_under` gives it, and of which what a replay prints is judged to be
/// safe.
///
/// # Errors
///
/// `BadSetup` exactly where the setup breaks its limits, else `TooMany` exactly where there are too many events, else
/// `Memory` where there is none left.
pub fn judged_run(
    alloc: Global,
    rules: Rules,
    setup: &Setup,
    events: &[Event],
) -> Result<Vec<Fact>, RunFault>
    ensures bad_setup { (result ≡ Err RunFault.BadSetup) ↔ (is_allowed_setup (setup_of setup.now) ≡ false) }
    ensures too_many { (result ≡ Err RunFault.TooMany)
        ↔ ((is_allowed_setup (setup_of setup.now) ≡ true) × (are_too_many (map event_of events.now) ≡ true)) }
    ensures record { IfOk result (λ facts. map fact_of facts.items
        ≡ recorded_under rules (setup_of setup.now) (map event_of events.now)) }
    ensures safe { IfOk result (λ facts. IsJudgedSafe (record_text facts.items ++ safe_end rules)) }
{
    let told = run_under(alloc, rules, Kept::nothing(), setup, events)?;
    replays_are_judged_safe(rules, setup, events, told.facts.as_slice());
    Ok(told.facts)
}
