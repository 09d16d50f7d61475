ghost use Rattle.std.specs.Prelude.{◌≡◌, ℕ, suc, IfOk, IfSome, OnOk};
ghost use Rattle.std.specs.List.{list_any};
ghost use Rattle.lease_model.specs.server.Attempt as rules;
ghost use Rattle.lease_model.specs.server.Ready as ready;
ghost use Rattle.lease_state.specs.State.{state_of};
ghost use Rattle.lease_manager.specs.Ending.{EndsMore, ids_in};
ghost use Rattle.lease_manager.specs.Findings.{outcome_of, file_ready, goes_on};
ghost use Rattle.lease_manager.specs.Leases.{lease_of};
ghost use Rattle.lease_manager.specs.Wishes.{broken_so};
ghost use Rattle.lease_manager.specs.OneFile.{IsAbout};
ghost use Rattle.lease_manager.specs.Outs.{progress_of};
ghost use Rattle.lease_manager.specs.Passing.{is_waiting};
ghost use Rattle.lease_manager.specs.Requests.{request_like};
ghost use Rattle.lease_manager.specs.Table.{server_of};

use crate::ended::Ended;
use crate::outs::Outs;
use crate::requests::finding::Finding;
use crate::tables::Tables;
use crate::values::closing::Closing;
use crate::values::key::LeaseName;
use crate::values::lease::HeldLease;
use crate::values::number::{ClientNo, FileNo};
use crate::values::request::Ask;
use crate::values::want::Want;
use lease_state::{LeaseState, Memory, Status};

/// How many rounds a try takes at most: one may break handles, one writes, and the last finds nothing
/// more.
// docs/DECISIONS.md: "A try or a pass ends when nothing is left to do".
const ROUNDS: u8 = 3;

/// How a try of a request ends.
#[derive(Clone, Copy, Debug)]
pub enum Outcome {
    Refused(Status),
    /// For an acknowledgment of a break.
    Waits,
    /// To be answered, on this file.
    Ready(FileNo),
}

impl Outcome {
    /// Whether the request has to wait.
    pub fn waits(self) -> bool
        ensures { result ≡ is_waiting (outcome_of self) }
    {
        match self {
            Outcome::Waits => true,
            Outcome::Refused(_) | Outcome::Ready(_) => false,
        }
    }
}

/// Tries a request: in rounds, each of which breaks what the request wants, until it is ready,
/// refused, or has to wait.
pub fn attempt(
    tables: &mut Tables,
    outs: &mut Outs,
    ended: &mut Ended,
    client: ClientNo,
    ask: Ask,
) -> Result<Outcome, Memory>
    ensures ended { IfOk result (λ outcome. rules.ended (progress_of tables.new outs.new) (outcome_of outcome)
        ≡ rules.tried client.0 (request_like ask) (progress_of tables.old outs.old)) }
    ensures about { IfOk result (λ outcome. IfSome (file_ready outcome)
        (λ file. IsAbout (server_of tables.new) file client.0 (request_like ask))) }
    ensures queues { OnOk result (tables.new.queues ≡ tables.old.queues) }
    ensures ends { OnOk result (EndsMore (server_of tables.old).opens (ids_in ended.old)
        (server_of tables.new).opens (ids_in ended.new)) }
{
    for _round in 0..ROUNDS {
        if let Some(outcome) = round(tables, outs, ended, client, ask)? {
            return Ok(outcome);
        }
    }
    Ok(Outcome::Waits)
}

// One round; none of the outcomes where another round is due.
// docs/DECISIONS.md: "Wants are found before disconnected opens are closed".
fn round(
    tables: &mut Tables,
    outs: &mut Outs,
    ended: &mut Ended,
    client: ClientNo,
    ask: Ask,
) -> Result<Option<Outcome>, Memory>
    ensures step { IfOk result (λ ended. (rounds : ℕ)
        → rules.tried_for (suc rounds) client.0 (request_like ask) (progress_of tables.old outs.old)
        ≡ goes_on ended (progress_of tables.new outs.new)
        (rules.tried_for rounds client.0 (request_like ask) (progress_of tables.new outs.new))) }
    ensures about { IfOk result (λ ended. IfSome ended (λ outcome. IfSome (file_ready outcome)
        (λ file. IsAbout (server_of tables.new) file client.0 (request_like ask)))) }
    ensures queues { OnOk result (tables.new.queues ≡ tables.old.queues) }
    ensures ends { OnOk result (EndsMore (server_of tables.old).opens (ids_in ended.old)
        (server_of tables.new).opens (ids_in ended.new)) }
{
    match tables.finding(client, ask)? {
        Finding::Fails(status) => Ok(Some(Outcome::Refused(status))),
        Finding::Ready(file) => Ok(Some(Outcome::Ready(file))),
        Finding::Needs(wants) => {
            meet_all(tables, outs, ended, &wants)?;
            if must_wait(tables, ask, &wants) {
                Ok(Some(Outcome::Waits))
            } else {
                Ok(None)
            }
        }
    }
}

fn breaks_to_something(lease: HeldLease) -> bool
    ensures { result ≡ ready.breaks_to_some (lease_of lease) }
{
    match lease.broken_to {
        Some(lowered) => lowered.holds_any(),
        None => false,
    }
}

/// Whether some lease of these keeps the request waiting.
pub fn must_wait(tables: &Tables, ask: Ask, wants: &[Want]) -> bool
    ensures { result ≡ list_any (λ want. ready.waits_for (request_like ask) ((server_of tables.now).leases want.key))
        wants.now }
{
    wants
        .iter()
        .any(|want| waits_for(ask, tables.lease(want.key)))
}

// Whether the lease keeps the request waiting.
#[tactic(auto)]
fn waits_for(ask: Ask, lease: HeldLease) -> bool
    ensures { result ≡ ready.waits_for (request_like ask) (lease_of lease) }
{
    match ask {
        Ask::Write { .. } => breaks_to_something(lease),
        _ => lease.is_breaking(),
    }
}

/// Meets wants one after another, each as far as that can be at once.
#[tactic(auto, unfolding(lease_model::specs::server::Attempt::wants_met))]
pub fn meet_all(
    tables: &mut Tables,
    outs: &mut Outs,
    ended: &mut Ended,
    wants: &[Want],
) -> Result<(), Memory>
    ensures step { OnOk result (progress_of tables.new outs.new
        ≡ rules.wants_met wants.now (progress_of tables.old outs.old)) }
    ensures queues { OnOk result (tables.new.queues ≡ tables.old.queues) }
    ensures ends { OnOk result (EndsMore (server_of tables.old).opens (ids_in ended.old)
        (server_of tables.new).opens (ids_in ended.new)) }
{
    for want in wants {
        meet(tables, outs, ended, want)?;
    }
    Ok(())
}

// Meets a want as far as that can be at once: the key's disconnected opens are closed (profile),
// and its lease, if any is left, is broken.
fn meet(tables: &mut Tables, outs: &mut Outs, ended: &mut Ended, want: &Want) -> Result<(), Memory>
    ensures step { OnOk result (progress_of tables.new outs.new
        ≡ rules.want_met want.now (progress_of tables.old outs.old)) }
    ensures queues { OnOk result (tables.new.queues ≡ tables.old.queues) }
    ensures ends { OnOk result (EndsMore (server_of tables.old).opens (ids_in ended.old)
        (server_of tables.new).opens (ids_in ended.new)) }
{
    let ids = tables.close(Closing::LeftOf(want.key))?;
    ended.add_all(&ids)?;
    break_lease(tables, outs, want.key, want.lowered)?;
    Ok(())
}

// Breaks a lease that is still there and not breaking (MS-SMB2 3.3.4.7).
fn break_lease(
    tables: &mut Tables,
    outs: &mut Outs,
    key: LeaseName,
    lowered: LeaseState,
) -> Result<(), Memory>
    ensures step { OnOk result (progress_of tables.new outs.new
        ≡ rules.lease_broken key (state_of lowered) (progress_of tables.old outs.old)) }
    ensures queues { OnOk result (tables.new.queues ≡ tables.old.queues) }
    ensures opens { OnOk result ((server_of tables.new).opens ≡ (server_of tables.old).opens) }
{
    let lease = tables.lease(key);
    if !tables.has_lease(key) || lease.is_breaking() {
        return Ok(());
    }
    tables.put_lease(key, broken(lease.state, lowered))?;
    outs.lease_broken(key, lease.state, lowered)?;
    Ok(())
}

// A lease that is broken keeps its state until the break is acknowledged; one of reads alone is
// lowered at once, and no acknowledgment is asked for.
fn broken(state: LeaseState, lowered: LeaseState) -> HeldLease
    ensures { lease_of result ≡ broken_so (state_of state) (state_of lowered) }
{
    if state.needs_ack() {
        HeldLease {
            state,
            broken_to: Some(lowered),
        }
    } else {
        HeldLease {
            state: lowered,
            broken_to: None,
        }
    }
}
