ghost use Rattle.std.specs.Prelude.{◌≡◌, true, Some, OnOk};
ghost use Rattle.lease_model.specs.server.State.{has_lease};
ghost use Rattle.lease_manager.specs.Table.{server_of};
ghost use Rattle.lease_model.specs.server.Acknowledge as rules;
ghost use Rattle.lease_state.specs.State.{state_of};
ghost use Rattle.lease_manager.specs.Outs.{progress_of};

use crate::outs::Outs;
use crate::tables::Tables;
use crate::values::key::LeaseName;
use crate::values::lease::HeldLease;
use lease_state::{LeaseState, Memory, Status};

/// Judges an acknowledgment of a break of the key's lease (MS-SMB2 3.3.5.22.2).
///
/// # Errors
///
/// `Memory` where there is none left.
#[tactic(auto, unfolding(lease_model::specs::server::Acknowledge::acknowledged))]
pub fn acknowledge(
    tables: &mut Tables,
    outs: &mut Outs,
    key: LeaseName,
    state: LeaseState,
) -> Result<(), Memory>
    ensures step { OnOk result (progress_of tables.new outs.new
        ≡ rules.acknowledged key.client (Some (record { key = key.bytes; state = state_of state }))
        (progress_of tables.old outs.old)) }
    ensures queues { OnOk result (tables.new.queues ≡ tables.old.queues) }
{
    if !tables.has_lease(key) {
        return outs.refuse_ack(key.client, Status::ObjectNameNotFound);
    }
    match tables.lease(key).broken_to {
        Some(lowered) => {
            if state.is_within(lowered) {
                end_break(tables, outs, key, state)
            } else {
                outs.refuse_ack(key.client, Status::RequestNotAccepted)
            }
        }
        None => outs.refuse_ack(key.client, Status::Unsuccessful),
    }
}

// The lease has the granted form of the acknowledged state, and isn't breaking.
#[tactic(auto)]
fn end_break(
    tables: &mut Tables,
    outs: &mut Outs,
    key: LeaseName,
    state: LeaseState,
) -> Result<(), Memory>
    requires { has_lease (server_of tables.old) key ≡ true }
    ensures step { OnOk result (progress_of tables.new outs.new
        ≡ rules.break_ended key (state_of state) (progress_of tables.old outs.old)) }
    ensures queues { OnOk result (tables.new.queues ≡ tables.old.queues) }
{
    let lease = HeldLease {
        state: state.granted_form(),
        broken_to: None,
    };
    tables.put_lease(key, lease)?;
    outs.ack_done(key, lease.state)
}
