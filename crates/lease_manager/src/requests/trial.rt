ghost use Rattle.std.specs.Prelude.{◌≡◌, ◌++◌, [], IfOk, IfSome, OnOk};
ghost use Rattle.lease_manager.specs.Findings.{file_ready, outcome_of};
ghost use Rattle.lease_manager.specs.OneFile.{IsAbout};
ghost use Rattle.lease_manager.specs.Outs.{progress_of};
ghost use Rattle.lease_manager.specs.Requests.{request_like};
ghost use Rattle.lease_manager.specs.Table.{server_of};
ghost use Rattle.lease_model.specs.server.Attempt as rules;
ghost use Rattle.lease_model.specs.server.Progress.{begun};
ghost use Rattle.manager_model.specs.Handling.{ended_between};

use crate::outs::Outs;
use crate::requests::attempt::{Outcome, attempt};
use crate::tables::Tables;
use crate::told::Told;
use crate::values::number::ClientNo;
use crate::values::request::Ask;
use lease_state::Memory;

/// Tries a request. For each open that ends by that there is a decision.
///
/// # Errors
///
/// `Memory` where there is none left.
pub fn try_now(
    tables: &mut Tables,
    told: &mut Told,
    outs: &mut Outs,
    client: ClientNo,
    ask: Ask,
) -> Result<Outcome, Memory>
    requires { outs.old ≡ [] }
    ensures ended { IfOk result (λ outcome. rules.ended (progress_of tables.new outs.new) (outcome_of outcome)
        ≡ rules.tried client.0 (request_like ask) (begun (server_of tables.old))) }
    ensures about { IfOk result (λ outcome. IfSome (file_ready outcome)
        (λ file. IsAbout (server_of tables.new) file client.0 (request_like ask))) }
    ensures queues { OnOk result (tables.new.queues ≡ tables.old.queues) }
    ensures told { OnOk result (told.new ≡ told.old ++ ended_between (server_of tables.old) (server_of tables.new)) }
{
    let mut ended = tables.none_ended();
    let outcome = attempt(tables, outs, &mut ended, client, ask)?;
    ended.tell(told)?;
    Ok(outcome)
}
