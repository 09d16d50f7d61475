ghost use Rattle.std.specs.Prelude.{◌≡◌, IfOk, []};
ghost use Rattle.lease_lines.specs.{ClientTables.IsAnswered, ClientTables.no_clients, Machines.answered, Tables.machines_of};
ghost use Rattle.lease_lines.specs.Machines as rules;
ghost use Rattle.lease_lines.specs.ServerTables as tables;

use crate::client_table::ClientTable;
use crate::refusals::Answer;
use crate::server_stage::Stage;
use lease_state::Memory;
use std::alloc::Global;

/// Machines that speak lines: clients, or a server.
#[derive(Debug, Drop)]
pub enum Machines {
    Clients(ClientTable),
    Server(Stage),
}

impl Machines {
    /// Clients, none of which has been added yet.
    pub fn clients(alloc: Global) -> Machines
        ensures { machines_of result ≡ rules.Machines.AreClients no_clients }
    {
        Machines::Clients(ClientTable::new(alloc))
    }

    /// A server that was told nothing yet. Allocates nothing.
    pub fn server() -> Machines
        ensures { machines_of result ≡ rules.Machines.IsServer tables.Stage.Fresh }
    {
        Machines::Server(Stage::Fresh)
    }

    /// A line of this number comes, without its line feed: the machines after it, and what it is answered. A line that is
    /// refused is answered `fault line N` and changes nothing, and the answer has why it is refused; a line that is set-up,
    /// empty or a remark isn't answered.
    ///
    /// # Errors
    ///
    /// `Memory` where there is none left; the machines are lost then.
    pub fn answer(
        self,
        alloc: Global,
        number: u64,
        line: &[u8],
    ) -> Result<(Machines, Answer), Memory>
        ensures { IfOk result (λ r. IsAnswered (answered (machines_of self) number line.now) (machines_of r.0) r.1) }
    {
        match self {
            Machines::Clients(table) => {
                let (table, answer) = table.answer(alloc, number, line)?;
                Ok((Machines::Clients(table), answer))
            }
            Machines::Server(stage) => {
                let (stage, answer) = stage.answer(alloc, number, line)?;
                Ok((Machines::Server(stage), answer))
            }
        }
    }
}
