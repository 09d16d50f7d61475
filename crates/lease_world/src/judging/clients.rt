ghost use Rattle.std.specs.Prelude.{◌≡◌, ◌<◌, [], OnOk, IfOk, vec_len};
ghost use Rattle.std.specs.Borrow.{sem};
ghost use Rattle.lease_world.specs.judge.Lends.{LendsClient};
ghost use Rattle.lease_world.specs.judge.Seen.{client_in};
ghost use Rattle.lease_world.specs.judge.Tables.{HasSameClients};

use crate::judging::client::ClientSeen;
use lease_state::{ClientNo, Memory};
use std::alloc::Global;
use std::marker::Model;

/// What a judge keeps of clients, by their numbers.
#[derive(Debug, Drop)]
pub struct Clients {
    seen: Vec<ClientSeen>,
}

impl Model for Clients {
    ghost use Rattle.std.specs.Prelude.{List};
    ghost use Rattle.lease_world.specs.judge.Seen.{SeenClient};

    ghost Value = { List SeenClient };

    ghost view = { λ clients. clients.seen.items };
}

impl Clients {
    /// Before any fact. Allocates nothing.
    pub fn new(alloc: Global) -> Clients
        ensures { result ≡ [] }
    {
        Clients {
            seen: Vec::new(alloc),
        }
    }

    /// What is kept of the client, to be looked at and changed in its place.
    ///
    /// # Errors
    ///
    /// `Memory` where there is none left for what is kept of the client.
    // docs/DECISIONS.md: "A judge's tables lend what they keep".
    pub fn get_mut(&mut self, client: ClientNo) -> Result<&mut ClientSeen, Memory>
        ensures* lends { sem 𝓛 (LendsClient self.entry client.0 result) }
        ensures value { IfOk result (λ seen. seen.now ≡ client_in self.old client.0) }
    {
        reach(&mut self.seen, client)?;
        Ok(&mut self.seen[usize::from(client.0)])
    }
}

// Makes a place for what is kept of the client.
fn reach(clients: &mut Vec<ClientSeen>, client: ClientNo) -> Result<(), Memory>
    ensures there { OnOk result (client.0 < vec_len clients.new) }
    ensures same { HasSameClients clients.old.items clients.new.items }
{
    let alloc = *clients.allocator();
    while clients.len() <= usize::from(client.0) {
        clients.push(ClientSeen::new(alloc))?;
    }
    Ok(())
}
