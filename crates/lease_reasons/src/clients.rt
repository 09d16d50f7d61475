ghost use Rattle.std.specs.Prelude.{◌≡◌, ◌<◌, ◌∷◌, List, OnOk, IfOk, vec_len};
ghost use Rattle.lease_facts.specs.Facts.{fact_of};
ghost use Rattle.lease_model.specs.records.Facts as model;
ghost use Rattle.lease_reasons.specs.Clients.{standing_in, standing_after, unseen, is_good_in, HasSameStandings, Describes};
ghost use Rattle.lease_reasons.specs.Places.{past_of};

use lease_facts::Fact;
use lease_state::{ClientNo, Memory};
use std::alloc::Global;

/// What facts say of a client.
#[derive(Clone, Copy, Debug)]
pub struct Standing {
    /// Whether a fact is about it.
    pub named: bool,
    /// Whether it joined.
    pub joined: bool,
    /// Whether it joined, and neither was its connection lost nor did a timer of its run out since.
    pub served: bool,
    /// Whether it strayed.
    pub strayed: bool,
}

impl Standing {
    // Before any fact.
    fn unseen() -> Standing
        ensures { result ≡ unseen }
    {
        Standing {
            named: false,
            joined: false,
            served: false,
            strayed: false,
        }
    }

    // After a fact about the client.
    fn after(self, fact: &Fact) -> Standing
        ensures { result ≡ standing_after (fact_of fact.now) self }
    {
        let named = Standing {
            named: true,
            ..self
        };
        match fact {
            Fact::Joined(_) => Standing {
                joined: true,
                served: true,
                ..named
            },
            Fact::Dropped(_) | Fact::Expired(_, _) => Standing {
                served: false,
                ..named
            },
            Fact::Strayed(_) => Standing {
                strayed: true,
                ..named
            },
            _ => named,
        }
    }
}

/// What facts say of clients, read off them in one pass.
#[derive(Debug, Drop)]
pub struct Clients {
    /// Those that facts are about, in the order in which they come.
    pub named: Vec<ClientNo>,
    // By the numbers of clients.
    standings: Vec<Standing>,
}

impl Clients {
    /// What these facts say.
    ///
    /// # Errors
    ///
    /// `Memory` where there is none left for the list of clients.
    pub fn of(alloc: Global, facts: &[Fact]) -> Result<Clients, Memory>
        ensures { IfOk result (Describes (past_of facts.now)) }
    {
        let mut clients = Clients {
            named: Vec::new(alloc),
            standings: Vec::new(alloc),
        };
        for fact in facts {
            clients.note(fact)?;
        }
        Ok(clients)
    }

    // Takes note of the next fact.
    fn note(&mut self, fact: &Fact) -> Result<(), Memory>
        ensures { OnOk result ((past : List model.Fact) → Describes past self.old
            → Describes (fact_of fact.now ∷ past) self.new) }
    {
        let Some(client) = fact.client() else {
            return Ok(());
        };
        reach(&mut self.standings, client)?;
        let index = usize::from(client.0);
        let standing = self.standings[index];
        self.standings[index] = standing.after(fact);
        if !standing.named {
            self.named.push(client)?;
        }
        Ok(())
    }

    /// What the facts say of a client.
    pub fn standing(&self, client: ClientNo) -> Standing
        ensures { result ≡ standing_in self.now.standings.items client.0 }
    {
        match self.standings.get(usize::from(client.0)) {
            Some(standing) => *standing,
            None => Standing::unseen(),
        }
    }

    /// Whether the client is good.
    pub fn is_good(&self, client: ClientNo) -> bool
        ensures { result ≡ is_good_in self.now.standings.items client.0 }
    {
        let standing = self.standing(client);
        standing.served && !standing.strayed
    }
}

// Makes a place for what is said of the client.
fn reach(standings: &mut Vec<Standing>, client: ClientNo) -> Result<(), Memory>
    ensures there { OnOk result (client.0 < vec_len standings.new) }
    ensures same { HasSameStandings standings.old.items standings.new.items }
{
    while standings.len() <= usize::from(client.0) {
        standings.push(Standing::unseen())?;
    }
    Ok(())
}
