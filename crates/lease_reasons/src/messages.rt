ghost use Rattle.std.specs.Prelude.{◌≡◌, ◌+◌, ◌≤◌, OnOk, IfOk, length};
ghost use Rattle.lease_facts.specs.Facts.{fact_of};
ghost use Rattle.lease_reasons.specs.Messages.{mail_after, mail_of, last_sent};
ghost use Rattle.lease_reasons.specs.Places.{past_of};

use lease_facts::Fact;
use lease_state::{ClientNo, Memory};
use std::alloc::Global;
use std::marker::Model;

/// The messages to a client since it joined last: where they were sent, and how many were taken.
#[derive(Debug, Drop)]
pub struct Messages {
    sent: Vec<usize>,
    taken: usize,
}

impl Model for Messages {
    ghost use Rattle.lease_reasons.specs.Messages as messages;

    ghost Value = { messages.Mail };

    ghost view = { λ messages. record { sent = messages.sent.items; taken = messages.taken } };
}

impl Messages {
    /// Those that facts report.
    ///
    /// # Errors
    ///
    /// `Memory` where there is none left for the list.
    pub fn of(alloc: Global, facts: &[Fact], client: ClientNo) -> Result<Messages, Memory>
        ensures { IfOk result (λ messages. messages ≡ mail_of client.0 (past_of facts.now)) }
    {
        let mut messages = Messages {
            sent: Vec::new(alloc),
            taken: 0,
        };
        for (index, fact) in facts.iter().enumerate() {
            messages.note(client, index + 1, fact)?;
        }
        Ok(messages)
    }

    // Takes note of the fact at this place.
    fn note(&mut self, client: ClientNo, place: usize, fact: &Fact) -> Result<(), Memory>
        requires { self.old.taken + 1 ≤ place }
        ensures { OnOk result (self.new ≡ mail_after client.0 place (fact_of fact.now) self.old) }
    {
        match fact {
            Fact::Joined(other) if *other == client => {
                self.sent.clear();
                self.taken = 0;
            }
            Fact::Sent(other) if *other == client => self.sent.push(place)?,
            Fact::Took(other) if *other == client => self.taken += 1,
            _ => {}
        }
        Ok(())
    }

    /// How many were sent.
    pub fn sent(&self) -> usize
        ensures { result ≡ length self.now.sent }
    {
        self.sent.len()
    }

    /// How many were taken.
    pub fn taken(&self) -> usize
        ensures { result ≡ self.now.taken }
    {
        self.taken
    }

    /// Where the one was sent that was taken last.
    pub fn last_sent(&self) -> Option<usize>
        ensures { result ≡ last_sent self.now.taken self.now.sent }
    {
        let index = self.taken.checked_sub(1)?;
        self.sent.get(index).copied()
    }
}
