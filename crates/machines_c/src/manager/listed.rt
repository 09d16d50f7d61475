ghost use Rattle.std.specs.Prelude.{◌≡◌, ◌≢◌, ◌≤◌, None, IfSome, IsSomeAnd, OnOk, OnErr};
ghost use Rattle.machines_c.specs.handles.Outcomes.{code_of};
ghost use Rattle.machines_c.specs.manager.Listed.{AreListed, IsUnlisted};

use crate::handles::Outcome;
use crate::manager::handle::ManagerHandle;
use crate::manager::managing::Managing;
use lease_manager::{ListedLease, ListedOpen, ListedRequest};
use lease_state::Memory;
use std::alloc::Global;

/// What was listed of a manager since its last call.
#[derive(Debug, Drop)]
pub struct Listed {
    pub opens: Vec<ListedOpen>,
    pub leases: Vec<ListedLease>,
    pub requests: Vec<ListedRequest>,
}

/// What may be listed.
#[derive(Clone, Copy, Debug, PartialEq, Eq)]
pub enum Listing {
    Opens,
    Leases,
    Requests,
}

impl Listed {
    /// Nothing is listed. Allocates nothing.
    pub fn nothing(alloc: Global) -> Listed
        ensures { IsUnlisted result }
    {
        Listed {
            opens: Vec::new(alloc),
            leases: Vec::new(alloc),
            requests: Vec::new(alloc),
        }
    }
}

impl Managing {
    // Lists these.
    fn list(&mut self, listing: Listing) -> Result<(), Memory>
        ensures listed { OnOk result (AreListed listing self.old self.new) }
        ensures err { OnErr result (self.new ≡ self.old) }
    {
        match listing {
            Listing::Opens => self.listed.opens = self.manager.opens()?,
            Listing::Leases => self.listed.leases = self.manager.leases()?,
            Listing::Requests => self.listed.requests = self.manager.waiting()?,
        }
        Ok(())
    }
}

impl ManagerHandle {
    /// Lists these as they stand. Where there is no memory for the list, nothing changed.
    pub(crate) fn list(&mut self, alloc: Global, listing: Listing) -> Outcome
        ensures listed { code_of result ≡ 0 → IfSome self.old.held (λ old. IsSomeAnd self.new.held (AreListed listing old)) }
        ensures unchanged { code_of result ≢ 0 → self.new.held ≡ self.old.held }
        ensures some { self.old.held ≢ None → code_of result ≤ 1 }
        ensures none { self.old.held ≡ None → code_of result ≡ 3 }
    {
        match self.take(alloc) {
            None => Outcome::Nothing,
            Some(mut managing) => {
                let outcome = match managing.list(listing) {
                    Ok(()) => Outcome::Done,
                    Err(_) => Outcome::NoMemory,
                };
                self.put(alloc, managing);
                outcome
            }
        }
    }
}
