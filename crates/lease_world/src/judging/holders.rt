ghost use Rattle.std.specs.Prelude.{◌≡◌, ◌≤◌, [], length, vec_len, OnOk, IfOk, MatchBool};
ghost use Rattle.lease_state.specs.State.{state_of};
ghost use Rattle.lease_world.specs.judge.Seen.{unheld, holders_in};
ghost use Rattle.lease_world.specs.judge.Holders.{with_holder, without_holder, conflicts_with, HasHolders, HasSameHolders};
ghost use Rattle.lease_world.specs.judge.Holders.{HasConflict, HasNoConflict, HasEntered, HasLeft, Leaves};

use crate::judging::cache::CacheSeen;
use crate::judging::client::ClientSeen;
use lease_state::{FileNo, LeaseState, Memory};
use std::alloc::Global;
use std::marker::Model;

/// How many good clients believe that they may cache something of a file, its holders, and how many of these that they may
/// cache writes. There are at most 256 clients.
#[derive(Clone, Copy, Debug)]
struct Holders {
    any: u16,
    writing: u16,
}

impl Model for Holders {
    ghost use Rattle.lease_world.specs.judge.Seen as seen;

    ghost Value = { seen.Holders };

    ghost view = { λ holders. record { any = holders.any; writing = holders.writing } };

    ghost inverse = { λ holders. record { any = holders.any; writing = holders.writing } };
}

impl Holders {
    const fn none() -> Holders
        ensures { result ≡ unheld }
    {
        Holders { any: 0, writing: 0 }
    }

    /// A client more that is good believes this.
    fn enter(&mut self, state: LeaseState)
        ensures { self.new ≡ with_holder (state_of state) self.old }
    {
        if state.is_none() {
            return;
        }
        self.any = self.any.saturating_add(1);
        if state.caches_writes() {
            self.writing = self.writing.saturating_add(1);
        }
    }

    /// A client less that is good believes this.
    fn leave(&mut self, state: LeaseState)
        ensures { self.new ≡ without_holder (state_of state) self.old }
    {
        if state.is_none() {
            return;
        }
        self.any = self.any.saturating_sub(1);
        if state.caches_writes() {
            self.writing = self.writing.saturating_sub(1);
        }
    }

    /// Whether a client more that believes this would conflict with one of these.
    fn conflict(self, state: LeaseState) -> bool
        ensures { result ≡ conflicts_with (state_of state) self }
    {
        if state.caches_writes() {
            self.any > 0
        } else {
            self.writing > 0 && !state.is_none()
        }
    }

    /// A good client that believed the one believes the other. Whether it conflicts with another client then.
    fn change(&mut self, before: LeaseState, after: LeaseState) -> bool
        ensures conflict { result ≡ conflicts_with (state_of after) (without_holder (state_of before) self.old) }
        ensures changed { self.new ≡ with_holder (state_of after) (without_holder (state_of before) self.old) }
    {
        self.leave(before);
        let conflict = self.conflict(after);
        self.enter(after);
        conflict
    }
}

/// The holders of files, by their numbers.
// docs/DECISIONS.md: "A judge counts who may cache a file".
#[derive(Debug, Drop)]
pub struct FileHolders {
    seen: Vec<Holders>,
}

impl Model for FileHolders {
    ghost use Rattle.std.specs.Prelude.{List};
    ghost use Rattle.lease_world.specs.judge.Seen.{Holders};

    ghost Value = { List Holders };

    ghost view = { λ files. files.seen.items };
}

impl FileHolders {
    /// Of no file. Allocates nothing.
    pub fn new(alloc: Global) -> FileHolders
        ensures { result ≡ [] }
    {
        FileHolders {
            seen: Vec::new(alloc),
        }
    }

    fn at(&self, file: usize) -> Holders
        ensures { result ≡ holders_in self.now file }
    {
        match self.seen.get(file) {
            Some(holders) => *holders,
            None => Holders::none(),
        }
    }

    /// A client more that is good believes this of files. Whether it conflicts with one of their holders; it is no holder
    /// then.
    ///
    /// # Errors
    ///
    /// `Memory` where there is none left for the holders of files.
    pub fn enter(&mut self, caches: &[CacheSeen]) -> Result<bool, Memory>
        ensures { IfOk result (λ conflict. MatchBool conflict (HasConflict caches.now self.old)
            (HasNoConflict caches.now self.old × HasEntered caches.now self.old self.new)) }
    {
        if self.conflict(caches) {
            return Ok(true);
        }
        reach(&mut self.seen, caches.len())?;
        enter_each(&mut self.seen, caches);
        Ok(false)
    }

    fn conflict(&self, caches: &[CacheSeen]) -> bool
        ensures { MatchBool result (HasConflict caches.now self.now) (HasNoConflict caches.now self.now) }
    {
        for file in 0..caches.len() {
            if self.at(file).conflict(caches[file].belief()) {
                return true;
            }
        }
        false
    }

    /// A client, if it is good, is a holder no more.
    pub fn let_go(&mut self, client: &ClientSeen)
        ensures { Leaves client.now self.old self.new }
    {
        if client.is_good() {
            leave_each(&mut self.seen, client.caches());
        }
    }

    /// A good client that believed the one of a file believes the other. Whether it conflicts with another client then.
    ///
    /// # Errors
    ///
    /// `Memory` where there is none left for the holders of files.
    pub fn change(
        &mut self,
        file: FileNo,
        before: LeaseState,
        after: LeaseState,
    ) -> Result<bool, Memory>
        ensures conflict { IfOk result (λ conflict. conflict
            ≡ conflicts_with (state_of after) (without_holder (state_of before) (holders_in self.old file.0))) }
        ensures changed { OnOk result (HasHolders self.old self.new file.0
            (with_holder (state_of after) (without_holder (state_of before) (holders_in self.old file.0)))) }
    {
        let file = usize::from(file.0);
        reach(&mut self.seen, file + 1)?;
        let holders = &mut self.seen[file];
        Ok(holders.change(before, after))
    }
}

// Makes places for the holders of so many files.
fn reach(seen: &mut Vec<Holders>, files: usize) -> Result<(), Memory>
    ensures there { OnOk result (files ≤ vec_len seen.new) }
    ensures same { HasSameHolders seen.old.items seen.new.items }
{
    while seen.len() < files {
        seen.push(Holders::none())?;
    }
    Ok(())
}

fn enter_each(seen: &mut [Holders], caches: &[CacheSeen])
    requires { length caches.now ≤ length seen.old }
    ensures { HasEntered caches.now seen.old seen.new }
{
    for file in 0..caches.len() {
        seen[file].enter(caches[file].belief());
    }
}

fn leave_each(seen: &mut [Holders], caches: &[CacheSeen])
    ensures { HasLeft caches.now seen.old seen.new }
{
    for file in 0..seen.len().min(caches.len()) {
        seen[file].leave(caches[file].belief());
    }
}
