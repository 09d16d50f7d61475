ghost use Rattle.std.specs.Prelude.{◌≡◌, [], IfOk, OnOk};
ghost use Rattle.lease_state.specs.State.{state_of};
ghost use Rattle.lease_client.specs.Answers.{settlement_of};
ghost use Rattle.lease_facts.specs.Facts.{fact_of};
ghost use Rattle.lease_world.specs.judge.Added.{StartAdds, JoinedAdds, LeavingAdds, ExpiredAdds, StrayedAdds, SentAdds, TookAdds};
ghost use Rattle.lease_world.specs.judge.Added.{OpenedAdds, ChangedAdds, WroteAdds, SettledAdds, BelievesAdds, CachedReadAdds};
ghost use Rattle.lease_world.specs.judge.Added.{Adds};
ghost use Rattle.lease_world.specs.judge.Clients.{Sees};
ghost use Rattle.lease_world.specs.judge.Seen.{file_in};
ghost use Rattle.lease_world.specs.judge.Tables.{HasSameFiles};

use crate::judging::client::ClientSeen;
use crate::judging::clients::Clients;
use crate::judging::files::Files;
use crate::judging::holders::FileHolders;
use crate::judging::writes::WriteSeen;
use lease_client::Settlement;
use lease_facts::{Fact, Rule, Verdict};
use lease_state::{Bytes, ClientNo, FileNo, LeaseState, Memory, Patch};
use std::alloc::Global;
use std::marker::Model;

/// What a judge keeps of the facts that it was given.
// docs/DECISIONS.md: "What a judge keeps".
#[derive(Debug, Drop)]
pub struct Known {
    files: Files,
    clients: Clients,
    holders: FileHolders,
}

impl Model for Known {
    ghost use Rattle.lease_world.specs.judge.Seen as seen;

    ghost Value = { seen.KeptFacts };

    ghost view = { λ known. record {
      files = known.files;
      clients = known.clients;
      holders = known.holders;
    } };
}

impl Known {
    /// Before any fact. Allocates nothing.
    pub fn new(alloc: Global) -> Known
        ensures { result ≡ record { files = []; clients = []; holders = [] } }
    {
        Known {
            files: Files::new(alloc),
            clients: Clients::new(alloc),
            holders: FileHolders::new(alloc),
        }
    }

    /// The allocator of what is kept.
    pub fn alloc(&self) -> Global {
        self.files.alloc()
    }

    /// Takes the fact at this place, and gives what it is in the light of those before it.
    ///
    /// # Errors
    ///
    /// `Memory` where there is none left for what is kept; the same holds of each call below.
    #[inline(always)]
    pub fn add(&mut self, place: u64, fact: &Fact) -> Result<Verdict, Memory>
        ensures { IfOk result (λ verdict. Adds place (fact_of fact.now) self.old self.new verdict) }
    {
        match fact {
            Fact::Start(file, bytes) => self.start(place, *file, bytes),
            Fact::Joined(client) => self.join(place, *client),
            Fact::Dropped(client) => self.leave(*client),
            Fact::Expired(client, file) => self.expire(place, *client, *file),
            Fact::Sent(client) => self.send(place, *client),
            Fact::Took(client) => self.take(place, *client),
            Fact::Opened(file, client) => self.open(place, *file, *client),
            Fact::Changed(file, client, number, patch) => {
                self.change(place, *file, *client, *number, patch)
            }
            Fact::Wrote(client, file, number, patch, buffered) => {
                self.write(place, *client, *file, *number, patch, *buffered)
            }
            Fact::Settled(client, number, outcome) => self.settle(
                place, *client, *number, *outcome,
            ),
            Fact::Believes(client, file, state) => self.believe(place, *client, *file, *state),
            Fact::CachedRead(client, file, bytes) => {
                self.read(place, *client, *file, bytes.as_slice())
            }
            Fact::Strayed(client) => self.stray(*client),
        }
    }

    fn start(&mut self, place: u64, file: FileNo, bytes: &Bytes) -> Result<Verdict, Memory>
        ensures { IfOk result (λ verdict. StartAdds place file.0 bytes.now self.old self.new verdict) }
    {
        let stood = self.files.get_mut(file)?;
        if stood.is_started() {
            return Ok(Verdict::Malformed { place });
        }
        stood.start(bytes.try_copy()?);
        Ok(Verdict::Safe)
    }

    fn join(&mut self, place: u64, client: ClientNo) -> Result<Verdict, Memory>
        ensures { IfOk result (λ verdict. JoinedAdds place client.0 self.old self.new verdict) }
    {
        let seen = self.clients.get_mut(client)?;
        let was_good = seen.is_good();
        seen.join();
        // What a client believes counts once, and nothing that a strayed one believes does.
        if was_good || !seen.is_good() {
            return Ok(Verdict::Safe);
        }
        if self.holders.enter(seen.caches())? {
            return Ok(Verdict::Unsafe {
                place,
                rule: Rule::OneWriteCache,
            });
        }
        Ok(Verdict::Safe)
    }

    fn leave(&mut self, client: ClientNo) -> Result<Verdict, Memory>
        ensures { IfOk result (λ verdict. LeavingAdds client.0 self.old self.new verdict) }
    {
        let seen = self.clients.get_mut(client)?;
        self.holders.let_go(seen);
        seen.leave();
        Ok(Verdict::Safe)
    }

    fn expire(&mut self, place: u64, client: ClientNo, file: FileNo) -> Result<Verdict, Memory>
        ensures { IfOk result (λ verdict. ExpiredAdds place client.0 file.0 self.old self.new verdict) }
    {
        if !self.files.is_started(file) {
            return Ok(Verdict::Malformed { place });
        }
        self.leave(client)
    }

    fn stray(&mut self, client: ClientNo) -> Result<Verdict, Memory>
        ensures { IfOk result (λ verdict. StrayedAdds client.0 self.old self.new verdict) }
    {
        let seen = self.clients.get_mut(client)?;
        self.holders.let_go(seen);
        seen.stray();
        Ok(Verdict::Safe)
    }

    fn send(&mut self, place: u64, client: ClientNo) -> Result<Verdict, Memory>
        ensures { IfOk result (λ verdict. SentAdds place client.0 self.old self.new verdict) }
    {
        self.clients.get_mut(client)?.send(place)?;
        Ok(Verdict::Safe)
    }

    fn take(&mut self, place: u64, client: ClientNo) -> Result<Verdict, Memory>
        ensures { IfOk result (λ verdict. TookAdds place client.0 self.old self.new verdict) }
    {
        if !self.clients.get_mut(client)?.take() {
            return Ok(Verdict::Malformed { place });
        }
        Ok(Verdict::Safe)
    }

    fn open(&mut self, place: u64, file: FileNo, client: ClientNo) -> Result<Verdict, Memory>
        ensures { IfOk result (λ verdict. OpenedAdds place file.0 client.0 self.old self.new verdict) }
    {
        let stood = self.files.get_mut(file)?;
        if !stood.is_started() {
            return Ok(Verdict::Malformed { place });
        }
        stood.open(client, place);
        Ok(Verdict::Safe)
    }

    fn change(
        &mut self,
        place: u64,
        file: FileNo,
        client: ClientNo,
        number: u64,
        patch: &Patch,
    ) -> Result<Verdict, Memory>
        ensures { IfOk result (λ verdict. ChangedAdds place file.0 client.0 number patch.now self.old self.new verdict) }
    {
        let stood = self.files.get_mut(file)?;
        if !stood.is_started() || !patch.is_within_limit() {
            return Ok(Verdict::Malformed { place });
        }
        let seen = self.clients.get_mut(client)?;
        if !seen.has_strayed() && seen.has_buffered(file, number, stood.touched_by_others(client)) {
            return Ok(Verdict::Unsafe {
                place,
                rule: Rule::NoLateWrite,
            });
        }
        seen.accept(file, number, patch);
        stood.change(client, place, patch.try_copy()?)?;
        Ok(Verdict::Safe)
    }

    fn write(
        &mut self,
        place: u64,
        client: ClientNo,
        file: FileNo,
        number: u64,
        patch: &Patch,
        buffered: bool,
    ) -> Result<Verdict, Memory>
        ensures { IfOk result (λ verdict.
            WroteAdds place client.0 file.0 number patch.now buffered self.old self.new verdict) }
    {
        let seen = self.clients.get_mut(client)?;
        if !self.files.is_started(file) || !patch.is_within_limit() || seen.has_number(number) {
            return Ok(Verdict::Malformed { place });
        }
        let write = WriteSeen {
            file,
            place,
            buffered,
            patch: patch.try_copy()?,
            accepted: false,
        };
        seen.write(number, write)?;
        Ok(Verdict::Safe)
    }

    fn settle(
        &mut self,
        place: u64,
        client: ClientNo,
        number: u64,
        outcome: Settlement,
    ) -> Result<Verdict, Memory>
        ensures { IfOk result (λ verdict.
            SettledAdds place client.0 number (settlement_of outcome) self.old self.new verdict) }
    {
        let seen = self.clients.get_mut(client)?;
        if outcome == Settlement::Done && !seen.has_strayed() && !seen.is_accepted(number) {
            return Ok(Verdict::Unsafe {
                place,
                rule: Rule::NoFalseDone,
            });
        }
        seen.settle(number)?;
        Ok(Verdict::Safe)
    }

    fn believe(
        &mut self,
        place: u64,
        client: ClientNo,
        file: FileNo,
        state: LeaseState,
    ) -> Result<Verdict, Memory>
        ensures { IfOk result (λ verdict.
            BelievesAdds place client.0 file.0 (state_of state) self.old self.new verdict) }
    {
        if !self.files.is_started(file) {
            return Ok(Verdict::Malformed { place });
        }
        let seen = self.clients.get_mut(client)?;
        if seen.is_good() && self.holders.change(file, seen.belief(file), state)? {
            return Ok(Verdict::Unsafe {
                place,
                rule: Rule::OneWriteCache,
            });
        }
        seen.believe(file, state)?;
        Ok(Verdict::Safe)
    }

    fn read(
        &mut self,
        place: u64,
        client: ClientNo,
        file: FileNo,
        bytes: &[u8],
    ) -> Result<Verdict, Memory>
        ensures { IfOk result (λ verdict.
            CachedReadAdds place client.0 file.0 bytes.now self.old self.new verdict) }
    {
        if !self.files.is_started(file) {
            return Ok(Verdict::Malformed { place });
        }
        let seen = self.clients.get_mut(client)?;
        if !seen.is_good() {
            return Ok(Verdict::Safe);
        }
        let stale = Verdict::Unsafe {
            place,
            rule: Rule::FreshCachedReads,
        };
        let Some(taken) = seen.taken() else {
            return Ok(stale);
        };
        if sees(&mut self.files, seen, file, taken, bytes)? {
            Ok(Verdict::Safe)
        } else {
            Ok(stale)
        }
    }
}

// Whether the client sees these bytes in the file. What is kept of the file stays the same, but for where it was copied.
#[tactic(auto, using(crate::proofs::records::Files::put_back))]
fn sees(
    files: &mut Files,
    client: &mut ClientSeen,
    file: FileNo,
    taken: u64,
    bytes: &[u8],
) -> Result<bool, Memory>
    ensures files { OnOk result (HasSameFiles files.old files.new) }
    ensures client { IfOk result (λ same. Sees file.0 (file_in files.old file.0) taken bytes.now client.old client.new same) }
{
    let stood = files.get_mut(file)?;
    client.sees(file, stood, taken, bytes)
}
