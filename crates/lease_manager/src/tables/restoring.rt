ghost use Rattle.std.specs.Prelude.{◌≡◌, ◌<◌, false, true, Some, IfErr, IfOk, OnOk};
ghost use Rattle.lease_model.specs.server.State.{is_breaking};
ghost use Rattle.lease_model.specs.values.Keys.{Key};
ghost use Rattle.lease_state.specs.State.{state_of};
ghost use Rattle.lease_manager.specs.Restarting.{AreKeptOf, has_next_id, has_room_for, holds_the_same, is_lasting_state};
ghost use Rattle.lease_manager.specs.Restarting.{key_kept, may_keep, server_with, writes_alone};
ghost use Rattle.lease_manager.specs.Summaries.{IsAtHome};
ghost use Rattle.lease_manager.specs.Table.{server_of};
ghost use Rattle.lease_manager.specs.declared.values.restore_error.RestoreError.TheVariants as errors;

use crate::tables::Tables;
use crate::values::kept::KeptOpen;
use crate::values::restore_error::RestoreError;
use crate::values::want::Wish;
use lease_state::{FileId, LeaseState, Memory};

impl Tables {
    /// The opens that would be there were each client cut now, in the order of their FileIds, with what their leases hold.
    ///
    /// # Errors
    ///
    /// `Memory` where there is none left for the list.
    pub fn kept_opens(&self) -> Result<Vec<KeptOpen>, Memory>
        ensures { IfOk result (λ kept. AreKeptOf (server_of self.now) kept.items) }
    {
        self.opens.kept(self.alloc(), &self.summaries)
    }

    /// One open more, which waits for its client, where it breaks no law and its FileId isn't after this one. No lease is
    /// breaking.
    ///
    /// # Errors
    ///
    /// `Unlawful` where it would break one. `Memory` where there is none left.
    pub fn restore(&mut self, last: FileId, one: KeptOpen) -> Result<(), RestoreError>
        requires unbroken { (key : Key) → is_breaking ((server_of self.old).leases key) ≡ false }
        ensures fits { OnOk result (may_keep (server_of self.old) last.0 one ≡ true) }
        ensures kept { OnOk result (server_of self.new ≡ server_with (server_of self.old) one) }
        ensures queues { OnOk result (self.new.queues ≡ self.old.queues) }
        ensures refused { IfErr result (λ error. error ≡ errors.Unlawful → may_keep (server_of self.old) last.0 one ≡ false) }
    {
        if !self.may_keep(last, one) {
            return Err(RestoreError::Unlawful);
        }
        self.keep(one)?;
        Ok(())
    }

    // One open more, which waits for its client.
    fn keep(&mut self, one: KeptOpen) -> Result<(), Memory>
        requires unbroken { (key : Key) → is_breaking ((server_of self.old).leases key) ≡ false }
        requires next { (server_of self.old).last_id < one.file_id.0 }
        requires home { IsAtHome (Some (key_kept one)) one.file.0 (server_of self.old).opens }
        ensures kept { OnOk result (server_of self.new ≡ server_with (server_of self.old) one) }
        ensures queues { OnOk result (self.new.queues ≡ self.old.queues) }
    {
        self.open(one.entry(), one.lease())?;
        self.disconnect(one.file_id)
    }

    // Whether one open more breaks no law, where this FileId is the last.
    fn may_keep(&self, last: FileId, one: KeptOpen) -> bool
        ensures { result ≡ may_keep (server_of self.now) last.0 one }
    {
        self.has_next_id(last, one)
            && self.has_file(one.file)
            && is_lasting_state(one.state)
            && self.has_room_for(one)
            && self.holds_the_same(one)
            && self.writes_alone(one)
    }

    // Whether its FileId comes after those that were given, and not after this one.
    fn has_next_id(&self, last: FileId, one: KeptOpen) -> bool
        ensures { result ≡ has_next_id (server_of self.now) last.0 one }
    {
        self.last_id() < one.file_id.0 && one.file_id.0 <= last.0
    }

    // Whether its key is on no other file, and no open on its file conflicts with it.
    fn has_room_for(&self, one: KeptOpen) -> bool
        ensures { result ≡ has_room_for (server_of self.now) one }
    {
        !self.is_leased_elsewhere(Some(one.name()), one.file)
            && !self.has_conflict_on(one.file, one.access, one.share)
    }

    // Whether the lease of its key, where there is one, holds the same.
    fn holds_the_same(&self, one: KeptOpen) -> bool
        ensures { result ≡ holds_the_same (server_of self.now) one }
    {
        let state = self.lease(one.name()).state;
        !self.has_lease(one.name()) || (state.is_within(one.state) && one.state.is_within(state))
    }

    // Whether no other key is on its file where it caches writes, and no other key there does.
    fn writes_alone(&self, one: KeptOpen) -> bool
        ensures { result ≡ writes_alone (server_of self.now) one }
    {
        if self.is_any_wanted(Wish::NoWrites, Some(one.name()), one.file) {
            return false;
        }
        !(one.state.caches_writes() && self.has_other_on(Some(one.name()), one.file))
    }
}

// Whether the state is a granted form that caches handles.
fn is_lasting_state(state: LeaseState) -> bool
    ensures { result ≡ is_lasting_state (state_of state) }
{
    state.caches_reads() && state.caches_handles()
}
