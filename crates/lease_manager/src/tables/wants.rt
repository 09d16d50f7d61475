ghost use Rattle.std.specs.Prelude.{◌≡◌, ◌&&◌, IfOk, map, not};
ghost use Rattle.std.specs.List.{list_any};
ghost use Rattle.lease_manager.specs.Hindering.{is_hinderer};
ghost use Rattle.lease_manager.specs.Table.{server_of};
ghost use Rattle.lease_manager.specs.GivingUp.{extent_of};
ghost use Rattle.lease_manager.specs.Wishes.{is_wanted, wants_for, want_of};
ghost use Rattle.lease_model.specs.server.Allowed.{is_other_on};
ghost use Rattle.lease_model.specs.server.GivingUp as given_up;
ghost use Rattle.lease_model.specs.server.Naming.{lease_of_open};

use crate::tables::Tables;
use crate::values::extent::Extent;
use crate::values::key::LeaseName;
use crate::values::number::FileNo;
use crate::values::want::{Demand, Want, Wish};
use lease_state::Memory;

impl Tables {
    /// What a request wishes of the leases of other keys on its file, in the order in which they are
    /// broken.
    ///
    /// # Errors
    ///
    /// `Memory` where there is none left for the list.
    pub fn wants(
        &self,
        wish: Wish,
        own: Option<LeaseName>,
        file: FileNo,
    ) -> Result<Vec<Want>, Memory>
        ensures { IfOk result (λ wants. wants.items ≡ wants_for wish (server_of self.now) own file.0) }
    {
        let keys = self
            .summaries
            .wanted_keys(self.alloc(), &Demand { wish, own, file })?;
        let wants = self.wants_of(wish, &keys)?;
        Ok(wants)
    }

    /// Whether the lease of another key on the file hinders a write under this key, or under none: it
    /// holds something, and is not breaking to nothing yet.
    pub fn is_hindered(&self, own: Option<LeaseName>, file: FileNo) -> bool
        ensures { result ≡ list_any (is_hinderer (server_of self.now) own file.0) (server_of self.now).opens }
    {
        self.summaries.is_hindered(own, file)
    }

    /// Whether the lease of another key on the file holds what this wishes to be given up.
    pub fn is_any_wanted(&self, wish: Wish, own: Option<LeaseName>, file: FileNo) -> bool
        ensures { result ≡ list_any (is_wanted wish (server_of self.now) own file.0) (server_of self.now).opens }
    {
        self.summaries.is_any_wanted(&Demand { wish, own, file })
    }

    /// Whether no other key on the file is in the way of what this is to be given up for.
    #[tactic(auto)]
    pub fn is_given_up(&self, own: Option<LeaseName>, file: FileNo, extent: Extent) -> bool
        ensures { result ≡ given_up.is_given_up (server_of self.now) own file.0 (extent_of extent) }
    {
        match extent {
            Extent::Handles => !self.is_any_wanted(Wish::AnyHandles, own, file),
            Extent::All => self.is_all_given_up(own, file),
        }
    }

    // Whether no other key on the file is in the way of a change.
    fn is_all_given_up(&self, own: Option<LeaseName>, file: FileNo) -> bool
        ensures { result ≡ given_up.is_given_up (server_of self.now) own file.0 given_up.Extent.All }
    {
        // Each call is given a copy of its own, for the borrow checker.
        let key = own;
        if self.is_hindered(own, file) {
            return false;
        }
        self.is_read_only(key, file)
    }

    // Whether no other key on the file caches writes.
    fn is_read_only(&self, own: Option<LeaseName>, file: FileNo) -> bool
        ensures { result ≡ not (list_any (λ one. is_other_on own file.0 one && (lease_of_open (server_of self.now) one).state.write)
            (server_of self.now).opens) }
    {
        !self.is_any_wanted(Wish::NoWrites, own, file)
    }

    // The wants of these keys.
    fn wants_of(&self, wish: Wish, keys: &[LeaseName]) -> Result<Vec<Want>, Memory>
        ensures { IfOk result (λ wants. wants.items ≡ map (want_of wish (server_of self.now)) keys.now) }
    {
        let mut wants = Vec::new(self.alloc());
        for key in keys {
            let lowered = wish.lowered(self.lease(*key).state);
            wants.push(Want { key: *key, lowered })?;
        }
        Ok(wants)
    }
}
