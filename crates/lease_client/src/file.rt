ghost use Rattle.std.specs.Prelude.{◌≡◌, ◌++◌, ◌∷◌, [], Some, None, IfOk, OnOk, Option, List, ℕ, MatchOption};
ghost use Rattle.std.specs.Option.{option_map};
ghost use Rattle.lease_state.specs.Content.{patch};
ghost use Rattle.lease_model.specs.client.State.{view};

use crate::entry::Pending;
use crate::values::shared_bytes::SharedBytes;
use crate::writes::queue::Writes;
use lease_state::{Memory, Patch};
use std::marker::Model;

/// What a client keeps of the bytes of a file that is open: the file as last known, and the buffered
/// writes that aren't sent.
// docs/DECISIONS.md: "The file as last known is shared bytes".
#[derive(Debug, Drop)]
pub struct File {
    base: Option<SharedBytes>,
    /// In order.
    unsent: Writes,
}

impl Model for File {
    ghost use Rattle.lease_client.specs.Files as files;

    ghost Value = { files.File };

    ghost view = { λ file. record { base = file.base; unsent = file.unsent } };
}

impl File {
    /// A file of which nothing is known but these unsent writes. Allocates nothing.
    pub fn unknown(unsent: Writes) -> File
        ensures { result ≡ record { base = None; unsent = unsent } }
    {
        File { base: None, unsent }
    }

    /// The unsent writes, in order.
    pub fn unsent(&self) -> &Writes
        ensures { result.now ≡ self.now.unsent }
    {
        &self.unsent
    }

    /// The unsent writes, in order, without the file. Allocates nothing.
    pub fn into_unsent(self) -> Writes
        ensures { result ≡ self.unsent }
    {
        let File { unsent, .. } = self;
        unsent
    }

    /// A write is buffered, after the others.
    ///
    /// # Errors
    ///
    /// `Memory` where there is none left for it.
    pub fn buffer(&mut self, write: Pending) -> Result<(), Memory>
        ensures { OnOk result (self.new ≡ record self.old { unsent = self.old.unsent ++ write ∷ [] }) }
    {
        self.unsent.push(write)
    }

    /// The unsent writes go to the end of those that are sent.
    ///
    /// # Errors
    ///
    /// `Memory` where there is none left for them there.
    pub fn send(&mut self, sent: &mut Writes) -> Result<(), Memory>
        ensures file { OnOk result (self.new ≡ record self.old { unsent = [] }) }
        ensures sent { OnOk result (sent.new ≡ sent.old ++ self.old.unsent) }
    {
        sent.append(&mut self.unsent)
    }

    /// The unsent writes are given up. Allocates nothing.
    pub fn give_up_unsent(&mut self)
        ensures { self.new ≡ record self.old { unsent = [] } }
    {
        self.unsent.clear();
    }

    /// These are the bytes as last known.
    pub fn learn(&mut self, base: SharedBytes)
        ensures { self.new ≡ record self.old { base = Some base } }
    {
        self.base = Some(base);
    }

    /// The bytes are known no more.
    pub fn forget(&mut self)
        ensures { self.new ≡ record self.old { base = None } }
    {
        self.base = None;
    }

    /// The bytes, if they are known, have this change from now on.
    ///
    /// # Errors
    ///
    /// `Memory` where the file grows or another value holds its bytes, and there is none left.
    pub fn change(&mut self, change: &Patch) -> Result<(), Memory>
        ensures { OnOk result (self.new ≡ record self.old {
          base = option_map (λ base. patch base change.now) self.old.base;
        }) }
    {
        if let Some(base) = self.base.take() {
            self.base = Some(base.patched(self.unsent.alloc(), change)?);
        }
        Ok(())
    }

    /// The file with the unanswered writes, those that are sent first; `None` where its bytes aren't
    /// known.
    ///
    /// # Errors
    ///
    /// `Memory` where there is none left for it.
    pub fn view(&mut self, sent: &mut Writes) -> Option<Result<SharedBytes, Memory>>
        ensures file { self.new ≡ self.old }
        ensures sent { sent.new ≡ sent.old }
        ensures seen { MatchOption result (self.old.base ≡ None) (λ seen. (base : List ℕ) × (self.old.base ≡ Some base)
            × IfOk seen (λ bytes. bytes ≡ view base sent.old self.old.unsent)) }
    {
        match &self.base {
            Some(base) => Some(seen_on(base, sent, &mut self.unsent)),
            None => None,
        }
    }

    /// These bytes, in place of the file's, with the unanswered writes, those that are sent first.
    ///
    /// # Errors
    ///
    /// `Memory` where there is none left for them.
    pub fn over(&mut self, base: &SharedBytes, sent: &mut Writes) -> Result<SharedBytes, Memory>
        ensures file { self.new ≡ self.old }
        ensures sent { sent.new ≡ sent.old }
        ensures seen { IfOk result (λ bytes. bytes ≡ view base.now sent.old self.old.unsent) }
    {
        seen_on(base, sent, &mut self.unsent)
    }
}

// The bytes with the writes that are sent, and then with the others.
#[tactic(auto, using(crate::proofs::Views::patched_on))]
fn seen_on(
    base: &SharedBytes,
    sent: &mut Writes,
    unsent: &mut Writes,
) -> Result<SharedBytes, Memory>
    ensures sent { sent.new ≡ sent.old }
    ensures unsent { unsent.new ≡ unsent.old }
    ensures seen { IfOk result (λ bytes. bytes ≡ view base.now sent.old unsent.old) }
{
    let under = sent.shown_on(base)?;
    unsent.shown_on(&under)
}
