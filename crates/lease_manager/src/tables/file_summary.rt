ghost use Rattle.std.specs.Prelude.{◌≡◌, ℕ, true, false, not, ◌&&◌, ◌||◌, if◌then◌else◌, List, OnOk};
ghost use Rattle.std.specs.List.{list_any};
ghost use Rattle.lease_model.specs.server.Allowed.{is_other_on};
ghost use Rattle.lease_model.specs.server.State.{Open, Lease};
ghost use Rattle.lease_model.specs.values.Keys.{Key, key_eq};
ghost use Rattle.std.specs.BTreeSet.{contains};
ghost use Rattle.lease_manager.specs.KeyOrder.{key_order};
ghost use Rattle.lease_manager.specs.Remaining.{own_remaining, remains};
ghost use Rattle.lease_manager.specs.Wanted.{is_own_key, is_hindering, keys_for, own_count, own_hindering};
ghost use Rattle.lease_manager.specs.Summaries.{SumsUp, Gains, Loses, IsMarked, is_on};

use crate::tables::lease_marks::LeaseMarks;
use crate::tables::tally::Tally;
use crate::values::key::LeaseName;
use crate::values::open::OpenEntry;
use crate::values::want::Wish;
use lease_state::Memory;
use std::alloc::Global;
use std::collections::BTreeSet;

/// What a manager keeps of a file that is open: counts of the opens on it, and their keys. An open
/// without a key counts as a key of its own (profile).
// docs/DECISIONS.md: "Counts and sets of a file's summary".
#[derive(Debug, Drop)]
pub struct FileSummary {
    pub tally: Tally,
    /// The keys of the opens, in the order in which their leases are broken.
    pub keys: BTreeSet<LeaseName>,
    /// How many opens have no key.
    pub keyless: u64,
    /// Those of the keys whose leases hold `WRITE_CACHING`: one at most, by the laws of servers.
    pub writers: BTreeSet<LeaseName>,
    /// Those of the keys whose leases hold `HANDLE_CACHING`.
    pub handlers: BTreeSet<LeaseName>,
    /// Those of these whose leases are breaking.
    pub breaking: BTreeSet<LeaseName>,
    /// Those of the keys whose leases hinder no write under another key: they hold nothing, or are
    /// breaking to nothing. Few do, so these are kept, and not the others.
    pub harmless: BTreeSet<LeaseName>,
}

impl FileSummary {
    /// Of a file without an open.
    pub fn new(alloc: Global) -> FileSummary
        ensures { (file : ℕ) (opens : List Open) (leases : Key → Lease)
            → list_any (is_on file) opens ≡ false → SumsUp file opens leases result }
    {
        FileSummary {
            tally: Tally::none(),
            keys: BTreeSet::new(alloc),
            keyless: 0,
            writers: BTreeSet::new(alloc),
            handlers: BTreeSet::new(alloc),
            breaking: BTreeSet::new(alloc),
            harmless: BTreeSet::new(alloc),
        }
    }

    /// One more open, of whose lease this is marked.
    ///
    /// # Errors
    ///
    /// `Memory` where there is none left for the keys.
    pub fn gain(&mut self, one: &OpenEntry, marks: LeaseMarks) -> Result<(), Memory>
        ensures { OnOk result (Gains one.now marks self.old self.new) }
    {
        self.tally = self.tally.raised(one);
        match one.key() {
            Some(key) => {
                self.gain_key(key, marks)?;
                Ok(())
            }
            None => {
                self.keyless = self.keyless.saturating_add(1);
                Ok(())
            }
        }
    }

    // The key has an open.
    fn gain_key(&mut self, key: LeaseName, marks: LeaseMarks) -> Result<(), Memory>
        ensures tally { OnOk result (self.new.tally ≡ self.old.tally) }
        ensures keyless { OnOk result (self.new.keyless ≡ self.old.keyless) }
        ensures keys { OnOk result ((other : Key) → contains key_order self.new.keys other
            ≡ (key_eq other key || contains key_order self.old.keys other)) }
        ensures writers { OnOk result ((other : Key) → contains key_order self.new.writers other
            ≡ (if key_eq other key then marks.writes else contains key_order self.old.writers other)) }
        ensures handlers { OnOk result ((other : Key) → contains key_order self.new.handlers other
            ≡ (if key_eq other key then marks.handles else contains key_order self.old.handlers other)) }
        ensures breaking { OnOk result ((other : Key) → contains key_order self.new.breaking other
            ≡ (if key_eq other key then marks.breaks else contains key_order self.old.breaking other)) }
        ensures harmless { OnOk result ((other : Key) → contains key_order self.new.harmless other
            ≡ (if key_eq other key then marks.harmless else contains key_order self.old.harmless other)) }
    {
        self.keys.insert(key)?;
        self.mark(key, marks)?;
        Ok(())
    }

    /// One open less, the last of its key or not.
    pub fn lose(&mut self, one: &OpenEntry, last: bool)
        ensures { Loses one.now last self.old self.new }
    {
        self.tally = self.tally.lowered(one);
        match one.key() {
            Some(key) => self.lose_key(key, last),
            None => self.keyless = self.keyless.saturating_sub(1),
        }
    }

    // The key has an open less, its last or not.
    fn lose_key(&mut self, key: LeaseName, last: bool)
        ensures tally { self.new.tally ≡ self.old.tally }
        ensures keyless { self.new.keyless ≡ self.old.keyless }
        ensures keys { (other : Key) → contains key_order self.new.keys other
            ≡ (contains key_order self.old.keys other && not (key_eq other key && last)) }
        ensures writers { (other : Key) → contains key_order self.new.writers other
            ≡ (contains key_order self.old.writers other && not (key_eq other key && last)) }
        ensures handlers { (other : Key) → contains key_order self.new.handlers other
            ≡ (contains key_order self.old.handlers other && not (key_eq other key && last)) }
        ensures breaking { (other : Key) → contains key_order self.new.breaking other
            ≡ (contains key_order self.old.breaking other && not (key_eq other key && last)) }
        ensures harmless { (other : Key) → contains key_order self.new.harmless other
            ≡ (contains key_order self.old.harmless other && not (key_eq other key && last)) }
    {
        if last {
            self.keys.remove(&key);
            self.writers.remove(&key);
            self.handlers.remove(&key);
            self.breaking.remove(&key);
            self.harmless.remove(&key);
        }
    }

    /// This is marked of the lease of the key.
    ///
    /// # Errors
    ///
    /// `Memory` where there is none left for the keys.
    pub fn mark(&mut self, key: LeaseName, marks: LeaseMarks) -> Result<(), Memory>
        ensures { OnOk result (IsMarked key marks self.old self.new) }
    {
        set_member(&mut self.writers, key, marks.writes)?;
        set_member(&mut self.handlers, key, marks.handles)?;
        set_member(&mut self.breaking, key, marks.breaks)?;
        set_member(&mut self.harmless, key, marks.harmless)?;
        Ok(())
    }

    /// Whether an open on the file has another key than the request.
    pub fn has_other(&self, own: Option<LeaseName>) -> bool
        ensures { (file : ℕ) (opens : List Open) (leases : Key → Lease) → SumsUp file opens leases self.now
            → result ≡ list_any (is_other_on own file) opens }
    {
        self.keyless > 0 || self.keys.len() > self.own_count(own)
    }

    // How many of the keys are the request's.
    fn own_count(&self, own: Option<LeaseName>) -> usize
        ensures { result ≡ own_count own self.now }
    {
        match own {
            Some(key) => { if self.keys.contains(&key) { 1 } else { 0 } }
            None => 0,
        }
    }

    /// Whether the lease of another key than the request's hinders writes.
    // docs/DECISIONS.md: "The leases that hinder no write are a set".
    pub fn is_hindered(&self, own: Option<LeaseName>) -> bool
        ensures { (file : ℕ) (opens : List Open) (leases : Key → Lease) → SumsUp file opens leases self.now
            → result ≡ list_any (λ key. not (is_own_key own key) && is_hindering self.now key) self.now.keys.keys }
    {
        let hindering = self.keys.len().saturating_sub(self.harmless.len());
        hindering > self.own_hindering(own)
    }

    // How many of the keys whose leases hinder writes are the request's.
    fn own_hindering(&self, own: Option<LeaseName>) -> usize
        ensures { result ≡ own_hindering own self.now }
    {
        match own {
            Some(key) => { if self.is_hindering(key) { 1 } else { 0 } }
            None => 0,
        }
    }

    // Whether the key is on the file, and its lease hinders writes.
    fn is_hindering(&self, key: LeaseName) -> bool
        ensures { result ≡ is_hindering self.now key }
    {
        self.keys.contains(&key) && !self.harmless.contains(&key)
    }

    /// Whether each of the leases of other keys than the request's that hold `HANDLE_CACHING` is breaking.
    pub fn are_handlers_breaking(&self, own: Option<LeaseName>) -> bool
        ensures { (file : ℕ) (opens : List Open) (leases : Key → Lease) → SumsUp file opens leases self.now
            → result ≡ true → (key : Key) → not (is_own_key own key) ≡ true
            → contains key_order self.now.handlers key ≡ true → contains key_order self.now.breaking key ≡ true }
    {
        let unbroken = self.handlers.len().saturating_sub(self.breaking.len());
        unbroken <= own_remaining(own, &self.handlers, &self.breaking)
    }

    /// The keys among which are all whose leases can be wanted.
    pub fn keys_for(&self, wish: Wish) -> &BTreeSet<LeaseName>
        ensures { result.now ≡ keys_for wish self.now }
    {
        match wish {
            Wish::NoWrites => &self.writers,
            Wish::NoHandles { .. } | Wish::AnyHandles => &self.handlers,
            Wish::Nothing => &self.keys,
        }
    }
}

// How many of the keys that aren't marked are the request's.
fn own_remaining(
    own: Option<LeaseName>,
    keys: &BTreeSet<LeaseName>,
    marked: &BTreeSet<LeaseName>,
) -> usize
    ensures { result ≡ own_remaining own keys.now marked.now }
{
    match own {
        Some(key) => { if remains(keys, marked, key) { 1 } else { 0 } }
        None => 0,
    }
}

fn remains(keys: &BTreeSet<LeaseName>, marked: &BTreeSet<LeaseName>, key: LeaseName) -> bool
    ensures { result ≡ remains keys.now marked.now key }
{
    keys.contains(&key) && !marked.contains(&key)
}

// The key is one of the keys, or isn't.
fn set_member(keys: &mut BTreeSet<LeaseName>, key: LeaseName, is_one: bool) -> Result<(), Memory>
    ensures { OnOk result ((other : Key) → contains key_order keys.new other
        ≡ (if key_eq other key then is_one else contains key_order keys.old other)) }
{
    if is_one {
        keys.insert(key)?;
    } else {
        keys.remove(&key);
    }
    Ok(())
}
