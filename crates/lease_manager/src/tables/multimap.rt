ghost use Rattle.std.specs.Prelude.{◌≡◌, [], IfOk, OnOk, if◌then◌else◌};
ghost use Rattle.std.specs.BTreeMap.{is_at};
ghost use Rattle.std.specs.BTreeSet.{insert_key};
ghost use Rattle.std.specs.Set.{remove_key};
ghost use Rattle.lease_manager.specs.Multimaps.{IsAboveFirst, listed_at};

use crate::tables::sets::Sets;
use lease_state::Memory;
use std::alloc::Global;
use std::cmp::Ordering;
use std::collections::BTreeMap;

/// Rising values under each key, of which most have one: such as the FileIds of each lease's opens. A key's first value stands
/// by itself, so that a set is made where there is a second one.
#[derive(Debug, Drop)]
pub struct Multimap<K: Ord, V: Ord> {
    /// Of the keys that have values.
    firsts: BTreeMap<K, V>,
    /// Of the keys that have more than one.
    others: Sets<K, V>,
}

impl<K: Ord + Copy, V: Ord + Copy> Multimap<K, V> {
    /// No key has values. Allocates nothing.
    pub fn new(alloc: Global) -> Multimap<K, V>
        ensures { (key : K) → listed_at K.cmp result key ≡ [] }
    {
        Multimap {
            firsts: BTreeMap::new(alloc),
            others: Sets::new(alloc),
        }
    }

    /// The values of the key, rising.
    ///
    /// # Errors
    ///
    /// `Memory` where there is none left for the list.
    pub fn listed(&self, alloc: Global, key: K) -> Result<Vec<V>, Memory>
        ensures { IfOk result (λ list. list.items ≡ listed_at K.cmp self.now key) }
    {
        match self.firsts.get(&key) {
            Some(first) => {
                let mut list = self.others.listed(alloc, key)?;
                list.insert(0, *first)?;
                Ok(list)
            }
            None => Ok(Vec::new(alloc)),
        }
    }

    /// The key has one value more, which is above its first.
    ///
    /// # Errors
    ///
    /// `Memory` where there is none left for it.
    pub fn insert(&mut self, alloc: Global, key: K, value: V) -> Result<(), Memory>
        ensures { OnOk result (IsAboveFirst K.cmp V.cmp self.old key value → (other : K) → listed_at K.cmp self.new other
            ≡ (if is_at (K.cmp key) other then insert_key V.cmp (listed_at K.cmp self.old other) value
            else listed_at K.cmp self.old other)) }
    {
        match self.firsts.get(&key) {
            Some(_) => self.others.insert(alloc, key, value),
            None => {
                self.others.clear(key);
                self.firsts.insert(key, value)?;
                Ok(())
            }
        }
    }

    /// The key no longer has the value.
    pub fn remove(&mut self, key: K, value: V)
        ensures { (other : K) → listed_at K.cmp self.new other
            ≡ (if is_at (K.cmp key) other then remove_key (is_at (V.cmp value)) (listed_at K.cmp self.old other)
            else listed_at K.cmp self.old other) }
    {
        match self.firsts.get_mut(&key) {
            Some(first) => match value.cmp(first) {
                Ordering::Equal => match self.others.take_first(key) {
                    Some(next) => *first = next,
                    None => {
                        self.firsts.remove(&key);
                    }
                },
                _ => self.others.remove(key, value),
            },
            None => {}
        }
    }
}
