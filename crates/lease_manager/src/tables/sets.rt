ghost use Rattle.std.specs.Prelude.{◌≡◌, [], drop, IfOk, OnOk, OnErr, if◌then◌else◌};
ghost use Rattle.std.specs.BTreeMap.{is_at};
ghost use Rattle.std.specs.BTreeSet.{insert_key};
ghost use Rattle.std.specs.List.{slice_get};
ghost use Rattle.std.specs.Option.{option_map};
ghost use Rattle.std.specs.Set.{remove_key};
ghost use Rattle.lease_manager.specs.Sets.{values_at, values_or_none};

use lease_state::Memory;
use std::alloc::Global;
use std::collections::{BTreeMap, BTreeSet};

/// A set under each key, such as the FileIds of each client's opens.
#[derive(Debug, Drop)]
pub struct Sets<K: Ord, V: Ord> {
    /// Of the keys that have values.
    by_key: BTreeMap<K, BTreeSet<V>>,
}

impl<K: Ord + Copy, V: Ord + Copy> Sets<K, V> {
    /// No key has values. Allocates nothing.
    pub fn new(alloc: Global) -> Sets<K, V>
        ensures none { (key : K) → values_at K.cmp result key ≡ [] }
        ensures empty { result.by_key.entries ≡ [] }
    {
        Sets {
            by_key: BTreeMap::new(alloc),
        }
    }

    /// The values of the key, if it has any.
    pub fn at(&self, key: K) -> Option<&BTreeSet<V>>
        ensures { values_or_none (option_map (λ values. values.now) result) ≡ values_at K.cmp self.now key }
    {
        self.by_key.get(&key)
    }

    /// The values of the key, rising.
    ///
    /// # Errors
    ///
    /// `Memory` where there is none left for the list.
    pub fn listed(&self, alloc: Global, key: K) -> Result<Vec<V>, Memory>
        ensures { IfOk result (λ list. list.items ≡ values_at K.cmp self.now key) }
    {
        match self.at(key) {
            Some(values) => listed(alloc, values),
            None => Ok(Vec::new(alloc)),
        }
    }

    /// The key has one value more.
    ///
    /// # Errors
    ///
    /// `Memory` where there is none left for it; nothing has changed then.
    pub fn insert(&mut self, alloc: Global, key: K, value: V) -> Result<(), Memory>
        ensures one_more { OnOk result ((other : K) → values_at K.cmp self.new other
            ≡ (if is_at (K.cmp key) other then insert_key V.cmp (values_at K.cmp self.old other) value
            else values_at K.cmp self.old other)) }
        ensures refused { OnErr result ((other : K) → values_at K.cmp self.new other ≡ values_at K.cmp self.old other) }
    {
        match self.by_key.get_mut(&key) {
            Some(values) => {
                match values.insert(value) {
                    Ok(_) => Ok(()),
                    Err(_) => Err(Memory),
                }
            }
            None => {
                let mut values = BTreeSet::new(alloc);
                values.insert(value)?;
                self.by_key.insert(key, values)?;
                Ok(())
            }
        }
    }

    /// The key no longer has the value.
    pub fn remove(&mut self, key: K, value: V)
        ensures { (other : K) → values_at K.cmp self.new other
            ≡ (if is_at (K.cmp key) other then remove_key (is_at (V.cmp value)) (values_at K.cmp self.old other)
            else values_at K.cmp self.old other) }
    {
        match self.by_key.get_mut(&key) {
            Some(values) => {
                values.remove(&value);
                if values.is_empty() {
                    self.by_key.remove(&key);
                }
            }
            None => {}
        }
    }

    /// The key no longer has its first value, if it had one.
    pub fn take_first(&mut self, key: K) -> Option<V>
        ensures first { result ≡ slice_get (values_at K.cmp self.old key) 0 }
        ensures left { (other : K) → values_at K.cmp self.new other
            ≡ (if is_at (K.cmp key) other then drop 1 (values_at K.cmp self.old other) else values_at K.cmp self.old other) }
    {
        match self.by_key.get_mut(&key) {
            Some(values) => {
                let first = taken_first(values);
                if values.is_empty() {
                    self.by_key.remove(&key);
                }
                first
            }
            None => None,
        }
    }

    /// The key no longer has values.
    pub fn clear(&mut self, key: K)
        ensures { (other : K) → values_at K.cmp self.new other
            ≡ (if is_at (K.cmp key) other then [] else values_at K.cmp self.old other) }
    {
        self.by_key.remove(&key);
    }
}

// The first value, which goes.
fn taken_first<V: Ord + Copy>(values: &mut BTreeSet<V>) -> Option<V>
    ensures first { result ≡ slice_get values.old.keys 0 }
    ensures left { values.new.keys ≡ drop 1 values.old.keys }
{
    let first = *values.first()?;
    values.remove(&first);
    Some(first)
}

/// The values, rising.
///
/// # Errors
///
/// `Memory` where there is none left for the list.
pub fn listed<V: Ord + Copy>(alloc: Global, values: &BTreeSet<V>) -> Result<Vec<V>, Memory>
    ensures { IfOk result (λ list. list.items ≡ values.now.keys) }
{
    let mut list = Vec::new(alloc);
    for value in values {
        list.push(*value)?;
    }
    Ok(list)
}
