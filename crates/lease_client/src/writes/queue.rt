ghost use Rattle.std.specs.Prelude.{◌≡◌, ◌<◌, ◌≤◌, ◌-◌, ◌++◌, ◌∷◌, [], true, Some, OnOk, IfOk, find, filter, get_or, length, List};
ghost use Rattle.std.specs.List.{list_all, list_any, position, remove};
ghost use Rattle.lease_state.specs.Content.{patches};
ghost use Rattle.lease_model.specs.client.State.{Pending, patches_of};
ghost use Rattle.lease_model.specs.client.Taken as rules;
ghost use Rattle.lease_model.specs.values.Lists.{without, is_empty};
ghost use Rattle.lease_client.specs.Writes.{IsRising, IsShownIfAny};

use crate::entry::Pending;
use crate::values::shared_bytes::SharedBytes;
use crate::writes::shown::Shown;
use lease_state::Memory;
use std::alloc::Global;
use std::collections::VecDeque;
use std::marker::Model;
use std::mem;

/// Writes that aren't answered, in order.
// docs/DECISIONS.md: "Unanswered writes are a queue".
#[derive(Debug, Drop)]
pub struct Writes {
    items: VecDeque<Pending>,
    /// No number is below the one before it, so that numbers can be searched by halves.
    is_rising: bool,
    /// All of them are buffered.
    is_buffered: bool,
    /// What was seen last of a file with them.
    shown: Option<Shown>,
}

impl Model for Writes {
    ghost use Rattle.std.specs.Prelude.{List};
    ghost use Rattle.lease_model.specs.client.State as model;
    ghost use Rattle.lease_client.specs.Writes.{AreKept};

    ghost Value = { List model.Pending };

    ghost view = { λ writes. writes.items.items };

    ghost invariant = { λ writes. AreKept writes.items.items writes.is_rising writes.is_buffered writes.shown };
}

impl Writes {
    /// No write. Allocates nothing.
    pub fn new(alloc: Global) -> Writes
        ensures { result ≡ [] }
    {
        Writes {
            items: VecDeque::new(alloc),
            is_rising: true,
            is_buffered: true,
            shown: None,
        }
    }

    /// The allocator of the list.
    pub fn alloc(&self) -> Global {
        *self.items.allocator()
    }

    /// Whether there are none.
    pub fn is_empty(&self) -> bool
        ensures { result ≡ is_empty self.now }
    {
        self.items.is_empty()
    }

    /// The writes, in two parts.
    pub fn as_slices(&self) -> (&[Pending], &[Pending])
        ensures { result.0.now ++ result.1.now ≡ self.now }
    {
        self.items.as_slices()
    }

    /// One more write, after the others.
    ///
    /// # Errors
    ///
    /// `Memory` where there is none left for it.
    pub fn push(&mut self, write: Pending) -> Result<(), Memory>
        ensures { OnOk result (self.new ≡ self.old ++ write ∷ []) }
    {
        let is_rising = self.rises_to(&write);
        let is_buffered = self.is_buffered_with(&write);
        self.items.push_back(write)?;
        self.is_rising = is_rising;
        self.is_buffered = is_buffered;
        Ok(())
    }

    // Whether the numbers rise, up to that of one more write.
    fn rises_to(&self, write: &Pending) -> bool
        ensures { result ≡ true → IsRising (self.now ++ write.now ∷ []) }
    {
        if !self.is_rising {
            return false;
        }
        match self.items.back() {
            Some(last) => last.number <= write.number,
            None => true,
        }
    }

    // Whether all are buffered, and one more write too.
    fn is_buffered_with(&self, write: &Pending) -> bool
        ensures { result ≡ true → list_all (λ w. w.buffered) (self.now ++ write.now ∷ []) ≡ true }
    {
        self.is_buffered && write.buffered
    }

    /// The other writes go after these. Where there are none here, none of the others moves.
    ///
    /// # Errors
    ///
    /// `Memory` where there is none left for them here.
    pub fn append(&mut self, others: &mut Writes) -> Result<(), Memory>
        ensures these { OnOk result (self.new ≡ self.old ++ others.old) }
        ensures others { OnOk result (others.new ≡ []) }
    {
        if self.is_empty() {
            let alloc = self.alloc();
            *self = mem::replace(others, Writes::new(alloc));
            return Ok(());
        }
        for write in others.take_items() {
            self.push(write)?;
        }
        Ok(())
    }

    // Takes all of the writes out.
    fn take_items(&mut self) -> VecDeque<Pending>
        ensures items { result.items ≡ self.old }
        ensures rest { self.new ≡ [] }
    {
        let alloc = self.alloc();
        self.shown = None;
        mem::replace(&mut self.items, VecDeque::new(alloc))
    }

    /// The writes are given up. Allocates nothing.
    pub fn clear(&mut self)
        ensures { self.new ≡ [] }
    {
        self.items.clear();
        self.is_rising = true;
        self.is_buffered = true;
        self.shown = None;
    }

    /// Whether a write has this number.
    pub fn has(&self, number: u64) -> bool
        ensures { result ≡ list_any (rules.is_numbered number) self.now }
    {
        self.place_of(number).is_some()
    }

    // Where the first write of this number is.
    fn place_of(&self, number: u64) -> Option<usize>
        ensures { result ≡ position (rules.is_numbered number) self.now }
    {
        if self.is_rising {
            self.place_by_halves(number)
        } else {
            self.items.iter().position(|write| write.number == number)
        }
    }

    // The same, where the numbers rise.
    fn place_by_halves(&self, number: u64) -> Option<usize>
        requires { IsRising self.now }
        ensures { result ≡ position (rules.is_numbered number) self.now }
    {
        let place = self.items.partition_point(|write| write.number < number);
        match self.items.get(place) {
            Some(write) if write.number == number => Some(place),
            _ => None,
        }
    }

    /// Takes the first write of this number out, if there is one.
    pub fn take_numbered(&mut self, number: u64) -> Option<Pending>
        ensures found { result ≡ find (rules.is_numbered number) self.old }
        ensures rest { self.new ≡ rules.sent_without number self.old }
    {
        match self.place_of(number) {
            Some(place) => self.take_at(place),
            None => None,
        }
    }

    // Takes the write at this place out.
    fn take_at(&mut self, place: usize) -> Option<Pending>
        requires { place < length self.old }
        ensures write { (d : Pending) → result ≡ Some (get_or self.old place d) }
        ensures rest { self.new ≡ remove self.old place }
    {
        let alloc = self.alloc();
        let shown = self.shown.take();
        let write = self.items.remove(place)?;
        self.shown = shown_without(alloc, shown, place, &write);
        Some(write)
    }

    /// The buffered writes, and the others. Where all are buffered, none of them moves.
    ///
    /// # Errors
    ///
    /// `Memory` where there is none left for the lists, and never where all are buffered.
    // docs/DECISIONS.md: "Writes that are kept at a notice".
    pub fn split_buffered(self) -> Result<(Writes, Writes), Memory>
        ensures buffered { IfOk result (λ r. r.0 ≡ filter (λ write. write.buffered) self) }
        ensures others { IfOk result (λ r. r.1 ≡ without (λ write. write.buffered) self) }
    {
        let alloc = self.alloc();
        let mut writes = self;
        if writes.is_buffered {
            writes.shown = None;
            return Ok((writes, Writes::new(alloc)));
        }
        split(alloc, writes.take_items())
    }

    /// The bytes with the writes.
    ///
    /// # Errors
    ///
    /// `Memory` where there is none left for them.
    pub fn shown_on(&mut self, base: &SharedBytes) -> Result<SharedBytes, Memory>
        ensures same { self.new ≡ self.old }
        ensures shown { IfOk result (λ bytes. bytes ≡ patches base.now (patches_of self.old)) }
    {
        if self.is_empty() {
            self.shown = None;
            return base.share();
        }
        let alloc = self.alloc();
        let shown = match self.shown.take() {
            Some(shown) if shown.is_over(base) => shown.with_all(alloc, &self.items)?,
            _ => Shown::anew(alloc, base, &self.items)?,
        };
        let bytes = shown.share()?;
        self.shown = Some(shown);
        Ok(bytes)
    }
}

// The buffered ones of these writes, and the others.
fn split(alloc: Global, writes: VecDeque<Pending>) -> Result<(Writes, Writes), Memory>
    ensures buffered { IfOk result (λ r. r.0 ≡ filter (λ write. write.buffered) writes.items) }
    ensures others { IfOk result (λ r. r.1 ≡ without (λ write. write.buffered) writes.items) }
{
    let mut buffered = Writes::new(alloc);
    let mut others = Writes::new(alloc);
    for write in writes {
        if write.buffered {
            buffered.push(write)?;
        } else {
            others.push(write)?;
        }
    }
    Ok((buffered, others))
}

// What is shown after the write at this place was taken out of writes.
fn shown_without(
    alloc: Global,
    shown: Option<Shown>,
    place: usize,
    write: &Pending,
) -> Option<Shown>
    ensures { (writes : List Pending) → place < length writes → get_or writes place write.now ≡ write.now
        → IsShownIfAny writes shown → IsShownIfAny (remove writes place) result }
{
    match shown {
        Some(shown) => shown.without(alloc, place, write),
        None => None,
    }
}
