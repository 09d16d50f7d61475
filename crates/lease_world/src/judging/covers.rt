ghost use Rattle.std.specs.Prelude.{◌≡◌, ◌≢◌, ◌⊎◌, ◌<◌, ◌≤◌, ◌-◌, ◌++◌, [], ℕ, List, get_or, length, map, slice_index, vec_len};
ghost use Rattle.std.specs.Prelude.{OnOk, MatchBool};
ghost use Rattle.lease_world.specs.declared.judging.covers.Cover.{Cover};
ghost use Rattle.lease_world.specs.judge.Covers.{layer_of, stack_in, seen_byte, Shows, ShowsCovered, HasLayer, IsUncovered};
ghost use Rattle.lease_world.specs.judge.Covers.{EndsCovered, AreLinked, AreTops, layers_under};
ghost use Rattle.lease_world.specs.judge.Seen.{is_open};

use crate::judging::numbers::Numbers;
use lease_state::{Memory, Patch};
use std::alloc::Global;
use std::marker::Model;

/// A byte of a write.
#[derive(Clone, Copy, Debug)]
pub struct Layer {
    /// The number of the write.
    pub number: u64,
    pub byte: u8,
}

// A layer that covers a position, and which cover lies under it. Covers count from 1; 0 is none.
#[derive(Clone, Copy, Debug)]
struct Cover {
    layer: Layer,
    below: usize,
}

/// For each position of a file, as far as writes cover it, the bytes of these writes there, the last on top.
// docs/DECISIONS.md: "Writes cover positions, as stacks that are linked".
#[derive(Debug, Drop)]
pub struct Covers {
    covers: Vec<Cover>,
    /// By positions, the topmost covers.
    tops: Vec<usize>,
}

impl Model for Covers {
    ghost use Rattle.std.specs.Prelude.{List, map};
    ghost use Rattle.lease_world.specs.declared.judging.covers.Layer.{Layer};
    ghost use Rattle.lease_world.specs.judge.Covers.{AreLinked, AreTops, layers_under};

    ghost Value = { List (List Layer) };

    ghost view = { λ covers. map (layers_under covers.covers.items) covers.tops.items };

    ghost invariant = { λ covers. AreLinked covers.covers.items × AreTops covers.covers.items covers.tops.items };
}

impl Covers {
    /// No position is covered. Allocates nothing.
    pub fn new(alloc: Global) -> Covers
        ensures { result ≡ [] }
    {
        Covers {
            covers: Vec::new(alloc),
            tops: Vec::new(alloc),
        }
    }

    /// As far as positions are covered.
    pub fn len(&self) -> usize
        ensures { result ≡ length self.now }
    {
        self.tops.len()
    }

    // A layer covers the position, on top of those that do.
    fn cover(&mut self, position: usize, layer: Layer) -> Result<(), Memory>
        ensures { OnOk result (HasLayer position layer self.old self.new) }
    {
        reach(&mut self.tops, position)?;
        let below = self.tops[position];
        let count = self.covers.len();
        self.covers.push(Cover { layer, below })?;
        self.tops[position] = count + 1;
        Ok(())
    }

    /// A write covers the positions of its bytes, on top.
    ///
    /// # Errors
    ///
    /// `Memory` where there is none left.
    pub fn lay(&mut self, number: u64, patch: &Patch) -> Result<(), Memory>
        ensures { OnOk result ((position : ℕ) → stack_in self.new position
            ≡ layer_of position (record { number = number; patch = patch.now }) ++ stack_in self.old position) }
    {
        let bytes = patch.bytes.as_slice();
        for place in 0..bytes.len() {
            let layer = Layer {
                number,
                byte: bytes[place],
            };
            self.cover(patch.offset as usize + place, layer)?;
        }
        Ok(())
    }

    /// Settled writes are taken off where they lie on top, and positions at the end that nothing covers.
    pub fn uncover(&mut self, settled: &Numbers)
        ensures uncovered { (position : ℕ)
            → IsUncovered (is_open settled.now) (stack_in self.old position) (stack_in self.new position) }
        ensures ends { EndsCovered self.new }
    {
        uncover_each(&self.covers, &mut self.tops, settled);
        self.tops.truncate(covered(&self.tops));
        if self.tops.is_empty() {
            self.covers.clear();
        }
    }

    // The byte that is seen at a position as far as these are covered.
    fn byte_at(&self, base: &[u8], position: usize) -> u8
        requires { position < length self.now }
        ensures { result ≡ seen_byte base.now (stack_in self.now position) position }
    {
        let top = self.tops[position];
        if top == 0 {
            byte_or_zero(base, position)
        } else {
            self.covers[top - 1].layer.byte
        }
    }

    // Whether these are the bytes as far as positions are covered.
    fn shows_covered(&self, base: &[u8], bytes: &[u8]) -> bool
        requires { length self.now ≤ length bytes.now }
        ensures { MatchBool result (ShowsCovered base.now self.now bytes.now) (ShowsCovered base.now self.now bytes.now → ⊥) }
    {
        for position in 0..self.tops.len() {
            if self.byte_at(base, position) != bytes[position] {
                return false;
            }
        }
        true
    }

    /// Whether these are the bytes of the base with the writes over them.
    pub fn shows(&self, base: &[u8], bytes: &[u8]) -> bool
        ensures { MatchBool result (Shows base.now self.now bytes.now) (Shows base.now self.now bytes.now → ⊥) }
    {
        let covered = self.len();
        if bytes.len() != base.len().max(covered) {
            return false;
        }
        if !self.shows_covered(base, bytes) {
            return false;
        }
        bytes[covered..] == base[covered.min(base.len())..]
    }
}

fn byte_or_zero(bytes: &[u8], position: usize) -> u8
    ensures { result ≡ slice_index bytes.now position }
{
    if position < bytes.len() {
        bytes[position]
    } else {
        0
    }
}

// The positions up to this one have a place.
#[tactic(auto, using(crate::proofs::Linked::stack_more, crate::proofs::Linked::tops_more))]
fn reach(tops: &mut Vec<usize>, position: usize) -> Result<(), Memory>
    ensures there { OnOk result (position < vec_len tops.new) }
    ensures stacks { (covers : List Cover) (n : ℕ) → stack_in (map (layers_under covers) tops.new.items) n
        ≡ stack_in (map (layers_under covers) tops.old.items) n }
    ensures tops { (covers : List Cover) → AreTops covers tops.old.items → AreTops covers tops.new.items }
{
    while tops.len() <= position {
        tops.push(0)?;
    }
    Ok(())
}

// The topmost cover of those from this one down whose write isn't settled, or 0.
fn uncovered(covers: &[Cover], top: usize, settled: &Numbers) -> usize
    requires linked { AreLinked covers.now }
    requires inside { top ≤ length covers.now }
    ensures inside { result ≤ length covers.now }
    ensures uncovered { IsUncovered (is_open settled.now) (layers_under covers.now top) (layers_under covers.now result) }
{
    let mut top = top;
    while top > 0 {
        let cover = &covers[top - 1];
        if !settled.contains(cover.layer.number) {
            return top;
        }
        top = cover.below;
    }
    top
}

// At each position the settled writes that lie on top are taken off.
fn uncover_each(covers: &[Cover], tops: &mut Vec<usize>, settled: &Numbers)
    requires linked { AreLinked covers.now }
    requires tops { AreTops covers.now tops.old.items }
    ensures tops { AreTops covers.now tops.new.items }
    ensures uncovered { (n : ℕ) → IsUncovered (is_open settled.now) (stack_in (map (layers_under covers.now) tops.old.items) n)
        (stack_in (map (layers_under covers.now) tops.new.items) n) }
{
    for position in 0..tops.len() {
        tops[position] = uncovered(covers, tops[position], settled);
    }
}

// How far positions are covered.
fn covered(tops: &[usize]) -> usize
    ensures within { result ≤ length tops.now }
    ensures rest { (n : ℕ) → result ≤ n → get_or tops.now n 0 ≡ 0 }
    ensures last { (result ≡ 0) ⊎ (get_or tops.now (result - 1) 0 ≢ 0) }
{
    let mut count = tops.len();
    while count > 0 {
        if tops[count - 1] != 0 {
            return count;
        }
        count -= 1;
    }
    0
}
