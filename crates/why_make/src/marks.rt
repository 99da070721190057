//! Marks of positions.
ghost use Rattle.std.specs.Prelude.{◌≡◌, ◌+◌, ◌*◌, ◌<◌, ℕ, false, true, length, replicate, slice_get, slice_set, Some, IfOk};
ghost use Rattle.why_make.specs.Marked.{AreFree};

use attr_ids::{NoMemory, PosId};
use std::alloc::Global;
use std::marker::Model;

/// How many positions a block has.
pub const BLOCK: usize = 2048;

/// A mark or none for each position, seen by contracts as a list. Positions stand in blocks, so that a sweep passes
/// over a block in which no position has a mark.
#[derive(Drop)]
pub(crate) struct Marks {
    marks: Vec<bool>,
    blocks: Vec<bool>,
}

impl Model for Marks {
    ghost use Rattle.std.specs.Prelude.{List, Bool};
    ghost use Rattle.why_make.specs.Marked.{AreBlocked};

    ghost Value = { List Bool };

    ghost view = { λ all. all.marks.items };

    ghost invariant = { λ all. AreBlocked all.marks.items all.blocks.items };
}

/// Whether one of the positions of a block has a mark.
fn is_any(marks: &[bool], from: usize, to: usize) -> bool
    ensures { result ≡ false → AreFree marks.now from to }
{
    for q in from..to {
        if q < marks.len() && marks[q] {
            return true;
        }
    }
    false
}

impl Marks {
    /// A mark for each of so many positions.
    pub(crate) fn new(alloc: Global, count: u32) -> Result<Marks, NoMemory>
        ensures { IfOk result (λ marks. marks ≡ replicate count true) }
    {
        let marks = vec![in alloc; true; count as usize]?;
        let blocks = vec![in alloc; true; count as usize / BLOCK + 1]?;
        Ok(Marks { marks, blocks })
    }

    /// Takes the mark of a position away, and says whether it had one.
    pub(crate) fn take(&mut self, p: PosId) -> bool
        requires { p.0 < length self.old }
        ensures was { slice_get self.old p.0 ≡ Some result }
        ensures taken { self.new ≡ slice_set self.old p.0 false }
    {
        let was = self.marks[p.0 as usize];
        self.marks[p.0 as usize] = false;
        was
    }

    /// Gives a position a mark.
    pub(crate) fn set(&mut self, p: PosId)
        requires { p.0 < length self.old }
        ensures { self.new ≡ slice_set self.old p.0 true }
    {
        self.blocks[p.0 as usize / BLOCK] = true;
        self.marks[p.0 as usize] = true;
    }

    /// Whether a position of the block may have a mark.
    pub(crate) fn may_have(&self, b: usize) -> bool
        ensures { result ≡ false → AreFree self.now (b * BLOCK) (b * BLOCK + BLOCK) }
    {
        b >= self.blocks.len() || self.blocks[b]
    }

    /// Looks through a block, so that it is passed over if none of its positions has a mark.
    pub(crate) fn look_through(&mut self, b: usize)
        ensures { self.new ≡ self.old }
    {
        if b < self.blocks.len() {
            self.blocks[b] = is_any(&self.marks, b * BLOCK, b * BLOCK + BLOCK);
        }
    }
}
