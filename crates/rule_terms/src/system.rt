ghost use Rattle.std.specs.Prelude.{◌≡◌, ◌^◌, ◌<◌, length, map, All, IfOk, OnOk, OnErr, IsTrue, slice_index};
ghost use Rattle.lattice_words.specs.declared.word.TheConstants.{FACT_BITS};
ghost use Rattle.rule_terms.specs.Kept.{AreEmptyLists};
ghost use Rattle.rule_terms.specs.Names.{is_over};
ghost use Rattle.rule_terms.specs.Reads.{reads_at};
ghost use Rattle.rule_terms.specs.System.{with_masks, with_term, value_in, value_at, inputs_of, IsSystem};

use crate::pool::Pool;
use crate::rule::{meet, meet_in, open};
use crate::term::{NewTerm, TermId};
use crate::value::Looked;
use attr_ids::{NoMemory, PosId, WordList};
use row_lists::EdgeRows;
use smallvec::SmallVec;
use std::alloc::Global;
use std::marker::Model;

/// A mask for each position, and the terms that were met into it. Beside each input of a position
/// stand the bits that its terms read of it; the pool has the inputs of the position `marked`.
#[derive(Drop)]
pub struct System {
    masks: WordList,
    pool: Pool,
    rows: EdgeRows,
    places: Vec<SmallVec<TermId, 2>>,
    marked: u32,
}

impl Model for System {
    ghost use Rattle.rule_terms.specs.System.{System as Shown};

    ghost Value = { Shown };

    ghost use Rattle.rule_terms.specs.contracts.term.NewTerm as new_term;
    ghost use Rattle.std.specs.Coded.{codes};

    ghost coded = { Prim.hlevel (codes, new_term.the_row.coded) };

    ghost use Rattle.rule_terms.specs.Inside.{shown, IsKept};

    ghost view = { shown };

    ghost invariant = { IsKept };
}

// A list of places for each position, that no term was met into yet.
fn no_places(alloc: Global, count: usize) -> Result<Vec<SmallVec<TermId, 2>>, NoMemory>
    ensures { IfOk result (λ lists. AreEmptyLists count (map (λ places. places.items) lists.items)) }
{
    let mut lists = Vec::with_capacity(alloc, count)?;
    for _ in 0..count {
        lists.push(SmallVec::new(alloc))?;
    }
    Ok(lists)
}

impl System {
    /// A system in which the term of each position is its mask.
    pub fn new(alloc: Global, masks: WordList) -> Result<System, NoMemory>
        requires fits { length masks < 2 ^ 32 }
        requires facts { All (λ mask. mask < 2 ^ FACT_BITS) masks }
        ensures { IfOk result (λ system. system ≡ with_masks masks) }
    {
        let count = masks.len();
        let rows = EdgeRows::new(alloc, count)?;
        let places = no_places(alloc, count)?;
        let marks = vec![in alloc; 0; count]?;
        Ok(System {
            masks,
            pool: Pool {
                slots: Vec::new(alloc),
                inputs: Vec::new(alloc),
                marks,
            },
            rows,
            places,
            marked: 0,
        })
    }

    /// The term of the position becomes its And with this one. Without memory the system stays as it was.
    pub fn meet(&mut self, alloc: Global, p: PosId, term: NewTerm) -> Result<(), NoMemory>
        requires place { p.0 < length self.old.masks }
        requires over { IsTrue (is_over (length self.old.masks) term) }
        ensures ok { OnOk result (self.new ≡ with_term self.old p.0 term) }
        ensures err { OnErr result (self.new ≡ self.old) }
    {
        open(&self.rows, &mut self.pool, &mut self.marked, alloc, p)?;
        let mask = self.masks.as_slice()[p.0 as usize];
        meet_in(
            &mut self.pool,
            &mut self.rows,
            &mut self.places[p.0 as usize],
            p,
            mask,
            &term,
        )
    }

    /// How many positions the system has.
    pub fn count(&self) -> u32
        ensures positions { result ≡ length self.now.masks }
        ensures system { IsSystem self.now }
    {
        self.masks.len() as u32
    }

    /// The facts that the position may have at all.
    pub fn mask(&self, p: PosId) -> u64
        requires { p.0 < length self.now.masks }
        ensures mask { result ≡ slice_index self.now.masks p.0 }
        ensures facts { result < 2 ^ FACT_BITS }
    {
        self.masks.as_slice()[p.0 as usize]
    }

    /// The positions that the position's terms name, each once, in the order in which they are first named.
    pub fn inputs(&self, p: PosId) -> &[PosId]
        requires { p.0 < length self.now.masks }
        ensures { result.now ≡ inputs_of self.now p.0 }
    {
        self.rows.positions(p.0 as usize)
    }

    /// What the position's mask and terms leave, where `looked` has the word of each of its inputs, in their order.
    pub fn eval(&self, p: PosId, looked: &[u64]) -> u64
        requires place { p.0 < length self.now.masks }
        requires looked { length looked.now ≡ length (inputs_of self.now p.0) }
        ensures { result ≡ value_at self.now p.0 looked.now }
    {
        let places = self.places[p.0 as usize].as_slice();
        let mask = self.masks.as_slice()[p.0 as usize];
        meet(&self.pool.slots, &Looked::Each(looked), places, mask)
    }

    /// What the position's mask and terms leave, where `words` has the word of each position.
    pub fn eval_in(&self, p: PosId, words: &WordList) -> u64
        requires place { p.0 < length self.now.masks }
        requires words { length words.now ≡ length self.now.masks }
        ensures { result ≡ value_in self.now p.0 words.now }
    {
        let places = self.places[p.0 as usize].as_slice();
        let mask = self.masks.as_slice()[p.0 as usize];
        let looked = Looked::Through {
            inputs: self.rows.positions(p.0 as usize),
            words: words.as_slice(),
        };
        meet(&self.pool.slots, &looked, places, mask)
    }

    /// The bits that the position's terms read of its input number `i`, where those of its mask are wanted:
    /// `eval`, cut to the mask, is the same for words that have the same of them.
    pub fn reads(&self, p: PosId, i: u32) -> u64
        requires place { p.0 < length self.now.masks }
        requires input { i < length (inputs_of self.now p.0) }
        ensures { result ≡ reads_at self.now p.0 i }
    {
        self.rows.bits(p.0 as usize)[i as usize]
    }
}
