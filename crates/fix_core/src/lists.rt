ghost use Rattle.std.specs.Prelude.{◌≡◌, ◌^◌, ◌<◌, [], ◌∷◌, ◌++◌, true, false, length, replicate, None, IfOk, IsTrue, MatchOption, ◌↔◌};
ghost use Rattle.rule_terms.specs.Names.{has_name};
ghost use Rattle.dep_graph.specs.Graph.{row_at};
ghost use Rattle.fix_core.specs.Machine.{values_of, has_all, owed_by, without};

use crate::state::LookedList;
use attr_ids::{NoMemory, PosId, PosList, Sequence, WordList};
use dep_graph::DepGraph;
use std::alloc::Global;

pub(crate) fn copy_of<T: Copy>(alloc: Global, list: &Sequence<T>) -> Result<Sequence<T>, NoMemory>
    ensures { IfOk result (λ copy. copy ≡ list.now) }
{
    let copy = Sequence::from_slice(alloc, list.as_slice())?;
    Ok(copy)
}

/// The list with one more position at its end.
pub(crate) fn with_position(alloc: Global, list: &PosList, p: PosId) -> Result<PosList, NoMemory>
    ensures { IfOk result (λ longer. longer ≡ list.now ++ p ∷ []) }
{
    let mut longer = copy_of(alloc, list)?;
    longer.push(p)?;
    Ok(longer)
}

/// The list without the position.
pub(crate) fn without_position(alloc: Global, d: PosId, list: &[PosId]) -> Result<PosList, NoMemory>
    ensures { IfOk result (λ shorter. shorter ≡ without d list.now) }
{
    let mut shorter = PosList::new(alloc);
    for q in list {
        if d.0 != q.0 {
            shorter.push(*q)?;
        }
    }
    Ok(shorter)
}

/// Whether the list names the position.
pub(crate) fn names(list: &[PosId], d: PosId) -> bool
    ensures { result ≡ has_name list.now d }
{
    for q in list {
        if d.0 == q.0 {
            return true;
        }
    }
    false
}

/// For each of so many inputs nothing looked at.
pub(crate) fn nothing_looked(alloc: Global, inputs: usize) -> Result<LookedList, NoMemory>
    ensures { IfOk result (λ looked. looked ≡ replicate inputs None) }
{
    let looked = vec![in alloc; None; inputs]?;
    Ok(LookedList::from_vec(looked))
}

/// The values that were looked at, or `None` where an input was not looked at.
pub(crate) fn values(alloc: Global, looked: &[Option<u64>]) -> Result<Option<WordList>, NoMemory>
    ensures { IfOk result (λ values. MatchOption values (has_all looked.now ≡ false) (λ words. (has_all looked.now ≡ true) × (words ≡ values_of looked.now))) }
{
    let mut words = WordList::new(alloc);
    for value in looked {
        let Some(word) = *value else {
            return Ok(None);
        };
        words.push(word)?;
    }
    Ok(Some(words))
}

/// The dependents of the position that read one of the lost bits.
pub(crate) fn owed(alloc: Global, g: &DepGraph, p: PosId, lost: u64) -> Result<PosList, NoMemory>
    requires place { p.0 < length g.now }
    requires few { length (row_at g.now p.0).dependents < 2 ^ 32 }
    requires reads { length (row_at g.now p.0).reads ≡ length (row_at g.now p.0).dependents }
    ensures { IfOk result (λ list. list ≡ owed_by g.now p.0 lost) }
{
    let mut list = PosList::new(alloc);
    let dependents = g.of(p);
    for (j, d) in dependents.iter().enumerate() {
        if g.read_by(p, j as u32) & lost != 0 {
            list.push(*d)?;
        }
    }
    Ok(list)
}
