ghost use Rattle.std.specs.Prelude.{◌≡◌, ◌^◌, ◌<◌, ℕ, length, slice_get, slice_set, Some, IsTrue, OnOk, OnErr};
ghost use Rattle.row_lists.specs.EdgeRow.{row_at};
ghost use Rattle.rule_terms.specs.Kept.{rule_of};
ghost use Rattle.rule_terms.specs.Pool.{AreApart, IsPool, IsOpened, GoesOn, GoesOnSlots};
ghost use Rattle.rule_terms.specs.Names.{is_over};
ghost use Rattle.rule_terms.specs.Slots.{AreOrdered, IsReadable};
ghost use Rattle.rule_terms.specs.Looked.{input_word, input_count, HasWords};
ghost use Rattle.rule_terms.specs.Meeting.{IsWidened, Met, meet_places, with_inputs};

use crate::pool::Pool;
use crate::reads::note_reads;
use crate::term::{NewTerm, Term, TermId};
use crate::value::{Looked, value};
use attr_ids::{NoMemory, PosId};
use row_lists::EdgeRows;
use smallvec::SmallVec;
use std::alloc::Global;

/// Marks the inputs of the position p in place of those that are marked. Without memory these stay marked.
pub(crate) fn open(
    rows: &EdgeRows,
    pool: &mut Pool,
    marked: &mut u32,
    alloc: Global,
    p: PosId,
) -> Result<(), NoMemory>
    requires place { p.0 < length rows.now }
    requires pool { IsPool pool.old }
    requires apart { AreApart (row_at rows.now p.0).positions (length pool.old.marks.items) }
    requires opened { pool.old.inputs.items ≡ (row_at rows.now marked.old).positions }
    ensures pool { IsOpened pool.old pool.new }
    ensures opened { pool.new.inputs.items ≡ (row_at rows.now marked.new).positions }
    ensures marked { OnOk result (marked.new ≡ p.0) }
{
    if *marked != p.0 {
        let inputs = Vec::from_slice(alloc, rows.positions(p.0 as usize))?;
        pool.mark(&inputs);
        pool.inputs = inputs;
        *marked = p.0;
    }
    Ok(())
}

/// Puts inputs at the end of a row, with nothing read of them.
fn add_inputs(rows: &mut EdgeRows, p: PosId, inputs: &[PosId]) -> Result<(), NoMemory>
    requires place { p.0 < length rows.old }
    ensures ok { OnOk result (rows.new ≡ slice_set rows.old p.0 (with_inputs (row_at rows.old p.0) inputs.now)) }
    ensures err { OnErr result (IsWidened rows.old rows.new p.0) }
{
    for input in inputs {
        rows.push(p.0 as usize, *input, 0)?;
    }
    Ok(())
}

/// Puts the term into the pool, the inputs that are new into the position's row and the term's place behind the others.
fn put_met(
    pool: &mut Pool,
    rows: &mut EdgeRows,
    places: &mut SmallVec<TermId, 2>,
    p: PosId,
    mask: u64,
    term: &NewTerm,
) -> Result<(), NoMemory>
    requires pool { IsPool pool.old }
    requires place { p.0 < length rows.old }
    requires opened { pool.old.inputs.items ≡ (row_at rows.old p.0).positions }
    requires reads { length (row_at rows.old p.0).bits ≡ length (row_at rows.old p.0).positions }
    requires over { IsTrue (is_over (length pool.old.marks.items) term.now) }
    ensures goes_on { GoesOn pool.old pool.new }
    ensures rows { OnOk result (rows.new ≡ slice_set rows.old p.0 (row_at rows.new p.0)) }
    ensures opened { OnOk result (pool.new.inputs.items ≡ (row_at rows.new p.0).positions) }
    ensures met { OnOk result (Met pool.new.slots.items mask (rule_of (row_at rows.old p.0) places.old.items) (rule_of (row_at rows.new p.0) places.new.items)
        term.now) }
    ensures widened { OnErr result (IsWidened rows.old rows.new p.0) }
    ensures places { OnErr result (places.new.items ≡ places.old.items) }
{
    let before = pool.inputs.len();
    let place = pool.put(term)?;
    add_inputs(rows, p, &pool.inputs[before..])?;
    places.push(place)?;
    note_reads(&pool.slots, rows.bits_mut(p.0 as usize), mask, place);
    Ok(())
}

/// Meets one more term into the position p, whose inputs are marked. Without memory its row and its places stay as they were.
pub(crate) fn meet_in(
    pool: &mut Pool,
    rows: &mut EdgeRows,
    places: &mut SmallVec<TermId, 2>,
    p: PosId,
    mask: u64,
    term: &NewTerm,
) -> Result<(), NoMemory>
    requires pool { IsPool pool.old }
    requires place { p.0 < length rows.old }
    requires opened { pool.old.inputs.items ≡ (row_at rows.old p.0).positions }
    requires reads { length (row_at rows.old p.0).bits ≡ length (row_at rows.old p.0).positions }
    requires over { IsTrue (is_over (length pool.old.marks.items) term.now) }
    ensures pool { GoesOnSlots pool.old pool.new }
    ensures opened { pool.new.inputs.items ≡ (row_at rows.new p.0).positions }
    ensures rows { rows.new ≡ slice_set rows.old p.0 (row_at rows.new p.0) }
    ensures met { OnOk result (Met pool.new.slots.items mask (rule_of (row_at rows.old p.0) places.old.items) (rule_of (row_at rows.new p.0) places.new.items)
        term.now) }
    ensures err { OnErr result (rows.new ≡ rows.old) }
    ensures places { OnErr result (places.new.items ≡ places.old.items) }
{
    let before = pool.inputs.len();
    let met = put_met(pool, rows, places, p, mask, term);
    if met.is_err() {
        pool.inputs.truncate(before);
        rows.truncate(p.0 as usize, before);
    }
    met
}

/// The bits of the mask that each term at these places gives.
pub(crate) fn meet(slots: &[Term], looked: &Looked<'_>, places: &[TermId], mask: u64) -> u64
    requires ordered { AreOrdered slots.now }
    requires words { HasWords looked.now }
    requires readable { (k : ℕ) (place : _) → slice_get places.now k ≡ Some place → IsReadable slots.now (input_count looked.now) place.0 }
    ensures { result ≡ meet_places (input_word looked.now) slots.now mask places.now }
{
    let mut word = mask;
    for place in places {
        word &= value(slots, looked, *place);
    }
    word
}
