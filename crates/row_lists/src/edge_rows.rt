ghost use Rattle.std.specs.Prelude.{◌≡◌, ◌<◌, ◌≤◌, ◌++◌, ℕ, List, [], ◌∷◌, length, map, replicate, slice_get, slice_set, Some, OnOk, OnErr, IfOk};
ghost use Rattle.std.specs.List.{refill};
ghost use Rattle.std.specs.Borrow.{sem};
ghost use Rattle.row_lists.specs.EdgeRow.{empty_row, row_at, with_edge, cut_to};
ghost use Rattle.row_lists.specs.Inside.{edges_at};
ghost use Rattle.row_lists.specs.Lists.{listed, IsWithin, IsLaid, IsGrown, IsLengthened};

use crate::layout::{Row, grown, lengthen, places};
use crate::words::Words;
use attr_ids::{NoMemory, PosId};
use std::alloc::Global;
use std::marker::Model;

/// Lists of positions, and beside each position a word, in two runs of memory: 12 bytes for each list and 12 for each entry.
#[derive(Debug, Drop)]
pub struct EdgeRows {
    pub(crate) positions: Vec<PosId>,
    pub(crate) bits: Words,
    pub(crate) rows: Vec<Row>,
}

impl Model for EdgeRows {
    ghost use Rattle.std.specs.Prelude.{◌≡◌, List, length, map};
    ghost use Rattle.row_lists.specs.EdgeRow.{EdgeRow};
    ghost use Rattle.row_lists.specs.Inside.{edges_at};
    ghost use Rattle.row_lists.specs.Lists.{IsLaid};

    ghost Value = { List EdgeRow };

    ghost view = { λ lists. map (edges_at lists.positions.items lists.bits.all.items) lists.rows.items };

    ghost invariant = { λ lists. (length lists.bits.all.items ≡ length lists.positions.items) × IsLaid (length lists.positions.items) lists.rows.items };
}

/// Makes both runs long enough for a list's new place, and puts the list there. Without memory both stay as they were.
fn lengthen_both(
    positions: &mut Vec<PosId>,
    bits: &mut Vec<u64>,
    row: Row,
    to: Row,
) -> Result<(), NoMemory>
    requires long { length bits.old.items ≡ length positions.old.items }
    requires within { IsWithin (length positions.old.items) row }
    requires grown { IsGrown (length positions.old.items) row to }
    ensures positions { OnOk result (IsLengthened positions.old.items positions.new.items row to) }
    ensures bits { OnOk result (IsLengthened bits.old.items bits.new.items row to) }
    ensures err { OnErr result ((positions.new.items ≡ positions.old.items) × (bits.new.items ≡ bits.old.items)) }
{
    let end = positions.len();
    if lengthen(positions, row, to, PosId(0)).is_err() || lengthen(bits, row, to, 0).is_err() {
        positions.truncate(end);
        bits.truncate(end);
        return Err(NoMemory);
    }
    Ok(())
}

/// Gives a list room for one entry more, and tells where it lies then.
fn make_room(
    rows: &mut Vec<Row>,
    positions: &mut Vec<PosId>,
    bits: &mut Vec<u64>,
    at: usize,
) -> Result<Row, NoMemory>
    requires place { at < length rows.old.items }
    requires long { length bits.old.items ≡ length positions.old.items }
    requires laid { IsLaid (length positions.old.items) rows.old.items }
    ensures long { length bits.new.items ≡ length positions.new.items }
    ensures laid { IsLaid (length positions.new.items) rows.new.items }
    ensures lists { map (edges_at positions.new.items bits.new.items) rows.new.items ≡ map (edges_at positions.old.items bits.old.items) rows.old.items }
    ensures room { IfOk result (λ row. (slice_get rows.new.items at ≡ Some row) × (row.len < row.room)) }
{
    let row = rows[at];
    let new = grown(row, positions.len())?;
    lengthen_both(positions, bits, row, new)?;
    rows[at] = new;
    Ok(new)
}

impl EdgeRows {
    ghost use Rattle.row_lists.specs.Lending.{LendsBits};

    /// So many empty lists.
    pub fn new(alloc: Global, count: usize) -> Result<EdgeRows, NoMemory>
        ensures { IfOk result (λ rows. rows ≡ replicate count empty_row) }
    {
        let rows = vec![in alloc; Row {
            from: 0,
            len: 0,
            room: 0
        }; count]?;
        Ok(EdgeRows {
            positions: Vec::new(alloc),
            bits: Words {
                all: Vec::new(alloc),
            },
            rows,
        })
    }

    /// Empty lists, one for each of these rooms, with room for so many entries. A room is a hint: a list may grow past it.
    pub fn with_rooms(alloc: Global, rooms: &[u32]) -> Result<EdgeRows, NoMemory>
        ensures { IfOk result (λ rows. rows ≡ replicate (length rooms.now) empty_row) }
    {
        let (rows, end) = places(alloc, rooms)?;
        let positions = vec![in alloc; PosId(0); end as usize]?;
        let all = vec![in alloc; 0u64; end as usize]?;
        Ok(EdgeRows {
            positions,
            bits: Words { all },
            rows,
        })
    }

    /// How many lists there are.
    pub fn len(&self) -> usize
        ensures { result ≡ length self.now }
    {
        self.rows.len()
    }

    /// The positions of a list.
    pub fn positions(&self, at: usize) -> &[PosId]
        requires { at < length self.now }
        ensures { result.now ≡ (row_at self.now at).positions }
    {
        let row = self.rows[at];
        let from = row.from as usize;
        &self.positions[from..from + row.len as usize]
    }

    /// The words beside a list's positions.
    pub fn bits(&self, at: usize) -> &[u64]
        requires { at < length self.now }
        ensures value { result.now ≡ (row_at self.now at).bits }
        ensures long { length (row_at self.now at).bits ≡ length (row_at self.now at).positions }
    {
        let row = self.rows[at];
        let from = row.from as usize;
        &self.bits.all[from..from + row.len as usize]
    }

    /// The words beside a list's positions, to be changed.
    pub fn bits_mut(&mut self, at: usize) -> &mut [u64]
        requires { at < length self.old }
        ensures* writes_back { sem 𝓛 (LendsBits self.entry at result) }
        ensures value { result.now ≡ (row_at self.old at).bits }
        ensures same_len { (ws : List ℕ) → length ws ≡ length (row_at self.old at).bits →
            refill (length (row_at self.old at).bits) (row_at self.old at).bits ws ≡ ws }
    {
        let row = self.rows[at];
        let from = row.from as usize;
        self.bits.part_mut(from, from + row.len as usize)
    }

    /// Puts a position at the end of a list, and its word beside it. Without memory the lists stay as they were.
    pub fn push(&mut self, at: usize, position: PosId, bits: u64) -> Result<(), NoMemory>
        requires { at < length self.old }
        ensures ok { OnOk result (self.new ≡ slice_set self.old at (with_edge (row_at self.old at) position bits)) }
        ensures err { OnErr result (self.new ≡ self.old) }
    {
        let row = make_room(&mut self.rows, &mut self.positions, &mut self.bits.all, at)?;
        let place = row.from as usize + row.len as usize;
        self.positions[place] = position;
        self.bits.all[place] = bits;
        self.rows[at].len = row.len + 1;
        Ok(())
    }

    /// Drops what stands behind the first so many entries of a list.
    pub fn truncate(&mut self, at: usize, count: usize)
        requires { at < length self.old }
        ensures { self.new ≡ slice_set self.old at (cut_to count (row_at self.old at)) }
    {
        let row = self.rows[at];
        if count < row.len as usize {
            self.rows[at].len = count as u32;
        }
    }
}
