ghost use Rattle.std.specs.Prelude.{◌≡◌, ◌<◌, ◌≤◌, ◌++◌, ℕ, List, [], ◌∷◌, length, map, replicate, slice_get, slice_set, Some, OnOk, OnErr, IfOk};
ghost use Rattle.row_lists.specs.Lists.{listed, IsLaid};

use crate::layout::{Row, grown, lengthen, places};
use attr_ids::NoMemory;
use std::alloc::Global;
use std::marker::Model;

/// Lists of entries in one run of memory.
#[derive(Debug, Drop)]
pub struct Rows<T> {
    pub(crate) run: Vec<T>,
    pub(crate) rows: Vec<Row>,
}

impl<T> Model for Rows<T> {
    ghost use Rattle.std.specs.Prelude.{List, length, map};
    ghost use Rattle.std.specs.Coded.{coded_list};
    ghost use Rattle.row_lists.specs.Lists.{listed, IsLaid};

    ghost Value = { List (List T) };

    ghost coded = { coded_list (coded_list T.code) };

    ghost view = { λ lists. map (listed lists.run.items) lists.rows.items };

    ghost invariant = { λ lists. IsLaid (length lists.run.items) lists.rows.items };
}

/// Gives a list room for one entry more, and tells where it lies then.
fn make_room<T: Copy>(
    rows: &mut Vec<Row>,
    run: &mut Vec<T>,
    at: usize,
    fill: T,
) -> Result<Row, NoMemory>
    requires place { at < length rows.old.items }
    requires laid { IsLaid (length run.old.items) rows.old.items }
    ensures laid { IsLaid (length run.new.items) rows.new.items }
    ensures lists { map (listed run.new.items) rows.new.items ≡ map (listed run.old.items) rows.old.items }
    ensures room { IfOk result (λ row. (slice_get rows.new.items at ≡ Some row) × (row.len < row.room)) }
{
    let row = rows[at];
    let new = grown(row, run.len())?;
    lengthen(run, row, new, fill)?;
    rows[at] = new;
    Ok(new)
}

impl<T: Copy> Rows<T> {
    /// Empty lists, one for each of these rooms, with room for so many entries; `fill` stands where no entry is yet. A
    /// room is a hint: a list may grow past it.
    pub fn with_rooms(alloc: Global, rooms: &[u32], fill: T) -> Result<Rows<T>, NoMemory>
        ensures { IfOk result (λ lists. lists ≡ replicate (length rooms.now) []) }
    {
        let (rows, end) = places(alloc, rooms)?;
        let run = vec![in alloc; fill; end as usize]?;
        Ok(Rows { run, rows })
    }

    /// How many lists there are.
    pub fn len(&self) -> usize
        ensures { result ≡ length self.now }
    {
        self.rows.len()
    }

    /// How many entries the run of memory has, with those that no list uses yet or any more.
    pub fn run_len(&self) -> usize
        ensures { (at : ℕ) (xs : List T) → slice_get self.now at ≡ Some xs → length xs ≤ result }
    {
        self.run.len()
    }

    /// The entries of a list.
    pub fn get(&self, at: usize) -> &[T]
        requires { at < length self.now }
        ensures { slice_get self.now at ≡ Some result.now }
    {
        let row = self.rows[at];
        let from = row.from as usize;
        &self.run[from..from + row.len as usize]
    }

    /// Puts an entry at the end of a list. Without memory the lists stay as they were.
    pub fn push(&mut self, at: usize, item: T) -> Result<(), NoMemory>
        requires { at < length self.old }
        ensures ok { OnOk result ((xs : List T) → slice_get self.old at ≡ Some xs → self.new ≡ slice_set self.old at (xs ++ item ∷ [])) }
        ensures err { OnErr result (self.new ≡ self.old) }
    {
        let row = make_room(&mut self.rows, &mut self.run, at, item)?;
        self.run[row.from as usize + row.len as usize] = item;
        self.rows[at].len = row.len + 1;
        Ok(())
    }
}
