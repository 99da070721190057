//! Where lists lie in a run of memory, and how one of them gets room for one entry more.
ghost use Rattle.std.specs.Prelude.{◌≡◌, ◌≢◌, ◌+◌, ◌-◌, ◌*◌, ◌^◌, ◌<◌, ◌≤◌, ◌++◌, max, length, replicate, OnOk, OnErr, IfOk};
ghost use Rattle.row_lists.specs.Lists.{listed, IsWithin, IsLaid, AreEmpty, IsGrown, Extends, IsLengthened};

use attr_ids::NoMemory;
use std::alloc::Global;

/// Where a list begins in the run, how long it is, and how many entries it has room for.
#[derive(Clone, Copy, Debug)]
pub(crate) struct Row {
    pub(crate) from: u32,
    pub(crate) len: u32,
    pub(crate) room: u32,
}

/// The places of empty lists with these rooms, one behind another, and the length of the run that they take.
pub(crate) fn places(alloc: Global, rooms: &[u32]) -> Result<(Vec<Row>, u32), NoMemory>
    ensures laid { IfOk result (λ r. IsLaid r.1 r.0.items) }
    ensures empty { IfOk result (λ r. AreEmpty (length rooms.now) r.0.items) }
{
    let mut rows = Vec::with_capacity(alloc, rooms.len())?;
    let mut end = 0u32;
    for room in rooms {
        let room = *room;
        rows.push(Row {
            from: end,
            len: 0,
            room,
        })?;
        let Some(next) = end.checked_add(room) else {
            return Err(NoMemory);
        };
        end = next;
    }
    Ok((rows, end))
}

/// A place, if it ends where a run can end.
fn placed(from: u32, len: u32, room: usize) -> Result<Row, NoMemory>
    requires { room ≤ 2 ^ 33 }
    ensures { IfOk result (λ row. (row.from ≡ from) × (row.len ≡ len) × (row.room ≡ room)) }
{
    if from as usize + room > u32::MAX as usize {
        return Err(NoMemory);
    }
    Ok(Row {
        from,
        len,
        room: room as u32,
    })
}

/// How much room a list of this length gets where it moves. An empty one gets room for one entry: it stands at the
/// end of the run then, and grows there entry by entry.
fn room_for_more(len: u32) -> usize
    ensures more { len < result }
    ensures few { result ≤ 2 ^ 33 }
{
    if len == 0 {
        1
    } else {
        (2 * len as usize).max(4)
    }
}

/// The place of a list with room for one entry more, in a run of this length.
pub(crate) fn grown(row: Row, end: usize) -> Result<Row, NoMemory>
    requires { IsWithin end row }
    ensures { IfOk result (λ new. IsGrown end row new) }
{
    if row.len < row.room {
        return Ok(row);
    }
    if row.from as usize + row.room as usize == end {
        return placed(row.from, row.len, row.room as usize + 1);
    }
    if end > u32::MAX as usize {
        return Err(NoMemory);
    }
    placed(end as u32, row.len, room_for_more(row.len))
}

/// Puts the list at the end of the run once more, if it gets another place.
fn carry<T: Copy>(run: &mut Vec<T>, row: Row, to: Row) -> Result<(), NoMemory>
    requires { IsWithin (length run.old.items) row }
    ensures stays { OnOk result (to.from ≡ row.from → run.new.items ≡ run.old.items) }
    ensures moves { OnOk result (to.from ≢ row.from → run.new.items ≡ run.old.items ++ listed run.old.items row) }
    ensures err { OnErr result (run.new.items ≡ run.old.items) }
{
    if to.from == row.from {
        return Ok(());
    }
    let from = row.from as usize;
    run.extend_from_within(from..from + row.len as usize)?;
    Ok(())
}

/// Fills the run up to this length.
fn fill_up<T: Copy>(run: &mut Vec<T>, end: usize, fill: T) -> Result<(), NoMemory>
    ensures ok { OnOk result (run.new.items ≡ run.old.items ++ replicate (end - length run.old.items) fill) }
    ensures err { OnErr result (run.new.items ≡ run.old.items) }
{
    if end <= run.len() {
        return Ok(());
    }
    run.resize(end, fill)?;
    Ok(())
}

/// Makes the run long enough for a list's new place, and puts the list there.
pub(crate) fn lengthen<T: Copy>(
    run: &mut Vec<T>,
    row: Row,
    to: Row,
    fill: T,
) -> Result<(), NoMemory>
    requires within { IsWithin (length run.old.items) row }
    requires grown { IsGrown (length run.old.items) row to }
    ensures ok { OnOk result (IsLengthened run.old.items run.new.items row to) }
    ensures err { OnErr result (Extends run.old.items run.new.items) }
{
    carry(run, row, to)?;
    fill_up(run, to.from as usize + to.room as usize, fill)
}
