//! Lists in one run of memory.
use crate::line::Line;
use crate::numbers::{shared, small};
use attr_ids::NoMemory;
use row_lists::Rows;
use std::alloc::Global;

/// The numbers as rooms.
pub(crate) fn rooms(alloc: Global, n: &[u64]) -> Result<Vec<u32>, NoMemory> {
    let mut rooms = Vec::new(alloc);
    for i in 0..n.len() {
        rooms.push(small(n, i))?;
    }
    Ok(rooms)
}

/// Makes lists with these rooms; answers whether they were refused.
fn open(alloc: Global, lists: &mut Rows<u32>, n: &[u64], line: &mut Line) {
    let Ok(rooms) = rooms(alloc, n) else {
        return line.lose();
    };
    match Rows::with_rooms(alloc, &rooms, 0) {
        Ok(rows) => {
            line.push(0);
            shared(&rows);
            *lists = rows;
        }
        Err(_) => line.push(1),
    }
}

/// Puts a number at the end of a list.
fn put(rows: &mut Rows<u32>, list: usize, item: u32) -> Result<(), NoMemory> {
    if list < rows.len() {
        return rows.push(list, item);
    }
    Ok(())
}

/// Answers the numbers of a list.
fn put_row(line: &mut Line, rows: &Rows<u32>, list: usize) {
    if list < rows.len() {
        for item in rows.get(list) {
            line.push(u64::from(*item));
        }
    }
}

/// Answers a call of lists, if it is one.
pub(crate) fn answer(
    alloc: Global,
    rows: &mut Rows<u32>,
    call: &str,
    n: &[u64],
    line: &mut Line,
) -> bool {
    match call {
        "rooms" => open(alloc, rows, n, line),
        "put" => line.keep(put(rows, small(n, 0) as usize, small(n, 1))),
        "row" => put_row(line, rows, small(n, 0) as usize),
        "row_count" => line.push(rows.len() as u64),
        "run_len" => line.push(rows.run_len() as u64),
        _ => return false,
    }
    true
}
