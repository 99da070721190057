//! Lists of positions with words, in one run of memory.
use crate::line::Line;
use crate::numbers::{at, place, shared, small};
use crate::rows::rooms;
use attr_ids::NoMemory;
use row_lists::EdgeRows;
use std::alloc::Global;

/// Makes lists with these rooms; answers whether they were refused.
fn open(alloc: Global, lists: &mut EdgeRows, n: &[u64], line: &mut Line) {
    let Ok(rooms) = rooms(alloc, n) else {
        return line.lose();
    };
    match EdgeRows::with_rooms(alloc, &rooms) {
        Ok(edges) => {
            line.push(0);
            shared(&edges);
            *lists = edges;
        }
        Err(_) => line.push(1),
    }
}

/// Puts a position and its word at the end of a list.
fn join(edges: &mut EdgeRows, n: &[u64]) -> Result<(), NoMemory> {
    let list = small(n, 0) as usize;
    if list < edges.len() {
        return edges.push(list, place(n, 1), at(n, 2));
    }
    Ok(())
}

/// Drops what stands behind the first so many entries of a list.
fn cut(edges: &mut EdgeRows, list: usize, count: usize) {
    if list < edges.len() {
        edges.truncate(list, count);
    }
}

/// Keeps some bits of each word of a list.
fn keep(edges: &mut EdgeRows, list: usize, mask: u64) {
    if list < edges.len() {
        for word in edges.bits_mut(list) {
            *word &= mask;
        }
    }
}

/// Writes a word over the first one of a list.
fn write_first(edges: &mut EdgeRows, list: usize, word: u64) {
    if list < edges.len() && !edges.bits(list).is_empty() {
        edges.bits_mut(list)[0] = word;
    }
}

/// Answers the positions of a list, and then its words.
fn put_edges(line: &mut Line, edges: &EdgeRows, list: usize) {
    if list < edges.len() {
        line.put_places(edges.positions(list));
        line.put_all(edges.bits(list));
    }
}

fn put_new(alloc: Global, edges: &mut EdgeRows, count: u32) -> Result<(), NoMemory> {
    *edges = EdgeRows::new(alloc, count as usize)?;
    Ok(())
}

/// Answers a call of lists of positions with words, if it is one.
pub(crate) fn answer(
    alloc: Global,
    edges: &mut EdgeRows,
    call: &str,
    n: &[u64],
    line: &mut Line,
) -> bool {
    let list = small(n, 0) as usize;
    match call {
        "edge_rooms" => open(alloc, edges, n, line),
        "edge_rows" => line.keep(put_new(alloc, edges, small(n, 0))),
        "join" => line.keep(join(edges, n)),
        "edge_count" => line.push(edges.len() as u64),
        "cut" => cut(edges, list, small(n, 1) as usize),
        "keep" => keep(edges, list, at(n, 1)),
        "write_first" => write_first(edges, list, at(n, 1)),
        "edges" => put_edges(line, edges, list),
        _ => return false,
    }
    true
}
