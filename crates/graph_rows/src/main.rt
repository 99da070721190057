//! Questions on graphs, line by line: a line of standard input is a question and numbers, and the line that comes back
//! has the answer behind it. The last numbers are the count of nodes and the edges, each by the nodes that it joins.
//!
//! - `node D TO ..`: the first of the shortest walks to a node, without the edges out of D.
//! - `edge FROM PLACE TO ..`: the same without one edge, given by its place among the edges of its node.
//! - `needs D B ..`: whether the claimed dominator tree shows that D stands on every walk to B.
//! - `tree ..`: the claimed tree, by the parent of each node.
//!
//! An empty line, and one that begins with `;`, is printed as it stands.
#![tactic(auto)]

mod line;

use attr_ids::NoMemory;
use ir_graphs::{Cut, Need, claim, first_lacking, unshown};
use line::Line;
use row_lists::Rows;
use std::alloc::Global;
use std::io;

/// The numbers of a text; a word that is none reads as the greatest.
fn numbers(alloc: Global, text: &str) -> Result<Vec<u32>, NoMemory> {
    let mut all = Vec::new(alloc);
    for word in text.split_whitespace() {
        all.push(word.parse::<u32>().unwrap_or(u32::MAX))?;
    }
    Ok(all)
}

/// The number at a place, or 0.
fn number(all: &[u32], at: usize) -> u32 {
    if at < all.len() { all[at] } else { 0 }
}

/// So many rows without entries.
fn empty_rows<T: Copy>(alloc: Global, count: usize, fill: T) -> Result<Rows<T>, NoMemory> {
    let rooms = vec![in alloc; 2u32; count]?;
    Rows::with_rooms(alloc, &rooms, fill)
}

/// Puts an entry into a row, if there is such a row.
fn put<T: Copy>(rows: &mut Rows<T>, at: u32, entry: T) -> Result<(), NoMemory> {
    if (at as usize) < rows.len() {
        return rows.push(at as usize, entry);
    }
    Ok(())
}

/// The graph whose count of nodes stands at a place, with its edges behind it.
fn graph(alloc: Global, all: &[u32], at: usize) -> Result<Rows<u32>, NoMemory> {
    let mut g = empty_rows(alloc, number(all, at) as usize, 0)?;
    for k in 0..all.len() / 2 {
        if at < all.len() && 2 * k + 2 < all.len() - at {
            put(&mut g, all[at + 2 * k + 1], all[at + 2 * k + 2])?;
        }
    }
    Ok(g)
}

/// Puts the walk, or that there is none.
fn put_first(alloc: Global, line: &mut Line, g: &Rows<u32>, cut: Cut, to: u32) {
    if to as usize >= g.len() {
        return line.put(" no node");
    }
    match first_lacking(alloc, g, cut, to) {
        Ok(Some(path)) => line.numbers(path.as_slice()),
        Ok(None) => line.put(" none"),
        Err(_) => line.lose(),
    }
}

/// Puts whether a need is left open.
fn put_open(alloc: Global, line: &mut Line, g: &Rows<u32>, needs: &Rows<Need>) {
    let Ok(tree) = claim(alloc, g) else {
        return line.lose();
    };
    if needs.len() != g.len() {
        return line.put(" shown");
    }
    match unshown(alloc, g, needs, &tree) {
        Ok(open) => line.put(if open.is_empty() { " shown" } else { " open" }),
        Err(NoMemory) => line.lose(),
    }
}

/// The need of one node.
fn needs(alloc: Global, count: usize, definition: u32, node: u32) -> Result<Rows<Need>, NoMemory> {
    let need = Need {
        definition,
        label: 0,
    };
    let mut needs = empty_rows(alloc, count, need)?;
    put(&mut needs, node, need)?;
    Ok(needs)
}

/// Puts the parent of each node of the claimed tree.
fn put_parents(alloc: Global, line: &mut Line, g: &Rows<u32>) {
    match claim(alloc, g) {
        Ok(tree) => line.numbers(tree.parents.as_slice()),
        Err(_) => line.lose(),
    }
}

/// Puts the answer to a question on a graph.
fn answer_on(alloc: Global, line: &mut Line, g: &Rows<u32>, question: &str, n: &[u32]) {
    let (first, second) = (number(n, 0), number(n, 1));
    match question {
        "node" => put_first(alloc, line, g, Cut::Node(first), second),
        "edge" => {
            let cut = Cut::Edge {
                from: first,
                place: second,
            };
            put_first(alloc, line, g, cut, number(n, 2))
        }
        "needs" => match needs(alloc, g.len(), first, second) {
            Ok(needs) => put_open(alloc, line, g, &needs),
            Err(NoMemory) => line.lose(),
        },
        _ => put_parents(alloc, line, g),
    }
}

/// Puts the answer to a question.
fn answer(alloc: Global, line: &mut Line, question: &str, n: &[u32]) {
    let at = match question {
        "node" | "needs" => 2,
        "edge" => 3,
        "tree" => 0,
        _ => return line.put(" no question"),
    };
    match graph(alloc, n, at) {
        Ok(g) => answer_on(alloc, line, &g, question, n),
        Err(NoMemory) => line.lose(),
    }
}

/// Puts what is printed for a line of the input.
fn put_line(alloc: Global, line: &mut Line, text: &str) {
    line.put(text);
    if text.is_empty() || text.starts_with(';') {
        return;
    }
    let Some((question, rest)) = text.split_once(' ') else {
        return;
    };
    line.put(" =");
    match numbers(alloc, rest) {
        Ok(n) => answer(alloc, line, question, n.as_slice()),
        Err(NoMemory) => line.lose(),
    }
}

fn print(rt: &HostRuntime, text: &str) -> io::Result<()> {
    let mut line = Line::new(rt.alloc());
    put_line(rt.alloc(), &mut line, text);
    if line.is_lost {
        return println!(rt; "no memory");
    }
    println!(rt; "{}", line.as_str())
}

fn main(rt: HostRuntime) -> io::Result<()> {
    for text in rt.lines(rt.alloc()) {
        print(&rt, text?.as_str())?;
    }
    Ok(())
}
