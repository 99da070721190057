//! The crates of the fixpoint, called line by line: a line of standard input is a call and numbers in base 16, and
//! the line that comes back has behind it what the call answered. A line that begins with `#` is a heading.
#![tactic(auto)]

mod bits;
mod desk;
mod edges;
mod graphed;
mod line;
mod lists;
mod machine;
mod numbers;
mod pools;
mod rows;
mod running;
mod seats;
mod terms;

use attr_ids::NoMemory;
use desk::Desk;
use line::Line;
use std::alloc::Global;
use std::io::{self, Print};
use std::thread::Threads;

/// Puts the numbers that a call answers; answers whether there is such a call.
fn answer<R: Threads + Sync>(
    rt: &R,
    alloc: Global,
    desk: &mut Desk,
    call: &str,
    n: &[u64],
    line: &mut Line,
) -> bool {
    bits::answer(call, n, line)
        || lists::answer(alloc, call, n, line)
        || rows::answer(alloc, &mut desk.rows, call, n, line)
        || edges::answer(alloc, &mut desk.edges, call, n, line)
        || terms::answer(alloc, &mut desk.system, call, n, line)
        || pools::answer(alloc, call, line)
        || graphed::answer(rt, alloc, &desk.system, call, n, line)
}

/// Puts what comes of a line behind it.
fn tell<R: Threads + Sync>(rt: &R, alloc: Global, desk: &mut Desk, text: &str, line: &mut Line) {
    let mut words = text.split_whitespace();
    let Some(call) = words.next() else {
        return;
    };
    if call.starts_with('#') {
        return;
    }
    line.put(" =");
    let Ok(n) = numbers::parsed(alloc, words) else {
        return line.lose();
    };
    if !answer(rt, alloc, desk, call, &n, line) {
        line.put(" no such call");
    }
}

/// Prints a line and what came of it.
fn print<R: Threads + Print + Sync>(
    rt: &R,
    alloc: Global,
    desk: &mut Desk,
    text: &str,
) -> io::Result<()> {
    let mut line = Line::new(alloc);
    tell(rt, alloc, desk, text, &mut line);
    if line.is_lost {
        return println!(rt; "out of memory");
    }
    println!(rt; "{text}{}", line.as_str())
}

/// What the first line finds.
fn new_desk(alloc: Global) -> Result<Box<Desk>, NoMemory> {
    Ok(Box::new(alloc, Desk::new(alloc)?)?)
}

fn main(rt: HostRuntime) -> io::Result<()> {
    let Ok(mut desk) = new_desk(rt.alloc()) else {
        return println!(rt; "out of memory");
    };
    for text in rt.lines(rt.alloc()) {
        print(&rt, rt.alloc(), &mut desk, text?.as_str())?;
    }
    Ok(())
}
