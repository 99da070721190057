//! Uses of results in bodies, line by line. A line of standard input is a body; the line that comes back has the answer behind
//! it: `defined`, or `missing`, the number of the use, and the blocks of the path that lacks its definition. A body is a list
//! of words, each an instruction; a block ends with its terminator. Blocks, results and uses are numbered from 0 in text order.
//!
//! - `d` makes a result; `c` is a call that makes one. `u0` uses result 0. `p0@1,2@3` is a phi that makes a result, of result
//!   0 from block 1 and of result 2 from block 3.
//! - `r` ends a block, `j1` goes to block 1, `b1,2` goes to block 1 or 2, and so does `s1,2,3` to one of three.
//! - `i1,2` is an invoke that makes a result, with the normal block 1 and the unwind block 2; `i1,2,0` passes result 0.
//!
//! A line that begins with `;` is a heading, and is printed as it stands.
#![tactic(auto)]

mod line;
mod sketch;
mod words;

use attr_ids::{FuncId, NoMemory};
use ir_module::{Module, is_well_formed};
use ir_paths::{UseFault, defined_on_every_path};
use line::Line;
use sketch::Sketch;
use std::alloc::Global;
use std::io;

/// Puts the number of a use that lacks its definition, and the blocks of the path.
fn put_fault(line: &mut Line, fault: &UseFault) {
    match fault {
        UseFault::Missing { use_at, path } => {
            line.put(" missing");
            line.number(*use_at);
            line.put(" on");
            for block in path.as_slice() {
                line.number(block.0);
            }
        }
        UseFault::NoMemory => line.lose(),
    }
}

/// Puts what is answered for the first body of a module.
fn put_answer(alloc: Global, line: &mut Line, m: &Module) {
    if m.funcs.is_empty() || !is_well_formed(m) {
        return line.put(" not well formed");
    }
    match defined_on_every_path(alloc, m, FuncId(0)) {
        Ok(()) => line.put(" defined"),
        Err(fault) => put_fault(line, &fault),
    }
}

/// The module of a line.
fn sketched(alloc: Global, text: &str) -> Result<Box<Sketch>, NoMemory> {
    let mut sketch = Sketch::new(alloc)?;
    sketch.add_all(alloc, text)?;
    Ok(sketch)
}

/// Puts what is printed for a line of the input.
fn put_line(alloc: Global, line: &mut Line, text: &str) {
    line.put(text);
    if text.is_empty() || text.starts_with(';') {
        return;
    }
    line.put(" =");
    match sketched(alloc, text) {
        Ok(sketch) => put_answer(alloc, line, &sketch.module),
        Err(NoMemory) => line.lose(),
    }
}

fn print(rt: &HostRuntime, text: &str) -> io::Result<()> {
    let mut line = Line::new(rt.alloc());
    put_line(rt.alloc(), &mut line, text);
    if line.is_lost {
        return println!(rt; "no memory");
    }
    println!(rt; "{}", line.as_str())
}

fn main(rt: HostRuntime) -> io::Result<()> {
    for text in rt.lines(rt.alloc()) {
        print(&rt, text?.as_str())?;
    }
    Ok(())
}
