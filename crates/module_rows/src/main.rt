//! Modules, their types and their numbers, line by line. A line of standard input adds an entry to the tables of a
//! module, or puts another one in its place, or asks; a question is printed again with its answer behind it. A line
//! `clear` begins a new module, and one that begins with `#` is a heading. A module of three lines and its question:
//!
//! ```text
//! type void
//! func leaf internal 0 0 1
//! well_formed
//! ```
//!
//! - `type int 32`, `type array 3 2`, `type struct 2 4 2`, `type packed 2 0 3`: a type, with its parts by number.
//! - `param 0 4` is a parameter of the function that comes next, with its value and its type; `extra func 1 4` is a
//!   constant of its header; `func leaf internal 0 0 1` is the function: name, linkage, return type, first block and
//!   how many.
//! - `block 0 0 1` is a block: function, first segment and how many.
//! - `do ret - 0` is an instruction of the segment that comes next: name, number of the result, type and the rest;
//!   `seg 0` is the segment, with its block.
//! - `value 1 4 at 1 0` and `value 0 4 param 0` are values: function, type and what makes them.
//! - `global 5 zero 0 5` is a global variable, `linked external 3 5` one with a linkage and an alignment, and
//!   `part func 0 4` a part of a constant.
//! - `put seg 2 1` puts the segment that comes next in the place of another; so do `put block` and `put value`, and
//!   `put offsets` takes the offsets of types away.
//! - An entry counts as written at the offset that is the number of its line behind `clear`; `use 1 3 70` is the value 1 of
//!   type 3, written at 70. `verify` asks whether the module is verified.
//! - `positions`, `position reach 0 1` and `position_count` ask for all positions, for the number of one and for how
//!   many there are.
#![tactic(auto)]

mod asks;
mod calls;
mod desk;
mod instrs;
mod integers;
mod line;
mod numbered;
mod operands;
mod rules;
mod types;
mod uses_of;
mod verdicts;
mod words;

use attr_ids::NoMemory;
use desk::Desk;
use ir_module::Module;
use line::Line;
use std::alloc::Global;
use std::io;
use std::str::SplitWhitespace;
use words::word;

/// Answers a question; answers whether it is one.
fn ask(
    alloc: Global,
    m: &Module,
    question: &str,
    words: &mut SplitWhitespace<'_>,
    line: &mut Line,
) -> bool {
    integers::ask(alloc, question, words, line)
        || asks::ask(m, question, words, line)
        || uses_of::ask(alloc, m, question, words, line)
        || rules::ask(alloc, m, question, words, line)
        || verdicts::ask(alloc, m, question, line)
        || numbered::ask(alloc, m, question, words, line)
        || types::ask(&m.types, question, words, line)
}

/// Does what a line says; answers whether it is printed.
fn told(alloc: Global, desk: &mut Box<Desk>, text: &str, line: &mut Line) -> bool {
    let mut words = text.split_whitespace();
    let first = word(&mut words);
    if first == "clear" {
        match Desk::new(alloc) {
            Ok(new) => *desk = new,
            Err(NoMemory) => line.lose(),
        }
        return line.is_lost;
    }
    if first.starts_with('#') {
        return true;
    }
    if desk.add(alloc, first, &mut words, line) {
        return line.is_lost;
    }
    line.word("=");
    if !ask(alloc, &desk.module, first, &mut words, line) {
        line.word("?");
    }
    true
}

/// Does what a line says, and prints it with the answer behind it, if it is a question or a heading.
fn print(rt: &HostRuntime, desk: &mut Box<Desk>, text: &str) -> io::Result<()> {
    let mut line = Line::new(rt.alloc());
    if !told(rt.alloc(), desk, text, &mut line) {
        return Ok(());
    }
    if line.is_lost {
        return println!(rt; "out of memory");
    }
    println!(rt; "{text}{}", line.as_str())
}

fn main(rt: HostRuntime) -> io::Result<()> {
    let Ok(mut desk) = Desk::new(rt.alloc()) else {
        return println!(rt; "out of memory");
    };
    for text in rt.lines(rt.alloc()) {
        print(&rt, &mut desk, text?.as_str())?;
    }
    Ok(())
}
