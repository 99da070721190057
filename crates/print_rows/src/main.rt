//! What is added to the text of a module, line by line. A line of standard input adds an entry to the tables of a module,
//! or asks; a question is printed again with its answer behind it. A line `clear` begins a new module, whose types are
//! `void`, `ptr`, `i32` and `i64`, by the numbers 0 to 3; one that begins with `#` is a heading. A module of five lines and
//! its question:
//!
//! ```text
//! func internal 0 0 1
//! block 0 0 1
//! ret
//! seg 0
//! insertions fun 0 1
//! ```
//!
//! - `param 0 1 align 8` is a parameter of the function that comes next, with its value, its type and its attributes; its
//!   place is the number of its value. `func internal 0 0 1 nofree ret nonnull` is the function: linkage, return type,
//!   first block, how many, its attributes and those of its return; its places are 0.
//! - `block 0 0 1` is a block: function, first segment and how many.
//! - `ret zero 0 2` and `call = 2 1 1 0 % 1 1 null with fn nofree ret nonnull arg 0 align 8` are instructions of the segment
//!   that comes next: a call has its result, its type, the written return type, its callee, its arguments and its
//!   attributes; its return has the place 1000, itself 1001, and its arguments 1, 2 and so on. `seg 0` is the segment, with
//!   its block.
//! - `value 1 2 at 1 0` and `value 0 1 param 0` are values: function, type and what makes them.
//! - `insertions fun 0 1 entry 0 1 10000` asks what is added where these bits are held, in base 16; `list` and `summary` ask
//!   for the texts.
#![tactic(auto)]

mod asks;
mod attributes;
mod calls;
mod desk;
mod line;
mod words;

use attr_ids::NoMemory;
use desk::Desk;
use line::Line;
use std::alloc::Global;
use std::io;
use words::word;

/// The line that is printed for one of the input, if there is one.
fn told(alloc: Global, desk: &mut Desk, text: &str) -> Result<Option<Line>, NoMemory> {
    let mut line = Line::new(alloc, text)?;
    let mut words = text.split_whitespace();
    let first = word(&mut words);
    if first.starts_with('#') {
        return Ok(Some(line));
    }
    if first == "clear" {
        *desk = Desk::new(alloc)?;
        return Ok(None);
    }
    if desk.add(alloc, first, &mut words)? {
        return Ok(None);
    }
    line.word("=");
    if !asks::ask(alloc, &desk.module, first, &mut words, &mut line)? {
        line.word("?");
    }
    Ok(Some(line))
}

/// Reads the lines and prints the answers.
fn answer_all(rt: &HostRuntime, desk: &mut Desk) -> io::Result<()> {
    for text in rt.lines(rt.alloc()) {
        match told(rt.alloc(), desk, text?.as_str()) {
            Ok(Some(line)) if !line.is_lost => println!(rt; "{}", line.as_str())?,
            Ok(None) => {}
            _ => println!(rt; "out of memory")?,
        }
    }
    Ok(())
}

fn main(rt: HostRuntime) -> io::Result<()> {
    match Desk::new(rt.alloc()) {
        Ok(mut desk) => answer_all(&rt, &mut desk),
        Err(_) => println!(rt; "out of memory"),
    }
}
