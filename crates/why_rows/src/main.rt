//! Certificates of small systems, line by line: a line of standard input is a call and numbers in base 10, and the
//! line that comes back has behind it what the call answered. A line that begins with `#` is a heading.
#![tactic(auto)]

mod certificates;
mod damage;
mod line;
mod numbers;
mod systems;

use attr_ids::{NoMemory, WordList};
use line::Line;
use rule_terms::System;
use std::alloc::Global;
use std::io;

/// Puts what comes of a line behind it.
fn tell(alloc: Global, s: &mut System, text: &str, line: &mut Line) {
    let mut words = text.split_whitespace();
    let Some(call) = words.next() else {
        return;
    };
    if call.starts_with('#') {
        return;
    }
    line.put(" =");
    let Ok(n) = numbers::parsed(alloc, words) else {
        return line.lose();
    };
    if !systems::answer(alloc, s, call, &n, line)
        && !certificates::answer(alloc, s, call, &n, line)
    {
        line.put(" no such call");
    }
}

/// Prints a line and what came of it.
fn print(rt: &HostRuntime, s: &mut System, text: &str) -> io::Result<()> {
    let mut line = Line::new(rt.alloc());
    tell(rt.alloc(), s, text, &mut line);
    if line.is_lost {
        return println!(rt; "out of memory");
    }
    println!(rt; "{text}{}", line.as_str())
}

/// A system without positions.
fn empty_system(alloc: Global) -> Result<Box<System>, NoMemory> {
    Ok(Box::new(alloc, System::new(alloc, WordList::new(alloc))?)?)
}

fn main(rt: HostRuntime) -> io::Result<()> {
    let Ok(mut s) = empty_system(rt.alloc()) else {
        return println!(rt; "out of memory");
    };
    for text in rt.lines(rt.alloc()) {
        print(&rt, &mut s, text?.as_str())?;
    }
    Ok(())
}
