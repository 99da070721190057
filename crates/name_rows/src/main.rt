//! What names stand for, row by row. A line of the input names what is to be done, and a text; the line that is printed for
//! it is the answer. That the answers are those of the definitions is proved; these rows hold the definitions against
//! texts as people write them.
//!
//! - `ids %05 %5 %"5"`: the number of each token's name.
//! - `names %05 @"a\62"`: the bytes of each token's name.
//! - `top %t = type i32 declare void @f()`: what each definition of the module is known by, and the first fault.
//! - `bodies define void @f(i32 %x) { ret void }`: what each name in each function stands for, and the first fault there.
//!   `bodies/t ..` takes the types of that name for void.
//! - `marker llvm.lifetime.end.p0`: whether the name is that of a lifetime marker.
//!
//! An empty line, and one that begins with `;`, is printed as it stands.
#![tactic(auto)]

mod bodies;
mod line;
mod names;
mod read;
mod top;

use attr_ids::NoMemory;
use ir_scopes::is_lifetime_name;
use line::Line;
use std::alloc::Global;
use std::io;

/// Answers a row.
fn answer(alloc: Global, command: &str, text: &[u8], line: &mut Line) -> Result<(), NoMemory> {
    match command {
        "ids" => names::ids_of(alloc, text, line),
        "names" => names::texts_of(alloc, text, line),
        "top" => top::shown(alloc, text, line),
        "bodies" => bodies::shown(alloc, text, b"", line),
        "bodies/t" => bodies::shown(alloc, text, b"t", line),
        "marker" => {
            line.word(if is_lifetime_name(text) { "yes" } else { "no" });
            Ok(())
        }
        _ => {
            line.word("no row");
            Ok(())
        }
    }
}

/// The line that is printed for a line of the input.
fn line_for(alloc: Global, row: &str) -> Result<Line, NoMemory> {
    let mut line = Line::new(alloc, row);
    if row.is_empty() || row.starts_with(';') {
        return Ok(line);
    }
    line.word("=>");
    match row.split_once(' ') {
        Some((command, text)) => answer(alloc, command, text.as_bytes(), &mut line)?,
        None => answer(alloc, row, b"", &mut line)?,
    }
    Ok(line)
}

fn main(rt: HostRuntime) -> io::Result<()> {
    for row in rt.lines(rt.alloc()) {
        match line_for(rt.alloc(), row?.as_str()) {
            Ok(line) => println!(rt; "{}", line.as_str())?,
            Err(NoMemory) => println!(rt; "out of memory")?,
        }
    }
    Ok(())
}
