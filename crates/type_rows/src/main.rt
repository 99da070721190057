//! The types of modules, row by row. A line of the input is a module; behind it are printed its types by their numbers, each
//! with its parts by number and the offset at which it is written first, then the number of i1, and the offset of the
//! first name of a type that stands for none. An empty line, and one that begins with `;`, is printed as it stands.
#![tactic(auto)]

mod line;
mod types;

use attr_ids::NoMemory;
use line::Line;
use std::alloc::Global;
use std::io;

fn line_for(alloc: Global, text: &str) -> Result<Line, NoMemory> {
    let mut line = Line::new(alloc);
    line.put(text);
    if !text.is_empty() && !text.starts_with(';') {
        line.put(" =");
        types::told(alloc, text.as_bytes(), &mut line)?;
    }
    if line.is_whole {
        Ok(line)
    } else {
        Err(NoMemory)
    }
}

fn main(rt: HostRuntime) -> io::Result<()> {
    for line in rt.lines(rt.alloc()) {
        match line_for(rt.alloc(), line?.as_str()) {
            Ok(line) => {
                let text = line.text.as_str();
                println!(rt; "{text}")?;
            }
            Err(NoMemory) => println!(rt; "out of memory")?,
        }
    }
    Ok(())
}
