//! Runs the public calls below the program on rows of standard input and prints what each answers:
//! one row a line, its fields with `|` between them. What is printed is held against `stdout`, which
//! was written by hand or by other means, never by this program. A row of another kind is a heading.
#![tactic(auto)]

mod broken_stream;
mod fields;
mod meetings;
mod runs;
mod sinks;
mod sources;
mod systems;
mod texts;
mod weaving;

use fields::Fields;
use std::alloc::Global;
use std::io;
use std::rt::Files;
use std::thread::Threads;

/// A row of a source or a sink.
fn stream_row<R: Print + Files>(rt: &R, alloc: Global, kind: &str, row: Fields) -> io::Result<()> {
    match kind {
        "memory source" => sources::memory(rt, alloc, row),
        "sure source" => sources::sure(rt, alloc, row),
        "std source" => sources::std(rt, alloc, row),
        "broken source" => sources::broken(rt, alloc, row),
        "pipe" => sources::pipe(rt, alloc, row),
        "memory sink" => sinks::memory(rt, alloc, row),
        "sure sink" => sinks::sure(rt, alloc, row),
        "std sink" => sinks::std(rt, alloc, row),
        "broken sink" => sinks::broken(rt, alloc, row),
        _ => println!(rt; "{kind}"),
    }
}

/// A row of a text.
fn text_row<R: Print + Files>(rt: &R, alloc: Global, kind: &str, row: Fields) -> io::Result<()> {
    match kind {
        "weave" => weaving::weave_row(rt, alloc, row),
        _ => stream_row(rt, alloc, kind, row),
    }
}

/// A row of the program, or of a run in which workers are held or counted.
fn row<R: Print + Files + Threads + Sync>(rt: &R, alloc: Global, line: &str) -> io::Result<()> {
    let mut row = Fields::new(line);
    let kind = row.next_field();
    match kind {
        "annotate" => texts::annotated(rt, alloc, row),
        "text" => runs::text(rt, alloc, row),
        "run" => runs::run(rt, alloc, row),
        "each read" => runs::each_read(rt, alloc, row),
        "each room" => runs::each_room(rt, alloc, row),
        "meet" => meetings::meet(rt, alloc, row),
        "turns" => meetings::turns(rt, alloc, row),
        "held ring" => meetings::held_ring(rt, alloc, row),
        "held chain" => meetings::held_chain(rt, alloc, row),
        "spent" => systems::spent(rt, alloc),
        _ => text_row(rt, alloc, kind, row),
    }
}

fn main(rt: HostRuntime) -> io::Result<()> {
    for line in rt.lines(rt.alloc()) {
        let line = line?;
        row(&rt, rt.alloc(), line.as_str())?;
    }
    Ok(())
}
