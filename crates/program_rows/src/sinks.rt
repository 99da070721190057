use crate::broken_stream::BrokenStream;
use crate::fields::{Fields, shown};
use attr_ids::Text;
use attr_io::{MemSink, Sink, StdSink, SureSink, write_all};
use std::alloc::{AllocError, Global};
use std::io;

/// One call: `write` of a piece that is not empty, or `all` of a text, with `_` for a blank.
fn call<O: Sink>(
    rt: &impl Print,
    alloc: Global,
    sink: &mut O,
    name: &str,
    text: &str,
) -> io::Result<()> {
    let text = spaced(alloc, text)?;
    if name == "all" {
        return print!(rt; "{:?}|", write_all(sink, text.as_slice()));
    }
    if text.is_empty() {
        return Ok(());
    }
    print!(rt; "{:?}|", sink.write(text.as_slice()))
}

/// Writes as the words `write=TEXT` and `all=TEXT` say, and prints the answers, each with `|` behind it.
fn calls<O: Sink>(rt: &impl Print, alloc: Global, sink: &mut O, words: &str) -> io::Result<()> {
    for word in words.split_whitespace() {
        if let Some((name, text)) = word.split_once('=') {
            call(rt, alloc, sink, name, text)?;
        }
    }
    Ok(())
}

fn spaced(alloc: Global, text: &str) -> Result<Vec<u8>, AllocError> {
    let mut bytes = Vec::new(alloc);
    for byte in text.as_bytes() {
        bytes.push(if *byte == b'_' { b' ' } else { *byte })?;
    }
    Ok(bytes)
}

/// Ends the row with the bytes that are held.
fn print_held(rt: &impl Print, alloc: Global, bytes: &[u8]) -> io::Result<()> {
    let held = shown(alloc, bytes)?;
    println!(rt; "{held}")
}

/// `memory sink|ROOM|FAULTS|CALLS`: behind the answers stands what the sink holds.
pub fn memory(rt: &impl Print, alloc: Global, mut row: Fields) -> io::Result<()> {
    let room = row.number();
    let faults = row.numbers(alloc)?;
    let room = Text::from_vec(vec![in alloc; b'.'; room]?);
    let mut sink = MemSink::new(room, faults);
    calls(rt, alloc, &mut sink, row.next_field())?;
    print_held(rt, alloc, sink.held())
}

/// `sure sink|CALLS`
pub fn sure(rt: &impl Print, alloc: Global, mut row: Fields) -> io::Result<()> {
    calls(rt, alloc, &mut SureSink::new(), row.next_field())?;
    println!(rt; "")
}

/// `std sink|CALLS`: behind the answers stands what was written.
pub fn std(rt: &impl Print, alloc: Global, mut row: Fields) -> io::Result<()> {
    let mut written = Vec::new(alloc);
    calls(rt, alloc, &mut StdSink::new(&mut written), row.next_field())?;
    print_held(rt, alloc, written.as_slice())
}

/// `broken sink|CALL|CALLS`
pub fn broken(rt: &impl Print, alloc: Global, mut row: Fields) -> io::Result<()> {
    let stream = BrokenStream::new(row.number());
    calls(rt, alloc, &mut StdSink::new(stream), row.next_field())?;
    println!(rt; "")
}
