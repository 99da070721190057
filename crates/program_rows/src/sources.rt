use crate::broken_stream::BrokenStream;
use crate::fields::{Fields, number, shown};
use attr_ids::Text;
use attr_io::{MemSource, Source, StdSink, StdSource, SureSource, read_all, write_all};
use std::alloc::Global;
use std::io;
use std::rt::Files;

/// One read into a buffer of so many dots, at least one: the answer and what the buffer then holds.
fn read<S: Source>(rt: &impl Print, alloc: Global, source: &mut S, len: usize) -> io::Result<()> {
    let mut buffer = vec![in alloc; b'.'; len]?;
    if buffer.is_empty() {
        return Ok(());
    }
    let got = source.read(buffer.as_mut_slice());
    let bytes = shown(alloc, buffer.as_slice())?;
    print!(rt; "{got:?} {bytes}")
}

/// Reads to the end, of at most so many bytes: the text, or why there is none.
fn read_whole<S: Source>(
    rt: &impl Print,
    alloc: Global,
    source: &mut S,
    limit: usize,
) -> io::Result<()> {
    match read_all(alloc, source, limit) {
        Ok(text) => print!(rt; "{}", shown(alloc, text.as_slice())?),
        Err(stop) => print!(rt; "{stop:?}"),
    }
}

/// Reads as the words `read=N` and `all=N` say, and prints the answers with `|` between them.
fn calls<S: Source>(
    rt: &impl Print,
    alloc: Global,
    source: &mut S,
    mut row: Fields,
) -> io::Result<()> {
    for call in row.next_field().split_whitespace() {
        match call.split_once('=') {
            Some(("read", len)) => read(rt, alloc, source, number(len))?,
            Some(("all", limit)) => read_whole(rt, alloc, source, number(limit))?,
            _ => print!(rt; "?")?,
        }
        print!(rt; "|")?;
    }
    println!(rt; "")
}

/// `memory source|PIECE|FAULTS|TEXT|CALLS`
pub fn memory(rt: &impl Print, alloc: Global, mut row: Fields) -> io::Result<()> {
    let piece = row.number().max(1);
    let faults = row.numbers(alloc)?;
    let text = row.text(alloc)?;
    calls(rt, alloc, &mut MemSource::new(text, piece, faults), row)
}

/// `sure source|TEXT|CALLS`
pub fn sure(rt: &impl Print, alloc: Global, mut row: Fields) -> io::Result<()> {
    let text = row.text(alloc)?;
    calls(rt, alloc, &mut SureSource::new(text), row)
}

/// `std source|TEXT|CALLS`
pub fn std(rt: &impl Print, alloc: Global, mut row: Fields) -> io::Result<()> {
    let text = row.text(alloc)?;
    calls(rt, alloc, &mut StdSource::new(text.as_slice()), row)
}

/// `broken source|CALL|CALLS`
pub fn broken(rt: &impl Print, alloc: Global, mut row: Fields) -> io::Result<()> {
    let stream = BrokenStream::new(row.number());
    calls(rt, alloc, &mut StdSource::new(stream), row)
}

/// `pipe|TEXT|CALLS`: what is written at one end is read at the other.
pub fn pipe<R: Print + Files>(rt: &R, alloc: Global, mut row: Fields) -> io::Result<()> {
    let text: Text = row.text(alloc)?;
    let (reader, writer) = io::pipe(rt)?;
    let mut sink = StdSink::new(writer);
    print!(rt; "{:?}|", write_all(&mut sink, text.as_slice()))?;
    drop(sink);
    calls(rt, alloc, &mut StdSource::new(reader), row)
}
