use crate::fields::{Fields, shown};
use crate::texts::OpenGate;
use attr_ids::{Numbers, Status, Text};
use attr_io::{MemSink, MemSource, Source};
use attrib::attrib;
use std::alloc::{AllocError, Global};
use std::io;
use std::thread::Threads;

/// Room where it does not matter how much.
const ROOM: usize = 4096;

fn room(alloc: Global, bytes: usize) -> Result<Text, AllocError> {
    Ok(Text::from_vec(vec![in alloc; 0u8; bytes]?))
}

/// What a run left: its status, and what the two sinks hold.
#[derive(Drop)]
struct Ran {
    status: Status,
    out: MemSink,
    errs: MemSink,
}

fn print_ran(rt: &impl Print, alloc: Global, ran: &Ran) -> io::Result<()> {
    let code = ran.status.code();
    let out = shown(alloc, ran.out.held())?;
    let errs = shown(alloc, ran.errs.held())?;
    println!(rt; "{code}|{out}|{errs}")
}

fn run_on<R: Threads + Sync, S: Source>(
    rt: &R,
    alloc: Global,
    words: &[String],
    source: &mut S,
    mut out: MemSink,
    mut errs: MemSink,
) -> Ran {
    let status = attrib(rt, alloc, words, source, &mut out, &mut errs, &OpenGate);
    Ran { status, out, errs }
}

fn words(alloc: Global, field: &str) -> Result<Vec<String>, AllocError> {
    let mut words = Vec::new(alloc);
    for word in field.split_whitespace() {
        words.push(String::from_str(alloc, word)?)?;
    }
    Ok(words)
}

/// The sink that two fields tell: `ROOM|FAULTS`.
fn sink(alloc: Global, row: &mut Fields) -> Result<MemSink, AllocError> {
    let bytes = row.number();
    Ok(MemSink::new(room(alloc, bytes)?, row.numbers(alloc)?))
}

/// `run|WORDS|PIECE|FAULTS|ROOM|FAULTS|ROOM|FAULTS|TEXT`: the source's, the output's, the errors' ones.
pub fn run<R: Print + Threads + Sync>(rt: &R, alloc: Global, mut row: Fields) -> io::Result<()> {
    let words = words(alloc, row.next_field())?;
    let piece = row.number().max(1);
    let faults = row.numbers(alloc)?;
    let out = sink(alloc, &mut row)?;
    let errs = sink(alloc, &mut row)?;
    let mut source = MemSource::new(row.text(alloc)?, piece, faults);
    let ran = run_on(rt, alloc, words.as_slice(), &mut source, out, errs);
    print_ran(rt, alloc, &ran)
}

/// One run of a text from a source of such pieces that fails at one call, into so much room.
fn one_run<R: Threads + Sync>(
    rt: &R,
    alloc: Global,
    text: &str,
    piece: usize,
    call: usize,
    bytes: usize,
) -> io::Result<Ran> {
    let text = Text::from_vec(crate::fields::bytes(alloc, text)?);
    let faults = Numbers::from_vec(vec![in alloc; call as u64; 1]?);
    let mut source = MemSource::new(text, piece.max(1), faults);
    let out = MemSink::new(room(alloc, bytes)?, Numbers::new(alloc));
    let errs = MemSink::new(room(alloc, ROOM)?, Numbers::new(alloc));
    Ok(run_on(rt, alloc, &[], &mut source, out, errs))
}

/// `text|NAME|TEXT`: the name, and what a run without words leaves.
pub fn text<R: Print + Threads + Sync>(rt: &R, alloc: Global, mut row: Fields) -> io::Result<()> {
    let name = row.next_field();
    let text = row.next_field();
    let ran = one_run(rt, alloc, text, ROOM, 0, ROOM)?;
    print!(rt; "{name}|")?;
    print_ran(rt, alloc, &ran)
}

/// `each read|PIECE|COUNT|TEXT`: a run for each call from 1 to COUNT, with a fault at that call.
pub fn each_read<R: Print + Threads + Sync>(
    rt: &R,
    alloc: Global,
    mut row: Fields,
) -> io::Result<()> {
    let piece = row.number();
    let count = row.number();
    let text = row.next_field();
    for call in 0..count {
        let ran = one_run(rt, alloc, text, piece, call.saturating_add(1), ROOM)?;
        print_ran(rt, alloc, &ran)?;
    }
    Ok(())
}

/// `each room|COUNT|TEXT`: a run for each room of the output below COUNT bytes.
pub fn each_room<R: Print + Threads + Sync>(
    rt: &R,
    alloc: Global,
    mut row: Fields,
) -> io::Result<()> {
    let count = row.number();
    let text = row.next_field();
    for bytes in 0..count {
        let ran = one_run(rt, alloc, text, 8, 0, bytes)?;
        print_ran(rt, alloc, &ran)?;
    }
    Ok(())
}
