//! Commands, and what they ask for. A line of the input is the words of a command, with one blank between two
//! of them, or no word where it is empty; the line that is printed says what is asked, or `usage` where the
//! words are no command. That the answer is the one of the command's definition is proved; these rows hold that
//! definition against commands as people write them.
#![tactic(auto)]

use command_line::{Asked, CommandRefusal, Emit, command};
use std::alloc::{AllocError, Global};
use std::io;

/// The words of a line.
fn words(alloc: Global, line: &str) -> Result<Vec<String>, AllocError> {
    let mut words = Vec::new(alloc);
    if line.is_empty() {
        return Ok(words);
    }
    for word in line.split(' ') {
        words.push(String::from_str(alloc, word)?)?;
    }
    Ok(words)
}

/// The word of what is printed.
fn emit_word(emit: Emit) -> &'static str {
    match emit {
        Emit::Module => "module",
        Emit::List => "list",
        Emit::Summary => "summary",
    }
}

/// What is asked.
fn said(alloc: Global, asked: Asked) -> Result<String, AllocError> {
    let workers = asked.workers;
    let emit = emit_word(asked.emit);
    match asked.generate {
        Some(count) => format!(in alloc; "workers {workers} emit {emit} generate {count}"),
        None => format!(in alloc; "workers {workers} emit {emit}"),
    }
}

/// The answer to the words of a line.
fn answer(alloc: Global, line: &str) -> Result<String, AllocError> {
    let words = words(alloc, line)?;
    match command(alloc, words.as_slice()) {
        Ok(asked) => said(alloc, asked),
        Err(CommandRefusal::Usage) => String::from_str(alloc, "usage"),
        Err(CommandRefusal::NoMemory) => String::from_str(alloc, "no memory"),
    }
}

fn main(rt: HostRuntime) -> io::Result<()> {
    for line in rt.lines(rt.alloc()) {
        let text = answer(rt.alloc(), line?.as_str())?;
        println!(rt; "{text}")?;
    }
    Ok(())
}
