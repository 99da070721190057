//! The program `attrib`: the standard streams and the words of the command, handed to the top call.
#![tactic(auto)]

use attr_ids::Status;
use attr_io::{Gate, StdSink, StdSource, write_all};
use attrib::attrib;
use std::alloc::Global;
use std::env::Env;
use std::process::ExitCode;
use std::{env, io};

/// A gate that holds nobody back.
struct OpenGate;

impl Gate for OpenGate {
    fn at_turn(&self, _worker: u8, _turn: u64) {}
}

/// The words of the command, without the program's own name.
fn words(rt: &(impl Env + Alloc<A = Global>)) -> io::Result<Vec<String>> {
    let mut all = Vec::new(rt.alloc());
    for word in env::args(rt)?.skip(1) {
        all.push(word)?;
    }
    Ok(all)
}

/// The words of the command; where the system does not give them, or one is not UTF-8, one empty
/// word, which no command has.
fn words_or_a_faulty_one(rt: &(impl Env + Alloc<A = Global>)) -> io::Result<Vec<String>> {
    match words(rt) {
        Ok(words) => Ok(words),
        Err(error) if error.kind() == io::ErrorKind::OutOfMemory => Err(error),
        Err(_) => {
            let mut faulty = Vec::new(rt.alloc());
            faulty.push(String::new(rt.alloc()))?;
            Ok(faulty)
        }
    }
}

fn main(rt: HostRuntime) -> ExitCode {
    let mut errs = StdSink::new(rt.stderr());
    let Ok(words) = words_or_a_faulty_one(&rt) else {
        let _ = write_all(&mut errs, b"attrib: out of memory\n");
        return ExitCode::from(Status::NoMemory.code());
    };
    let mut source = StdSource::new(rt.stdin());
    let mut out = StdSink::new(rt.stdout());
    let status = attrib(
        &rt,
        rt.alloc(),
        words.as_slice(),
        &mut source,
        &mut out,
        &mut errs,
        &OpenGate,
    );
    ExitCode::from(status.code())
}
