use crate::fields::{Fields, shown};
use attr_io::Gate;
use attrib::{Annotated, Emit, annotate};
use std::alloc::Global;
use std::io;
use std::thread::Threads;

/// A gate that holds nobody back.
pub struct OpenGate;

impl Gate for OpenGate {
    fn at_turn(&self, _worker: u8, _turn: u64) {}
}

/// `annotate|WORKERS|TEXT`
pub fn annotated<R: Print + Threads + Sync>(
    rt: &R,
    alloc: Global,
    mut row: Fields,
) -> io::Result<()> {
    let workers = row.number().max(1).min(16) as u8;
    let text = row.text(alloc)?;
    match annotate(rt, alloc, text.as_slice(), workers, Emit::Module, &OpenGate) {
        Ok(Annotated { bytes }) => println!(rt; "{}", shown(alloc, bytes.as_slice())?),
        Err(_) => println!(rt; "refused"),
    }
}
