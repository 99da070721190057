//! The outside of the program: where its text comes from, and where its output and its messages go.
//! In go bytes of a [`Source`], out come bytes at a [`Sink`], each told by ghost members that
//! contracts speak of, and a [`Gate`] is told of the turns of the workers. There are versions in
//! memory whose calls fail as listed, versions that never fail, and adapters over the streams of
//! `std`. The layer above uses one contract: bytes move in order and none is lost, and a fault is
//! answered only where the count of faults rose. [`read_all`] and [`write_all`] carry it to whole
//! texts.
#![tactic(auto)]

mod copy;
mod mem_sink;
mod mem_source;
mod outside;
mod script;
mod std_streams;
mod sure;
mod transfer;

pub use mem_sink::MemSink;
pub use mem_source::MemSource;
pub use outside::{Gate, ReadGot, Sink, Source, WriteGot};
pub use std_streams::{StdSink, StdSource};
pub use sure::{SureSink, SureSource};
pub use transfer::{ReadStop, WriteEnd, read_all, write_all};
