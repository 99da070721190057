//! The machine that a module is run by, with values and memory. There is no code here that runs: a module, an
//! opening state and a list of choices have a run, which is the list of its steps, each with its events and the
//! states before and after it; runs in which each call of the outside keeps its promises are honest. The layers
//! above use the definitions of `specs` and the laws of the machine, which hold of every run.
#![tactic(auto)]

mod choice;
mod laws;

pub use choice::{Act, Byte, ByteList, Choice, Datum, Mark, MarkList, Value, ValueList};
