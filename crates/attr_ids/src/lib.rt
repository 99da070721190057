//! The words that every crate of the program shares: the numbers of things, spans and insertions of
//! a text, the statuses of the program, and lists that contracts see as lists. Nothing here decides
//! anything; the layers above use these types so that their contracts can speak of plain values.
#![tactic(auto)]

mod ids;
mod insertion;
mod memory;
mod sequence;
mod status;

pub use ids::{BlockId, FuncId, GlobalId, PosId, SegId, TypeId, ValueId};
pub use insertion::{Insertion, Insertions, Place, Span};
pub use memory::NoMemory;
pub use sequence::{Numbers, Offsets, PosList, Sequence, Text, WordList};
pub use status::{EndList, Status, WorkerEnd};
