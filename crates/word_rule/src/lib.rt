//! The words of a deduction that several workers cut at once, without a lock: a table of atomic words, and a
//! seat for each worker. A system, its graph and a number of workers go in; each worker steps with its seat;
//! the words that are left come out. The layer above uses the contracts of the calls: each is one event of the
//! core machine (`fix_core`), for the word that its one fetch or load found, and at the end the words contain
//! the greatest list, and are it where every seat knows its own dirty bit unset in every word. The whole
//! protocol is told in docs/PROTOCOL.md.
#![tactic(auto)]

mod calls;
mod closing;
mod lists;
mod opening;
mod plays;
mod seat;
mod view;
mod words;

pub use seat::{WorkerSeat, WorkerSeats};
pub use words::LatticeWords;
