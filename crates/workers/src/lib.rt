//! The workers. In go the words of a system's positions, opened, and for each worker a seat, a pool of
//! hints and a robber; out comes how each worker ended. A worker goes round: it takes up dirty words that
//! hints name, and where no hint named one it looks through all words for its own dirty bits. The layer
//! above rests on one contract: a worker that is done knows its own bit unset in every word, and one that
//! is spent has used up its turns.
#![tactic(auto)]

mod round;
mod run;
mod team;
mod turn;
mod worker;

pub use run::{Ran, run_all};
pub use worker::{Worker, run_worker};
