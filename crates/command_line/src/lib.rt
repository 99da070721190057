//! The words of the program's command. The words behind the program's name go in; what they ask for comes
//! out, or that they are no command. They are read by `clap` as one simple command, whose definition is
//! `written`. The layer above uses one contract, that of `command`: what is asked is what the first value of
//! each option says, and, memory aside, the words are refused exactly where clap's definition of the written
//! command refuses them.
#![tactic(auto)]

mod asked;
mod laws;
mod reading;
mod words;
mod written;

pub use asked::{Asked, CommandRefusal, Emit, USAGE};
pub use laws::{asked_or_refused, one_command};
pub use words::command;
