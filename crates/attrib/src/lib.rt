//! The program as a call. The words of a command, a source and two sinks go in, a status comes out.
//! What the program promises its users stands on `attrib` and, for a text in memory, on `annotate`:
//! what is printed is the text that was read with exactly the words of the greatest self-supporting
//! set of facts of its module put in at their places, or a list or a summary of these words, or the one
//! line that says why not.
#![tactic(auto)]

mod annotation;
mod lines;
mod offsets;
mod places;
mod run;

pub use accept::{Limit, Refusal};
pub use annotation::{Annotated, annotate};
pub use command_line::Emit;
pub use run::attrib;
