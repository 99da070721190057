//! What is added to the text of a module. A module, its positions and their words of facts go in; out come the
//! insertions, in text order. The layer above uses one contract: `insertions` answers exactly those that the
//! definition gives for the facts that the words hold (`insertions_of`). The definition is told of things: which
//! attributes are added to which body, parameter, call or argument (`additions_of`), place by place; the words are the
//! spelling of these attributes (`words_of`), and tell them (`words_tell_attributes`). The offsets rise where the places
//! of the module do (`offsets_rise`). It goes through the module once, and takes memory for what is printed alone.
#![tactic(auto)]

mod argument;
mod attrs;
mod calls;
mod functions;
mod held;
mod laws;
mod memory;
mod parameter;
mod printing;
mod put;
mod returned;
mod spelling;
mod symbols;

pub use functions::is_dead_body;
pub use held::Held;
pub use laws::{offsets_rise, words_tell_attributes};
pub use printing::insertions;
