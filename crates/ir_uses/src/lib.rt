//! Where the values of a module are used and where its functions are called. In goes a module; out come
//! for each value its uses and for each function its direct calls, each once and in text order, and whether the
//! outside may enter its body. The layers above use one contract: `uses` answers lists that `AreUsesOf` the module.
#![tactic(auto)]

mod bodies;
mod callers;
mod gather;
mod lists;
mod taken;
mod use_lists;
mod values;

pub use gather::uses;
pub use lists::Use;
pub use use_lists::Uses;
