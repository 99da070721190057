//! The rules of what is passed and returned, as terms: what pointer parameters of bodies have at each entry, and what bodies return.
//! A module, its uses, its positions and a system go in; the system comes out with these rules met in. The layer above uses one
//! contract, that of `terms`: between the two systems was met in that the rule of each bit of an entry or a return holds (`Meets`).
#![tactic(auto)]

mod calling;
mod entries;
mod filling;
mod outset;
mod rets;
mod written;

pub use filling::terms;
