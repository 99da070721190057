//! Which positions have to be looked at again when the word of a position falls. A system of terms goes
//! in; for each position the positions whose terms name it come out, with the bits that they read of it,
//! and the number of steps that a run over the system can take at most. The layer above uses one
//! contract: the graph is the exact inverse of the inputs (`IsGraphOf`).
#![tactic(auto)]

mod bound;
mod graph;
mod invert;
mod refusal;

pub use bound::{budget, budget_is_small};
pub use graph::DepGraph;
pub use invert::{EDGE_LIMIT, dependents};
pub use refusal::GraphRefusal;
