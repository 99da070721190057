//! Pools of hints: for each worker a deque of positions that may need work, and for each worker a
//! robber that takes hints out of every pool. In go the number of workers and the number of positions;
//! out come the pools and the robbers, one of each for each worker. The layer above rests on the
//! contracts of `give`, `draw` and `rob`: each hint that comes out is below the number of positions,
//! and is what one step of this worker took out of that very pool. Nothing says that a hint comes.
#![tactic(auto)]

mod hints;
mod opening;
mod pool;
mod robber;

pub use opening::pools;
pub use pool::{OwnPool, OwnPools, SLOTS};
pub use robber::{Robbed, Robber, Robbers};
