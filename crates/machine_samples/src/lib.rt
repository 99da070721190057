//! Sample runs of the machine, one for each kind of instruction and each act of the outside: a module, an opening state and
//! choices go in; each step with its events, and the last state, are what was written down beforehand. They show a reader
//! what the definitions of the machine say, and that no law over runs is empty.
#![tactic(auto)]

mod samples;

pub use samples::{accesses, acting, calling, computing, edges};
