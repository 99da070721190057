//! The text of a module with many functions, to measure and to try a deduction on. A number of functions goes
//! in; a module of so many internal functions comes out, each of which calls one before it, and a `main` that
//! calls each. The layer above uses one contract: `make` answers the text as a function of that number.
#![tactic(auto)]

mod line;
mod making;

pub use making::{MAX_FUNCTIONS, make};
