//! The integer operations of the IR on numbers of 1 to 64 bits, as the LLVM language reference has
//! them for `iN`. In go an operation and numbers below 2^W; out comes a number below 2^W, poison or
//! undefined behaviour, a truth value, or a number of another width. The layer above uses one
//! contract: `apply_at` answers `outcome`, the plain integer definition at the width.
//! `compare_at` and `cast_at` do the same for `comparison` and `converted`. The law
//! `table_is_integer_mathematics` says what these three definitions mean.
#![tactic(auto)]

mod binary;
mod bits;
mod conversion;
mod laws;
mod predicate;

pub use binary::{BinOp, OpOut, apply, apply_at};
pub use bits::all_ones;
pub use conversion::{CastOp, cast, cast_at};
pub use laws::table_is_integer_mathematics;
pub use predicate::{Pred, compare, compare_at};
