//! The instructions of blocks in segments. In go the instructions of one block after another; out come the segments of the
//! module, which calls end (`ir_module`). The layer above uses the contracts of `push` and `finish`: at the end of a block
//! its instructions stand behind the segments before, as `cut` has them. The law `segments_end_in_calls` says what `cut` is.
#![tactic(auto)]

mod cutter;
mod laws;

pub use cutter::Cutter;
pub use laws::segments_end_in_calls;
