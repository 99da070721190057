//! The last pass over the words of a deduction. A system, one word for each of its positions and how
//! each worker ended go in; the greatest list of words comes out, whatever the ends are. The layer above
//! uses one contract: `close` answers the greatest list for words within the masks that contain it.
#![tactic(auto)]

mod closing;
mod sweep;

pub use closing::close;
