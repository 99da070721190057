//! Accepted and refused texts. A text goes in that is accepted with some module; no cause stands against it but that no memory was
//! left. So whether `accept::read` answers what it read or a cause depends on the text alone, but for want of memory. There is no
//! code here that runs: the layer above cites the law where it says that an accepted text is not refused.
#![tactic(auto)]

mod laws;

pub use laws::accepted_is_not_refused;
