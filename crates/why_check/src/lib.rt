//! A checker of certificates. A system of terms and a list of entries go in, each of which takes facts from the
//! word of a position because the words before it no longer give them; what comes out is whether the list is
//! such a ranked removal, and whether it leaves the greatest list of words. Whoever doubts how a deduction was
//! made reads this crate alone: it shares nothing with what made it but the system.
#![tactic(auto)]

mod checking;
mod entry;
mod laws;
mod removing;

pub use checking::check;
pub use entry::{Entry, EntryList, Verdict};
pub use laws::{
    a_complete_removal_leaves_the_greatest, a_verdict_is_one, no_removed_fact_is_supported,
};
pub use removing::masks;
