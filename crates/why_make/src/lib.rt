//! The certificate of a deduction: a system of terms goes in, and the ranked removal of every fact that is not
//! in its greatest list of words comes out, entry by entry, as sweeps over the positions find them. The layer
//! above uses one contract: `explain` answers the list of these sweeps, which is a complete removal.
#![tactic(auto)]

mod course;
mod explaining;
mod laws;
mod looking;
mod marks;
mod refusal;

pub use course::Course;
pub use explaining::explain;
pub use laws::{a_list_of_sweeps_is_one, every_system_has_a_list_of_sweeps};
pub use refusal::{MAX_ENTRIES, WhyRefusal};
