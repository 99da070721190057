//! The terms of a deduction. What goes in is a mask of facts for each position, and then, for each
//! position, terms over the words of positions; what comes out is what these leave of a position's
//! mask. A layer above uses one contract: `System::meet` adds a term to the terms of one position, and
//! `System::eval` and `System::eval_in` answer their And with the mask, a monotone function of the
//! words of the position's inputs.
#![tactic(auto)]

mod laws;
mod pool;
mod reads;
mod rule;
mod system;
mod term;
mod value;

pub use laws::{
    a_cut_stays_above, cuts_lead_to_the_greatest, eval_goes_by_the_inputs,
    eval_goes_by_what_is_read, eval_is_monotone, inputs_are_the_named_positions,
    meet_changes_one_position, meet_is_and, the_greatest_is_one,
};
pub use system::System;
pub use term::{NewTerm, Term, TermId};
