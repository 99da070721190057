//! The facts of a module and the rules by which facts are justified. A module goes in; which facts it has,
//! which of them a set of facts justifies, and which set is the greatest that supports itself are definitions
//! of `specs`. The layers above use these: the deduction answers the greatest set, and the laws show that every
//! fact of a set that supports itself holds in every honest run.
#![tactic(auto)]

mod laws;
mod pos;

pub use laws::{
    a_larger_set_justifies_more, a_resume_unwinds, bits_say_their_facts,
    effects_stand_for_instructions, the_greatest_has_what_it_justifies, the_greatest_is_one,
    the_greatest_is_the_union, what_is_not_built_is_not_held,
};
pub use pos::Pos;
