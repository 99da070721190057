//! A text of LLVM IR and a list of insertions go in, by rising offset; the text with the words of
//! each insertion put in at its offset comes out, every other byte kept in its order. The layer
//! above uses the contract of `weave`, whose clause is the definition `Woven`; the laws beside it
//! say what a woven text is.
#![tactic(auto)]

mod laws;
mod spelling;
mod weaving;

pub use laws::{
    no_insertion_changes_nothing, only_what_stands_at_an_offset_counts, woven_is_a_shuffle,
    woven_is_as_long_as_its_parts,
};
pub use weaving::weave;
