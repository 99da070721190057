//! Constants of a tree as operands of the module (LangRef, "Constants", "Constant Expressions"). In go the tree of a
//! constant with its written type, what its names stand for, the numbers of written types and the table of types; out
//! come an operand and the parts of aggregates and of constant expressions, which are put at the end of a list, and the
//! first name that stands for no function and no global. The layers above use the contracts of `constant` and `tconst`:
//! the operand is `const_of` the tree behind the parts that are there, the list is the one that this leaves, and `found`
//! is the first of the faults that were found before and of `faults_of` the tree.
#![tactic(auto)]

mod consts;
mod kinds;
mod laws;
mod offsets;
mod source;

pub use consts::{Laid, constant, tconst};
pub use laws::{
    each_type_is_there, offsets_of_a_chain_add_up, parts_stand_before,
    the_first_broken_rule_is_found,
};
pub use source::Source;
