//! Many short lists in one run of memory, so that a short list takes little more than its entries. A list has room for
//! some entries more; once its room is full it moves to the end of the run. Contracts see plain lists: where they lie,
//! and how much room they have, is no part of their value.
#![tactic(auto)]

mod edge_rows;
mod layout;
mod rows;
mod words;

pub use edge_rows::EdgeRows;
pub use rows::Rows;
