//! Reads the parts of a module that bodies and the entities around them share: types, constants, values,
//! attributes and flags. What goes in is what each token of a text is to the grammar, and a place; what comes
//! out of each function is the longest tree of one production that fits from there, and the place behind it,
//! or that none fits. The layers above use this one contract, `Longest`, of each production.
#![tactic(auto)]

mod attributes;
mod constants;
mod flags;
mod step;
mod types;
mod values;

pub use attributes::{
    attach, attachments, aword, calling_convention, cc, comdat, fattr, gattrs, rattrs, words,
};
pub use constants::{constant, tconst};
pub use flags::{gepflags, iflags};
pub use step::{either, leaves, optional, stands, the};
pub use types::{ftype, trailing_dots, ty};
pub use values::{tvalue, value};
