//! Instructions and terminators from their trees, all but calls. In go the tree of one of them, what the names, types and
//! constants in it stand for (`Source`), and what was gathered so far (`ir_consts::Laid`); out come an operation of
//! `ir_module`, with the parts of its constants behind those before them, and the first name that has no definition of its
//! kind. The layer above uses that each builder's answer is the value that `specs` defines of the tree, and that what it
//! names was taken in (`Takes`): parts are laid and faults noted in the order of the text.
#![tactic(auto)]

mod operands;
mod ops;
mod source;
mod terms;
mod words;

pub use operands::{label, literal, optional, tconst, tvalue, written};
pub use ops::{
    alloca, any_catches, binop, cast, freeze, gep, icmp, landing_pad, load, phi, select, store,
};
pub use source::{
    PTR, Source, VOID, bit, constant, entry_at, is_word, leaf_from, leaf_text, type_of,
};
pub use terms::{term_first, term_of};
