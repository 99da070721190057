//! The verifier's rules, but that of definitions on every path: each is a definition of its own that reads like its line in
//! docs/VERIFIER.md, and a test that is exact against it. In goes a module that is well formed, the canonical numbers of its
//! types, what `gather` makes of it, and an instruction, a header, a global or a type; out comes whether the rule is kept
//! there. The layer above goes through a module by them.
#![tactic(auto)]

mod arms;
mod blocks;
mod cases;
mod entities;
mod operations;
mod survey;
mod values;

pub use arms::has_arms;
pub use blocks::{has_pads, has_personality, leaves_entry_free, phi_count, phis_come_first};
pub use cases::branches;
pub use entities::{
    has_fitting_count, has_good_header, has_init, has_linkage, has_scalar_header, header_keeps,
    init_keeps, is_aligned_global, is_scalar_init, is_sized_global,
};
pub use operations::{
    calls_as_written, casts, has_pointer_address, indexes, is_aligned, is_on_integers, is_pad_pair,
    returns, selects,
};
pub use survey::{Marks, SourceLists, Survey, gather};
pub use values::{has_fitting_literals, has_scalars, has_sizes, has_written_types};
