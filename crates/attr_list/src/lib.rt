//! What is added, as texts for a reader. Insertions go in, and for a summary the module with its words of facts; out
//! come a line for each insertion, or how often each attribute is added. The layer above uses two contracts: `list`
//! answers `list_text`, and `summary` answers `summary_text`, whose lines count attributes (`lines_count_attributes`).
#![tactic(auto)]

mod count;
mod laws;
mod listing;
mod summing;

pub use laws::lines_count_attributes;
pub use listing::list;
pub use summing::summary;
