//! Reads the body of a function into its tree. What goes in is the tokens of a text and the place of one of
//! them; what comes out is the longest body that fits from there, and the token behind it. The layer above
//! rests on one contract: `parse_body` answers the longest body, and refuses exactly where none fits.
#![tactic(auto)]

mod blocks;
mod calls;
mod instructions;
mod landing;
mod memory;
mod operations;
mod parse;
mod refusal;
mod terms;

pub use blocks::body;
pub use parse::{offset, parse_body, terminals};
pub use refusal::SyntaxRefusal;
