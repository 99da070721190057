//! Cuts the text of a module into its tokens. In goes a text of at most 67,108,864 bytes; out comes
//! the one list of tokens that the text has, or the first place at which it is refused. The layer
//! above rests on the contract of `tokens`: `list` says that the answer is the token list of the text
//! (`AreTokens`), and `only` that every other answer is the true one.
#![tactic(auto)]

mod brackets;
mod bytes;
mod ends;
mod found;
mod laws;
mod left_out;
mod names;
mod opaque;
mod runs;
mod scan;
mod token;
mod words;

pub use brackets::nesting;
pub use laws::{nesting_is_greatest, one_reading, one_token_list, some_reading, tokens_are_within};
pub use scan::tokens;
pub use token::{Kind, LexRefusal, Token, Tokens};

/// The greatest number of bytes of a text.
pub const MAX_BYTES: usize = 67_108_864;

/// The greatest number of tokens of a text.
pub const MAX_TOKENS: usize = 16_000_000;

/// The greatest number of digits of a name that is a number.
pub const MAX_DIGITS: usize = 9;
