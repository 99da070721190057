//! The names of a text, each with a number. In go a text and its tokens; out comes a number for each token whose kind has
//! a name, such that two numbers are equal exactly where the names are (LangRef, "Identifiers"). The layers above compare
//! numbers and never texts. The one contract that they use is that of `name_ids`; the law `equal_ids` says what it is
//! worth, and `names_that_are_numbers` that the number of a name that is a number `n` is `n * 2`, whether it is written
//! anywhere or not. `name_text` answers the bytes of a name.
#![tactic(auto)]

mod ids;
mod laws;
mod read;
mod text;

pub use ids::{NameIds, name_ids};
pub use laws::{equal_ids, names_that_are_numbers};
pub use text::name_text;
