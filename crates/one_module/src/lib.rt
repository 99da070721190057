//! Texts and their modules. A text with its tokens and its tree goes in; where no type of its module is nested too deep, that module
//! is the only one, and a text has a module or one first fault, never both, whatever canonical numbers of its types are taken. There
//! is no code here that runs: the layer above cites the laws where it says that the program's answer is a function of its text.
#![tactic(auto)]

mod laws;

pub use laws::{a_text_has_one_first_fault, a_text_has_one_module};
