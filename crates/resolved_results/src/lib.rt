//! The instructions of a text have the types that their operations write. A text, its tokens and its tree go in, whose names are all
//! right; each instruction of the module that they stand for has the type of its operands, of what its call returns, or of an address
//! or a comparison; so where the verifier passes it, its types tell pointers from all else. There is no code here that runs: the layer
//! above cites the laws for the module that it accepts.
#![tactic(auto)]

mod laws;

pub use laws::{results_are_written, verified_texts_have_their_types};
