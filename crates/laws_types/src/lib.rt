//! The law of types over the machine with values and memory. A well formed module whose types tell pointers from all else
//! goes in; in every run of it each value that a frame has made has its type, what is passed to a call and returned from
//! one has the type that is written there, and what points to a block is passed as a pointer. There is no code here that
//! runs; the layer above hands to other laws what is shown here.
#![tactic(auto)]

mod laws;

pub use laws::values_have_their_types;
