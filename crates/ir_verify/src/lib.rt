//! Whether a module keeps the rules V1 to V21. In goes a module that is well formed; out comes that it is
//! verified (`IsVerified`), or a type without a layout, or the least rule that fails anywhere at its smallest offset
//! (`IsFirstBroken`). The layer above uses one contract, that of `verify`. Each rule is asked at each place once; what was found
//! at two places is put together by `first_of`, and `Judged` says of it that all holds, or that it is the first fault of all.
#![tactic(auto)]

mod broken;
mod entities;
mod instrs;
mod paths;
mod rule;
mod types;
mod verify_module;

pub use rule::Rule;
pub use verify_module::{Fault, verify};
