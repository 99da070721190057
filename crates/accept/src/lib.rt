//! The front door of the program. The bytes of a text go in; out comes what is read of it (`Ready`: tokens, tree, module, uses,
//! positions, system, graph), or the first cause against it (`Refusal`). A text is accepted (`Accepted`) where the layers below
//! take it, one behind the other, and its module keeps the limits. The layers above use the contract of `read`: what it
//! answers is that of the text (`IsReady`), and a refusal comes by its cause (`IsCause`).
#![tactic(auto)]

mod back;
mod checking;
mod counting;
mod front;
mod reading;
mod refusal;

pub use reading::{Ready, read};
pub use refusal::{
    FUNCTION_LIMIT, INSTRUCTION_LIMIT, Limit, NESTING_LIMIT, PARAMETER_LIMIT, Refusal,
};
