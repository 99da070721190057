//! What literals write: the bytes that a string or a quoted name is read as, integers at a width, counts and
//! alignments, and which data layouts are this project's. In go the bytes of one token; out comes its value. The
//! layers above use that each call's answer is the value that `specs` defines; `push_read` adds the bytes of a string
//! as they are read (LangRef, "String constants").
#![tactic(auto)]

mod integers;
mod layouts;
mod strings;

pub use integers::{align_at, count_at, literal_at, number_at};
pub use layouts::is_layout;
pub use strings::{push_read, read_len};
