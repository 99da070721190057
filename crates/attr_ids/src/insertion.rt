use crate::sequence::{Sequence, Text};

/// The bytes of a text from the offset `from` to before the offset `to`.
#[derive(Clone, Copy, Debug, PartialEq, Eq, Hash)]
pub struct Span {
    pub from: u32,
    pub to: u32,
}

/// What an added word speaks of.
#[derive(Clone, Copy, Debug, PartialEq, Eq, Hash)]
pub enum Place {
    Function,
    Return,
    Parameter,
    Call,
    CallReturn,
    Argument,
}

/// Words to be put into a text at the offset `at`, with one blank between two of them.
#[derive(Debug, Drop)]
pub struct Insertion {
    pub at: u32,
    pub place: Place,
    pub words: Text,
}

pub type Insertions = Sequence<Insertion>;
