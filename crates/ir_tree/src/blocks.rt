use crate::attributes::Attach;
use crate::instructions::{Instr, Invoke, Term};
use crate::leaf::Leaf;
use sqlite_items::{Boxed, Items};

/// `line`
#[derive(Drop)]
pub enum Line {
    /// `Opaque`
    Opaque(Leaf),
    /// `[Local '='] instr (',' attach)*`
    Instr {
        result: Option<Leaf>,
        instr: Boxed<Instr>,
        attached: Items<Attach>,
    },
}

/// `last`
#[derive(Drop)]
pub enum Last {
    /// `term (',' attach)* Opaque*`
    Term {
        term: Term,
        attached: Items<Attach>,
        after: Items<Leaf>,
    },
    /// `[Local '='] invoke (',' attach)* Opaque*`
    Invoke {
        result: Option<Leaf>,
        invoke: Boxed<Invoke>,
        attached: Items<Attach>,
        after: Items<Leaf>,
    },
}

/// `first`
#[derive(Drop)]
pub struct First {
    pub label: Option<Leaf>,
    pub lines: Items<Line>,
    pub last: Last,
}

/// `block`
#[derive(Drop)]
pub struct Block {
    pub label: Leaf,
    pub lines: Items<Line>,
    pub last: Last,
}

/// `first block*`
#[derive(Drop)]
pub struct Body {
    pub first: First,
    pub blocks: Items<Block>,
}
