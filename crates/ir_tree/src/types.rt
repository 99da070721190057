use crate::leaf::Leaf;
use sqlite_items::{Boxed, Items};

/// `type`
#[derive(Drop)]
pub enum Ty {
    /// `'void'`
    Void(Leaf),
    /// `iN`
    Int(Leaf),
    /// `'ptr'`
    Ptr(Leaf),
    /// `'[' Int 'x' type ']'`
    Array {
        open: Leaf,
        count: Leaf,
        elem: Boxed<Ty>,
    },
    /// `'{' type,* '}'`
    Struct {
        open: Leaf,
        parts: Items<Ty>,
    },
    /// `'<' '{' type,* '}' '>'`
    Packed {
        open: Leaf,
        parts: Items<Ty>,
    },
    /// `Local`
    Named(Leaf),
}

/// The parameters of `ftype`
#[derive(Drop)]
pub enum Ftype {
    /// `'(' ')'`
    Empty,
    /// `'(' '...' ')'`
    Dots(Leaf),
    /// `'(' type (',' type)* [',' '...'] ')'`
    Listed {
        types: Items<Ty>,
        dots: Option<Leaf>,
    },
}
