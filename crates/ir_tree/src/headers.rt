use crate::attributes::{Attach, Cc, Comdat, Rattr, Word};
use crate::constants::Tconst;
use crate::leaf::Leaf;
use crate::types::Ty;
use sqlite_items::Items;

/// `param`
#[derive(Drop)]
pub struct Param {
    pub ty: Ty,
    pub words: Items<Rattr>,
    pub name: Option<Leaf>,
}

/// `params`
#[derive(Drop)]
pub enum Params {
    /// nothing
    Empty,
    /// `'...'`
    Dots(Leaf),
    /// `param (',' param)* [',' '...']`
    Listed {
        params: Items<Param>,
        dots: Option<Leaf>,
    },
}

/// `ftail`
#[derive(Drop)]
pub enum Ftail {
    /// `'section' Str`
    Section { word: Leaf, name: Leaf },
    /// `'partition' Str`
    Partition { word: Leaf, name: Leaf },
    /// `'gc' Str`
    Gc { word: Leaf, name: Leaf },
    /// `'align' Int`
    Align { word: Leaf, bytes: Leaf },
    /// `comdat`
    Comdat(Comdat),
    /// `('prefix' | 'prologue' | 'personality') tconst`
    Extra { word: Leaf, value: Tconst },
    /// `attach`
    Attach(Attach),
}

/// `header`
#[derive(Drop)]
pub struct Header {
    pub linkage: Option<Leaf>,
    pub words: Items<Leaf>,
    pub cc: Option<Cc>,
    pub result_words: Items<Rattr>,
    pub result: Ty,
    pub name: Leaf,
    pub params: Params,
    /// The closing parenthesis.
    pub close: Leaf,
    pub unnamed: Option<Leaf>,
    pub attributes: Items<Word>,
    pub tails: Items<Ftail>,
}
