use crate::leaf::Leaf;
use sqlite_items::Items;

/// `inner`
#[derive(Drop)]
pub enum Inner {
    /// any token but `(` and `)`
    Token(Leaf),
    /// `'(' inner* ')'`
    Bracket { open: Leaf, inside: Items<Inner> },
}

/// `fattr`
#[derive(Drop)]
pub enum Fattr {
    /// `aword`
    Word(Leaf),
    /// `aword '(' inner* ')'`
    Bracket {
        word: Leaf,
        inside: Items<Inner>,
        close: Leaf,
    },
    /// `Str ['=' Str]`
    Str {
        key: Leaf,
        value: Option<Leaf>,
    },
}

/// `rattr`
#[derive(Drop)]
pub enum Rattr {
    /// `'align' Int`
    Align {
        word: Leaf,
        bytes: Leaf,
    },
    /// `'align' '(' Int ')'`
    AlignIn {
        word: Leaf,
        bytes: Leaf,
        close: Leaf,
    },
    /// `fattr`
    Fattr(Fattr),
}

/// `gattr`
#[derive(Drop)]
pub enum Gattr {
    /// `aword '=' Int`
    Word { word: Leaf, value: Leaf },
    /// `'align' '=' Int`
    Align { word: Leaf, value: Leaf },
    /// `fattr`
    Fattr(Fattr),
}

/// `fattr | Group`, one of those behind a closing parenthesis
#[derive(Drop)]
pub enum Word {
    Fattr(Fattr),
    Group(Leaf),
}

/// `cc`
#[derive(Clone, Copy)]
pub enum Cc {
    /// `'cc' Int`
    Number { word: Leaf, number: Leaf },
    /// a word that ends in `cc`
    Word(Leaf),
}

/// `comdat`
#[derive(Clone, Copy)]
pub struct Comdat {
    pub word: Leaf,
    /// The name between parentheses, where one is written.
    pub name: Option<Leaf>,
}

/// `attach`
#[derive(Clone, Copy)]
pub struct Attach {
    pub kind: Leaf,
    pub node: Leaf,
}
