use crate::attributes::{Attach, Comdat, Gattr};
use crate::blocks::Body;
use crate::constants::Const;
use crate::headers::Header;
use crate::leaf::Leaf;
use crate::types::Ty;
use sqlite_items::{Boxed, Items};

/// `gtail`
#[derive(Clone, Copy)]
pub enum Gtail {
    /// `'section' Str`
    Section { word: Leaf, name: Leaf },
    /// `'partition' Str`
    Partition { word: Leaf, name: Leaf },
    /// `'code_model' Str`
    CodeModel { word: Leaf, name: Leaf },
    /// `'align' Int`
    Align { word: Leaf, bytes: Leaf },
    /// `comdat`
    Comdat(Comdat),
    /// `attach`
    Attach(Attach),
    /// `aword`
    Word(Leaf),
}

/// `type | 'opaque'`
#[derive(Drop)]
pub enum TypeBody {
    Ty(Ty),
    Opaque(Leaf),
}

/// `Global '=' [linkage] gword* ('global' | 'constant') type [const] (',' gtail)* Group*`
#[derive(Drop)]
pub struct GlobalVar {
    pub name: Leaf,
    pub linkage: Option<Leaf>,
    pub words: Items<Leaf>,
    pub kind: Leaf,
    pub ty: Ty,
    pub initial: Option<Const>,
    pub tails: Items<Gtail>,
    pub groups: Items<Leaf>,
}

/// `'declare' attach* header`
#[derive(Drop)]
pub struct Declare {
    pub word: Leaf,
    pub attached: Items<Attach>,
    pub header: Header,
}

/// `'define' header '{' first block* '}'`
#[derive(Drop)]
pub struct Define {
    pub word: Leaf,
    pub header: Header,
    pub body: Body,
    /// The closing brace.
    pub close: Leaf,
}

/// `entity`
#[derive(Drop)]
pub enum Entity {
    /// `Opaque`
    Opaque(Leaf),
    /// `'source_filename' '=' Str`
    SourceFilename { name: Leaf },
    /// `'target' ('datalayout' | 'triple') '=' Str`
    Target { which: Leaf, text: Leaf },
    /// `Local '=' 'type' (type | 'opaque')`
    Named { name: Leaf, body: Boxed<TypeBody> },
    /// `'attributes' Group '=' '{' gattr* '}'`
    Attributes { group: Leaf, words: Items<Gattr> },
    GlobalVar(Boxed<GlobalVar>),
    Declare(Boxed<Declare>),
    Define(Boxed<Define>),
}

/// `module`
#[derive(Drop)]
pub struct Tree {
    pub entities: Items<Entity>,
}
