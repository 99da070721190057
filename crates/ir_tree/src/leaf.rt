/// A leaf of a tree: the number of a token in the list of tokens.
pub type Leaf = u32;
