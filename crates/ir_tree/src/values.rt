use crate::constants::Const;
use crate::leaf::Leaf;
use crate::types::Ty;
use sqlite_items::Boxed;

/// `value`
#[derive(Drop)]
pub enum Value {
    /// `Local`
    Local(Leaf),
    /// `const`
    Const(Boxed<Const>),
}

/// `tvalue`
#[derive(Drop)]
pub struct Tvalue {
    pub ty: Ty,
    pub value: Value,
}
