ghost use Rattle.std.specs.Prelude.{◌≡◌, ◌<◌, length, slice_get};

use attr_ids::{Sequence, TypeId};

/// The types of the fields of a struct.
pub type TypeList = Sequence<TypeId>;

/// A type of the IR (LLVM LangRef, "Type System"), with its parts by number.
#[derive(Drop)]
pub enum IrType {
    Void,
    Int { width: u8 },
    Ptr,
    Array { count: u64, elem: TypeId },
    Struct { fields: TypeList, packed: bool },
    Opaque,
}

impl IrType {
    ghost use Rattle.ir_types.specs.IrType.{parts};

    /// How many parts a type names, a part named twice counted twice.
    pub(crate) fn part_count(&self) -> usize
        ensures { result ≡ length (parts self.now) }
    {
        match self {
            IrType::Array { .. } => 1,
            IrType::Struct { fields, .. } => fields.len(),
            _ => 0,
        }
    }

    /// The number of a part.
    pub(crate) fn part_at(&self, at: usize) -> usize
        requires { at < length (parts self.now) }
        ensures { slice_get (parts self.now) at ≡ Some result }
    {
        match self {
            IrType::Array { elem, .. } => elem.0 as usize,
            IrType::Struct { fields, .. } => fields.as_slice()[at].0 as usize,
            _ => unreachable!(),
        }
    }
}
