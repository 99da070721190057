//! A list of places at which types are written.
ghost use Rattle.std.specs.Prelude.{◌≡◌, ◌++◌, OnOk};
ghost use Rattle.std.specs.List.{flat_map};
ghost use Rattle.ir_type_uses.specs.Uses.{listed};
ghost use Rattle.ir_type_uses.specs.Written as spec;

use attr_ids::NoMemory;
use ir_tree::{Leaf, Ty};

/// A type, and the first token of the instruction or of the entity in which it is written.
#[derive(Clone, Copy)]
pub struct TypeUse<'a> {
    pub ty: &'a Ty,
    pub at: Leaf,
}

/// Places at which types are written, in the order of the text.
pub type Uses<'a> = Vec<TypeUse<'a>>;

/// Notes that a type is written.
pub(crate) fn push<'a>(uses: &mut Uses<'a>, at: Leaf, ty: &'a Ty) -> Result<(), NoMemory>
    ensures { OnOk result (listed uses.new.items ≡ listed uses.old.items ++ spec.ty at ty.now) }
{
    uses.push(TypeUse { ty, at })?;
    Ok(())
}

/// Notes that each of these types is written.
pub(crate) fn push_all<'a>(uses: &mut Uses<'a>, at: Leaf, types: &'a [Ty]) -> Result<(), NoMemory>
    ensures { OnOk result (listed uses.new.items ≡ listed uses.old.items ++ flat_map (spec.ty at) types.now) }
{
    for ty in types {
        push(uses, at, ty)?;
    }
    Ok(())
}
