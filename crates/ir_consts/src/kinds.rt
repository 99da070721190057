//! The numbers of written types.
ghost use Rattle.std.specs.Prelude.{◌≡◌, IfOk};
ghost use Rattle.ir_consts.specs.Kinds as spec;

use attr_ids::{NoMemory, TypeId};
use ir_tree::Ty;
use ir_type_names::TypeIds;
use std::alloc::Global;

/// The number of a type.
pub(crate) fn kind_of(alloc: Global, ids: &TypeIds<'_>, ty: &Ty) -> Result<TypeId, NoMemory>
    ensures { IfOk result (λ t. t ≡ spec.kind_of ids.now ty.now) }
{
    ids.id(alloc, ty)
}
