//! Whether some type of a module has no layout, and why.
ghost use Rattle.std.specs.Prelude.{◌≡◌, ◌<◌, ◌↔◌, ◌^◌, ℕ, length, Err, IsTrue};
ghost use Rattle.ir_types.specs.TypeTable.{size};
ghost use Rattle.ir_verify.specs.Types.{IsSomeRefused};

use attr_ids::TypeId;
use ir_types::{TypeRefusal, TypeTable};

/// Whether a type is refused for this cause.
fn is_refused(types: &TypeTable, t: TypeId, cause: TypeRefusal) -> bool
    requires { t.0 < length types.now }
    ensures { IsTrue result ↔ (size types.now t.0 ≡ Err cause) }
{
    match types.size_of(t) {
        Ok(_) => false,
        Err(found) => found == cause,
    }
}

/// Whether some type of the table is refused for this cause.
pub(crate) fn is_some_refused(types: &TypeTable, cause: TypeRefusal) -> bool
    requires { length types.now < 2 ^ 31 }
    ensures { IsTrue result ↔ IsSomeRefused types.now cause }
{
    for t in 0..types.len() as u32 {
        if is_refused(types, TypeId(t), cause) {
            return true;
        }
    }
    false
}
