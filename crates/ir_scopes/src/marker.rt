//! Functions with the name of a lifetime marker.
ghost use Rattle.std.specs.Prelude.{◌≡◌};
ghost use Rattle.std.specs.Option.{option_copied};
ghost use Rattle.ir_module.specs.Calls as calls;
ghost use Rattle.ir_scopes.specs.Markers as spec;

use ir_module::{Func, LIFETIME_NAMES, Param};
use ir_types::IrType;

/// Whether a name is that of a lifetime marker. A global variable may not have it either.
pub fn is_lifetime_name(name: &[u8]) -> bool
    ensures { result ≡ calls.is_lifetime_name name.now }
{
    LIFETIME_NAMES[0] == name || LIFETIME_NAMES[1] == name
}

fn is_pointer(ty: Option<&IrType>) -> bool
    ensures { result ≡ spec.is_pointer_type (option_copied ty.entry) }
{
    matches!(ty, Some(IrType::Ptr))
}

fn is_void(ty: Option<&IrType>) -> bool
    ensures { result ≡ spec.is_void_type (option_copied ty.entry) }
{
    matches!(ty, Some(IrType::Void))
}

fn is_i64(ty: Option<&IrType>) -> bool
    ensures { result ≡ spec.is_i64_type (option_copied ty.entry) }
{
    matches!(ty, Some(IrType::Int { width: 64 }))
}

/// Whether the parameters are a pointer, or an i64 and a pointer.
fn are_marker_params(types: &[IrType], params: &[Param]) -> bool
    ensures { result ≡ spec.are_marker_params types.now params.now }
{
    match params {
        [pointer] => is_pointer(types.get(pointer.ty.0 as usize)),
        [size, pointer] => {
            is_i64(types.get(size.ty.0 as usize)) && is_pointer(types.get(pointer.ty.0 as usize))
        }
        _ => false,
    }
}

/// Whether a function has the name of a lifetime marker, and is defined or has another type than a marker has: such a name
/// counts as defined twice. A global variable with such a name does so always.
pub fn is_wrong_marker(types: &[IrType], func: &Func) -> bool
    ensures { result ≡ spec.is_wrong_marker types.now func.now }
{
    if !is_lifetime_name(func.name.as_slice()) {
        return false;
    }
    let is_marker = !func.variadic
        && is_void(types.get(func.ret.0 as usize))
        && are_marker_params(types, func.params.as_slice());
    func.block_count != 0 || !is_marker
}
