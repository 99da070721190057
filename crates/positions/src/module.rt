//! What the numbering asks of a module.
ghost use Rattle.std.specs.Prelude.{◌≡◌, ◌<◌, ℕ, IsTrue, length, slice_get};
ghost use Rattle.facts.specs.Bodies as bodies;
ghost use Rattle.facts.specs.Masks as masks;
ghost use Rattle.positions.specs.Order.{belongs};

use attr_ids::TypeId;
use ir_module::Module;
use ir_types::IrType;

/// Whether the type is `ptr`.
pub fn is_pointer(m: &Module, t: TypeId) -> bool
    ensures { result ≡ bodies.is_pointer m.now t }
{
    match m.types.as_slice().get(t.0 as usize) {
        Some(ty) => matches!(ty, IrType::Ptr),
        None => false,
    }
}

/// Whether the type is `void`.
pub fn is_void(m: &Module, t: TypeId) -> bool
    ensures { result ≡ bodies.is_void m.now t }
{
    match m.types.as_slice().get(t.0 as usize) {
        Some(ty) => matches!(ty, IrType::Void),
        None => false,
    }
}

/// Whether the function is defined.
pub fn is_body(m: &Module, f: u32) -> bool
    ensures { result ≡ bodies.is_body m.now f }
{
    match m.funcs.get(f as usize) {
        Some(func) => func.block_count != 0,
        None => false,
    }
}

/// Whether the value is one of a body.
pub fn is_value_of_body(m: &Module, v: u32) -> bool
    ensures { result ≡ belongs m.now (slice_get m.now.values v) }
{
    match m.values.get(v as usize) {
        Some(info) => is_body(m, info.func.0),
        None => false,
    }
}

/// Whether each function has at most 255 parameters, as `Positions::of` asks.
pub fn has_few_params(m: &Module) -> bool
    ensures { IsTrue result → (f : ℕ) → bodies.param_count m.now f < 256 }
{
    for func in m.funcs.as_slice() {
        if func.params.len() > 255 {
            return false;
        }
    }
    true
}

/// Whether a parameter is there and a pointer.
pub fn is_pointer_param(m: &Module, f: u32, at: u32) -> bool
    ensures { result ≡ masks.is_pointer_param m.now (bodies.param_of m.now f at) }
{
    let Some(func) = m.funcs.get(f as usize) else {
        return false;
    };
    match func.params.get(at as usize) {
        Some(p) => is_pointer(m, p.ty),
        None => false,
    }
}
