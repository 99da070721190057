//! Whether what a module's parts name is there.
ghost use Rattle.std.specs.Prelude.{◌≡◌, ◌+◌, ◌<◌, ◌≤◌, ◌↔◌, ◌^◌, ℕ, length, slice_get, Some, IsTrue};
ghost use Rattle.ir_module.specs.Formed as spec;
ghost use Rattle.ir_module.specs.WellFormed.{Each};

use crate::module::Module;
use crate::op::{Operand, Shape, Symbol, Written};
use attr_ids::TypeId;

pub(crate) fn is_type(m: &Module, t: TypeId) -> bool
    ensures { IsTrue result ↔ spec.IsType m.now t }
{
    (t.0 as usize) < m.types.len()
}

pub(crate) fn are_types(m: &Module, types: &[TypeId]) -> bool
    ensures { IsTrue result ↔ Each types.now (λ k t. spec.IsType m.now t) }
{
    for t in types {
        if !is_type(m, *t) {
            return false;
        }
    }
    true
}

fn is_symbol(m: &Module, symbol: Symbol) -> bool
    ensures { IsTrue result ↔ spec.IsSymbol m.now symbol }
{
    match symbol {
        Symbol::Global(g) => (g.0 as usize) < m.globals.len(),
        Symbol::Func(f) => (f.0 as usize) < m.funcs.len(),
    }
}

/// Whether so many parts of a constant from `first` on are there.
fn has_parts(m: &Module, first: u32, count: u32) -> bool
    ensures { IsTrue result ↔ (first + count ≤ length m.now.parts) }
{
    first as usize + count as usize <= m.parts.len()
}

/// Whether what a constant names is there.
fn is_constant(m: &Module, o: Operand) -> bool
    ensures { IsTrue result ↔ spec.IsConstant m.now o }
{
    match o {
        Operand::Value(_) => false,
        Operand::Global(g) => is_symbol(m, Symbol::Global(g)),
        Operand::Func(f) => is_symbol(m, Symbol::Func(f)),
        Operand::Offset { base, .. } => is_symbol(m, base),
        Operand::Parts {
            shape: Shape::Bytes,
            ..
        } => true,
        Operand::Parts { first, count, .. } | Operand::AnyInt { first, count } => {
            has_parts(m, first, count)
        }
        _ => true,
    }
}

/// Whether a value is there and is one of function `f`.
fn is_value_in(m: &Module, f: u32, v: u32) -> bool
    ensures { IsTrue result ↔ spec.IsValueIn m.now f v }
{
    match m.values.get(v as usize) {
        Some(info) => info.func.0 == f,
        None => false,
    }
}

/// Whether a block is there and is one of function `f`.
pub(crate) fn is_block_in(m: &Module, f: usize, i: usize) -> bool
    ensures { IsTrue result ↔ spec.IsBlockIn m.now f i }
{
    match m.blocks.get(i) {
        Some(block) => block.func.0 as usize == f,
        None => false,
    }
}

/// Whether what an operand names is there, a value among those of function `f`.
fn is_operand_in(m: &Module, f: u32, o: Operand) -> bool
    ensures { IsTrue result ↔ spec.IsOperandIn m.now f o }
{
    match o {
        Operand::Value(v) => is_value_in(m, f, v.0),
        _ => is_constant(m, o),
    }
}

/// Whether a constant's type is there, and what it names.
pub(crate) fn is_written_constant(m: &Module, w: &Written) -> bool
    ensures { IsTrue result ↔ (spec.IsType m.now w.now.ty × spec.IsConstant m.now w.now.val) }
{
    is_type(m, w.ty) && is_constant(m, w.val)
}

/// Whether all that constants name is there.
pub(crate) fn are_constants(m: &Module, ws: &[Written]) -> bool
    ensures { IsTrue result ↔ spec.AreConstants m.now ws.now }
{
    for w in ws {
        if !is_written_constant(m, w) {
            return false;
        }
    }
    true
}

/// Whether an operand's type is there and what it names is, in function `f`.
pub(crate) fn is_operand(m: &Module, f: u32, w: &Written) -> bool
    ensures { IsTrue result ↔ (spec.IsType m.now w.now.ty × spec.IsOperandIn m.now f w.now.val) }
{
    is_type(m, w.ty) && is_operand_in(m, f, w.val)
}
