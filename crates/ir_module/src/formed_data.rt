//! Whether each type, constant, global and function of a module is as it should be.
ghost use Rattle.std.specs.Prelude.{◌≡◌, ◌+◌, ◌<◌, ◌≤◌, ◌↔◌, ◌^◌, ℕ, [], ◌∷◌, length, slice_get, Some, IsTrue};
ghost use Rattle.ir_types.specs.IrType.{parts};
ghost use Rattle.ir_types.specs.Standing.{Has};
ghost use Rattle.ir_module.specs.Operands.{optional};
ghost use Rattle.ir_module.specs.Formed as spec;
ghost use Rattle.ir_module.specs.WellFormed.{Each, IsTypeFormed, HasPartsBelow, IsPartFormed, IsGlobalFormed, IsParamFormed, IsFuncFormed};

use crate::few::LIMIT;
use crate::module::{Def, Func, GlobalVar, Module, Param};
use crate::op::{Operand, Shape, Written};
use crate::present::{are_constants, are_types, is_block_in, is_type, is_written_constant};
use ir_types::IrType;

// ---- globals and types

fn is_optional_constant(m: &Module, init: &Option<Written>) -> bool
    ensures { IsTrue result ↔ spec.AreConstants m.now (optional init.now) }
{
    match init {
        Some(w) => is_written_constant(m, w),
        None => true,
    }
}

/// Whether the parts of a constant have smaller numbers than `k`.
fn has_parts_below(k: usize, o: Operand) -> bool
    ensures { IsTrue result ↔ HasPartsBelow k o }
{
    match o {
        Operand::Parts {
            shape: Shape::Bytes,
            ..
        } => true,
        Operand::Parts { first, count, .. } | Operand::AnyInt { first, count } => {
            first as usize + count as usize <= k
        }
        _ => true,
    }
}

/// Whether part number `k` of the module is a constant whose own parts stand before it.
fn is_part_formed(m: &Module, k: usize, w: &Written) -> bool
    ensures { IsTrue result ↔ IsPartFormed m.now k w.now }
{
    is_written_constant(m, w) && has_parts_below(k, w.val)
}

pub(crate) fn are_parts_formed(m: &Module) -> bool
    ensures { IsTrue result ↔ Each m.now.parts (IsPartFormed m.now) }
{
    for (k, w) in m.parts.as_slice().iter().enumerate() {
        if !is_part_formed(m, k, w) {
            return false;
        }
    }
    true
}

fn is_global_formed(m: &Module, global: &GlobalVar) -> bool
    ensures { IsTrue result ↔ IsGlobalFormed m.now global.now }
{
    is_type(m, global.ty) && is_optional_constant(m, &global.init)
}

pub(crate) fn are_globals_formed(m: &Module) -> bool
    ensures { IsTrue result ↔ Each m.now.globals (λ g global. IsGlobalFormed m.now global) }
{
    for global in m.globals.as_slice() {
        if !is_global_formed(m, global) {
            return false;
        }
    }
    true
}

/// Whether the types that a type is made of are there.
fn has_parts(m: &Module, ty: &IrType) -> bool
    ensures { IsTrue result ↔ ((part : ℕ) → Has (parts ty.now) part → part < length m.now.types) }
{
    match ty {
        IrType::Array { elem, .. } => is_type(m, *elem),
        IrType::Struct { fields, .. } => are_types(m, fields.as_slice()),
        _ => true,
    }
}

pub(crate) fn are_types_formed(m: &Module) -> bool
    ensures { IsTrue result ↔ Each m.now.types (IsTypeFormed m.now) }
{
    for ty in m.types.as_slice() {
        if !has_parts(m, ty) {
            return false;
        }
    }
    true
}

// ---- functions

/// Whether the blocks that a function counts as its own are there, and are its own.
fn has_blocks(m: &Module, f: usize, func: &Func) -> bool
    ensures { IsTrue result ↔ ((i : ℕ) → spec.IsBlockOf func.now i → spec.IsBlockIn m.now f i) }
{
    let first = func.first_block as usize;
    for i in first..first + func.block_count as usize {
        if !is_block_in(m, f, i) {
            return false;
        }
    }
    true
}

/// Whether the value of parameter number `k` of function `f` names it back.
fn is_param(m: &Module, f: usize, k: usize, param: &Param) -> bool
    ensures { IsTrue result ↔ IsParamFormed m.now f k param.now }
{
    match m.values.get(param.value.0 as usize) {
        Some(info) => {
            info.func.0 as usize == f && is_param_def(info.def, k) && info.ty == param.ty
        }
        None => false,
    }
}

/// Whether a value is made as parameter number `k`.
fn is_param_def(def: Def, k: usize) -> bool
    ensures { IsTrue result ↔ (def ≡ Def.Param k) }
{
    match def {
        Def::Param(at) => at as usize == k,
        Def::Instr(_) => false,
    }
}

fn are_params(m: &Module, f: usize, params: &[Param]) -> bool
    ensures { IsTrue result ↔ Each params.now (IsParamFormed m.now f) }
{
    for (k, param) in params.iter().enumerate() {
        if !is_param(m, f, k, param) {
            return false;
        }
    }
    true
}

/// Whether each thing that a function's header names is there.
fn is_header(m: &Module, f: usize, func: &Func) -> bool
    ensures { IsTrue result ↔ (spec.IsType m.now func.now.ret × spec.AreConstants m.now func.now.extra
        × (length func.now.params < 2 ^ 31) × Each func.now.params (IsParamFormed m.now f)) }
{
    is_type(m, func.ret)
        && are_constants(m, func.extra.as_slice())
        && func.params.len() < LIMIT
        && are_params(m, f, func.params.as_slice())
}

fn is_func_formed(m: &Module, f: usize, func: &Func) -> bool
    ensures { IsTrue result ↔ IsFuncFormed m.now f func.now }
{
    is_header(m, f, func) && has_blocks(m, f, func)
}

pub(crate) fn are_funcs_formed(m: &Module) -> bool
    ensures { IsTrue result ↔ Each m.now.funcs (IsFuncFormed m.now) }
{
    for (f, func) in m.funcs.as_slice().iter().enumerate() {
        if !is_func_formed(m, f, func) {
            return false;
        }
    }
    true
}
