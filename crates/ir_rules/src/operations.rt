//! Rules of single instructions: what their operands are.
ghost use Rattle.std.specs.Prelude.{◌≡◌, ◌<◌, ◌↔◌, IsTrue, IsSome, Some, length, slice_get};
ghost use Rattle.std.specs.Option.{option_copied};
ghost use Rattle.ir_module.specs.Operands.{operands};
ghost use Rattle.ir_module.specs.WellFormed.{Each, HasPartsBelow, IsWellFormed};
ghost use Rattle.ir_operands.specs.Offsets.{indexed as spec_indexed};
ghost use Rattle.ir_operands.specs.Types.{type_of, IsInteger, IsScalar, AreOne};
ghost use Rattle.ir_rules.specs.Named.{IsNamed, HasNames};
ghost use Rattle.ir_rules.specs.Operations as spec;

use crate::values::{has_type_of, operands_keep};
use attr_ids::TypeId;
use ir_module::{Call, Func, Instr, Module, Op, ParamAttrs, Written};
use ir_operands::{
    ConstantRule, are_one, fits_kind, indexed, is_integer, is_integer_of, is_narrower, is_pair,
    is_pointer, is_scalar, is_void,
};
use ir_ops::CastOp;

// ---- V8

fn are_integers(m: &Module, t: TypeId, u: TypeId) -> bool
    ensures { IsTrue result ↔ (IsInteger (type_of m.now.types t) × IsInteger (type_of m.now.types u)) }
{
    is_integer(&m.types, t) && is_integer(&m.types, u)
}

fn are_scalars(m: &Module, t: TypeId, u: TypeId) -> bool
    ensures { IsTrue result ↔ (IsScalar (type_of m.now.types t) × IsScalar (type_of m.now.types u)) }
{
    is_scalar(&m.types, t) && is_scalar(&m.types, u)
}

/// V8: whether an operation of two operands is on integers, a comparison on integers or pointers, and the count of an
/// alloca an integer.
pub fn is_on_integers(m: &Module, op: &Op) -> bool
    ensures { IsTrue result ↔ spec.IsOnIntegers m.now.types op.now }
{
    match op {
        Op::Bin { a, b, .. } => are_integers(m, a.ty, b.ty),
        Op::Icmp { a, b, .. } => are_scalars(m, a.ty, b.ty),
        Op::Alloca {
            count: Some(count),
            ..
        } => is_integer(&m.types, count.ty),
        _ => true,
    }
}

// ---- V9

fn is_address(m: &Module, from: TypeId, to: TypeId) -> bool
    ensures { IsTrue result ↔ spec.Converts m.now.types CastOp.PtrToInt from to }
{
    is_pointer(&m.types, from) && is_integer(&m.types, to)
}

fn converts(m: &Module, op: CastOp, from: TypeId, to: TypeId) -> bool
    ensures { IsTrue result ↔ spec.Converts m.now.types op from to }
{
    match op {
        CastOp::Trunc => is_narrower(&m.types, to, from),
        CastOp::ZExt | CastOp::SExt => is_narrower(&m.types, from, to),
        CastOp::PtrToInt => is_address(m, from, to),
    }
}

/// V9: whether a cast goes from its operand's type to its own as its kind does.
pub fn casts(m: &Module, instr: &Instr) -> bool
    ensures { IsTrue result ↔ spec.Casts m.now.types instr.now.ty instr.now.op }
{
    match &instr.op {
        Op::Cast { op, a, .. } => converts(m, *op, a.ty, instr.ty),
        _ => true,
    }
}

// ---- V10

/// V10: whether the address of a load or a store is a pointer.
pub fn has_pointer_address(m: &Module, op: &Op) -> bool
    ensures { IsTrue result ↔ spec.HasPointerAddress m.now.types op.now }
{
    match op {
        Op::Load { ptr, .. } | Op::Store { ptr, .. } => is_pointer(&m.types, ptr.ty),
        _ => true,
    }
}

// ---- V11

fn is_integer_operand(m: &Module, w: &Written) -> bool
    ensures { IsTrue result ↔ IsInteger (type_of m.now.types w.now.ty) }
{
    is_integer(&m.types, w.ty)
}

fn are_integer_operands(m: &Module, ws: &[Written]) -> bool
    ensures { IsTrue result ↔ Each ws.now (λ k w. IsInteger (type_of m.now.types w.ty)) }
{
    for w in ws {
        if !is_integer_operand(m, w) {
            return false;
        }
    }
    true
}

fn leads_somewhere(m: &Module, elem: TypeId, indices: &[Written]) -> bool
    ensures { IsTrue result ↔ IsSome (spec_indexed m.now.types elem indices.now) }
{
    indexed(&m.types, elem, indices).is_some()
}

fn leads_on(m: &Module, elem: TypeId, indices: &[Written]) -> bool
    ensures { IsTrue result ↔ spec.LeadsOn m.now.types elem indices.now }
{
    are_integer_operands(m, indices) && leads_somewhere(m, elem, indices)
}

fn indexes_from(m: &Module, elem: TypeId, base: &Written, indices: &[Written]) -> bool
    ensures { IsTrue result ↔ spec.IndexesFrom m.now.types elem base.now indices.now }
{
    is_pointer(&m.types, base.ty) && leads_on(m, elem, indices)
}

fn has_indices(m: &Module, op: &Op) -> bool
    ensures { IsTrue result ↔ spec.HasIndices m.now.types op.now }
{
    match op {
        Op::Gep {
            elem,
            base,
            indices,
            ..
        } => indexes_from(m, *elem, base, indices.as_slice()),
        _ => true,
    }
}

/// V11 of an instruction: whether a getelementptr is indexed as its types are, in its constants too.
pub fn indexes(m: &Module, numbers: &[u32], instr: &Instr) -> bool
    requires formed { IsWellFormed m.now }
    requires named { HasNames m.now instr.now }
    ensures { IsTrue result ↔ spec.Indexes m.now numbers.now instr.now.op }
{
    has_indices(m, &instr.op) && operands_keep(m, numbers, ConstantRule::Indexed, &instr.op)
}

// ---- V13

/// V13: whether a `ret` has the return type of its function.
pub fn returns(m: &Module, numbers: &[u32], func: &Func, op: &Op) -> bool
    ensures { IsTrue result ↔ spec.Returns m.now.types numbers.now func.now op.now }
{
    match op {
        Op::Ret { val: None } => is_void(&m.types, func.ret),
        Op::Ret { val: Some(val) } => are_one(numbers, val.ty, func.ret),
        _ => true,
    }
}

// ---- V14

fn selects_of(m: &Module, numbers: &[u32], c: &Written, a: &Written, b: &Written) -> bool
    ensures { IsTrue result ↔ spec.SelectsOf m.now.types numbers.now c.now a.now b.now }
{
    is_integer_of(&m.types, c.ty, 1) && are_one(numbers, a.ty, b.ty)
}

/// V14: whether the condition of a `select` is an i1, and its arms have one type.
pub fn selects(m: &Module, numbers: &[u32], op: &Op) -> bool
    ensures { IsTrue result ↔ spec.Selects m.now.types numbers.now op.now }
{
    match op {
        Op::Select { c, a, b } => selects_of(m, numbers, c, a, b),
        _ => true,
    }
}

// ---- V15

/// Whether a value has the type that is written for it, and a constant is of its kind.
fn is_of_type(m: &Module, numbers: &[u32], w: &Written) -> bool
    requires formed { IsWellFormed m.now }
    requires named { IsNamed m.now w.now }
    ensures { IsTrue result ↔ spec.IsOfType m.now numbers.now w.now }
{
    has_type_of(m, numbers, w.ty, w.val) && fits_kind(&m.types, numbers, m.parts.as_slice(), w)
}

/// Whether a callee is a pointer.
fn is_callee(m: &Module, numbers: &[u32], w: &Written) -> bool
    requires formed { IsWellFormed m.now }
    requires named { IsNamed m.now w.now }
    ensures { IsTrue result ↔ spec.IsCallee m.now numbers.now w.now }
{
    is_pointer(&m.types, w.ty) && is_of_type(m, numbers, w)
}

/// Whether there are as many arguments as parameters, or more where a function is variadic.
fn is_as_many(variadic: bool, params: &[TypeId], args: &[Written]) -> bool
    ensures { IsTrue result ↔ spec.IsAsMany variadic params.now args.now }
{
    if variadic {
        params.len() <= args.len()
    } else {
        params.len() == args.len()
    }
}

/// Whether argument number `k` has the type that is written for its parameter, if there is one.
fn has_param_type(numbers: &[u32], params: &[TypeId], k: usize, w: &Written) -> bool
    ensures { IsTrue result ↔ spec.HasParamType numbers.now params.now k w.now }
{
    match params.get(k) {
        Some(t) => are_one(numbers, w.ty, *t),
        None => true,
    }
}

fn have_param_types(numbers: &[u32], params: &[TypeId], args: &[Written]) -> bool
    ensures { IsTrue result ↔ Each args.now (spec.HasParamType numbers.now params.now) }
{
    for (k, w) in args.iter().enumerate() {
        if !has_param_type(numbers, params, k, w) {
            return false;
        }
    }
    true
}

/// Whether the arguments of a call have the types of its written function type.
fn has_written_args(numbers: &[u32], call: &Call) -> bool
    ensures { IsTrue result ↔ spec.HasWrittenArgs numbers.now call.now }
{
    let params = call.func_ty.params.as_slice();
    let args = call.args.as_slice();
    is_as_many(call.func_ty.variadic, params, args) && have_param_types(numbers, params, args)
}

fn fits_call(m: &Module, numbers: &[u32], call: &Call) -> bool
    requires formed { IsWellFormed m.now }
    requires named { IsNamed m.now call.now.callee }
    ensures { IsTrue result ↔ spec.FitsCall m.now numbers.now call.now }
{
    is_callee(m, numbers, &call.callee) && has_written_args(numbers, call)
}

/// V15: whether a call calls a pointer, and its arguments have the types of its written function type.
pub fn calls_as_written(m: &Module, numbers: &[u32], instr: &Instr) -> bool
    requires formed { IsWellFormed m.now }
    requires named { HasNames m.now instr.now }
    ensures { IsTrue result ↔ spec.CallsAsWritten m.now numbers.now instr.now.op }
{
    match &instr.op {
        Op::Call(call) | Op::Invoke { call, .. } => fits_call(m, numbers, call),
        _ => true,
    }
}

// ---- V16

/// The greatest alignment, in bytes.
const MAX_ALIGN: u64 = 1 << 32;

/// Whether an alignment, if one is written, is a power of two up to 2^32.
pub(crate) fn is_alignment(align: Option<u64>) -> bool
    ensures { IsTrue result ↔ spec.IsAlignment align }
{
    match align {
        Some(n) => n.is_power_of_two() && n <= MAX_ALIGN,
        None => true,
    }
}

pub(crate) fn is_good(attrs: &ParamAttrs) -> bool
    ensures { IsTrue result ↔ spec.IsGood attrs.now }
{
    !attrs.bad
}

fn are_good(list: &[ParamAttrs]) -> bool
    ensures { IsTrue result ↔ Each list.now (λ k attrs. spec.IsGood attrs) }
{
    for attrs in list {
        if !is_good(attrs) {
            return false;
        }
    }
    true
}

fn has_good_attrs(call: &Call) -> bool
    ensures { IsTrue result ↔ spec.HasGoodAttrs call.now }
{
    is_good(&call.attrs.ret) && are_good(call.attrs.args.as_slice())
}

/// V16 of an instruction: whether the alignments and the numbers of bytes that it writes are as they should be (LangRef,
/// "Parameter Attributes").
pub fn is_aligned(op: &Op) -> bool
    ensures { IsTrue result ↔ spec.IsAligned op.now }
{
    match op {
        Op::Alloca { align, .. } | Op::Load { align, .. } | Op::Store { align, .. } => {
            is_alignment(*align)
        }
        Op::Call(call) | Op::Invoke { call, .. } => has_good_attrs(call),
        _ => true,
    }
}

// ---- V19

/// V19: whether a landing pad, and the operand of a `resume`, has the type `{ ptr, i32 }`.
pub fn is_pad_pair(m: &Module, instr: &Instr) -> bool
    ensures { IsTrue result ↔ spec.IsPadPair m.now.types instr.now.ty instr.now.op }
{
    match &instr.op {
        Op::LandingPad { .. } => is_pair(&m.types, instr.ty),
        Op::Resume { val } => is_pair(&m.types, val.ty),
        _ => true,
    }
}
