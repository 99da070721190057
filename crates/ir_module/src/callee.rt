ghost use Rattle.std.specs.Prelude.{◌≡◌, ◌<◌, length, slice_get, Some};
ghost use Rattle.std.specs.Option.{option_copied};
ghost use Rattle.ir_module.specs.Calls as spec;

use crate::module::{Func, Module, Param};
use crate::op::{FuncType, Op, Operand};
use attr_ids::{FuncId, TypeId};
use ir_types::IrType;

/// A type by its number, if there is one.
pub(crate) fn type_at<'a>(m: &'a Module, t: TypeId) -> Option<&'a IrType>
    ensures { option_copied result ≡ slice_get m.now.types t.0 }
{
    if (t.0 as usize) < m.types.len() {
        Some(m.types.get(t))
    } else {
        None
    }
}

/// Whether both are void, both pointers, or both integers of one width.
fn are_alike(a: Option<&IrType>, b: Option<&IrType>) -> bool
    ensures { result ≡ spec.are_alike (option_copied a.entry) (option_copied b.entry) }
{
    match (a, b) {
        (Some(IrType::Void), Some(IrType::Void)) | (Some(IrType::Ptr), Some(IrType::Ptr)) => true,
        (Some(IrType::Int { width }), Some(IrType::Int { width: other })) => width == other,
        _ => false,
    }
}

/// Whether two numbers name one type, as the types of functions are told apart: by what scalars they are.
fn is_same_type(m: &Module, t: TypeId, u: TypeId) -> bool
    ensures { result ≡ spec.is_same_type m.now t u }
{
    t.0 == u.0 || are_alike(type_at(m, t), type_at(m, u))
}

/// Whether the types that are written for parameters are those of the parameters.
fn fit_params(m: &Module, types: &[TypeId], params: &[Param]) -> bool
    ensures { result ≡ spec.fit_params m.now types.now params.now }
{
    if types.len() != params.len() {
        return false;
    }
    for (i, t) in types.iter().enumerate() {
        let param = &params[i];
        if !is_same_type(m, *t, param.ty) {
            return false;
        }
    }
    true
}

/// Whether the written type is the function's type.
fn is_type_of(m: &Module, written: &FuncType, func: &Func) -> bool
    ensures { result ≡ spec.is_type_of m.now written.now (Some func.now) }
{
    is_same_type(m, written.ret, func.ret)
        && written.variadic == func.variadic
        && fit_params(m, written.params.as_slice(), func.params.as_slice())
}

/// The function that a callee names, where the type that is written for it is the function's.
fn named(m: &Module, written: &FuncType, callee: Operand) -> Option<FuncId>
    ensures { result ≡ spec.named m.now written.now callee }
{
    let Operand::Func(f) = callee else {
        return None;
    };
    match m.funcs.get(f.0 as usize) {
        Some(func) if is_type_of(m, written, func) => Some(f),
        _ => None,
    }
}

/// The function that a direct call calls: its callee is the function's name, and its written type is the function's
/// type. Other instructions have none.
pub fn direct_callee(m: &Module, op: &Op) -> Option<FuncId>
    ensures { result ≡ spec.direct_callee m.now op.now }
{
    match op {
        Op::Call(call) | Op::Invoke { call, .. } => named(m, &call.func_ty, call.callee.val),
        _ => None,
    }
}
