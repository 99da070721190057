//! Rules of the operands of an instruction and of its result.
ghost use Rattle.std.specs.Prelude.{◌≡◌, ◌<◌, ◌↔◌, ◌⊎◌, IsTrue, Some, length, slice_get};
ghost use Rattle.std.specs.Option.{option_copied};
ghost use Rattle.ir_module.specs.Operands.{operands};
ghost use Rattle.ir_module.specs.WellFormed.{Each, IsWellFormed};
ghost use Rattle.ir_operands.specs.Constants.{IsScalarOperand, Keeps, KeepsInside};
ghost use Rattle.ir_operands.specs.Types.{type_of, IsScalar, IsPair, IsVoid, MayReturn};
ghost use Rattle.ir_rules.specs.Named.{AreNamed, IsNamed, HasNames};
ghost use Rattle.ir_rules.specs.Values as spec;

use attr_ids::TypeId;
use ir_module::{Clause, Instr, Module, Op, Operand, Written};
use ir_operands::{
    ConstantRule, Site, are_one, has_size, is_pair, is_scalar, is_scalar_operand, is_void, keeps,
    keeps_inside, may_return,
};

// ---- constants

/// Whether an operand keeps a rule of constants, with all that lies in it.
pub(crate) fn operand_keeps(m: &Module, numbers: &[u32], rule: ConstantRule, w: &Written) -> bool
    requires formed { IsWellFormed m.now }
    requires named { IsNamed m.now w.now }
    ensures { IsTrue result ↔ Keeps m.now.types numbers.now m.now.parts rule w.now }
{
    keeps(&m.types, numbers, m.parts.as_slice(), rule, w)
}

/// Whether each of these operands keeps a rule of constants, with all that lies in it.
pub(crate) fn each_keeps(m: &Module, numbers: &[u32], rule: ConstantRule, ws: &[Written]) -> bool
    requires formed { IsWellFormed m.now }
    requires named { AreNamed m.now ws.now }
    ensures { IsTrue result ↔ spec.EachKeeps m.now numbers.now rule ws.now }
{
    for w in ws {
        if !operand_keeps(m, numbers, rule, w) {
            return false;
        }
    }
    true
}

/// Whether each operand of an instruction keeps a rule of constants, with all that lies in it.
pub(crate) fn operands_keep(m: &Module, numbers: &[u32], rule: ConstantRule, op: &Op) -> bool
    requires formed { IsWellFormed m.now }
    requires named { AreNamed m.now (operands op.now) }
    ensures { IsTrue result ↔ spec.EachKeeps m.now numbers.now rule (operands op.now) }
{
    for k in 0..op.operand_count() {
        if let Some(w) = op.operand_at(k) {
            if !operand_keeps(m, numbers, rule, w) {
                return false;
            }
        }
    }
    true
}

// ---- V1

/// Where a clause of a landing pad is written.
fn clause_site(clause: Option<&Clause>) -> Site
    ensures { result ≡ spec.clause_site (option_copied clause.entry) }
{
    match clause {
        Some(clause) if clause.filter => Site::Filter,
        _ => Site::Plain,
    }
}

/// Where operand number `k` of an instruction is written.
fn site_of(op: &Op, k: usize) -> Site
    ensures { result ≡ spec.site_of op.now k }
{
    match op {
        Op::Phi { .. } | Op::Resume { .. } => Site::Pair,
        Op::LandingPad { clauses, .. } => clause_site(clauses.get(k)),
        _ => Site::Plain,
    }
}

/// Whether a type is a scalar or `{ ptr, i32 }`.
fn is_scalar_or_pair(m: &Module, t: TypeId) -> bool
    ensures { IsTrue result ↔ (IsScalar (type_of m.now.types t) ⊎ IsPair m.now.types (type_of m.now.types t)) }
{
    is_scalar(&m.types, t) || is_pair(&m.types, t)
}

/// Whether the result of a call and the type that is written for it may be returned.
fn may_both_return(m: &Module, t: TypeId, ret: TypeId) -> bool
    ensures { IsTrue result ↔ (MayReturn (type_of m.now.types t) × MayReturn (type_of m.now.types ret)) }
{
    may_return(&m.types, t) && may_return(&m.types, ret)
}

/// Whether the result of an instruction is a scalar, where it has to be.
fn has_scalar_result(m: &Module, t: TypeId, op: &Op) -> bool
    ensures { IsTrue result ↔ spec.HasScalarResult m.now.types t op.now }
{
    match op {
        Op::Phi { .. } | Op::LandingPad { .. } => is_scalar_or_pair(m, t),
        Op::Call(call) | Op::Invoke { call, .. } => may_both_return(m, t, call.func_ty.ret),
        Op::Store { .. }
        | Op::Resume { .. }
        | Op::Ret { .. }
        | Op::Jump { .. }
        | Op::Branch { .. }
        | Op::Switch { .. }
        | Op::Unreachable => true,
        _ => is_scalar(&m.types, t),
    }
}

/// Whether one operand is a scalar, where it has to be.
pub(crate) fn is_scalar_at(m: &Module, numbers: &[u32], site: Site, w: &Written) -> bool
    requires formed { IsWellFormed m.now }
    requires named { IsNamed m.now w.now }
    ensures { IsTrue result ↔ IsScalarOperand m.now.types numbers.now m.now.parts site w.now }
{
    is_scalar_operand(&m.types, numbers, m.parts.as_slice(), site, w)
}

/// Whether the operands of an instruction are scalars, where they have to be.
fn has_scalar_operands(m: &Module, numbers: &[u32], op: &Op) -> bool
    requires formed { IsWellFormed m.now }
    requires named { AreNamed m.now (operands op.now) }
    ensures { IsTrue result ↔ Each (operands op.now) (λ k w. IsScalarOperand m.now.types numbers.now m.now.parts (spec.site_of op.now k) w) }
{
    for k in 0..op.operand_count() {
        if let Some(w) = op.operand_at(k) {
            if !is_scalar_at(m, numbers, site_of(op, k), w) {
                return false;
            }
        }
    }
    true
}

/// V1 of an instruction: whether its result and its operands are scalars, where they have to be.
pub fn has_scalars(m: &Module, numbers: &[u32], instr: &Instr) -> bool
    requires formed { IsWellFormed m.now }
    requires named { HasNames m.now instr.now }
    ensures { IsTrue result ↔ spec.HasScalars m.now numbers.now instr.now }
{
    has_scalar_result(m, instr.ty, &instr.op) && has_scalar_operands(m, numbers, &instr.op)
}

// ---- V2

/// Whether what is allocated, loaded, stored or stepped over has a size.
fn has_sized_type(m: &Module, instr: &Instr) -> bool
    requires { HasNames m.now instr.now }
    ensures { IsTrue result ↔ spec.HasSizedType m.now.types instr.now.ty instr.now.op }
{
    match &instr.op {
        Op::Alloca { ty, .. } => has_size(&m.types, *ty),
        Op::Load { .. } => has_size(&m.types, instr.ty),
        Op::Store { val, .. } => has_size(&m.types, val.ty),
        Op::Gep { elem, .. } => has_size(&m.types, *elem),
        _ => true,
    }
}

/// V2 of an instruction: whether what it allocates, loads, stores or steps over has a size, in its constants too.
pub fn has_sizes(m: &Module, numbers: &[u32], instr: &Instr) -> bool
    requires formed { IsWellFormed m.now }
    requires named { HasNames m.now instr.now }
    ensures { IsTrue result ↔ spec.HasSizes m.now numbers.now instr.now }
{
    has_sized_type(m, instr) && operands_keep(m, numbers, ConstantRule::Sized, &instr.op)
}

// ---- V7

/// Whether a value has the type that is written for it.
pub(crate) fn has_type_of(m: &Module, numbers: &[u32], t: TypeId, o: Operand) -> bool
    ensures { IsTrue result ↔ spec.HasTypeOf m.now numbers.now t o }
{
    match o {
        Operand::Value(v) => match m.values.get(v.0 as usize) {
            Some(info) => are_one(numbers, info.ty, t),
            None => false,
        },
        _ => true,
    }
}

/// Whether an operand has the type that is written for it.
fn fits_written(m: &Module, numbers: &[u32], w: &Written) -> bool
    requires formed { IsWellFormed m.now }
    requires named { IsNamed m.now w.now }
    ensures { IsTrue result ↔ spec.FitsWritten m.now numbers.now w.now }
{
    has_type_of(m, numbers, w.ty, w.val) && operand_keeps(m, numbers, ConstantRule::Fitting, w)
}

/// Whether each of these operands has the type that is written for it.
fn each_fits_written(m: &Module, numbers: &[u32], ws: &[Written]) -> bool
    requires formed { IsWellFormed m.now }
    requires named { AreNamed m.now ws.now }
    ensures { IsTrue result ↔ Each ws.now (λ k w. spec.FitsWritten m.now numbers.now w) }
{
    for w in ws {
        if !fits_written(m, numbers, w) {
            return false;
        }
    }
    true
}

/// Whether each operand of an instruction has the type that is written for it.
fn operands_fit_written(m: &Module, numbers: &[u32], op: &Op) -> bool
    requires formed { IsWellFormed m.now }
    requires named { AreNamed m.now (operands op.now) }
    ensures { IsTrue result ↔ Each (operands op.now) (λ k w. spec.FitsWritten m.now numbers.now w) }
{
    for k in 0..op.operand_count() {
        if let Some(w) = op.operand_at(k) {
            if !fits_written(m, numbers, w) {
                return false;
            }
        }
    }
    true
}

/// Whether each operand but a callee has the type that is written for it.
fn typed_fit_written(m: &Module, numbers: &[u32], op: &Op) -> bool
    requires formed { IsWellFormed m.now }
    requires named { AreNamed m.now (operands op.now) }
    ensures { IsTrue result ↔ Each (spec.typed op.now) (λ k w. spec.FitsWritten m.now numbers.now w) }
{
    match op.call() {
        Some(call) => each_fits_written(m, numbers, call.args.as_slice()),
        None => operands_fit_written(m, numbers, op),
    }
}

/// Whether the parts of a callee have the types that are written for them.
fn callee_fits(m: &Module, numbers: &[u32], callee: &Written) -> bool
    requires formed { IsWellFormed m.now }
    requires named { IsNamed m.now callee.now }
    ensures { IsTrue result ↔ KeepsInside m.now.types numbers.now m.now.parts ConstantRule.Fitting callee.now }
{
    keeps_inside(
        &m.types,
        numbers,
        m.parts.as_slice(),
        ConstantRule::Fitting,
        callee,
    )
}

fn has_fitting_callee(m: &Module, numbers: &[u32], op: &Op) -> bool
    requires formed { IsWellFormed m.now }
    requires named { AreNamed m.now (operands op.now) }
    ensures { IsTrue result ↔ spec.HasFittingCallee m.now numbers.now op.now }
{
    match op {
        Op::Call(call) | Op::Invoke { call, .. } => callee_fits(m, numbers, &call.callee),
        _ => true,
    }
}

/// Whether a name is written only where there is a result, and no void one.
fn is_named_well(m: &Module, instr: &Instr) -> bool
    ensures { IsTrue result ↔ spec.IsNamedWell m.now.types instr.now }
{
    !instr.named || (instr.result.is_some() && !is_void(&m.types, instr.ty))
}

/// Whether the operands of an instruction have the types that are written for them.
fn has_written_operands(m: &Module, numbers: &[u32], op: &Op) -> bool
    requires formed { IsWellFormed m.now }
    requires named { AreNamed m.now (operands op.now) }
    ensures { IsTrue result ↔ spec.HasWrittenOperands m.now numbers.now op.now }
{
    typed_fit_written(m, numbers, op) && has_fitting_callee(m, numbers, op)
}

/// V7 of an instruction: whether its operands have the types that are written for them, and a void result no name.
pub fn has_written_types(m: &Module, numbers: &[u32], instr: &Instr) -> bool
    requires formed { IsWellFormed m.now }
    requires named { HasNames m.now instr.now }
    ensures { IsTrue result ↔ spec.HasWrittenTypes m.now numbers.now instr.now }
{
    has_written_operands(m, numbers, &instr.op) && is_named_well(m, instr)
}

// ---- V17

/// V17 of an instruction: whether each integer literal in it fits its width.
pub fn has_fitting_literals(m: &Module, numbers: &[u32], instr: &Instr) -> bool
    requires formed { IsWellFormed m.now }
    requires named { HasNames m.now instr.now }
    ensures { IsTrue result ↔ spec.HasFittingLiterals m.now numbers.now instr.now.op }
{
    operands_keep(m, numbers, ConstantRule::InRange, &instr.op)
}
