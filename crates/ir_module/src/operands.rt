ghost use Rattle.std.specs.Prelude.{◌≡◌, ◌<◌, ◌^◌, [], ◌∷◌, length, map, slice_get};
ghost use Rattle.std.specs.Option.{option_copied};
ghost use Rattle.ir_module.specs.Operands as spec;
ghost use Rattle.ir_module.specs.Calls.{call_of};

use crate::callee::type_at;
use crate::module::Module;
use crate::op::{Arms, Call, Cases, Clauses, Op, Operand, Operands, Written};
use ir_types::IrType;

/// The operand number `i` of an instruction that has this one.
fn one<'a>(a: &'a Written, i: usize) -> Option<&'a Written>
    ensures { option_copied result ≡ slice_get (a.now ∷ []) i }
{
    match i {
        0 => Some(a),
        _ => None,
    }
}

/// The operand number `i` of an instruction that has these two.
fn of_two<'a>(a: &'a Written, b: &'a Written, i: usize) -> Option<&'a Written>
    ensures { option_copied result ≡ slice_get (a.now ∷ b.now ∷ []) i }
{
    match i {
        0 => Some(a),
        1 => Some(b),
        _ => None,
    }
}

/// The operand number `i` of an instruction that has these three.
fn of_three<'a>(a: &'a Written, b: &'a Written, c: &'a Written, i: usize) -> Option<&'a Written>
    ensures { option_copied result ≡ slice_get (a.now ∷ b.now ∷ c.now ∷ []) i }
{
    match i {
        0 => Some(a),
        1 => Some(b),
        2 => Some(c),
        _ => None,
    }
}

/// The operand number `i` of an instruction that has this one and then these.
fn of_headed<'a>(first: &'a Written, rest: &'a Operands, i: usize) -> Option<&'a Written>
    ensures { option_copied result ≡ slice_get (first.now ∷ rest.now) i }
{
    if i == 0 { Some(first) } else { rest.get(i - 1) }
}

/// The operand number `i` of an instruction that may have one.
fn of_optional<'a>(a: &'a Option<Written>, i: usize) -> Option<&'a Written>
    ensures { option_copied result ≡ slice_get (spec.optional a.now) i }
{
    match a {
        Some(a) => one(a, i),
        None => None,
    }
}

/// The literals that the cases of a `switch` are told by.
fn of_cases<'a>(cases: &'a Cases, i: usize) -> Option<&'a Written>
    ensures { option_copied result ≡ slice_get (map (λ c. c.val) cases.now) i }
{
    match cases.get(i) {
        Some(case) => Some(&case.val),
        None => None,
    }
}

fn of_switch<'a>(on: &'a Written, cases: &'a Cases, i: usize) -> Option<&'a Written>
    ensures { option_copied result ≡ slice_get (on.now ∷ map (λ c. c.val) cases.now) i }
{
    if i == 0 {
        Some(on)
    } else {
        of_cases(cases, i - 1)
    }
}

fn of_phi<'a>(arms: &'a Arms, i: usize) -> Option<&'a Written>
    ensures { option_copied result ≡ slice_get (map (λ arm. arm.val) arms.now) i }
{
    match arms.get(i) {
        Some(arm) => Some(&arm.val),
        None => None,
    }
}

fn of_clauses<'a>(clauses: &'a Clauses, i: usize) -> Option<&'a Written>
    ensures { option_copied result ≡ slice_get (map (λ clause. clause.val) clauses.now) i }
{
    match clauses.get(i) {
        Some(clause) => Some(&clause.val),
        None => None,
    }
}

impl Op {
    /// The call that the instruction is, where it is a `call` or an `invoke`.
    pub fn call(&self) -> Option<&Call>
        ensures { option_copied result ≡ call_of self.now }
    {
        match self {
            Op::Call(call) | Op::Invoke { call, .. } => Some(call),
            _ => None,
        }
    }

    /// How many operands the instruction has; labels are none.
    pub fn operand_count(&self) -> usize
        ensures { result ≡ length (spec.operands self.now) }
    {
        match self {
            Op::Select { .. } => 3,
            Op::Bin { .. } | Op::Icmp { .. } | Op::Store { .. } => 2,
            Op::Cast { .. }
            | Op::Freeze { .. }
            | Op::Load { .. }
            | Op::Resume { .. }
            | Op::Branch { .. } => 1,
            Op::Alloca { count: val, .. } | Op::Ret { val } => val.is_some() as usize,
            Op::Phi { arms } => arms.len(),
            Op::LandingPad { clauses, .. } => clauses.len(),
            Op::Gep { indices, .. } => 1 + indices.as_slice().len(),
            Op::Call(call) | Op::Invoke { call, .. } => 1 + call.args.as_slice().len(),
            Op::Switch { cases, .. } => 1 + cases.as_slice().len(),
            Op::Jump { .. } | Op::Unreachable => 0,
        }
    }

    /// The operand number `i` of the instruction, counted from 0 in the order in which they are written.
    pub fn operand_at<'a>(&'a self, i: usize) -> Option<&'a Written>
        ensures { option_copied result ≡ slice_get (spec.operands self.now) i }
    {
        match self {
            Op::Bin { a, b, .. } | Op::Icmp { a, b, .. } => of_two(a, b, i),
            Op::Store { val, ptr, .. } => of_two(val, ptr, i),
            Op::Select { c, a, b } => of_three(c, a, b, i),
            Op::Cast { a, .. }
            | Op::Freeze { a }
            | Op::Load { ptr: a, .. }
            | Op::Resume { val: a }
            | Op::Branch { c: a, .. } => one(a, i),
            Op::Alloca { count: val, .. } | Op::Ret { val } => of_optional(val, i),
            Op::Phi { arms } => of_phi(arms, i),
            Op::LandingPad { clauses, .. } => of_clauses(clauses, i),
            Op::Gep { base, indices, .. } => of_headed(base, indices, i),
            Op::Call(call) | Op::Invoke { call, .. } => of_headed(&call.callee, &call.args, i),
            Op::Switch { on, cases, .. } => of_switch(on, cases, i),
            Op::Jump { .. } | Op::Unreachable => None,
        }
    }
}

/// The number that an operand stands for, where it is a literal: an integer that fits its width, `true` or
/// `false`, or `zeroinitializer` at an integer type.
pub fn literal(m: &Module, w: &Written) -> Option<u64>
    ensures { result ≡ spec.literal m.now w.now }
{
    match w.val {
        Operand::Int { bits, fits: true } => Some(bits),
        Operand::Truth(value) => Some(value as u64),
        Operand::Zero => match type_at(m, w.ty) {
            Some(IrType::Int { .. }) => Some(0),
            _ => None,
        },
        _ => None,
    }
}
