//! What is demanded of one constant, its parts apart.
ghost use Rattle.std.specs.Prelude.{ℕ, ◌≡◌, ◌+◌, ◌<◌, ◌≤◌, ◌↔◌, Bool, IsTrue, length};
ghost use Rattle.std.specs.Option.{option_copied};
ghost use Rattle.ir_operands.specs.Constants as spec;
ghost use Rattle.ir_module.specs.WellFormed.{HasPartsBelow};
ghost use Rattle.ir_operands.specs.Types.{type_of};

use crate::kind::{
    are_one, has_values, is_integer, is_integer_of, is_pair, is_pointer, is_scalar, type_at,
};
use crate::rule::{ConstantRule, Site};
use attr_ids::TypeId;
use ir_module::{Operand, Shape, Written};
use ir_types::{IrType, TypeTable};

/// So many parts side by side, from the number `first` on.
#[derive(Clone, Copy)]
pub(crate) struct Run {
    pub first: usize,
    pub count: usize,
}

/// The parts that a constant names as its own.
pub(crate) fn own_run(o: Operand) -> Run
    ensures first { result.first ≡ spec.own_first o }
    ensures count { result.count ≡ spec.own_count o }
    ensures below { (n : ℕ) → HasPartsBelow n o → result.first + result.count ≤ n }
{
    match o {
        Operand::Parts {
            shape: Shape::Bytes,
            ..
        } => Run { first: 0, count: 0 },
        Operand::Parts { first, count, .. } | Operand::AnyInt { first, count } => Run {
            first: first as usize,
            count: count as usize,
        },
        _ => Run { first: 0, count: 0 },
    }
}

/// Whether no aggregate is written.
fn is_plain(o: Operand) -> bool
    ensures { IsTrue result ↔ spec.IsPlain o }
{
    !matches!(o, Operand::Parts { .. })
}

/// Whether a constant has a scalar type and is no aggregate.
fn is_scalar_constant(types: &TypeTable, w: &Written) -> bool
    ensures { IsTrue result ↔ spec.IsScalarConstant types.now w.now }
{
    is_scalar(types, w.ty) && is_plain(w.val)
}

/// Whether each part of a constant expression is a scalar and no aggregate.
fn are_scalars(types: &TypeTable, parts: &[Written], run: Run) -> bool
    requires { run.first + run.count ≤ length parts.now }
    ensures { IsTrue result ↔ spec.RunHas (λ i w. spec.IsScalarConstant types.now w) parts.now run.first run.count }
{
    for i in 0..run.count {
        if !is_scalar_constant(types, &parts[run.first + i]) {
            return false;
        }
    }
    true
}

/// Whether the parts of a constant expression are scalars; those of an aggregate are free.
fn has_scalar_parts(types: &TypeTable, parts: &[Written], o: Operand) -> bool
    requires { HasPartsBelow (length parts.now) o }
    ensures { IsTrue result ↔ spec.HasScalarParts types.now parts.now o }
{
    match o {
        Operand::AnyInt { .. } => are_scalars(types, parts, own_run(o)),
        _ => true,
    }
}

/// Whether an operand may stand where it is written.
pub(crate) fn may_stand(types: &TypeTable, site: Site, w: &Written) -> bool
    ensures { IsTrue result ↔ spec.MayStand types.now site w.now }
{
    match site {
        Site::Plain => is_scalar_constant(types, w),
        Site::Pair => (is_scalar(types, w.ty) || is_pair(types, w.ty)) && is_plain(w.val),
        Site::Filter | Site::Initial => true,
    }
}

/// Whether each part of a run is written with the type of an array's element.
fn has_elements(numbers: &[u32], parts: &[Written], run: Run, elem: TypeId) -> bool
    requires { run.first + run.count ≤ length parts.now }
    ensures { IsTrue result ↔ spec.HasElements numbers.now parts.now run.first run.count elem }
{
    for i in 0..run.count {
        if !are_one(numbers, parts[run.first + i].ty, elem) {
            return false;
        }
    }
    true
}

/// Whether a part is written with the type of field `i`.
fn has_field_type(numbers: &[u32], fields: &[TypeId], i: usize, w: &Written) -> bool
    requires { i < length fields.now }
    ensures { IsTrue result ↔ spec.HasFieldType numbers.now fields.now i w.now }
{
    are_one(numbers, w.ty, fields[i])
}

/// Whether each part of a run is written with the type of the field of its place.
fn has_fields(numbers: &[u32], parts: &[Written], run: Run, fields: &[TypeId]) -> bool
    requires within { run.first + run.count ≤ length parts.now }
    requires as_many { run.count ≡ length fields.now }
    ensures { IsTrue result ↔ spec.HasFields numbers.now parts.now run.first run.count fields.now }
{
    for i in 0..run.count {
        if !has_field_type(numbers, fields, i, &parts[run.first + i]) {
            return false;
        }
    }
    true
}

/// Whether a run of parts makes an array of this type.
fn fits_array(numbers: &[u32], parts: &[Written], run: Run, ty: Option<&IrType>) -> bool
    requires { run.first + run.count ≤ length parts.now }
    ensures { IsTrue result ↔ spec.FitsArray numbers.now parts.now run.first run.count (option_copied ty.entry) }
{
    match ty {
        Some(IrType::Array { count, elem }) => {
            run.count as u64 == *count && has_elements(numbers, parts, run, *elem)
        }
        _ => false,
    }
}

/// Whether a run of parts makes a struct of these fields.
fn fits_fields(numbers: &[u32], parts: &[Written], run: Run, fields: &[TypeId]) -> bool
    requires { run.first + run.count ≤ length parts.now }
    ensures { IsTrue result ↔ ((run.count ≡ length fields.now) × spec.HasFields numbers.now parts.now run.first run.count fields.now) }
{
    run.count == fields.len() && has_fields(numbers, parts, run, fields)
}

/// Whether a run of parts makes a struct of this type, packed or not as the constant is.
fn fits_struct(
    numbers: &[u32],
    parts: &[Written],
    is_packed: bool,
    run: Run,
    ty: Option<&IrType>,
) -> bool
    requires { run.first + run.count ≤ length parts.now }
    ensures { IsTrue result ↔ spec.FitsStruct numbers.now parts.now is_packed run.first run.count (option_copied ty.entry) }
{
    match ty {
        Some(IrType::Struct { fields, packed }) => {
            *packed == is_packed && fits_fields(numbers, parts, run, fields.as_slice())
        }
        _ => false,
    }
}

/// Whether a type is an array of so many bytes.
fn fits_bytes(types: &TypeTable, count: u32, ty: Option<&IrType>) -> bool
    ensures { IsTrue result ↔ spec.FitsBytes types.now count (option_copied ty.entry) }
{
    match ty {
        Some(IrType::Array { count: size, elem }) => {
            count as u64 == *size && is_integer_of(types, *elem, 8)
        }
        _ => false,
    }
}

/// Whether an aggregate fits a type.
fn fits_shape(
    types: &TypeTable,
    numbers: &[u32],
    parts: &[Written],
    o: Operand,
    ty: Option<&IrType>,
) -> bool
    requires below { HasPartsBelow (length parts.now) o }
    requires aggregate { spec.IsPlain o → ⊥ }
    ensures { IsTrue result ↔ spec.FitsKind types.now numbers.now parts.now (option_copied ty.entry) o }
{
    let Operand::Parts {
        shape,
        first,
        count,
    } = o
    else {
        unreachable!()
    };
    let run = Run {
        first: first as usize,
        count: count as usize,
    };
    match shape {
        Shape::Array => fits_array(numbers, parts, run, ty),
        Shape::Struct => fits_struct(numbers, parts, false, run, ty),
        Shape::Packed => fits_struct(numbers, parts, true, run, ty),
        Shape::Bytes => fits_bytes(types, count, ty),
    }
}

/// Whether a constant fits the kind of the type that is written for it, its parts apart.
pub fn fits_kind(types: &TypeTable, numbers: &[u32], parts: &[Written], w: &Written) -> bool
    requires { HasPartsBelow (length parts.now) w.now.val }
    ensures { IsTrue result ↔ spec.FitsKind types.now numbers.now parts.now (type_of types.now w.now.ty) w.now.val }
{
    match w.val {
        Operand::Value(_) => true,
        Operand::Int { .. } | Operand::AnyInt { .. } => is_integer(types, w.ty),
        Operand::Truth(_) => is_integer_of(types, w.ty, 1),
        Operand::Zero | Operand::Undef | Operand::Poison => has_values(types, w.ty),
        Operand::Parts { .. } => fits_shape(types, numbers, parts, w.val, type_at(types, w.ty)),
        _ => is_pointer(types, w.ty),
    }
}

/// Whether an integer literal fits its width.
fn is_in_range(o: Operand) -> bool
    ensures { IsTrue result ↔ spec.IsInRange o }
{
    match o {
        Operand::Int { fits, .. } => fits,
        _ => true,
    }
}

/// Whether an operand is no constant getelementptr that breaks the rule of this number.
pub(crate) fn is_not_wrong(n: u8, o: Operand) -> bool
    ensures { IsTrue result ↔ spec.IsNotWrong n o }
{
    match o {
        Operand::WrongOffset { rule } => rule != n,
        _ => true,
    }
}

/// Whether a constant meets what a rule demands besides its getelementptrs.
fn demands(
    types: &TypeTable,
    numbers: &[u32],
    parts: &[Written],
    rule: ConstantRule,
    w: &Written,
) -> bool
    requires { HasPartsBelow (length parts.now) w.now.val }
    ensures { IsTrue result ↔ spec.Demands types.now numbers.now parts.now rule w.now }
{
    match rule {
        ConstantRule::ScalarParts => has_scalar_parts(types, parts, w.val),
        ConstantRule::Fitting => fits_kind(types, numbers, parts, w),
        ConstantRule::InRange => is_in_range(w.val),
        _ => true,
    }
}

/// Whether a constant keeps a rule, its parts apart.
pub(crate) fn keeps_alone(
    types: &TypeTable,
    numbers: &[u32],
    parts: &[Written],
    rule: ConstantRule,
    w: &Written,
) -> bool
    requires { HasPartsBelow (length parts.now) w.now.val }
    ensures { IsTrue result ↔ spec.KeepsAlone types.now numbers.now parts.now rule w.now }
{
    is_not_wrong(rule.number(), w.val) && demands(types, numbers, parts, rule, w)
}
