//! Which constants are one value, however they are written.
ghost use Rattle.std.specs.Prelude.{◌≡◌, ◌+◌, ◌≤◌, ◌↔◌, IsTrue, length};
ghost use Rattle.std.specs.Option.{option_copied};
ghost use Rattle.ir_module.specs.WellFormed.{HasPartsBelow};
ghost use Rattle.ir_operands.specs.Constants.{ArePartsBelow};
ghost use Rattle.ir_operands.specs.Same as spec;
ghost use Rattle.ir_operands.specs.Types.{type_of};

use crate::constant::{Run, own_run};
use crate::kind::{are_one, type_at};
use crate::offset::literal_of;
use ir_module::{Operand, Written};
use ir_types::{IrType, TypeTable};

/// `zeroinitializer` of a type: at a pointer it is `null`.
fn zero_at(ty: Option<&IrType>) -> Operand
    ensures { result ≡ spec.zero_at (option_copied ty.entry) }
{
    match ty {
        Some(IrType::Ptr) => Operand::Null,
        _ => Operand::Zero,
    }
}

/// The one form of all ways to write a value that is no literal.
fn form_of(types: &TypeTable, w: &Written) -> Operand
    ensures { result ≡ spec.form_in None (type_of types.now w.now.ty) w.now.val }
{
    match w.val {
        Operand::Zero => zero_at(type_at(types, w.ty)),
        Operand::Parts { shape, count, .. } => Operand::Parts {
            shape,
            first: 0,
            count,
        },
        Operand::AnyInt { count, .. } => Operand::AnyInt { first: 0, count },
        other => other,
    }
}

/// The one form of all ways to write a value, its parts apart.
fn form(types: &TypeTable, w: &Written) -> Operand
    ensures { result ≡ spec.form types.now w.now }
{
    match literal_of(types, w) {
        Some(bits) => Operand::Int { bits, fits: true },
        None => form_of(types, w),
    }
}

/// Whether two operands have one form.
fn have_one_form(types: &TypeTable, w: &Written, u: &Written) -> bool
    ensures { IsTrue result ↔ (spec.form types.now w.now ≡ spec.form types.now u.now) }
{
    form(types, w) == form(types, u)
}

/// Whether two operands of one type have one form.
fn are_one_alone(types: &TypeTable, numbers: &[u32], w: &Written, u: &Written) -> bool
    ensures { IsTrue result ↔ spec.AreOneAlone types.now numbers.now w.now u.now }
{
    are_one(numbers, w.ty, u.ty) && have_one_form(types, w, u)
}

/// Whether the parts of two runs are one value each, place by place.
fn are_one_run(types: &TypeTable, numbers: &[u32], parts: &[Written], a: Run, b: Run) -> bool
    requires below { ArePartsBelow parts.now }
    requires within { a.first + a.count ≤ length parts.now }
    requires other_within { b.first + b.count ≤ length parts.now }
    requires as_many { a.count ≡ b.count }
    ensures { IsTrue result ↔ spec.AreOneRun types.now numbers.now parts.now a.first b.first a.count }
{
    for i in 0..a.count {
        let w = parts[a.first + i];
        let u = parts[b.first + i];
        if !are_one_alone(types, numbers, &w, &u) {
            return false;
        }
        if !are_one_run(types, numbers, parts, own_run(w.val), own_run(u.val)) {
            return false;
        }
    }
    true
}

/// Whether two operands are one value: of one type and form, and so are their parts, part by part.
pub fn are_one_value(
    types: &TypeTable,
    numbers: &[u32],
    parts: &[Written],
    w: &Written,
    u: &Written,
) -> bool
    requires below { ArePartsBelow parts.now }
    requires within { HasPartsBelow (length parts.now) w.now.val }
    requires other_within { HasPartsBelow (length parts.now) u.now.val }
    ensures { IsTrue result ↔ spec.AreOneValue types.now numbers.now parts.now w.now u.now }
{
    are_one_alone(types, numbers, w, u)
        && are_one_run(types, numbers, parts, own_run(w.val), own_run(u.val))
}
