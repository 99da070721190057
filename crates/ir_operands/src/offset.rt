//! What is demanded of a constant getelementptr, and which part of a type indices lead to.
ghost use Rattle.std.specs.Prelude.{◌≡◌, ◌<◌, ◌↔◌, IsTrue, IsNone, IsSome, IfSome, length};
ghost use Rattle.std.specs.Option.{option_copied};
ghost use Rattle.ir_module.specs.WellFormed.{Each, HasPartsBelow};
ghost use Rattle.ir_operands.specs.Constants.{ArePartsBelow, Keeps};
ghost use Rattle.ir_operands.specs.Offsets as spec;
ghost use Rattle.ir_operands.specs.Types.{type_of};

use crate::constant::may_stand;
use crate::kind::{is_integer, is_pointer, type_at};
use crate::rule::{ConstantRule, Site};
use crate::walk::keeps;
use attr_ids::TypeId;
use ir_module::{Operand, Written};
use ir_types::{IrType, TypeTable};

/// The number that an operand stands for, where it is a literal: an integer that fits its width, `true` or `false`, or
/// `zeroinitializer` at an integer type.
pub fn literal_of(types: &TypeTable, w: &Written) -> Option<u64>
    ensures { result ≡ spec.literal_of types.now w.now }
{
    match w.val {
        Operand::Int { bits, fits: true } => Some(bits),
        Operand::Truth(value) => Some(value as u64),
        Operand::Zero => match type_at(types, w.ty) {
            Some(IrType::Int { .. }) => Some(0),
            _ => None,
        },
        _ => None,
    }
}

/// The field that an index picks, if there is one.
fn picked(fields: &[TypeId], index: Option<u64>) -> Option<TypeId>
    ensures { result ≡ spec.picked fields.now index }
{
    let i = index?;
    fields.get(i as usize).copied()
}

/// The type that an index leads to.
fn entered(ty: Option<&IrType>, index: Option<u64>) -> Option<TypeId>
    ensures { result ≡ spec.entered (option_copied ty.entry) index }
{
    match ty {
        Some(IrType::Array { elem, .. }) => Some(*elem),
        Some(IrType::Struct { fields, .. }) => picked(fields.as_slice(), index),
        _ => None,
    }
}

/// The type that indices lead to, one after the other, or none where one of them leads nowhere.
pub fn entered_by(types: &TypeTable, t: TypeId, indices: &[Written]) -> Option<TypeId>
    ensures { result ≡ spec.entered_by types.now t indices.now }
{
    let mut at = t;
    for w in indices {
        at = entered(type_at(types, at), literal_of(types, w))?;
    }
    Some(at)
}

/// The type that the indices of a getelementptr lead to: the first steps over whole elements.
pub fn indexed(types: &TypeTable, elem: TypeId, indices: &[Written]) -> Option<TypeId>
    ensures { result ≡ spec.indexed types.now elem indices.now }
{
    if indices.is_empty() {
        return Some(elem);
    }
    entered_by(types, elem, &indices[1..])
}

/// Whether an operand is an integer literal with an integer type, in range or not.
fn is_literal_index(types: &TypeTable, w: &Written) -> bool
    ensures { IsTrue result ↔ spec.IsLiteralIndex types.now w.now }
{
    let is_literal = match w.val {
        Operand::Int { .. } | Operand::Truth(_) | Operand::Zero => true,
        _ => false,
    };
    is_literal && is_integer(types, w.ty)
}

fn are_literal_indices(types: &TypeTable, indices: &[Written]) -> bool
    ensures { IsTrue result ↔ Each indices.now (λ k w. spec.IsLiteralIndex types.now w) }
{
    for w in indices {
        if !is_literal_index(types, w) {
            return false;
        }
    }
    true
}

/// Whether a constant getelementptr may have this base.
fn is_base(o: Operand) -> bool
    ensures { IsTrue result ↔ spec.IsBase o }
{
    match o {
        Operand::Func(_)
        | Operand::Global(_)
        | Operand::Offset { .. }
        | Operand::WrongOffset { .. } => true,
        _ => false,
    }
}

fn is_based(types: &TypeTable, base: &Written) -> bool
    ensures { IsTrue result ↔ spec.IsBased types.now base.now }
{
    is_pointer(types, base.ty) && is_base(base.val)
}

fn leads_somewhere(types: &TypeTable, elem: TypeId, indices: &[Written]) -> bool
    ensures { IsTrue result ↔ IsSome (spec.indexed types.now elem indices.now) }
{
    indexed(types, elem, indices).is_some()
}

fn leads_on(types: &TypeTable, elem: TypeId, indices: &[Written]) -> bool
    ensures { IsTrue result ↔ spec.LeadsOn types.now elem indices.now }
{
    are_literal_indices(types, indices) && leads_somewhere(types, elem, indices)
}

/// Whether a constant getelementptr is based on a function, a global or another one, its indices are literals, and
/// they lead to a part of the type.
pub fn is_indexed(types: &TypeTable, elem: TypeId, base: &Written, indices: &[Written]) -> bool
    ensures { IsTrue result ↔ spec.IsIndexed types.now elem base.now indices.now }
{
    is_based(types, base) && leads_on(types, elem, indices)
}

fn may_index(types: &TypeTable, indices: &[Written]) -> bool
    ensures { IsTrue result ↔ Each indices.now (λ k w. spec.MayIndex types.now w) }
{
    for w in indices {
        if !may_stand(types, Site::Plain, w) {
            return false;
        }
    }
    true
}

/// Whether a type has a size.
pub fn has_size(types: &TypeTable, t: TypeId) -> bool
    requires { t.0 < length types.now }
    ensures { IsTrue result ↔ spec.HasSize types.now t }
{
    types.size_of(t).is_ok()
}

/// Whether a constant getelementptr meets what a rule demands of it, its operands apart.
pub fn demands_offset(
    types: &TypeTable,
    rule: ConstantRule,
    elem: TypeId,
    base: &Written,
    indices: &[Written],
) -> bool
    requires { elem.0 < length types.now }
    ensures { IsTrue result ↔ spec.DemandsOffset types.now rule elem base.now indices.now }
{
    match rule {
        ConstantRule::ScalarParts => {
            may_stand(types, Site::Plain, base) && may_index(types, indices)
        }
        ConstantRule::Sized => has_size(types, elem),
        ConstantRule::Indexed => is_indexed(types, elem, base, indices),
        _ => true,
    }
}

/// Whether each of these operands keeps a rule, and all that lies in them.
pub fn all_keep(
    types: &TypeTable,
    numbers: &[u32],
    parts: &[Written],
    rule: ConstantRule,
    ws: &[Written],
) -> bool
    requires below { ArePartsBelow parts.now }
    requires within { Each ws.now (λ k w. HasPartsBelow (length parts.now) w.val) }
    ensures { IsTrue result ↔ Each ws.now (λ k w. Keeps types.now numbers.now parts.now rule w) }
{
    for w in ws {
        if !keeps(types, numbers, parts, rule, w) {
            return false;
        }
    }
    true
}

/// Whether a constant getelementptr, given by its base and its indices, keeps a rule, with its operands and all that
/// lies in them.
pub fn offset_keeps(
    types: &TypeTable,
    numbers: &[u32],
    parts: &[Written],
    rule: ConstantRule,
    elem: TypeId,
    operands: &[Written],
) -> bool
    requires elem { elem.0 < length types.now }
    requires based { 0 < length operands.now }
    requires below { ArePartsBelow parts.now }
    requires within { Each operands.now (λ k w. HasPartsBelow (length parts.now) w.val) }
    ensures { IsTrue result ↔ spec.KeepsOffset types.now numbers.now parts.now rule elem operands.now }
{
    demands_offset(types, rule, elem, &operands[0], &operands[1..])
        && all_keep(types, numbers, parts, rule, operands)
}

/// The first of the rules that a constant getelementptr breaks where it is written, or none.
pub fn broken_rule(
    types: &TypeTable,
    numbers: &[u32],
    parts: &[Written],
    site: Site,
    elem: TypeId,
    operands: &[Written],
) -> Option<ConstantRule>
    requires elem { elem.0 < length types.now }
    requires based { 0 < length operands.now }
    requires below { ArePartsBelow parts.now }
    requires within { Each operands.now (λ k w. HasPartsBelow (length parts.now) w.val) }
    ensures kept { IsNone result → Each (spec.rules_at site) (λ k r. spec.KeepsOffset types.now numbers.now parts.now r elem operands.now) }
    ensures broken { IfSome result (spec.IsFirstBroken (λ s. spec.KeepsOffset types.now numbers.now parts.now s elem operands.now) (spec.rules_at site)) }
{
    let rules = [
        site.parts_rule(),
        ConstantRule::Sized,
        ConstantRule::Fitting,
        ConstantRule::Indexed,
        ConstantRule::InRange,
    ];
    for i in 0..rules.len() {
        if !offset_keeps(types, numbers, parts, rules[i], elem, operands) {
            return Some(rules[i]);
        }
    }
    None
}
