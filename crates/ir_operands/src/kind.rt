//! Kinds of types.
ghost use Rattle.std.specs.Prelude.{◌≡◌, ◌↔◌, IsTrue, slice_get};
ghost use Rattle.std.specs.Option.{option_copied};
ghost use Rattle.ir_operands.specs.Types as spec;

use attr_ids::TypeId;
use ir_types::{IrType, TypeTable};

/// A type by its number, if there is one.
pub fn type_at<'a>(types: &'a TypeTable, t: TypeId) -> Option<&'a IrType>
    ensures { option_copied result ≡ spec.type_of types.now t }
{
    if (t.0 as usize) < types.len() {
        Some(types.get(t))
    } else {
        None
    }
}

/// The type of a field of a struct, if there is one.
fn field_at<'a>(types: &'a TypeTable, fields: &[TypeId], i: usize) -> Option<&'a IrType>
    ensures { option_copied result ≡ spec.field_type types.now fields.now i }
{
    match fields.get(i) {
        Some(t) => type_at(types, *t),
        None => None,
    }
}

/// Whether a type is an integer.
pub fn is_integer(types: &TypeTable, t: TypeId) -> bool
    ensures { IsTrue result ↔ spec.IsInteger (spec.type_of types.now t) }
{
    matches!(type_at(types, t), Some(IrType::Int { .. }))
}

fn is_integer_type(ty: Option<&IrType>, bits: u8) -> bool
    ensures { IsTrue result ↔ spec.IsIntegerOf bits (option_copied ty.entry) }
{
    match ty {
        Some(IrType::Int { width }) => *width == bits,
        _ => false,
    }
}

/// Whether a type is an integer of this width.
pub fn is_integer_of(types: &TypeTable, t: TypeId, bits: u8) -> bool
    ensures { IsTrue result ↔ spec.IsIntegerOf bits (spec.type_of types.now t) }
{
    is_integer_type(type_at(types, t), bits)
}

fn is_pointer_type(ty: Option<&IrType>) -> bool
    ensures { IsTrue result ↔ spec.IsPointer (option_copied ty.entry) }
{
    match ty {
        Some(IrType::Ptr) => true,
        _ => false,
    }
}

/// Whether a type is a pointer.
pub fn is_pointer(types: &TypeTable, t: TypeId) -> bool
    ensures { IsTrue result ↔ spec.IsPointer (spec.type_of types.now t) }
{
    is_pointer_type(type_at(types, t))
}

/// Whether a type is an integer or a pointer.
pub fn is_scalar(types: &TypeTable, t: TypeId) -> bool
    ensures { IsTrue result ↔ spec.IsScalar (spec.type_of types.now t) }
{
    match type_at(types, t) {
        Some(IrType::Int { .. }) | Some(IrType::Ptr) => true,
        _ => false,
    }
}

/// Whether a type is void.
pub fn is_void(types: &TypeTable, t: TypeId) -> bool
    ensures { IsTrue result ↔ spec.IsVoid (spec.type_of types.now t) }
{
    match type_at(types, t) {
        Some(IrType::Void) => true,
        _ => false,
    }
}

/// Whether a function may return a type: a scalar, or void.
pub fn may_return(types: &TypeTable, t: TypeId) -> bool
    ensures { IsTrue result ↔ spec.MayReturn (spec.type_of types.now t) }
{
    match type_at(types, t) {
        Some(IrType::Int { .. }) | Some(IrType::Ptr) | Some(IrType::Void) => true,
        _ => false,
    }
}

fn is_narrower_type(a: Option<&IrType>, b: Option<&IrType>) -> bool
    ensures { IsTrue result ↔ spec.IsNarrower (option_copied a.entry) (option_copied b.entry) }
{
    match (a, b) {
        (Some(IrType::Int { width }), Some(IrType::Int { width: other })) => *width < *other,
        _ => false,
    }
}

/// Whether both types are integers, and the second has more bits.
pub fn is_narrower(types: &TypeTable, t: TypeId, u: TypeId) -> bool
    ensures { IsTrue result ↔ spec.IsNarrower (spec.type_of types.now t) (spec.type_of types.now u) }
{
    is_narrower_type(type_at(types, t), type_at(types, u))
}

/// Whether a type has values: it is neither void nor opaque.
pub fn has_values(types: &TypeTable, t: TypeId) -> bool
    ensures { IsTrue result ↔ spec.HasValues (spec.type_of types.now t) }
{
    match type_at(types, t) {
        None | Some(IrType::Void) | Some(IrType::Opaque) => false,
        _ => true,
    }
}

/// Whether a type is `{ ptr, i32 }`, the type of landing pads, under whatever name.
pub fn is_pair(types: &TypeTable, t: TypeId) -> bool
    ensures { IsTrue result ↔ spec.IsPair types.now (spec.type_of types.now t) }
{
    match type_at(types, t) {
        Some(IrType::Struct { fields, packed }) => {
            let fields = fields.as_slice();
            fields.len() == 2
                && !*packed
                && is_pointer_type(field_at(types, fields, 0))
                && is_integer_type(field_at(types, fields, 1), 32)
        }
        _ => false,
    }
}

/// Whether two types have one canonical number: then they are equal by structure.
pub fn are_one(numbers: &[u32], t: TypeId, u: TypeId) -> bool
    ensures { IsTrue result ↔ spec.AreOne numbers.now t u }
{
    numbers.get(t.0 as usize).copied() == numbers.get(u.0 as usize).copied()
}
