//! What a type says in words, so that types can be looked up by it.
ghost use Rattle.std.specs.Prelude.{◌≡◌, ◌++◌, ℕ, IfOk, OnOk, map};
ghost use Rattle.ir_type_equality.specs.Content as spec;

use attr_ids::{NoMemory, TypeId};
use ir_types::IrType;
use std::alloc::Global;

/// The words of a type of these fields, behind its kind.
fn push_numbers(words: &mut Vec<u64>, numbers: &[u32], fields: &[TypeId]) -> Result<(), NoMemory>
    ensures { OnOk result (words.new.items ≡ words.old.items ++ map (spec.part_number numbers.now) fields.now) }
{
    for field in fields {
        words.push(part_number(numbers, *field))?;
    }
    Ok(())
}

/// One more than the number of a part, or 0 where no type has it.
fn part_number(numbers: &[u32], t: TypeId) -> u64
    ensures { result ≡ spec.part_number numbers.now t }
{
    match numbers.get(t.0 as usize) {
        Some(number) => *number as u64 + 1,
        None => 0,
    }
}

/// The words of a struct.
fn struct_content(
    alloc: Global,
    numbers: &[u32],
    fields: &[TypeId],
    packed: bool,
) -> Result<Vec<u64>, NoMemory>
    ensures { IfOk result (λ words. (t : ℕ) → words.items ≡ spec.content numbers.now t (IrType.Struct fields.now packed)) }
{
    let mut words = Vec::new(alloc);
    words.push(5)?;
    words.push(if packed { 1 } else { 0 })?;
    push_numbers(&mut words, numbers, fields)?;
    Ok(words)
}

/// The words of type number `t`.
pub(crate) fn content(
    alloc: Global,
    numbers: &[u32],
    t: u32,
    ty: &IrType,
) -> Result<Vec<u64>, NoMemory>
    ensures { IfOk result (λ words. words.items ≡ spec.content numbers.now t ty.now) }
{
    match ty {
        IrType::Void => Ok(Vec::from_slice(alloc, &[0])?),
        IrType::Ptr => Ok(Vec::from_slice(alloc, &[1])?),
        IrType::Opaque => Ok(Vec::from_slice(alloc, &[2, t as u64])?),
        IrType::Int { width } => Ok(Vec::from_slice(alloc, &[3, *width as u64])?),
        IrType::Array { count, elem } => Ok(Vec::from_slice(
            alloc,
            &[4, *count, part_number(numbers, *elem)],
        )?),
        IrType::Struct { fields, packed } => struct_content(
            alloc,
            numbers,
            fields.as_slice(),
            *packed,
        ),
    }
}
