//! What unnamed types are known by.
ghost use Rattle.std.specs.Prelude.{◌≡◌, ◌∷◌, [], IfOk};
ghost use Rattle.ir_type_names.specs.Numbers.{bit_key as the_bit_key};
ghost use Rattle.ir_type_names.specs.Reading.{reading, bits_of as the_bits_of, elements_of as the_elements_of};

use crate::source::{Source, bits_of, elements_of};
use attr_ids::NoMemory;
use ir_tree::Leaf;
use std::alloc::Global;

/// The constructor and what is written there, then the numbers of the parts.
pub(crate) type Key = Vec<u64>;

/// The first words of keys: an integer, an array, a struct, a packed struct.
pub(crate) const INT: u64 = 0;

pub(crate) const ARRAY: u64 = 1;

pub(crate) const STRUCT: u64 = 2;

pub(crate) const PACKED: u64 = 3;

/// What an integer is known by.
pub(crate) fn int_key(alloc: Global, source: &Source<'_>, at: Leaf) -> Result<Key, NoMemory>
    ensures { IfOk result (λ key. key.items ≡ 0 ∷ the_bits_of (reading source.now) at ∷ []) }
{
    Ok(Vec::from_slice(alloc, &[INT, bits_of(source, at)])?)
}

/// What i1 is known by.
pub(crate) fn bit_key(alloc: Global) -> Result<Key, NoMemory>
    ensures { IfOk result (λ key. key.items ≡ the_bit_key) }
{
    Ok(Vec::from_slice(alloc, &[INT, 1])?)
}

/// What an array is known by, whose elements have this type.
pub(crate) fn array_key(
    alloc: Global,
    source: &Source<'_>,
    count: Leaf,
    elem: u32,
) -> Result<Key, NoMemory>
    ensures { IfOk result (λ key. key.items ≡ 1 ∷ the_elements_of (reading source.now) count ∷ elem ∷ []) }
{
    let elements = elements_of(source, count);
    Ok(Vec::from_slice(alloc, &[ARRAY, elements, elem as u64])?)
}

/// The key of a struct without parts so far.
pub(crate) fn struct_key(alloc: Global, kind: u64) -> Result<Key, NoMemory>
    ensures { IfOk result (λ key. key.items ≡ kind ∷ []) }
{
    Ok(Vec::from_slice(alloc, &[kind])?)
}
