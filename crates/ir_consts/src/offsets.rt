//! How far a constant getelementptr goes.
ghost use Rattle.std.specs.Prelude.{◌≡◌, ◌<◌, ◌≤◌, ◌*ℤ◌, ◌&&◌, ◌||◌, codes, length, pos, ℤ, Some};
ghost use Rattle.std.specs.Option.{option_copied};
ghost use Rattle.std.specs.Int.{w64, int_wrap};
ghost use Rattle.ir_ops.specs.Residue.{signed};
ghost use Rattle.ir_operands.specs.Types.{type_of};
ghost use Rattle.ir_consts.specs.Source.{reading};
ghost use Rattle.ir_consts.specs.Offsets as spec;

use crate::source::{Source, is_word, width_of};
use attr_ids::TypeId;
use ir_module::{Operand, Symbol, Written};
use ir_operands::{entered_by, literal_of, type_at};
use ir_tree::Gepflag;
use ir_types::{IrType, TypeTable};

/// The bytes of a type, 0 where it has no size.
fn size_of(types: &TypeTable, t: TypeId) -> u64
    ensures { result ≡ spec.size_of types.now t }
{
    if (t.0 as usize) < types.len() {
        types.size_of(t).unwrap_or(0)
    } else {
        0
    }
}

/// Where the field of this number begins, in a struct that has it.
fn field_of(types: &TypeTable, t: TypeId, i: u64) -> u64
    ensures { result ≡ spec.field_of types.now t (type_of types.now t) i }
{
    match type_at(types, t) {
        Some(IrType::Struct { fields, .. })
            if i < fields.as_slice().len() as u64 && i <= u32::MAX as u64 => {
            types.field_offset(t, i as u32).unwrap_or(0)
        }
        _ => 0,
    }
}

/// Bits read with a sign, modulo 2^64.
fn with_sign(width: u32, bits: u64) -> i64
    requires width { (1 ≤ width) × (width ≤ 64) }
    ensures { result ≡ int_wrap w64 (signed width bits) }
{
    let half: u64 = 1 << (width - 1);
    if bits < half {
        bits.cast_signed()
    } else {
        bits.wrapping_sub(half).wrapping_sub(half).cast_signed()
    }
}

/// A literal read with its sign, modulo 2^64.
fn index_of(types: &TypeTable, w: &Written) -> i64
    ensures { result ≡ int_wrap w64 (spec.index_of types.now w.now) }
{
    match literal_of(types, w) {
        Some(bits) => with_sign(width_of(types, w.ty).unwrap_or(64), bits),
        None => 0,
    }
}

/// The bytes of so many things of this type, modulo 2^64.
fn over(types: &TypeTable, t: TypeId, w: &Written) -> i64
    ensures { result ≡ int_wrap w64 (spec.over types.now t w.now) }
{
    index_of(types, w).wrapping_mul(size_of(types, t).cast_signed())
}

/// What an array has elements of.
fn element_of(ty: Option<&IrType>) -> Option<TypeId>
    ensures { result ≡ spec.element_of (option_copied ty.entry) }
{
    match ty {
        Some(IrType::Array { elem, .. }) => Some(*elem),
        _ => None,
    }
}

/// The bytes to what an index into a type leads to, modulo 2^64.
fn into(types: &TypeTable, t: TypeId, w: &Written) -> i64
    ensures { result ≡ int_wrap w64 (spec.into types.now t (spec.element_of (type_of types.now t)) w.now) }
{
    match element_of(type_at(types, t)) {
        Some(elem) => over(types, elem, w),
        None => field_of(types, t, literal_of(types, w).unwrap_or(0)).cast_signed(),
    }
}

/// The bytes to what indices into a type lead to, modulo 2^64.
fn all_into(types: &TypeTable, t: TypeId, indices: &[Written]) -> i64
    ensures { result ≡ int_wrap w64 (spec.total (spec.offsets_into types.now (Some t) indices.now)) }
{
    let mut bytes: i64 = 0;
    let mut at = Some(t);
    for i in 0..indices.len() {
        let Some(here) = at else {
            return bytes;
        };
        bytes = bytes.wrapping_add(into(types, here, &indices[i]));
        at = entered_by(types, here, &indices[i..i + 1]);
    }
    bytes
}

/// The bytes of all indices of a getelementptr, modulo 2^64.
fn bytes_of(types: &TypeTable, elem: TypeId, indices: &[Written]) -> i64
    ensures { result ≡ int_wrap w64 (spec.total (spec.offsets types.now elem indices.now)) }
{
    if indices.is_empty() {
        return 0;
    }
    over(types, elem, &indices[0]).wrapping_add(all_into(types, elem, &indices[1..]))
}

fn is_flag(src: &Source<'_>, word: &[u8], flag: Gepflag) -> bool
    ensures { result ≡ spec.is_flag (reading src.now) word.now flag }
{
    match flag {
        Gepflag::Word(leaf) => is_word(src, leaf, word),
        _ => false,
    }
}

/// Whether one of the flags is this word.
fn has_flag(src: &Source<'_>, word: &[u8], flags: &[Gepflag]) -> bool
    ensures { result ≡ spec.has_flag (reading src.now) word.now flags.now }
{
    flags.iter().any(|flag| is_flag(src, word, *flag))
}

fn may_wrap(src: &Source<'_>, flags: &[Gepflag]) -> bool
    ensures { result ≡ spec.may_wrap (reading src.now) flags.now }
{
    has_flag(src, b"nusw", flags) || has_flag(src, b"nuw", flags)
}

fn both(a: bool, b: bool) -> bool
    ensures { result ≡ (a && b) }
{
    a && b
}

fn either(a: bool, b: bool) -> bool
    ensures { result ≡ (a || b) }
{
    a || b
}

/// So many bytes from a base, which may be such an address itself.
fn chained(base: Operand, inbounds: bool, wrap: bool, bytes: i64) -> Operand
    ensures { (z : ℤ) → bytes ≡ int_wrap w64 z → result ≡ spec.chained base inbounds wrap z }
{
    match base {
        Operand::Global(g) => Operand::Offset {
            base: Symbol::Global(g),
            bytes,
            inbounds,
            wrap,
        },
        Operand::Func(f) => Operand::Offset {
            base: Symbol::Func(f),
            bytes,
            inbounds,
            wrap,
        },
        Operand::Offset {
            base,
            bytes: before,
            inbounds: all,
            wrap: one,
        } => Operand::Offset {
            base,
            bytes: before.wrapping_add(bytes),
            inbounds: both(all, inbounds),
            wrap: either(one, wrap),
        },
        _ => Operand::Poison,
    }
}

/// The address that a getelementptr comes to which breaks no rule.
pub(crate) fn address(
    src: &Source<'_>,
    flags: &[Gepflag],
    elem: TypeId,
    base: Operand,
    indices: &[Written],
) -> Operand
    ensures { result ≡ spec.chained base (spec.is_inbounds (reading src.now) flags.now) (spec.may_wrap (reading src.now) flags.now)
        (spec.total (spec.offsets (reading src.now).types elem indices.now)) }
{
    let inbounds = has_flag(src, b"inbounds", flags);
    let wrap = may_wrap(src, flags);
    chained(base, inbounds, wrap, bytes_of(src.types, elem, indices))
}
