//! The extent of a type from the extents of its parts.
ghost use Rattle.std.specs.Prelude.{◌≡◌, ℕ, ◌<◌, ◌≤◌, Option, Some, List, IfSome, IsNone, length, take, min, slice_index};
ghost use Rattle.std.specs.List.{fold};
ghost use Rattle.ir_types.specs.Layout.{Layout, unsized, scalar, array_of, int_size, every, laid_out, start_after, end_after};
ghost use Rattle.ir_types.specs.IrType.{numbers};
ghost use Rattle.ir_types.specs.Placing.{HasPlaced};
ghost use Rattle.ir_types.specs.Standing.{Agrees, IsBlocked, Shows, ceiling, laid};

use crate::ir_type::IrType;
use crate::placing::{MAX_SIZE, Placing};
use crate::standing::{Extent, Standing};
use attr_ids::TypeId;

/// How deep parts may lie in parts.
pub const MAX_NESTING: u32 = 64;

/// The extent of a type of the table that is laid out.
pub fn extent_at(standings: &[Standing], t: usize) -> Option<Extent>
    ensures { result ≡ laid standings.now t }
{
    match standings.get(t) {
        Some(Standing::Laid(extent)) => Some(*extent),
        _ => None,
    }
}

/// The extent of a type of the table that is laid out and may be a part of another.
pub fn part_extent(standings: &[Standing], t: usize) -> Option<Extent>
    ensures some { IfSome result (λ e. (laid standings.now t ≡ Some e) × (e.nesting < 64)) }
    ensures none { IsNone result → (e : Extent) → laid standings.now t ≡ Some e → 64 ≤ e.nesting }
{
    let extent = extent_at(standings, t)?;
    if extent.nesting < MAX_NESTING {
        Some(extent)
    } else {
        None
    }
}

/// The extent of a type without a size.
fn unsized_extent() -> Extent
    ensures { Shows unsized result }
{
    Extent {
        size: 0,
        align: 1,
        nesting: 0,
        is_sized: false,
    }
}

/// The extent of an integer or a pointer that takes this many bytes.
fn scalar_extent(size: u64) -> Extent
    requires some { 1 ≤ size }
    requires few { size ≤ 8 }
    ensures { Shows (scalar size) result }
{
    Extent {
        size,
        align: size,
        nesting: 0,
        is_sized: true,
    }
}

/// The bytes of an integer with this many bits.
fn int_bytes(width: u8) -> u64
    ensures value { result ≡ int_size width }
    ensures some { 1 ≤ result }
    ensures few { result ≤ 8 }
{
    match width {
        0..=8 => 1,
        9..=16 => 2,
        17..=32 => 4,
        _ => 8,
    }
}

fn array_extent(count: u64, elem: Extent) -> Extent
    requires { elem.nesting < 64 }
    ensures { (l : Layout) → Shows l elem → Shows (array_of count l) result }
{
    Extent {
        size: count.saturating_mul(elem.size).min(MAX_SIZE + 1),
        align: elem.align,
        nesting: elem.nesting + 1,
        is_sized: elem.is_sized,
    }
}

/// Places fields one after the other, if each is laid out and may be a part.
pub fn place(fields: &[TypeId], packed: bool, standings: &[Standing]) -> Option<Placing>
    ensures some { IfSome result (λ p. (of : ℕ → Option Layout) → Agrees of standings.now →
        (ls : List Layout) × (every of (numbers fields.now) ≡ Some ls) × HasPlaced packed ls p) }
    ensures none { IsNone result → IsBlocked standings.now (IrType.Struct fields.now packed) }
{
    let mut placing = Placing::new();
    for field in fields {
        let extent = part_extent(standings, field.0 as usize)?;
        placing = placing.with(packed, extent);
    }
    Some(placing)
}

/// The extent of a type, if each of its parts is laid out and may be a part.
pub fn type_extent(ty: &IrType, standings: &[Standing]) -> Option<Extent>
    ensures some { IfSome result (λ e. (of : ℕ → Option Layout) → Agrees of standings.now →
        (l : Layout) × (laid_out of ty.now ≡ Some l) × Shows l e) }
    ensures none { IsNone result → IsBlocked standings.now ty.now }
{
    match ty {
        IrType::Void | IrType::Opaque => Some(unsized_extent()),
        IrType::Int { width } => Some(scalar_extent(int_bytes(*width))),
        IrType::Ptr => Some(scalar_extent(8)),
        IrType::Array { count, elem } => {
            let elem = part_extent(standings, elem.0 as usize)?;
            Some(array_extent(*count, elem))
        }
        IrType::Struct { fields, packed } => {
            let placing = place(fields.as_slice(), *packed, standings)?;
            Some(placing.finish(*packed))
        }
    }
}

/// How many bytes lie before a field, if it and those before it are laid out and may be parts.
pub fn start_of(fields: &[TypeId], packed: bool, standings: &[Standing], i: usize) -> Option<u64>
    requires { i < length fields.now }
    ensures some { IfSome result (λ start. (of : ℕ → Option Layout) → Agrees of standings.now →
        (ls : List Layout) × (l : Layout) × (every of (numbers (take i fields.now)) ≡ Some ls)
        × (of (slice_index (numbers fields.now) i) ≡ Some l)
        × (start ≡ start_after packed (min (fold (end_after packed) 0 ls) ceiling) l)) }
    ensures none { IsNone result → IsBlocked standings.now (IrType.Struct fields.now packed) }
{
    let placing = place(&fields[..i], packed, standings)?;
    let field = part_extent(standings, fields[i].0 as usize)?;
    Some(placing.start(packed, field))
}
