//! Values that are chosen: by a condition, and any value of a type.
ghost use Rattle.std.specs.Prelude.{◌≡◌, drop};
ghost use Rattle.std.specs.Option.{option_copied};
ghost use Rattle.ir_machine.specs.Memory.{Memory};
ghost use Rattle.ir_ops.specs.Residue.{IsWidth};
ghost use Rattle.ir_machine.specs.Reading as reading;
ghost use Rattle.ir_machine.specs.Compute as spec;
ghost use Rattle.machine_values.specs.Outcomes.{outcome, indexed};
ghost use Rattle.machine_values.specs.Data.{IsWidthOf};

use crate::integers::{any_int, low_bits};
use crate::outcome::Stop;
use crate::picks::Picks;
use crate::value::plain;
use ir_machine::{Datum, Value};
use ir_types::IrType;
use std::alloc::Global;

/// One of two values, by a condition.
pub fn selected(
    alloc: Global,
    c: Datum,
    a: Value,
    b: Value,
    picks: &mut Picks,
) -> Result<Value, Stop>
    ensures { outcome result ≡ spec.selected c a b picks.old }
{
    match c {
        Datum::Int { bits } => Ok(if bits == 0 { b } else { a }),
        Datum::Undef => Ok(if picks.next() == 0 { a } else { b }),
        Datum::Poison => Ok(plain(alloc, Datum::Poison)),
        Datum::Ptr { .. } | Datum::Null | Datum::Pair => Err(Stop::Over),
    }
}

/// Null, or a pointer to one of so many blocks, by two picks.
fn any_pointer(alloc: Global, count: u32, picks: &mut Picks) -> Result<Value, Stop>
    ensures { outcome result ≡ spec.any_pointer count (reading.pick picks.old) (drop 1 picks.old) }
{
    let n = picks.next();
    if n == 0 {
        return Ok(plain(alloc, Datum::Null));
    }
    if n - 1 >= count as u64 {
        return Err(Stop::Over);
    }
    let offset = picks.next();
    let block = (n - 1) as u32;
    Ok(plain(alloc, Datum::Ptr { block, offset }))
}

/// Any value of a type, by pick, where there are so many blocks.
fn any_value(
    alloc: Global,
    count: u32,
    ty: Option<&IrType>,
    picks: &mut Picks,
) -> Result<Value, Stop>
    requires { IsWidthOf (option_copied ty) }
    ensures { (mem : Memory) → mem.count ≡ count → outcome result ≡ spec.any_value mem (option_copied ty.entry) picks.old }
{
    match ty {
        Some(IrType::Int { width }) => {
            let d = any_int(*width as u32, picks);
            Ok(plain(alloc, d))
        }
        Some(IrType::Ptr) => any_pointer(alloc, count, picks),
        _ => Err(Stop::Over),
    }
}

/// The value, or for undef and poison any value of the type, by pick, where there are so many blocks.
pub fn frozen(
    alloc: Global,
    count: u32,
    ty: Option<&IrType>,
    x: Value,
    picks: &mut Picks,
) -> Result<Value, Stop>
    requires { IsWidthOf (option_copied ty) }
    ensures { (mem : Memory) → mem.count ≡ count → outcome result ≡ spec.frozen mem (option_copied ty.entry) x picks.old }
{
    match x.datum {
        Datum::Undef | Datum::Poison => any_value(alloc, count, ty, picks),
        _ => Ok(x),
    }
}

/// An index of a getelementptr as it is used, and whether it is poison.
#[derive(Clone, Copy, PartialEq, Eq)]
pub struct Index {
    pub bits: u64,
    pub poison: bool,
}

/// An index; for undef it is any integer of its width, by pick.
pub fn index_of(width: u32, d: Datum, picks: &mut Picks) -> Result<Index, Stop>
    requires { IsWidth width }
    ensures { indexed picks.new result ≡ spec.index_of width d picks.old }
{
    match d {
        Datum::Int { bits } => Ok(Index {
            bits,
            poison: false,
        }),
        Datum::Undef => {
            let bits = low_bits(width, picks.next());
            Ok(Index {
                bits,
                poison: false,
            })
        }
        Datum::Poison => Ok(Index {
            bits: 0,
            poison: true,
        }),
        Datum::Ptr { .. } | Datum::Null | Datum::Pair => Err(Stop::Over),
    }
}
