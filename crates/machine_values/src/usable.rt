//! Which values are of a type, and which the outside can make of those that it has.
ghost use Rattle.std.specs.Prelude.{◌≡◌};
ghost use Rattle.std.specs.Option.{option_copied};
ghost use Rattle.std.specs.List.{list_any};
ghost use Rattle.ir_machine.specs.Memory.{Memory};
ghost use Rattle.ir_machine.specs.Outside as spec;
ghost use Rattle.machine_values.specs.Data.{IsWidthOf};

use crate::value::{are_same_marks, is_same_datum};
use ir_machine::{Datum, Value};
use ir_ops::all_ones;
use ir_types::IrType;

/// Whether a datum can be where there are so many blocks.
pub fn is_possible(count: u32, d: Datum) -> bool
    ensures { (mem : Memory) → mem.count ≡ count → result ≡ spec.is_possible mem d }
{
    match d {
        Datum::Ptr { block, .. } => block < count,
        _ => true,
    }
}

/// Whether two data are the same but for the offset of a pointer.
fn is_moved(d: Datum, e: Datum) -> bool
    ensures { result ≡ spec.is_moved d e }
{
    match (d, e) {
        (Datum::Ptr { block: a, .. }, Datum::Ptr { block: b, .. }) => a == b,
        _ => is_same_datum(d, e),
    }
}

/// Whether `x` is the value `y`, at any offset.
fn is_from(x: &Value, y: &Value) -> bool
    ensures { result ≡ spec.is_from x.now y.now }
{
    is_moved(y.datum, x.datum) && are_same_marks(y.origins.as_slice(), x.origins.as_slice())
}

/// Whether `x` is one of these values, at any offset.
pub fn is_from_one(x: &Value, values: &[Value]) -> bool
    ensures { result ≡ list_any (spec.is_from x.now) values.now }
{
    values.iter().any(|y| is_from(x, y))
}

/// Whether a datum is one of a type.
pub fn is_datum_of(ty: Option<&IrType>, d: Datum) -> bool
    requires { IsWidthOf (option_copied ty) }
    ensures { result ≡ spec.is_datum_of (option_copied ty.entry) d }
{
    match (ty, d) {
        (Some(IrType::Int { width }), Datum::Int { bits }) => bits <= all_ones(*width as u32),
        (Some(IrType::Int { .. } | IrType::Ptr), Datum::Undef | Datum::Poison) => true,
        (Some(IrType::Ptr), Datum::Ptr { .. } | Datum::Null) => true,
        (Some(IrType::Struct { .. }), Datum::Pair) => true,
        _ => false,
    }
}

/// Whether a value of a type may have origins, or has none.
pub fn may_have_origins(ty: Option<&IrType>, x: &Value) -> bool
    ensures { result ≡ spec.may_have_origins (option_copied ty.entry) x.now }
{
    match ty {
        Some(IrType::Ptr) => true,
        _ => are_same_marks(x.origins.as_slice(), &[]),
    }
}
