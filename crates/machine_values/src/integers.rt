//! What operations make of data, integers or not.
ghost use Rattle.std.specs.Prelude.{◌≡◌, ◌%◌, ◌^◌, drop};
ghost use Rattle.ir_ops.specs.Residue.{IsWidth};
ghost use Rattle.ir_ops.specs.CastOp.{CanCast};
ghost use Rattle.ir_machine.specs.Reading as reading;
ghost use Rattle.ir_machine.specs.Compute as spec;
ghost use Rattle.ir_machine.specs.Edges as edges;
ghost use Rattle.ir_machine.specs.Access as access;
ghost use Rattle.machine_values.specs.Outcomes.{outcome};
ghost use Rattle.machine_values.specs.Data.{FitsWidth};

use crate::outcome::Stop;
use crate::picks::Picks;
use crate::value::{is_poison, is_undef};
use ir_machine::Datum;
use ir_ops::{BinOp, CastOp, OpOut, Pred, all_ones, apply_at, cast_at, compare_at};

/// The lowest bits of a number.
pub(crate) fn low_bits(width: u32, number: u64) -> u64
    requires { IsWidth width }
    ensures { result ≡ number % 2 ^ width }
{
    number & all_ones(width)
}

/// Any integer of a width, by pick.
pub fn any_int(width: u32, picks: &mut Picks) -> Datum
    requires { IsWidth width }
    ensures value { result ≡ reading.any_int width picks.old }
    ensures rest { picks.new ≡ drop 1 picks.old }
{
    let bits = low_bits(width, picks.next());
    Datum::Int { bits }
}

/// A truth value as an integer of one bit.
pub fn truth(b: bool) -> Datum
    ensures { result ≡ spec.truth b }
{
    Datum::Int { bits: b as u64 }
}

/// The result of an instruction, which a flag may make poison, by pick.
pub fn flagged_by(flagged: bool, picks: &mut Picks, d: Datum) -> Datum
    ensures { result ≡ spec.flagged_by flagged picks.old d }
{
    if flagged && picks.next() != 0 {
        Datum::Poison
    } else {
        d
    }
}

/// Whether an operation has a divisor.
fn is_division(op: BinOp) -> bool
    ensures { result ≡ spec.is_division op }
{
    matches!(op, BinOp::UDiv | BinOp::URem | BinOp::SDiv | BinOp::SRem)
}

/// What an operation on integers answers, as a datum.
fn answered(out: OpOut) -> Result<Datum, Stop>
    ensures { outcome result ≡ spec.answered out }
{
    match out {
        OpOut::Value(bits) => Ok(Datum::Int { bits }),
        OpOut::Poison => Ok(Datum::Poison),
        OpOut::Undefined => Err(Stop::Undefined),
    }
}

/// A binary operation at a width.
pub fn binary(width: u32, op: BinOp, a: Datum, b: Datum) -> Result<Datum, Stop>
    requires width { IsWidth width }
    requires left { FitsWidth width a }
    requires right { FitsWidth width b }
    ensures { outcome result ≡ spec.binary width op a b }
{
    if is_division(op) && (is_poison(b) || is_undef(b)) {
        return Err(Stop::Undefined);
    }
    match (a, b) {
        (Datum::Poison, _) | (_, Datum::Poison) => Ok(Datum::Poison),
        (Datum::Undef, _) | (_, Datum::Undef) => Ok(Datum::Undef),
        (Datum::Int { bits: i }, Datum::Int { bits: j }) => answered(apply_at(width, op, i, j)),
        _ => Err(Stop::Over),
    }
}

/// A comparison of integers at a width.
pub fn compared(width: u32, pred: Pred, a: Datum, b: Datum) -> Result<Datum, Stop>
    requires width { IsWidth width }
    requires left { FitsWidth width a }
    requires right { FitsWidth width b }
    ensures { outcome result ≡ spec.compared width pred a b }
{
    match (a, b) {
        (Datum::Poison, _) | (_, Datum::Poison) => Ok(Datum::Poison),
        (Datum::Undef, _) | (_, Datum::Undef) => Ok(Datum::Undef),
        (Datum::Int { bits: i }, Datum::Int { bits: j }) => Ok(truth(compare_at(
            width, pred, i, j,
        ))),
        _ => Err(Stop::Over),
    }
}

/// A conversion between two widths.
pub fn converted_datum(from: u32, to: u32, op: CastOp, d: Datum) -> Result<Datum, Stop>
    requires from { IsWidth from }
    requires to { IsWidth to }
    requires operand { FitsWidth from d }
    requires direction { CanCast op from to }
    ensures { outcome result ≡ spec.converted_datum from to op d }
{
    match d {
        Datum::Int { bits } => Ok(Datum::Int {
            bits: cast_at(from, to, op, bits),
        }),
        Datum::Undef => Ok(Datum::Undef),
        Datum::Poison => Ok(Datum::Poison),
        Datum::Ptr { .. } | Datum::Null | Datum::Pair => Err(Stop::Over),
    }
}

/// The number by which a branch goes.
pub fn condition(d: Datum) -> Result<u64, Stop>
    ensures { outcome result ≡ edges.condition d }
{
    match d {
        Datum::Int { bits } => Ok(bits),
        Datum::Undef | Datum::Poison => Err(Stop::Undefined),
        Datum::Ptr { .. } | Datum::Null | Datum::Pair => Err(Stop::Over),
    }
}

/// How many an alloca makes.
pub fn count_of(d: Datum) -> Result<u64, Stop>
    ensures { outcome result ≡ access.count_of d }
{
    match d {
        Datum::Int { bits } => Ok(bits),
        Datum::Undef | Datum::Poison => Err(Stop::Undefined),
        Datum::Ptr { .. } | Datum::Null | Datum::Pair => Err(Stop::Over),
    }
}
