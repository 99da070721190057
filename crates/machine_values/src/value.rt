ghost use Rattle.std.specs.Prelude.{◌≡◌, IfOk};
ghost use Rattle.ir_machine.specs.Values as spec;

use attr_ids::{NoMemory, Sequence};
use ir_machine::{Datum, Mark, Value};
use std::alloc::Global;

/// Whether a datum is poison.
pub fn is_poison(d: Datum) -> bool
    ensures { result ≡ spec.is_poison d }
{
    matches!(d, Datum::Poison)
}

/// Whether a datum is undef.
pub fn is_undef(d: Datum) -> bool
    ensures { result ≡ spec.is_undef d }
{
    matches!(d, Datum::Undef)
}

/// Whether two data are equal.
pub fn is_same_datum(x: Datum, y: Datum) -> bool
    ensures { result ≡ spec.is_same_datum x y }
{
    match (x, y) {
        (Datum::Int { bits: a }, Datum::Int { bits: b }) => a == b,
        (
            Datum::Ptr {
                block: a,
                offset: at,
            },
            Datum::Ptr {
                block: b,
                offset: there,
            },
        ) => { a == b && at == there }
        (Datum::Null, Datum::Null)
        | (Datum::Undef, Datum::Undef)
        | (Datum::Poison, Datum::Poison)
        | (Datum::Pair, Datum::Pair) => true,
        _ => false,
    }
}

/// Whether two lists of marks are equal.
pub fn are_same_marks(xs: &[Mark], ys: &[Mark]) -> bool
    ensures { result ≡ spec.are_same_marks xs.now ys.now }
{
    if xs.len() != ys.len() {
        return false;
    }
    for (i, x) in xs.iter().enumerate() {
        let y = ys[i];
        if x.call != y.call || x.param != y.param {
            return false;
        }
    }
    true
}

/// Whether two values are equal, their origins too.
pub fn is_same_value(x: &Value, y: &Value) -> bool
    ensures { result ≡ spec.is_same_value x.now y.now }
{
    is_same_datum(x.datum, y.datum) && are_same_marks(x.origins.as_slice(), y.origins.as_slice())
}

/// The same value once more.
pub fn copied(alloc: Global, x: &Value) -> Result<Value, NoMemory>
    ensures { IfOk result (λ y. y ≡ x.now) }
{
    let origins = Sequence::from_slice(alloc, x.origins.as_slice())?;
    Ok(Value {
        datum: x.datum,
        origins,
    })
}

/// A value without origins. It takes no memory.
pub fn plain(alloc: Global, d: Datum) -> Value
    ensures { result ≡ spec.plain d }
{
    Value {
        datum: d,
        origins: Sequence::new(alloc),
    }
}

/// Another value with the origins of this one.
pub fn carried(x: Value, d: Datum) -> Value
    ensures { result ≡ spec.carried x d }
{
    Value {
        datum: d,
        origins: x.origins,
    }
}

/// The value with one more mark.
pub fn marked(mark: Mark, x: Value) -> Result<Value, NoMemory>
    ensures { IfOk result (λ y. y ≡ spec.marked mark x) }
{
    let Value { datum, mut origins } = x;
    origins.push(mark)?;
    Ok(Value { datum, origins })
}
