//! Where a getelementptr leads.
ghost use Rattle.std.specs.Prelude.{◌≡◌, Ok};
ghost use Rattle.ir_machine.specs.Memory.{Memory};
ghost use Rattle.ir_machine.specs.Reading as spec;
ghost use Rattle.machine_values.specs.Outcomes.{picked};
ghost use Rattle.machine_values.specs.Data.{displacement, HasSize};

use crate::outcome::Stop;
use crate::picks::Picks;
use crate::value::carried;
use ir_machine::{Datum, Value};

/// How far a getelementptr leads: the bytes modulo 2^64, whether each index is a literal of at least 0, and its flags.
#[derive(Clone, Copy, PartialEq, Eq)]
pub struct Way {
    pub bytes: u64,
    pub forward: bool,
    pub inbounds: bool,
    pub wrap: bool,
}

/// The result of a getelementptr that leads to `d`, within its block or not.
fn led_to(way: Way, x: Value, d: Datum, within: bool, picks: &mut Picks) -> Value
    ensures { picked picks.new (Ok result) ≡ spec.led_to (displacement way) x d within picks.old }
{
    if way.inbounds && !within {
        return carried(x, Datum::Poison);
    }
    if way.wrap && !(way.forward && within) && picks.next() != 0 {
        return carried(x, Datum::Poison);
    }
    carried(x, d)
}

/// Where a getelementptr leads from a base, whose block, if it is a pointer to one, has this size.
pub fn displaced(size: u64, way: Way, x: Value, picks: &mut Picks) -> Result<Value, Stop>
    ensures { (mem : Memory) → HasSize mem x.datum size → picked picks.new result ≡ spec.displaced mem (displacement way) x picks.old }
{
    match x.datum {
        Datum::Ptr { block, offset } => {
            let there = offset.wrapping_add(way.bytes);
            Ok(led_to(
                way,
                x,
                Datum::Ptr {
                    block,
                    offset: there,
                },
                there <= size,
                picks,
            ))
        }
        Datum::Null => {
            let d = if way.bytes == 0 {
                Datum::Null
            } else {
                Datum::Poison
            };
            Ok(carried(x, d))
        }
        Datum::Undef | Datum::Poison => Ok(x),
        Datum::Int { .. } | Datum::Pair => Err(Stop::Over),
    }
}
