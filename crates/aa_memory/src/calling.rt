//! What decides of a call that it makes no access.
ghost use Rattle.std.specs.Prelude.{◌≡◌, ◌<◌, IfOk};
ghost use Rattle.facts.specs.Promises.{promises_fact};
ghost use Rattle.rule_says.specs.Reading.{IsNumbering};
ghost use Rattle.aa_memory.specs.Accesses as named;
ghost use Rattle.aa_memory.specs.Asked as spec;

use crate::accesses::{Access, Callee, Location};
use crate::pointers::bits_if;
use crate::promising::promises_no_access;
use attr_ids::NoMemory;
use facts::Pos;
use ir_module::{Module, Op};
use positions::Positions;
use rule_says::{bits, inner_callee, unless};
use rule_terms::NewTerm;
use std::alloc::Global;

/// What decides of the call that it makes no such access at the location.
pub(crate) fn callee(m: &Module, a: Access, location: Location, op: &Op) -> Callee
    ensures { named.IsCallee m.now (named.no_access a location) op.now result }
{
    Callee {
        body: inner_callee(m, op),
        promised: promises_no_access(m, a, location, op),
    }
}

/// The bits `to` where the call has the fact of this bit: an inner one by its callee's word, an outer one by what it promises.
pub fn of_callee(
    alloc: Global,
    ps: &Positions,
    callee: Callee,
    bit: u32,
    to: u64,
) -> Result<NewTerm, NoMemory>
    requires found { spec.IsFound ps.now callee }
    requires bit { bit < 64 }
    ensures { IfOk result (λ t. spec.IsOfCallee ps.now t bit to callee.promised callee.body) }
{
    match callee.body {
        Some(f) => unless(alloc, ps, Pos::Function(f), bit, bits(0)),
        None => Ok(bits(bits_if(callee.promised, to))),
    }
}
