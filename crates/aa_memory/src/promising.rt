//! Which accesses the `memory(..)` of outer calls excludes.
ghost use Rattle.std.specs.Prelude.{◌≡◌, false};
ghost use Rattle.std.specs.List.{list_any};
ghost use Rattle.std.specs.Option.{option_map_or};
ghost use Rattle.ir_module.specs.declared.attrs.CallAttrs.{CallAttrs};
ghost use Rattle.ir_module.specs.Calls.{own_attrs};
ghost use Rattle.facts.specs.Promises as spec;
ghost use Rattle.aa_memory.specs.Accesses.{access_of, location_of};

use crate::accesses::{Access, Location};
use ir_module::{FuncAttrs, MemoryAttr, Module, Op, direct_callee, is_lifetime};

/// Whether these two bits, of reads and of writes, do not permit the access.
fn forbids(a: Access, bits: u8) -> bool
    ensures { result ≡ spec.forbids (access_of a) bits }
{
    match a {
        Access::Read => bits & 1 == 0,
        Access::Write => (bits >> 1) & 1 == 0,
    }
}

/// Whether a `memory(..)` excludes the access. What an argument points to may be of the default location too.
fn forbids_at(a: Access, location: Location, memory: &MemoryAttr) -> bool
    ensures { result ≡ spec.forbids_at (access_of a) (location_of location) memory.now }
{
    match location {
        Location::Default => forbids(a, memory.other),
        Location::Argmem => forbids(a, memory.argmem) && forbids(a, memory.other),
        Location::Inaccessible => forbids(a, memory.inaccessible),
    }
}

/// Whether a `memory(..)` stands among these attributes that excludes the access.
fn stands(a: Access, location: Location, attrs: &FuncAttrs) -> bool
    ensures { (c : CallAttrs) → c.func ≡ attrs.now →
        result ≡ option_map_or (spec.forbids_at (access_of a) (location_of location)) c.func.memory false }
{
    match &attrs.memory {
        Some(memory) => forbids_at(a, location, memory),
        None => false,
    }
}

/// Whether one is written at the call itself.
fn own_promises(a: Access, location: Location, op: &Op) -> bool
    ensures { result ≡ list_any (λ (c : CallAttrs). option_map_or (spec.forbids_at (access_of a) (location_of location)) c.func.memory false)
        (own_attrs op.now) }
{
    match op.call() {
        Some(call) => stands(a, location, &call.attrs.func),
        None => false,
    }
}

/// Whether a call promises that it makes no such access: at the declaration of its callee, or by its own attributes. A
/// lifetime marker touches no memory.
pub fn promises_no_access(m: &Module, a: Access, location: Location, op: &Op) -> bool
    ensures { result ≡ spec.promises_no_access m.now (access_of a) (location_of location) op.now }
{
    let Some(f) = direct_callee(m, op) else {
        return false;
    };
    let Some(func) = m.funcs.get(f.0 as usize) else {
        return false;
    };
    if func.block_count != 0 {
        return false;
    }
    if is_lifetime(func) {
        return true;
    }
    stands(a, location, &func.attrs) || own_promises(a, location, op)
}
