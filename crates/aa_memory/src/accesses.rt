//! Accesses to memory, and the bits that speak of them.
ghost use Rattle.std.specs.Prelude.{◌≡◌, ◌<◌, Some, None, IfSome, IfNone, option_copied};
ghost use Rattle.facts.specs.Kinds as kinds;
ghost use Rattle.facts.specs.Memory as memory;
ghost use Rattle.aa_memory.specs.Accesses as spec;

use attr_ids::FuncId;
use ir_module::{Op, Written};
use lattice_words::{function, value};

/// A kind of access to memory: a load is a read, a store a write.
#[derive(Clone, Copy)]
pub enum Access {
    Read,
    Write,
}

/// A location of `memory(..)`; the default is what is not named there.
#[derive(Clone, Copy)]
pub enum Location {
    Default,
    Argmem,
    Inaccessible,
}

/// The blocks of a location that the module reaches: those that pointer arguments point to, or those of globals.
#[derive(Clone, Copy)]
pub(crate) enum Class {
    Argument,
    Global,
}

/// What decides of a call that it has a fact: the body that it runs, or else what it promises.
#[derive(Clone, Copy)]
pub struct Callee {
    pub body: Option<FuncId>,
    pub promised: bool,
}

/// The bit that no such access is made at the location.
pub(crate) fn access_bit(a: Access, location: Location) -> u32
    ensures bit { result ≡ kinds.access_bit (spec.access_of a) (spec.location_of location) }
    ensures small { result < 9 }
{
    match a {
        Access::Read => match location {
            Location::Default => function::NO_READ_OF_DEFAULT,
            Location::Argmem => function::NO_READ_OF_ARGMEM,
            Location::Inaccessible => function::NO_READ_OF_INACCESSIBLEMEM,
        },
        Access::Write => match location {
            Location::Default => function::NO_WRITE_OF_DEFAULT,
            Location::Argmem => function::NO_WRITE_OF_ARGMEM,
            Location::Inaccessible => function::NO_WRITE_OF_INACCESSIBLEMEM,
        },
    }
}

/// The bit that no such access is made to blocks of the class.
pub(crate) fn off_bit(a: Access, class: Class) -> u32
    ensures bit { result ≡ kinds.function_bit (spec.off a class) }
    ensures small { result < 9 }
{
    match class {
        Class::Argument => access_bit(a, Location::Argmem),
        Class::Global => access_bit(a, Location::Default),
    }
}

/// The bit of a pointer that is to no block of the class by itself.
pub(crate) fn class_bit(class: Class) -> u32
    ensures bit { result ≡ kinds.class_bit (spec.class_of class) }
    ensures small { result < 64 }
{
    match class {
        Class::Argument => value::NOT_ARGUMENT,
        Class::Global => value::NOT_GLOBAL,
    }
}

/// The address of an access of this kind.
pub(crate) fn address(op: &Op, a: Access) -> Option<&Written>
    ensures { option_copied result ≡ memory.address (spec.access_of a) op.now }
{
    match a {
        Access::Read => match op {
            Op::Load { ptr, .. } => Some(ptr),
            _ => None,
        },
        Access::Write => match op {
            Op::Store { ptr, .. } => Some(ptr),
            _ => None,
        },
    }
}

/// Whether the instruction is a volatile load or store.
pub(crate) fn is_volatile(op: &Op) -> bool
    ensures { result ≡ memory.is_volatile op.now }
{
    match op {
        Op::Load { volatile, .. } | Op::Store { volatile, .. } => *volatile,
        _ => false,
    }
}
