//! To which blocks a pointer is not: of a constant by a table, of a value by its word.
ghost use Rattle.std.specs.Prelude.{◌≡◌, ◌&&◌, false, IfOk};
ghost use Rattle.facts.specs.Kinds as kinds;
ghost use Rattle.facts.specs.Facts.{value};
ghost use Rattle.facts.specs.Known.{symbol_bit, written_has};
ghost use Rattle.facts.specs.Memory.{IsNotTo, ToSpeaks};
ghost use Rattle.positions.specs.Numbering.{IsListed};
ghost use Rattle.rule_says.specs.Reading.{IsNumbering};
ghost use Rattle.rule_says.specs.Saying.{Says};
ghost use Rattle.aa_memory.specs.Accesses.{class_of};
ghost use Rattle.aa_memory.specs.Asked as spec;

use crate::accesses::{Class, class_bit};
use attr_ids::{NoMemory, ValueId};
use facts::Pos;
use ir_module::{Module, Operand, Symbol, Written};
use lattice_words::value::NOT_UNKNOWN;
use positions::{Positions, is_pointer};
use rule_says::{bits, both, unless};
use rule_terms::NewTerm;
use std::alloc::Global;

/// The bits `to`, if it is so.
pub(crate) fn bits_if(test: bool, to: u64) -> u64
    ensures { result ≡ spec.bits_if test to }
{
    if test { to } else { 0 }
}

/// Whether there is what the name stands for.
fn is_there(m: &Module, symbol: Symbol) -> bool
    ensures { result ≡ spec.is_there m.now symbol }
{
    match symbol {
        Symbol::Global(g) => m.globals.get(g.0 as usize).is_some(),
        Symbol::Func(f) => m.funcs.get(f.0 as usize).is_some(),
    }
}

fn is_argument(class: Class) -> bool
    ensures { result ≡ spec.is_argument class }
{
    match class {
        Class::Argument => true,
        Class::Global => false,
    }
}

/// Whether the address of a global or a function is to no block of the class.
fn is_symbol_off(m: &Module, symbol: Symbol, class: Class) -> bool
    ensures { result ≡ (spec.is_there m.now symbol && spec.is_argument class) }
{
    is_there(m, symbol) && is_argument(class)
}

/// Whether a constant is to no block of the class.
fn is_const_off(m: &Module, w: &Written, class: Class) -> bool
    ensures { result ≡ (written_has m.now (λ x. false) w.now (kinds.class_bit (class_of class)) &&
        written_has m.now (λ x. false) w.now (kinds.class_bit kinds.Unknown)) }
{
    match w.val {
        Operand::Null | Operand::Undef | Operand::Poison => true,
        Operand::Zero => is_pointer(m, w.ty),
        Operand::Global(g) => is_symbol_off(m, Symbol::Global(g), class),
        Operand::Func(f) => is_symbol_off(m, Symbol::Func(f), class),
        Operand::Offset { base, .. } => is_symbol_off(m, base, class),
        _ => false,
    }
}

/// Whether the value is to no block of the class.
fn value_off(alloc: Global, ps: &Positions, v: ValueId, class: Class) -> Result<NewTerm, NoMemory>
    requires { IsListed ps.now (value v.0) }
    ensures { IfOk result (λ t. spec.IsValueOff ps.now t v.0 class) }
{
    let first = unless(alloc, ps, Pos::Value(v), class_bit(class), bits(0))?;
    let second = unless(alloc, ps, Pos::Value(v), NOT_UNKNOWN, bits(0))?;
    both(alloc, first, second)
}

/// Whether a pointer is to no block of the class.
pub(crate) fn pointer_off(
    alloc: Global,
    m: &Module,
    ps: &Positions,
    w: &Written,
    class: Class,
    to: u64,
) -> Result<NewTerm, NoMemory>
    requires numbering { IsNumbering m.now ps.now }
    requires known { spec.IsKnown ps.now w.now }
    ensures { IfOk result (λ t. Says m.now ps.now to t (λ held bit. IsNotTo m.now held (class_of class) w.now) (ToSpeaks (class_of class) w.now)) }
{
    match w.val {
        Operand::Value(v) => value_off(alloc, ps, v, class),
        _ => Ok(bits(bits_if(is_const_off(m, w, class), to))),
    }
}
