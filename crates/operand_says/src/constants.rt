//! What is known of constants: of `null`, `undef` and `poison`, of globals and of functions.
ghost use Rattle.std.specs.Prelude.{◌≡◌, ◌%◌, ◌==◌, Option};
ghost use Rattle.facts.specs.Kinds.{ValueFact};
ghost use Rattle.facts.specs.Displacements as displacements;
ghost use Rattle.facts.specs.Known as spec;
ghost use Rattle.operand_says.specs.Kinds.{kind_of};
ghost use Rattle.operand_says.specs.Asked.{table_has};

use crate::kinds::{Class, Kind};
use attr_ids::TypeId;
use ir_module::{Func, GlobalVar, Linkage, Module, Symbol};

/// The bytes of a type, 0 without a size.
pub fn size_of(m: &Module, t: TypeId) -> u64
    ensures { result ≡ displacements.size_of m.now t.0 }
{
    if t.0 as usize >= m.types.len() {
        return 0;
    }
    match m.types.size_of(t) {
        Ok(bytes) => bytes,
        Err(_) => 0,
    }
}

/// The alignment of a type, 1 without a size.
pub fn align_of(m: &Module, t: TypeId) -> u64
    ensures { result ≡ displacements.align_of m.now t.0 }
{
    if t.0 as usize >= m.types.len() {
        return 1;
    }
    match m.types.align_of(t) {
        Ok(bytes) => bytes,
        Err(_) => 1,
    }
}

/// Whether `bytes` divides a number; 0 divides 0 alone.
pub fn divides(bytes: u64, number: u64) -> bool
    ensures { result ≡ (number % bytes == 0) }
{
    if bytes == 0 {
        return number == 0;
    }
    number % bytes == 0
}

/// What is known of `null`.
pub(crate) fn null_has(kind: Kind) -> bool
    ensures { (o : Option ValueFact) → kind_of o ≡ kind → result ≡ table_has spec.null_has o }
{
    matches!(kind, Kind::Aligned(_) | Kind::NotTo(_))
}

/// What is known of `undef`.
pub(crate) fn undef_has(kind: Kind) -> bool
    ensures { (o : Option ValueFact) → kind_of o ≡ kind → result ≡ table_has spec.undef_has o }
{
    matches!(kind, Kind::NotTo(_))
}

/// What is known of `poison`.
pub(crate) fn poison_has(kind: Kind) -> bool
    ensures { (o : Option ValueFact) → kind_of o ≡ kind → result ≡ table_has spec.poison_has o }
{
    matches!(kind, Kind::NonNull | Kind::Aligned(_) | Kind::NotTo(_))
}

/// A name with this linkage may be null.
fn is_weak(linkage: Linkage) -> bool
    ensures { result ≡ spec.is_weak_extern linkage }
{
    matches!(linkage, Linkage::ExternWeak)
}

/// The alignment of a global: the written one, else that of its type.
fn global_align(m: &Module, g: &GlobalVar) -> u64
    ensures { result ≡ spec.global_align m.now g.now }
{
    match g.align {
        Some(bytes) => bytes,
        None => align_of(m, g.ty),
    }
}

/// What is known of the address of a global.
fn global_has(m: &Module, g: &GlobalVar, kind: Kind) -> bool
    ensures { (o : Option ValueFact) → kind_of o ≡ kind → result ≡ table_has (λ k. spec.global_has m.now k g.now) o }
{
    match kind {
        Kind::NonNull => !is_weak(g.linkage),
        Kind::Aligned(bytes) => divides(bytes, global_align(m, g)),
        Kind::Bytes(count) => !is_weak(g.linkage) && count <= size_of(m, g.ty),
        Kind::NotTo(class) => class != Class::Global,
        Kind::Other => false,
    }
}

/// What is known of the address of a function.
fn func_has(f: &Func, kind: Kind) -> bool
    ensures { (o : Option ValueFact) → kind_of o ≡ kind → result ≡ table_has (λ k. spec.func_has k f.now) o }
{
    match kind {
        Kind::NonNull => !is_weak(f.linkage),
        Kind::NotTo(class) => class != Class::Global,
        _ => false,
    }
}

/// What is known of the address that a name stands for.
pub(crate) fn symbol_has(m: &Module, base: Symbol, kind: Kind) -> bool
    ensures { (o : Option ValueFact) → kind_of o ≡ kind → result ≡ table_has (spec.symbol_has m.now base) o }
{
    match base {
        Symbol::Global(g) => match m.globals.get(g.0 as usize) {
            Some(global) => global_has(m, global, kind),
            None => false,
        },
        Symbol::Func(f) => match m.funcs.get(f.0 as usize) {
            Some(func) => func_has(func, kind),
            None => false,
        },
    }
}
