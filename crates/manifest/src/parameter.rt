//! What is added at a parameter of a body.
ghost use Rattle.std.specs.Prelude.{◌≡◌, ◌++◌, ◌&&◌, ◌<◌, length, map, slice_get, Some, true, ℕ, IfOk, OnOk};
ghost use Rattle.std.specs.List.{list_any};
ghost use Rattle.lattice_words.specs.Words.{has_bit};
ghost use Rattle.ir_module.specs.declared.module.Param.{Param};
ghost use Rattle.facts.specs.Bodies.{is_body};
ghost use Rattle.manifest.specs.Added.{inserted};
ghost use Rattle.manifest.specs.Parameter as spec;
ghost use Rattle.manifest.specs.Ready.{IsReady, set_of};
ghost use Rattle.manifest.specs.Spelling.{words_of};

use crate::attrs::{has_access, put_access, put_align, put_bytes, put_nocapture, put_nonnull};
use crate::held::{Held, has};
use crate::put::put;
use crate::spelling::{both, either, put_word};
use crate::symbols::is_same_type;
use attr_ids::{FuncId, Insertion, NoMemory, Place};
use facts::Pos;
use ir_module::{Func, Module, Param};
use lattice_words::function::NORETURN;
use lattice_words::value::SAME_AS_PARAMETERS;
use positions::is_pointer_param;
use std::alloc::Global;

/// Whether the parameter is there and has the function's return type.
fn has_return_type(m: &Module, func: &Func, at: u32) -> bool
    ensures { result ≡ spec.has_return_type m.now func.now (slice_get func.now.params at) }
{
    match func.params.get(at as usize) {
        Some(p) => is_same_type(m, p.ty, func.ret),
        None => false,
    }
}

/// The lowest parameter of the function's return type whose bit is set in the word of what it returns.
fn lowest(m: &Module, func: &Func, word: u64) -> Option<u32>
    ensures { result ≡ spec.lowest (λ i. spec.has_return_type m.now func.now (slice_get func.now.params i) && has_bit word i) SAME_AS_PARAMETERS }
{
    for i in 0..SAME_AS_PARAMETERS {
        if both(has_return_type(m, func, i), has(word, i)) {
            return Some(i);
        }
    }
    None
}

/// Whether a parameter is written `returned`.
fn has_returned(params: &[Param]) -> bool
    ensures { result ≡ list_any (λ (p : Param). p.attrs.returned) params.now }
{
    params.iter().any(|p| p.attrs.returned)
}

/// The parameter for which `returned` is deduced, if one is.
pub(crate) fn returned_param(held: &Held<'_>, f: FuncId, func: &Func) -> Option<u32>
    requires ready { IsReady held.now }
    requires body { is_body held.now.m.now f.0 ≡ true }
    ensures { result ≡ spec.returned_param held.now.m.now (set_of held.now) f.0 func.now }
{
    let is_noreturn = held.holds(Pos::Function(f), NORETURN);
    if either(is_noreturn, has_returned(func.params.as_slice())) {
        return None;
    }
    lowest(held.m, func, held.word(Pos::Return(f)))
}

/// The bits that are held of a parameter at the entries of its body: of one that is no pointer none is.
fn entry_word(held: &Held<'_>, f: FuncId, at: u8) -> u64
    requires ready { IsReady held.now }
    requires body { is_body held.now.m.now f.0 ≡ true }
    ensures { (bit : ℕ) → has_bit result bit ≡ spec.of_entry (set_of held.now) f.0 at bit }
{
    if is_pointer_param(held.m, f.0, at as u32) {
        return held.word(Pos::Entry(f, at));
    }
    0
}

/// The words that are added at a parameter, by the bits that are held of it at its entries and as a value.
fn words(
    alloc: Global,
    p: &Param,
    entry: u64,
    value: u64,
    is_returned: bool,
) -> Result<Vec<u8>, NoMemory>
    ensures { IfOk result (λ text. text.items ≡ words_of (spec.param_attrs_by p.now (has_bit entry) (has_bit value) is_returned)) }
{
    let mut text = Vec::new(alloc);
    put_align(&mut text, &p.attrs, entry)?;
    put_bytes(&mut text, &p.attrs, entry)?;
    put_nocapture(&mut text, &p.attrs, value)?;
    put_nonnull(&mut text, &p.attrs, entry)?;
    put_access(&mut text, has_access(&p.attrs), value)?;
    let is_refused = either(p.attrs.sret, p.attrs.writable);
    put_word(&mut text, is_refused, is_returned, b"returned")?;
    Ok(text)
}

/// Whether it is this number.
fn is_number(at: u32, number: Option<u32>) -> bool
    ensures { result ≡ spec.is_number at number }
{
    match number {
        Some(n) => n == at,
        None => false,
    }
}

/// What is added at parameter `at` of a body.
pub(crate) fn add_at_param(
    alloc: Global,
    held: &Held<'_>,
    f: FuncId,
    returned: Option<u32>,
    at: u8,
    p: &Param,
    out: &mut Vec<Insertion>,
) -> Result<(), NoMemory>
    requires ready { IsReady held.now }
    requires body { is_body held.now.m.now f.0 ≡ true }
    ensures { OnOk result (out.new.items ≡ out.old.items ++ map inserted (spec.at_param (set_of held.now) f.0 returned at (Some p.now))) }
{
    let entry = entry_word(held, f, at);
    let value = held.value_word(p.value);
    let text = words(alloc, p, entry, value, is_number(at as u32, returned))?;
    put(out, p.place, Place::Parameter, text)?;
    Ok(())
}
