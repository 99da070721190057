//! What is added at a pointer argument.
ghost use Rattle.std.specs.Prelude.{◌≡◌, ◌++◌, ◌<◌, ℕ, length, map, slice_get, Some, IfOk, OnOk};
ghost use Rattle.std.specs.Option.{option_copied, option_map};
ghost use Rattle.lattice_words.specs.Words.{has_bit};
ghost use Rattle.ir_module.specs.declared.module.Spot.{Spot};
ghost use Rattle.manifest.specs.Added.{inserted};
ghost use Rattle.manifest.specs.Argument as spec;
ghost use Rattle.manifest.specs.Ready.{IsReady, set_of};
ghost use Rattle.manifest.specs.Spelling.{words_of};

use crate::attrs::{has_access, put_access, put_align, put_bytes, put_nocapture, put_nonnull};
use crate::held::Held;
use crate::put::put;
use crate::spelling::either;
use attr_ids::{FuncId, Insertion, NoMemory, Place};
use ir_module::{Call, Module, Operand, Param, ParamAttrs, Written};
use positions::is_pointer;
use std::alloc::Global;

/// The bits that are known of an operand. No kind of fact of values is built yet, so nothing is known of a constant.
fn operand_word(held: &Held<'_>, w: &Written) -> u64
    requires { IsReady held.now }
    ensures { (bit : ℕ) → has_bit result bit ≡ spec.of_operand held.now.m.now (set_of held.now) w.now bit }
{
    match w.val {
        Operand::Value(v) => held.value_word(v),
        _ => 0,
    }
}

/// The parameter that argument `at` is handed to, where the call runs a body.
fn param_for<'a>(m: &'a Module, callee: Option<FuncId>, at: usize) -> Option<&'a Param>
    ensures { option_copied result ≡ spec.param_for m.now (option_map (λ g. g.0) callee) at }
{
    let g = callee?;
    let func = m.funcs.get(g.0 as usize)?;
    func.params.get(at)
}

/// The bits that are held of the parameter, if there is one.
fn handed_word(held: &Held<'_>, handed: Option<&Param>) -> u64
    requires { IsReady held.now }
    ensures { (bit : ℕ) → has_bit result bit ≡ spec.of_handed (set_of held.now) (option_copied handed.entry) bit }
{
    match handed {
        Some(p) => held.value_word(p.value),
        None => 0,
    }
}

/// Whether no access is added beside what is written at the parameter.
fn refuses_access(handed: Option<&Param>) -> bool
    ensures { result ≡ spec.refuses_access (option_copied handed.entry) }
{
    match handed {
        Some(p) => p.attrs.sret || p.attrs.writable,
        None => false,
    }
}

/// The words that are added at an argument, by the bits that are known of the operand and held of the parameter.
fn words(
    alloc: Global,
    written: &ParamAttrs,
    operand: u64,
    uses: u64,
    refuses: bool,
) -> Result<Vec<u8>, NoMemory>
    ensures { IfOk result (λ text. text.items ≡ words_of (spec.arg_attrs_by written.now (has_bit operand) (has_bit uses) refuses)) }
{
    let mut text = Vec::new(alloc);
    put_align(&mut text, written, operand)?;
    put_bytes(&mut text, written, operand)?;
    put_nocapture(&mut text, written, uses)?;
    put_nonnull(&mut text, written, operand)?;
    put_access(&mut text, either(has_access(written), refuses), uses)?;
    Ok(text)
}

/// What is added at an argument with these attributes written, where it is a pointer.
fn add_at_written(
    alloc: Global,
    held: &Held<'_>,
    handed: Option<&Param>,
    w: &Written,
    written: &ParamAttrs,
    offset: u32,
    out: &mut Vec<Insertion>,
) -> Result<(), NoMemory>
    requires { IsReady held.now }
    ensures { (s : Spot) (at : ℕ) → OnOk result (out.new.items ≡ out.old.items ++ map inserted
        (spec.at_written held.now.m.now (set_of held.now) s (option_copied handed.entry) at w.now written.now offset)) }
{
    if !is_pointer(held.m, w.ty) {
        return Ok(());
    }
    let operand = operand_word(held, w);
    let uses = handed_word(held, handed);
    let text = words(alloc, written, operand, uses, refuses_access(handed))?;
    put(out, offset, Place::Argument, text)?;
    Ok(())
}

/// What is added at argument `at` of a call, where it is a pointer.
pub(crate) fn add_at_arg(
    alloc: Global,
    held: &Held<'_>,
    callee: Option<FuncId>,
    call: &Call,
    at: usize,
    out: &mut Vec<Insertion>,
) -> Result<(), NoMemory>
    requires { IsReady held.now }
    ensures { (s : Spot) → OnOk result (out.new.items ≡ out.old.items ++ map inserted (spec.at_arg held.now.m.now (set_of held.now) s call.now
        (option_map (λ g. g.0) callee) at)) }
{
    let handed = param_for(held.m, callee, at);
    let Some(w) = call.args.get(at) else {
        return Ok(());
    };
    let Some(written) = call.attrs.args.get(at) else {
        return Ok(());
    };
    let Some(offset) = call.places.args.get(at) else {
        return Ok(());
    };
    add_at_written(alloc, held, handed, w, written, *offset, out)?;
    Ok(())
}
