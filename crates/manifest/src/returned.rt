//! What is added at what a body or an inner call returns.
ghost use Rattle.std.specs.Prelude.{◌≡◌, ◌++◌, map, true, IfOk, OnOk};
ghost use Rattle.std.specs.Option.{option_map};
ghost use Rattle.lattice_words.specs.Words.{has_bit};
ghost use Rattle.ir_module.specs.declared.module.Spot.{Spot};
ghost use Rattle.facts.specs.Bodies.{is_body};
ghost use Rattle.manifest.specs.Added.{inserted};
ghost use Rattle.manifest.specs.Return as spec;
ghost use Rattle.manifest.specs.Ready.{IsReady, IsBodyIf, set_of};
ghost use Rattle.manifest.specs.Spelling.{words_of};

use crate::attrs::{put_align, put_bytes, put_nonnull};
use crate::held::Held;
use crate::put::put;
use attr_ids::{FuncId, Insertion, NoMemory, Place};
use facts::Pos;
use ir_module::{Call, Func, ParamAttrs};
use lattice_words::function::NORETURN;
use std::alloc::Global;

/// The words that are added at what is returned, by the bits that are held.
fn words(alloc: Global, written: &ParamAttrs, word: u64) -> Result<Vec<u8>, NoMemory>
    ensures { IfOk result (λ text. text.items ≡ words_of (spec.return_attrs written.now (has_bit word))) }
{
    let mut text = Vec::new(alloc);
    put_align(&mut text, written, word)?;
    put_bytes(&mut text, written, word)?;
    put_nonnull(&mut text, written, word)?;
    Ok(text)
}

/// What is added before the return type of a body.
pub(crate) fn add_at_return(
    alloc: Global,
    held: &Held<'_>,
    f: FuncId,
    func: &Func,
    out: &mut Vec<Insertion>,
) -> Result<(), NoMemory>
    requires ready { IsReady held.now }
    requires body { is_body held.now.m.now f.0 ≡ true }
    ensures { OnOk result (out.new.items ≡ out.old.items ++ map inserted (spec.at_return (set_of held.now) f.0 func.now)) }
{
    if held.holds(Pos::Function(f), NORETURN) {
        return Ok(());
    }
    let text = words(alloc, &func.ret_attrs, held.word(Pos::Return(f)))?;
    put(out, func.places.ret, Place::Return, text)?;
    Ok(())
}

/// What is added before the return type of a call of a body.
pub(crate) fn add_at_call_return(
    alloc: Global,
    held: &Held<'_>,
    callee: Option<FuncId>,
    call: &Call,
    out: &mut Vec<Insertion>,
) -> Result<(), NoMemory>
    requires ready { IsReady held.now }
    requires body { IsBodyIf held.now.m.now callee }
    ensures { (s : Spot) → OnOk result (out.new.items ≡ out.old.items ++ map inserted (spec.at_call_return (set_of held.now) s call.now (option_map
        (λ g. g.0) callee))) }
{
    let Some(g) = callee else {
        return Ok(());
    };
    if held.holds(Pos::Function(g), NORETURN) {
        return Ok(());
    }
    let text = words(alloc, &call.attrs.ret, held.word(Pos::Return(g)))?;
    put(out, call.places.ret, Place::CallReturn, text)?;
    Ok(())
}
