//! What is added at an inner call.
ghost use Rattle.std.specs.Prelude.{◌≡◌, ◌++◌, map, true, IfOk, OnOk};
ghost use Rattle.facts.specs.Bodies.{is_body};
ghost use Rattle.manifest.specs.Added.{inserted};
ghost use Rattle.manifest.specs.Call as spec;
ghost use Rattle.manifest.specs.Ready.{IsReady, IsBodyIf, set_of};
ghost use Rattle.manifest.specs.Spelling.{words_of};
ghost use Rattle.ir_module.specs.declared.module.Spot.{Spot};
ghost use Rattle.std.specs.Option.{option_map};

use crate::held::{Held, has};
use crate::memory::put_memory_of;
use crate::put::put;
use crate::spelling::put_word;
use attr_ids::{FuncId, Insertion, NoMemory, Place};
use facts::Pos;
use ir_module::{Call, ParamAttrs};
use lattice_words::function::{NOFREE, NORETURN, NOUNWIND};
use std::alloc::Global;

/// Whether an argument is written `writable`.
fn has_writable_arg(args: &[ParamAttrs]) -> bool
    ensures { result ≡ spec.has_writable_arg args.now }
{
    args.iter().any(|a| a.writable)
}

/// The words that are added at a call of a body.
fn words(alloc: Global, held: &Held<'_>, g: FuncId, call: &Call) -> Result<Vec<u8>, NoMemory>
    requires ready { IsReady held.now }
    requires body { is_body held.now.m.now g.0 ≡ true }
    ensures { IfOk result (λ text. text.items ≡ words_of (spec.call_attrs (set_of held.now) g.0 call.now)) }
{
    let word = held.word(Pos::Function(g));
    let written = &call.attrs.func;
    let mut text = Vec::new(alloc);
    put_word(&mut text, written.nofree, has(word, NOFREE), b"nofree")?;
    put_word(
        &mut text,
        written.noreturn,
        has(word, NORETURN),
        b"noreturn",
    )?;
    put_word(
        &mut text,
        written.nounwind,
        has(word, NOUNWIND),
        b"nounwind",
    )?;
    let writable = has_writable_arg(call.attrs.args.as_slice());
    put_memory_of(&mut text, written.memory.is_some(), writable, word)?;
    Ok(text)
}

/// What is added at a call of a body, behind its closing parenthesis.
pub(crate) fn add_at_call(
    alloc: Global,
    held: &Held<'_>,
    callee: Option<FuncId>,
    call: &Call,
    out: &mut Vec<Insertion>,
) -> Result<(), NoMemory>
    requires ready { IsReady held.now }
    requires body { IsBodyIf held.now.m.now callee }
    ensures { (s : Spot) → OnOk result (out.new.items ≡ out.old.items ++ map inserted (spec.at_call (set_of held.now) s call.now (option_map
        (λ g. g.0) callee))) }
{
    let Some(g) = callee else {
        return Ok(());
    };
    let text = words(alloc, held, g, call)?;
    put(out, call.places.after, Place::Call, text)?;
    Ok(())
}
