//! What is added at a body.
ghost use Rattle.std.specs.Prelude.{◌≡◌, ◌++◌, map, slice_get, Some, true, IfOk, OnOk};
ghost use Rattle.facts.specs.Bodies.{is_body};
ghost use Rattle.manifest.specs.Added.{inserted};
ghost use Rattle.manifest.specs.Function as spec;
ghost use Rattle.manifest.specs.Ready.{IsReady, set_of};
ghost use Rattle.manifest.specs.Spelling.{words_of};

use crate::held::{Held, has};
use crate::memory::put_memory_of;
use crate::put::put;
use crate::spelling::put_word;
use attr_ids::{BlockId, FuncId, Insertion, NoMemory, Place};
use facts::Pos;
use ir_module::{Func, Param, first_seg};
use lattice_words::function::{NOFREE, NORETURN, NOUNWIND};
use lattice_words::segment::DEAD;
use std::alloc::Global;

/// Whether no run comes to a body: its first segment is dead.
pub fn is_dead_body(held: &Held<'_>, f: FuncId) -> bool
    requires ready { IsReady held.now }
    requires body { is_body held.now.m.now f.0 ≡ true }
    ensures { result ≡ spec.is_dead_body held.now.m.now (set_of held.now) f.0 }
{
    let func = held.m.func(f);
    let entry = first_seg(held.m, BlockId(func.first_block));
    held.holds(Pos::Segment(entry), DEAD)
}

/// Whether a parameter is written `writable`.
fn has_writable(params: &[Param]) -> bool
    ensures { result ≡ spec.has_writable params.now }
{
    params.iter().any(|p| p.attrs.writable)
}

/// The words that are added at a body.
fn words(alloc: Global, held: &Held<'_>, f: FuncId, func: &Func) -> Result<Vec<u8>, NoMemory>
    requires ready { IsReady held.now }
    requires body { is_body held.now.m.now f.0 ≡ true }
    ensures { IfOk result (λ text. text.items ≡ words_of (spec.function_attrs held.now.m.now (set_of held.now) f.0 func.now)) }
{
    let word = held.word(Pos::Function(f));
    let written = &func.attrs;
    let mut text = Vec::new(alloc);
    put_word(&mut text, written.nofree, has(word, NOFREE), b"nofree")?;
    put_word(&mut text, written.norecurse, held.is_apart(f), b"norecurse")?;
    put_word(
        &mut text,
        written.noreturn,
        has(word, NORETURN),
        b"noreturn",
    )?;
    put_word(
        &mut text,
        written.nounwind,
        has(word, NOUNWIND),
        b"nounwind",
    )?;
    let writable = has_writable(func.params.as_slice());
    put_memory_of(&mut text, written.memory.is_some(), writable, word)?;
    Ok(text)
}

/// What is added at a body, behind the closing parenthesis of its header.
pub(crate) fn add_at_function(
    alloc: Global,
    held: &Held<'_>,
    f: FuncId,
    func: &Func,
    out: &mut Vec<Insertion>,
) -> Result<(), NoMemory>
    requires ready { IsReady held.now }
    requires body { is_body held.now.m.now f.0 ≡ true }
    ensures { OnOk result (out.new.items ≡ out.old.items ++ map inserted (spec.at_function held.now.m.now (set_of held.now) f.0 func.now)) }
{
    let text = words(alloc, held, f, func)?;
    put(out, func.places.after, Place::Function, text)?;
    Ok(())
}
