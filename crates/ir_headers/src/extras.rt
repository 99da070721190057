//! The constants behind `prefix`, `prologue` and `personality` (LangRef, "Prefix Data", "Personality Function").
ghost use Rattle.std.specs.Prelude.{◌≡◌, ◌++◌, IfOk, OnOk};
ghost use Rattle.std.specs.List.{list_any, flat_map};
ghost use Rattle.std.specs.Str.{bytes_eq};
ghost use Rattle.ir_operands.specs.Constants.{ArePartsBelow};
ghost use Rattle.ir_instrs.specs.Reading.{reading, IsSound};
ghost use Rattle.ir_instrs.specs.Uses.{Takes, each};
ghost use Rattle.ir_instrs.specs.Operands as operands;
ghost use Rattle.ir_headers.specs.Headers as spec;

use crate::leaves::leaf_text;
use attr_ids::NoMemory;
use ir_consts::Laid;
use ir_instrs::{Source, tconst};
use ir_module::Operands;
use ir_token::Token;
use ir_tree::Ftail;
use std::alloc::Global;

/// Whether bytes are a word.
fn is_word(bytes: &[u8], word: &[u8]) -> bool
    ensures { result ≡ bytes_eq bytes.now word.now }
{
    bytes == word
}

fn is_personality(text: &[u8], toks: &[Token], tail: &Ftail) -> bool
    ensures { result ≡ spec.is_personality text.now toks.now tail.now }
{
    match tail {
        Ftail::Extra { word, .. } => is_word(leaf_text(text, toks, *word), b"personality"),
        _ => false,
    }
}

/// Whether a `personality` is written.
pub(crate) fn has_personality(text: &[u8], toks: &[Token], tails: &[Ftail]) -> bool
    ensures { result ≡ list_any (spec.is_personality text.now toks.now) tails.now }
{
    let mut rest = tails;
    while let [tail, others @ ..] = rest {
        if is_personality(text, toks, tail) {
            return true;
        }
        rest = others;
    }
    false
}

/// Puts in the constant of a tail, where it has one.
fn push_extra(
    alloc: Global,
    src: &Source<'_>,
    tail: &Ftail,
    extras: &mut Operands,
    notes: &mut Laid,
) -> Result<(), NoMemory>
    requires sound { IsSound src.now }
    requires below { ArePartsBelow notes.old.parts.items }
    ensures value { OnOk result (extras.new ≡ extras.old
        ++ each (reading src.now) (operands.tconst (reading src.now)) (operands.tconst_uses (reading src.now)) notes.old.parts.items (spec.extra_in tail.now)) }
    ensures takes { OnOk result (Takes (reading src.now) (flat_map (operands.tconst_uses (reading src.now)) (spec.extra_in tail.now)) notes.old notes.new) }
{
    match tail {
        Ftail::Extra { value, .. } => {
            let made = tconst(alloc, src, value, notes)?;
            extras.push(made)?;
            Ok(())
        }
        _ => Ok(()),
    }
}

/// The constants of a header.
pub fn extras_of(
    alloc: Global,
    src: &Source<'_>,
    tails: &[Ftail],
    notes: &mut Laid,
) -> Result<Operands, NoMemory>
    requires sound { IsSound src.now }
    requires below { ArePartsBelow notes.old.parts.items }
    ensures value { IfOk result (λ extras. extras ≡ spec.extras_of (reading src.now) notes.old.parts.items tails.now) }
    ensures takes { IfOk result (λ _. Takes (reading src.now) (spec.extra_uses (reading src.now) tails.now) notes.old notes.new) }
{
    let mut extras = Operands::new(alloc);
    for tail in tails {
        push_extra(alloc, src, tail, &mut extras, notes)?;
    }
    Ok(extras)
}
