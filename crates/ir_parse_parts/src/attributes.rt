//! Attributes, calling conventions, comdats and attachments.
ghost use Rattle.std.specs.Prelude.{◌≡◌, ◌<◌, ◌^◌, length, [], ◌∷◌, Some, IfOk};
ghost use Rattle.ir_tree.specs.declared.terminal.Terminal.TheVariants as k;
ghost use Rattle.ir_tree.specs.Steps.{Longest, among, the, many, optional, next};
ghost use Rattle.ir_tree.specs.Attributes as production;
ghost use Rattle.ir_parse_parts.specs.Parts as spec;

use crate::step::{stands, the};
use attr_ids::NoMemory;
use ir_tree::{Attach, Cc, Comdat, Fattr, Gattr, Inner, Rattr, Terminal, Word};
use sqlite_items::Items;
use std::alloc::Global;

/// `cc`
pub fn cc(toks: &[Terminal], at: u32) -> Option<(Cc, u32)>
    requires few { length toks.now < 2 ^ 32 }
    ensures { Longest (production.cc toks.now) at result }
{
    if let Some(next) = the(toks, Terminal::CcWord, at) {
        return Some((Cc::Word(at), next));
    }
    let number = the(toks, Terminal::CcNumber, at)?;
    let next = the(toks, Terminal::Int, number)?;
    Some((Cc::Number { word: at, number }, next))
}

/// `[cc]`
pub fn calling_convention(toks: &[Terminal], at: u32) -> (Option<Cc>, u32)
    requires few { length toks.now < 2 ^ 32 }
    ensures { Longest (optional (production.cc toks.now)) at (Some result) }
{
    match cc(toks, at) {
        Some((found, next)) => (Some(found), next),
        None => (None, at),
    }
}

/// The name of a comdat between parentheses, and the place behind them.
fn comdat_name(toks: &[Terminal], at: u32) -> Option<(u32, u32)>
    requires few { length toks.now < 2 ^ 32 }
    ensures { Longest (spec.comdat_name toks.now) at result }
{
    let name = the(toks, Terminal::LeftParen, at)?;
    let close = the(toks, Terminal::Comdat, name)?;
    let next = the(toks, Terminal::RightParen, close)?;
    Some((name, next))
}

/// `comdat`
pub fn comdat(toks: &[Terminal], at: u32) -> Option<(Comdat, u32)>
    requires few { length toks.now < 2 ^ 32 }
    ensures { Longest (production.comdat toks.now) at result }
{
    let word = at;
    let open = the(toks, Terminal::ComdatWord, word)?;
    match comdat_name(toks, open) {
        Some((name, next)) => Some((
            Comdat {
                word,
                name: Some(name),
            },
            next,
        )),
        None => Some((Comdat { word, name: None }, open)),
    }
}

/// `attach`
pub fn attach(toks: &[Terminal], at: u32) -> Option<(Attach, u32)>
    requires few { length toks.now < 2 ^ 32 }
    ensures { Longest (production.attach toks.now) at result }
{
    let kind = at;
    let node = the(toks, Terminal::Meta, kind)?;
    let next = the(toks, Terminal::Meta, node)?;
    Some((Attach { kind, node }, next))
}

/// Whether the terminal opens or closes parentheses.
fn is_parenthesis(terminal: Terminal) -> bool
    ensures { result ≡ among (k.LeftParen ∷ k.RightParen ∷ []) terminal }
{
    terminal == Terminal::LeftParen || terminal == Terminal::RightParen
}

/// The place behind a token that is no parenthesis.
fn no_parenthesis(toks: &[Terminal], at: u32) -> Option<u32>
    requires few { length toks.now < 2 ^ 32 }
    ensures { result ≡ spec.none_of_these toks.now (k.LeftParen ∷ k.RightParen ∷ []) at }
{
    match sqlite_items::at(toks, at as usize) {
        Some(found) if !is_parenthesis(*found) => Some(at + 1),
        _ => None,
    }
}

/// `inner`
#[cycle(inner)]
fn inner(alloc: Global, toks: &[Terminal], at: u32) -> Result<Option<(Inner, u32)>, NoMemory>
    requires few { length toks.now < 2 ^ 32 }
    ensures { IfOk result (λ r. Longest (production.inner toks.now) at r) }
{
    if let Some(next) = no_parenthesis(toks, at) {
        return Ok(Some((Inner::Token(at), next)));
    }
    let Some(first) = the(toks, Terminal::LeftParen, at) else {
        return Ok(None);
    };
    let (inside, close) = inners(alloc, toks, first)?;
    match the(toks, Terminal::RightParen, close) {
        Some(next) => Ok(Some((Inner::Bracket { open: at, inside }, next))),
        None => Ok(None),
    }
}

/// `inner*`
#[cycle(inner)]
fn inners(alloc: Global, toks: &[Terminal], at: u32) -> Result<(Items<Inner>, u32), NoMemory>
    requires few { length toks.now < 2 ^ 32 }
    ensures { IfOk result (λ r. Longest (many (production.inner toks.now)) at (Some r)) }
{
    let mut found = Items::new(alloc);
    let mut place = at;
    while let Some((part, next)) = inner(alloc, toks, place)? {
        found.push(part)?;
        place = next;
    }
    Ok((found, place))
}

/// The place behind a word that is not reserved.
#[tactic(auto, using(crate::proofs::LongestAttributes::sees_awords))]
pub fn aword(toks: &[Terminal], at: u32) -> Option<u32>
    requires few { length toks.now < 2 ^ 32 }
    ensures { result ≡ spec.any_of toks.now production.awords at }
{
    if stands(toks, Terminal::Word, at)
        || stands(toks, Terminal::Nuw, at)
        || stands(toks, Terminal::Iflag, at)
        || stands(toks, Terminal::Gepflag, at)
        || stands(toks, Terminal::InRange, at)
    {
        Some(at + 1)
    } else {
        None
    }
}

/// `aword ['(' inner* ')']`, from behind the word on. Where no parentheses close, the word stands alone.
fn word_attribute(
    alloc: Global,
    toks: &[Terminal],
    word: u32,
    behind: u32,
) -> Result<(Fattr, u32), NoMemory>
    requires few { length toks.now < 2 ^ 32 }
    requires after { spec.any_of toks.now production.awords word ≡ Some behind }
    ensures { IfOk result (λ r. Longest (production.fattr toks.now) word (Some r)) }
{
    let Some(first) = the(toks, Terminal::LeftParen, behind) else {
        return Ok((Fattr::Word(word), behind));
    };
    let (inside, close) = inners(alloc, toks, first)?;
    match the(toks, Terminal::RightParen, close) {
        Some(next) => Ok((
            Fattr::Bracket {
                word,
                inside,
                close,
            },
            next,
        )),
        None => Ok((Fattr::Word(word), behind)),
    }
}

/// `['=' Str]`
fn written_value(toks: &[Terminal], at: u32) -> (Option<u32>, u32)
    requires few { length toks.now < 2 ^ 32 }
    ensures { Longest (optional (spec.written_value toks.now)) at (Some result) }
{
    let Some(value) = the(toks, Terminal::Equals, at) else {
        return (None, at);
    };
    match the(toks, Terminal::Str, value) {
        Some(next) => (Some(value), next),
        None => (None, at),
    }
}

/// `fattr`
pub fn fattr(alloc: Global, toks: &[Terminal], at: u32) -> Result<Option<(Fattr, u32)>, NoMemory>
    requires few { length toks.now < 2 ^ 32 }
    ensures { IfOk result (λ r. Longest (production.fattr toks.now) at r) }
{
    if let Some(behind) = aword(toks, at) {
        return Ok(Some(word_attribute(alloc, toks, at, behind)?));
    }
    let Some(behind) = the(toks, Terminal::Str, at) else {
        return Ok(None);
    };
    let (value, next) = written_value(toks, behind);
    Ok(Some((Fattr::Str { key: at, value }, next)))
}

/// `'(' Int ')'`: the places of the number and of the closing parenthesis.
fn bytes_in(toks: &[Terminal], at: u32) -> Option<((u32, u32), u32)>
    requires few { length toks.now < 2 ^ 32 }
    ensures { Longest (spec.bytes_in toks.now) at result }
{
    let bytes = the(toks, Terminal::LeftParen, at)?;
    let close = the(toks, Terminal::Int, bytes)?;
    let next = the(toks, Terminal::RightParen, close)?;
    Some(((bytes, close), next))
}

/// `'align' Int | 'align' '(' Int ')'`, from behind the word on.
fn alignment(toks: &[Terminal], word: u32, behind: u32) -> Option<(Rattr, u32)>
    requires few { length toks.now < 2 ^ 32 }
    requires after { the toks.now k.Align word ≡ Some behind }
    ensures { Longest (production.rattr toks.now) word result }
{
    if let Some(next) = the(toks, Terminal::Int, behind) {
        return Some((
            Rattr::Align {
                word,
                bytes: behind,
            },
            next,
        ));
    }
    match bytes_in(toks, behind) {
        Some(((bytes, close), next)) => Some((Rattr::AlignIn { word, bytes, close }, next)),
        None => None,
    }
}

/// `rattr`
fn rattr(alloc: Global, toks: &[Terminal], at: u32) -> Result<Option<(Rattr, u32)>, NoMemory>
    requires few { length toks.now < 2 ^ 32 }
    ensures { IfOk result (λ r. Longest (production.rattr toks.now) at r) }
{
    if let Some(behind) = the(toks, Terminal::Align, at) {
        return Ok(alignment(toks, at, behind));
    }
    match fattr(alloc, toks, at)? {
        Some((attribute, next)) => Ok(Some((Rattr::Fattr(attribute), next))),
        None => Ok(None),
    }
}

/// `rattr*`
pub fn rattrs(alloc: Global, toks: &[Terminal], at: u32) -> Result<(Items<Rattr>, u32), NoMemory>
    requires few { length toks.now < 2 ^ 32 }
    ensures { IfOk result (λ r. Longest (many (production.rattr toks.now)) at (Some r)) }
{
    let mut found = Items::new(alloc);
    let mut place = at;
    while let Some((attribute, next)) = rattr(alloc, toks, place)? {
        found.push(attribute)?;
        place = next;
    }
    Ok((found, place))
}

/// `'align' '=' Int`: the places of the word and of the number.
fn align_equals(toks: &[Terminal], at: u32) -> Option<((u32, u32), u32)>
    requires few { length toks.now < 2 ^ 32 }
    ensures { Longest (spec.align_equals toks.now) at result }
{
    let equals = the(toks, Terminal::Align, at)?;
    let value = the(toks, Terminal::Equals, equals)?;
    let next = the(toks, Terminal::Int, value)?;
    Some(((at, value), next))
}

/// `aword '=' Int`: the places of the word and of the number.
fn word_equals(toks: &[Terminal], at: u32) -> Option<((u32, u32), u32)>
    requires few { length toks.now < 2 ^ 32 }
    ensures { Longest (spec.word_equals toks.now) at result }
{
    let equals = aword(toks, at)?;
    let value = the(toks, Terminal::Equals, equals)?;
    let next = the(toks, Terminal::Int, value)?;
    Some(((at, value), next))
}

/// `gattr`
fn gattr(alloc: Global, toks: &[Terminal], at: u32) -> Result<Option<(Gattr, u32)>, NoMemory>
    requires few { length toks.now < 2 ^ 32 }
    ensures { IfOk result (λ r. Longest (production.gattr toks.now) at r) }
{
    if let Some(((word, value), next)) = word_equals(toks, at) {
        return Ok(Some((Gattr::Word { word, value }, next)));
    }
    if let Some(((word, value), next)) = align_equals(toks, at) {
        return Ok(Some((Gattr::Align { word, value }, next)));
    }
    match fattr(alloc, toks, at)? {
        Some((attribute, next)) => Ok(Some((Gattr::Fattr(attribute), next))),
        None => Ok(None),
    }
}

/// `gattr*`
pub fn gattrs(alloc: Global, toks: &[Terminal], at: u32) -> Result<(Items<Gattr>, u32), NoMemory>
    requires few { length toks.now < 2 ^ 32 }
    ensures { IfOk result (λ r. Longest (many (production.gattr toks.now)) at (Some r)) }
{
    let mut found = Items::new(alloc);
    let mut place = at;
    while let Some((attribute, next)) = gattr(alloc, toks, place)? {
        found.push(attribute)?;
        place = next;
    }
    Ok((found, place))
}

/// `fattr | Group`
fn word(alloc: Global, toks: &[Terminal], at: u32) -> Result<Option<(Word, u32)>, NoMemory>
    requires few { length toks.now < 2 ^ 32 }
    ensures { IfOk result (λ r. Longest (production.word toks.now) at r) }
{
    if let Some(next) = the(toks, Terminal::Group, at) {
        return Ok(Some((Word::Group(at), next)));
    }
    match fattr(alloc, toks, at)? {
        Some((attribute, next)) => Ok(Some((Word::Fattr(attribute), next))),
        None => Ok(None),
    }
}

/// `(fattr | Group)*`
pub fn words(alloc: Global, toks: &[Terminal], at: u32) -> Result<(Items<Word>, u32), NoMemory>
    requires few { length toks.now < 2 ^ 32 }
    ensures { IfOk result (λ r. Longest (many (production.word toks.now)) at (Some r)) }
{
    let mut found = Items::new(alloc);
    let mut place = at;
    while let Some((part, next)) = word(alloc, toks, place)? {
        found.push(part)?;
        place = next;
    }
    Ok((found, place))
}

/// `',' attach`
fn next_attach(toks: &[Terminal], at: u32) -> Option<(Attach, u32)>
    requires few { length toks.now < 2 ^ 32 }
    ensures { Longest (next toks.now (production.attach toks.now)) at result }
{
    let first = the(toks, Terminal::Comma, at)?;
    attach(toks, first)
}

/// `(',' attach)*`: a comma that no attachment follows is left.
pub fn attachments(
    alloc: Global,
    toks: &[Terminal],
    at: u32,
) -> Result<(Items<Attach>, u32), NoMemory>
    requires few { length toks.now < 2 ^ 32 }
    ensures { IfOk result (λ r. Longest (many (next toks.now (production.attach toks.now))) at (Some r)) }
{
    let mut found = Items::new(alloc);
    let mut place = at;
    while let Some((attachment, next)) = next_attach(toks, place) {
        found.push(attachment)?;
        place = next;
    }
    Ok((found, place))
}
