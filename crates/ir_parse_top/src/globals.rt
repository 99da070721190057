//! Global variables.
ghost use Rattle.std.specs.Prelude.{◌≡◌, ◌+◌, ◌<◌, ◌≤◌, ◌^◌, [], ◌∷◌, Some, IfOk, IfSome, length};
ghost use Rattle.ir_tree.specs.declared.terminal.Terminal.TheVariants as k;
ghost use Rattle.ir_tree.specs.Steps.{Longest, optional, many, next};
ghost use Rattle.ir_tree.specs.Entities as production;
ghost use Rattle.ir_parse_parts.specs.Parts.{any_of};
ghost use Rattle.ir_parse_top.specs.Parts as spec;

use attr_ids::NoMemory;
use ir_parse_parts::{attach, aword, comdat, constant, leaves, optional, stands, the, ty};
use ir_tree::{Const, GlobalVar, Gtail, Leaf, Terminal, Ty};
use sqlite_items::Items;
use std::alloc::Global;

/// What stands before the type: `Global '=' [linkage] gword* ('global' | 'constant')`.
#[derive(Drop)]
struct Introduction {
    name: Leaf,
    linkage: Option<Leaf>,
    words: Items<Leaf>,
    kind: Leaf,
}

/// The type and what stands behind it: `type [const] (',' gtail)* Group*`.
#[derive(Drop)]
struct Contents {
    ty: Ty,
    initial: Option<Const>,
    tails: Items<Gtail>,
    groups: Items<Leaf>,
}

/// `Global '=' ..`
pub(crate) fn global_var(
    alloc: Global,
    toks: &[Terminal],
    at: u32,
) -> Result<Option<(GlobalVar, u32)>, NoMemory>
    requires few { length toks.now < 2 ^ 32 }
    ensures { IfOk result (λ r. Longest (production.global_var toks.now) at r) }
{
    let Some((introduction, first)) = introduced(alloc, toks, at)? else {
        return Ok(None);
    };
    let Some((contents, next)) = typed(alloc, toks, first)? else {
        return Ok(None);
    };
    Ok(Some((
        GlobalVar {
            name: introduction.name,
            linkage: introduction.linkage,
            words: introduction.words,
            kind: introduction.kind,
            ty: contents.ty,
            initial: contents.initial,
            tails: contents.tails,
            groups: contents.groups,
        },
        next,
    )))
}

/// `Global '=' [linkage] gword* ('global' | 'constant')`
fn introduced(
    alloc: Global,
    toks: &[Terminal],
    at: u32,
) -> Result<Option<(Introduction, u32)>, NoMemory>
    requires few { length toks.now < 2 ^ 32 }
    ensures { IfOk result (λ r. Longest (spec.introduced toks.now) at r) }
{
    let name = at;
    let Some(equals) = the(toks, Terminal::Global, name) else {
        return Ok(None);
    };
    let Some(first) = the(toks, Terminal::Equals, equals) else {
        return Ok(None);
    };
    let (linkage, behind) = optional(toks, Terminal::Linkage, first);
    let (words, kind) = gwords(alloc, toks, behind)?;
    let Some(next) = the(toks, Terminal::Variable, kind) else {
        return Ok(None);
    };
    Ok(Some((
        Introduction {
            name,
            linkage,
            words,
            kind,
        },
        next,
    )))
}

/// The place behind a word that may stand before `global` or `constant`.
#[tactic(auto, using(crate::proofs::LongestGlobals::sees_gwords))]
fn behind_gword(toks: &[Terminal], at: u32) -> Option<u32>
    requires few { length toks.now < 2 ^ 32 }
    ensures value { result ≡ any_of toks.now (k.Hword ∷ k.Unnamed ∷ k.ExternallyInitialized ∷ []) at }
    ensures within { IfSome result (λ next. (next ≡ at + 1) × (next ≤ length toks.now)) }
{
    if stands(toks, Terminal::Hword, at)
        || stands(toks, Terminal::Unnamed, at)
        || stands(toks, Terminal::ExternallyInitialized, at)
    {
        Some(at + 1)
    } else {
        None
    }
}

/// `gword*`
fn gwords(alloc: Global, toks: &[Terminal], at: u32) -> Result<(Items<Leaf>, u32), NoMemory>
    requires few { length toks.now < 2 ^ 32 }
    ensures { IfOk result (λ r. Longest (many (production.gword toks.now)) at (Some r)) }
{
    let mut found = Items::new(alloc);
    let mut place = at;
    while let Some(next) = behind_gword(toks, place) {
        found.push(place)?;
        place = next;
    }
    Ok((found, place))
}

/// `type [const] (',' gtail)* Group*`
fn typed(alloc: Global, toks: &[Terminal], at: u32) -> Result<Option<(Contents, u32)>, NoMemory>
    requires few { length toks.now < 2 ^ 32 }
    ensures { IfOk result (λ r. Longest (spec.typed toks.now) at r) }
{
    let Some((kind, value)) = ty(alloc, toks, at)? else {
        return Ok(None);
    };
    let (initial, behind) = initial(alloc, toks, value)?;
    let (ending, next) = behind_initial(alloc, toks, behind)?;
    let (tails, groups) = ending;
    Ok(Some((
        Contents {
            ty: kind,
            initial,
            tails,
            groups,
        },
        next,
    )))
}

/// `(',' gtail)* Group*`
fn behind_initial(
    alloc: Global,
    toks: &[Terminal],
    at: u32,
) -> Result<((Items<Gtail>, Items<Leaf>), u32), NoMemory>
    requires few { length toks.now < 2 ^ 32 }
    ensures { IfOk result (λ r. Longest (spec.behind_initial toks.now) at (Some r)) }
{
    let (tails, last) = gtails(alloc, toks, at)?;
    let (groups, next) = leaves(alloc, toks, Terminal::Group, last)?;
    Ok(((tails, groups), next))
}

/// Whether the name of the next entity stands here: a global, and `=` directly behind it.
fn names_next(toks: &[Terminal], at: u32) -> bool
    requires few { length toks.now < 2 ^ 32 }
    ensures { result ≡ production.names_next toks.now at }
{
    match the(toks, Terminal::Global, at) {
        Some(behind) => stands(toks, Terminal::Equals, behind),
        None => false,
    }
}

/// `[const]`: the initial value, where one is written.
fn initial(alloc: Global, toks: &[Terminal], at: u32) -> Result<(Option<Const>, u32), NoMemory>
    requires few { length toks.now < 2 ^ 32 }
    ensures { IfOk result (λ r. Longest (optional (production.initial toks.now)) at (Some r)) }
{
    if names_next(toks, at) {
        return Ok((None, at));
    }
    match constant(alloc, toks, at)? {
        Some((found, next)) => Ok((Some(found), next)),
        None => Ok((None, at)),
    }
}

/// `(',' gtail)*`: a comma that no tail follows is left.
fn gtails(alloc: Global, toks: &[Terminal], at: u32) -> Result<(Items<Gtail>, u32), NoMemory>
    requires few { length toks.now < 2 ^ 32 }
    ensures { IfOk result (λ r. Longest (many (next toks.now (production.gtail toks.now))) at (Some r)) }
{
    let mut found = Items::new(alloc);
    let mut place = at;
    while let Some((tail, next)) = next_gtail(toks, place) {
        found.push(tail)?;
        place = next;
    }
    Ok((found, place))
}

/// `',' gtail`
fn next_gtail(toks: &[Terminal], at: u32) -> Option<(Gtail, u32)>
    requires few { length toks.now < 2 ^ 32 }
    ensures { Longest (next toks.now (production.gtail toks.now)) at result }
{
    let first = the(toks, Terminal::Comma, at)?;
    gtail(toks, first)
}

/// `gtail`
fn gtail(toks: &[Terminal], at: u32) -> Option<(Gtail, u32)>
    requires few { length toks.now < 2 ^ 32 }
    ensures { Longest (production.gtail toks.now) at result }
{
    if let Some(((word, name), next)) = leaf_pair(toks, Terminal::Section, Terminal::Str, at) {
        return Some((Gtail::Section { word, name }, next));
    }
    if let Some(((word, name), next)) = leaf_pair(toks, Terminal::Partition, Terminal::Str, at) {
        return Some((Gtail::Partition { word, name }, next));
    }
    if let Some(((word, name), next)) = leaf_pair(toks, Terminal::CodeModel, Terminal::Str, at) {
        return Some((Gtail::CodeModel { word, name }, next));
    }
    if let Some(((word, bytes), next)) = leaf_pair(toks, Terminal::Align, Terminal::Int, at) {
        return Some((Gtail::Align { word, bytes }, next));
    }
    if let Some((found, next)) = comdat(toks, at) {
        return Some((Gtail::Comdat(found), next));
    }
    if let Some((found, next)) = attach(toks, at) {
        return Some((Gtail::Attach(found), next));
    }
    match aword(toks, at) {
        Some(next) => Some((Gtail::Word(at), next)),
        None => None,
    }
}

/// Two leaves, one behind the other, and the place behind them.
pub(crate) fn leaf_pair(
    toks: &[Terminal],
    one: Terminal,
    other: Terminal,
    at: u32,
) -> Option<((u32, u32), u32)>
    requires few { length toks.now < 2 ^ 32 }
    ensures { Longest (spec.leaf_pair toks.now one other) at result }
{
    let first = at;
    let second = the(toks, one, first)?;
    let next = the(toks, other, second)?;
    Some(((first, second), next))
}
