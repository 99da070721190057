//! Entities of a module.
ghost use Rattle.std.specs.Prelude.{◌≡◌, ◌<◌, ◌^◌, Some, IfOk, length};
ghost use Rattle.ir_tree.specs.declared.terminal.Terminal.TheVariants as k;
ghost use Rattle.ir_tree.specs.Steps.{Longest, many, the};
ghost use Rattle.ir_tree.specs.Attributes.{attach};
ghost use Rattle.ir_tree.specs.Entities as production;
ghost use Rattle.ir_parse_top.specs.Parts as spec;

use crate::globals::global_var;
use crate::headers::header;
use attr_ids::NoMemory;
use ir_parse_body::body;
use ir_parse_parts::{attach, gattrs, the, ty};
use ir_tree::{Attach, Body, Declare, Define, Entity, Terminal, TypeBody};
use sqlite_items::{Boxed, Items};
use std::alloc::Global;

/// `entity`
pub(crate) fn entity(
    alloc: Global,
    toks: &[Terminal],
    at: u32,
) -> Result<Option<(Entity, u32)>, NoMemory>
    requires few { length toks.now < 2 ^ 32 }
    ensures { IfOk result (λ r. Longest (production.entity toks.now) at r) }
{
    if let Some(next) = the(toks, Terminal::Opaque, at) {
        return Ok(Some((Entity::Opaque(at), next)));
    }
    if let Some(first) = the(toks, Terminal::SourceFilename, at) {
        return Ok(source_filename(toks, at, first));
    }
    if let Some(first) = the(toks, Terminal::Target, at) {
        return Ok(target(toks, at, first));
    }
    if let Some(first) = the(toks, Terminal::Local, at) {
        return named(alloc, toks, at, first);
    }
    if let Some(first) = the(toks, Terminal::Attributes, at) {
        return attributes(alloc, toks, at, first);
    }
    if let Some(first) = the(toks, Terminal::Global, at) {
        return global(alloc, toks, at, first);
    }
    if let Some(first) = the(toks, Terminal::Declare, at) {
        return declare(alloc, toks, at, first);
    }
    if let Some(first) = the(toks, Terminal::Define, at) {
        return define(alloc, toks, at, first);
    }
    Ok(None)
}

/// `'source_filename' '=' Str`
fn source_filename(toks: &[Terminal], start: u32, first: u32) -> Option<(Entity, u32)>
    requires few { length toks.now < 2 ^ 32 }
    requires after { the toks.now k.SourceFilename start ≡ Some first }
    ensures { Longest (production.entity toks.now) start result }
{
    let Some(name) = the(toks, Terminal::Equals, first) else {
        return None;
    };
    let Some(next) = the(toks, Terminal::Str, name) else {
        return None;
    };
    Some((Entity::SourceFilename { name }, next))
}

/// `'target' ('datalayout' | 'triple') '=' Str`
fn target(toks: &[Terminal], start: u32, first: u32) -> Option<(Entity, u32)>
    requires few { length toks.now < 2 ^ 32 }
    requires after { the toks.now k.Target start ≡ Some first }
    ensures { Longest (production.entity toks.now) start result }
{
    let Some(equals) = the(toks, Terminal::TargetPart, first) else {
        return None;
    };
    let Some(text) = the(toks, Terminal::Equals, equals) else {
        return None;
    };
    let Some(next) = the(toks, Terminal::Str, text) else {
        return None;
    };
    Some((Entity::Target { which: first, text }, next))
}

/// `Local '=' 'type' (type | 'opaque')`
fn named(
    alloc: Global,
    toks: &[Terminal],
    start: u32,
    first: u32,
) -> Result<Option<(Entity, u32)>, NoMemory>
    requires few { length toks.now < 2 ^ 32 }
    requires after { the toks.now k.Local start ≡ Some first }
    ensures { IfOk result (λ r. Longest (production.entity toks.now) start r) }
{
    let Some(word) = the(toks, Terminal::Equals, first) else {
        return Ok(None);
    };
    let Some(place) = the(toks, Terminal::TypeWord, word) else {
        return Ok(None);
    };
    let Some((body, next)) = type_body(alloc, toks, place)? else {
        return Ok(None);
    };
    let body = Boxed::new(alloc, body)?;
    Ok(Some((Entity::Named { name: start, body }, next)))
}

/// `type | 'opaque'`
fn type_body(alloc: Global, toks: &[Terminal], at: u32) -> Result<Option<(TypeBody, u32)>, NoMemory>
    requires few { length toks.now < 2 ^ 32 }
    ensures { IfOk result (λ r. Longest (production.type_body toks.now) at r) }
{
    if let Some(next) = the(toks, Terminal::OpaqueWord, at) {
        return Ok(Some((TypeBody::Opaque(at), next)));
    }
    match ty(alloc, toks, at)? {
        Some((ty, next)) => Ok(Some((TypeBody::Ty(ty), next))),
        None => Ok(None),
    }
}

/// `'attributes' Group '=' '{' gattr* '}'`
fn attributes(
    alloc: Global,
    toks: &[Terminal],
    start: u32,
    first: u32,
) -> Result<Option<(Entity, u32)>, NoMemory>
    requires few { length toks.now < 2 ^ 32 }
    requires after { the toks.now k.Attributes start ≡ Some first }
    ensures { IfOk result (λ r. Longest (production.entity toks.now) start r) }
{
    let Some(equals) = the(toks, Terminal::Group, first) else {
        return Ok(None);
    };
    let Some(brace) = the(toks, Terminal::Equals, equals) else {
        return Ok(None);
    };
    let Some(begin) = the(toks, Terminal::LeftBrace, brace) else {
        return Ok(None);
    };
    let (words, close) = gattrs(alloc, toks, begin)?;
    let Some(next) = the(toks, Terminal::RightBrace, close) else {
        return Ok(None);
    };
    Ok(Some((
        Entity::Attributes {
            group: first,
            words,
        },
        next,
    )))
}

/// A global variable.
fn global(
    alloc: Global,
    toks: &[Terminal],
    start: u32,
    _first: u32,
) -> Result<Option<(Entity, u32)>, NoMemory>
    requires few { length toks.now < 2 ^ 32 }
    requires after { the toks.now k.Global start ≡ Some _first }
    ensures { IfOk result (λ r. Longest (production.entity toks.now) start r) }
{
    let Some((global, next)) = global_var(alloc, toks, start)? else {
        return Ok(None);
    };
    let global = Boxed::new(alloc, global)?;
    Ok(Some((Entity::GlobalVar(global), next)))
}

/// `'declare' attach* header`
fn declare(
    alloc: Global,
    toks: &[Terminal],
    start: u32,
    first: u32,
) -> Result<Option<(Entity, u32)>, NoMemory>
    requires few { length toks.now < 2 ^ 32 }
    requires after { the toks.now k.Declare start ≡ Some first }
    ensures { IfOk result (λ r. Longest (production.entity toks.now) start r) }
{
    let (attached, place) = attaches(alloc, toks, first)?;
    let Some((header, next)) = header(alloc, toks, place)? else {
        return Ok(None);
    };
    let declare = Boxed::new(
        alloc,
        Declare {
            word: start,
            attached,
            header,
        },
    )?;
    Ok(Some((Entity::Declare(declare), next)))
}

/// `attach*`
fn attaches(alloc: Global, toks: &[Terminal], at: u32) -> Result<(Items<Attach>, u32), NoMemory>
    requires few { length toks.now < 2 ^ 32 }
    ensures { IfOk result (λ r. Longest (many (attach toks.now)) at (Some r)) }
{
    let mut found = Items::new(alloc);
    let mut place = at;
    while let Some((one, next)) = attach(toks, place) {
        found.push(one)?;
        place = next;
    }
    Ok((found, place))
}

/// `'define' header '{' first block* '}'`
fn define(
    alloc: Global,
    toks: &[Terminal],
    start: u32,
    first: u32,
) -> Result<Option<(Entity, u32)>, NoMemory>
    requires few { length toks.now < 2 ^ 32 }
    requires after { the toks.now k.Define start ≡ Some first }
    ensures { IfOk result (λ r. Longest (production.entity toks.now) start r) }
{
    let Some((header, brace)) = header(alloc, toks, first)? else {
        return Ok(None);
    };
    let Some((braced, next)) = braced(alloc, toks, brace)? else {
        return Ok(None);
    };
    let (body, close) = braced;
    let define = Boxed::new(
        alloc,
        Define {
            word: start,
            header,
            body,
            close,
        },
    )?;
    Ok(Some((Entity::Define(define), next)))
}

/// `'{' first block* '}'`: the body, and the place of the closing brace.
fn braced(alloc: Global, toks: &[Terminal], at: u32) -> Result<Option<((Body, u32), u32)>, NoMemory>
    requires few { length toks.now < 2 ^ 32 }
    ensures { IfOk result (λ r. Longest (spec.braced toks.now) at r) }
{
    let Some(begin) = the(toks, Terminal::LeftBrace, at) else {
        return Ok(None);
    };
    let Some((body, close)) = body(alloc, toks, begin)? else {
        return Ok(None);
    };
    let Some(next) = the(toks, Terminal::RightBrace, close) else {
        return Ok(None);
    };
    Ok(Some(((body, close), next)))
}
