//! Where a part of a module ends: the parsers of types, constants, values, attributes and leaves.
ghost use Rattle.std.specs.Prelude.{◌<◌, ◌^◌, length};

use attr_ids::NoMemory;
use ir_parse_parts::{
    attach, attachments, cc, comdat, constant, either, fattr, ftype, gattrs, gepflags, iflags,
    leaves, optional, rattrs, tconst, tvalue, ty, value, words,
};
use ir_tree::Terminal;
use std::alloc::Global;

/// Where a tree ends.
#[derive(Clone, Copy)]
pub enum End {
    /// Before this token.
    Before(u32),
    /// There is no tree.
    Nowhere,
    /// No production has the name.
    NoProduction,
    /// Memory was refused.
    Lost,
}

/// The place behind a tree, where there is one.
fn behind<T: Drop>(answer: Result<Option<(T, u32)>, NoMemory>) -> End {
    match answer {
        Ok(Some((_, next))) => End::Before(next),
        Ok(None) => End::Nowhere,
        Err(NoMemory) => End::Lost,
    }
}

/// The place behind a list, which may be empty.
fn behind_all<T: Drop>(answer: Result<(T, u32), NoMemory>) -> End {
    match answer {
        Ok((_, next)) => End::Before(next),
        Err(NoMemory) => End::Lost,
    }
}

fn ended(next: Option<u32>) -> End {
    match next {
        Some(next) => End::Before(next),
        None => End::Nowhere,
    }
}

/// The place behind leaves, and behind leaves that may be missing.
fn leaf(alloc: Global, name: &str, toks: &[Terminal], at: u32) -> End
    requires few { length toks.now < 2 ^ 32 }
{
    match name {
        "[word]" => behind_all(Ok(optional(toks, Terminal::Word, at))),
        "[group]" => behind_all(Ok(optional(toks, Terminal::Group, at))),
        "int|group" => ended(either(toks, Terminal::Int, Terminal::Group, at)),
        "int|str" => ended(either(toks, Terminal::Int, Terminal::Str, at)),
        "group*" => behind_all(leaves(alloc, toks, Terminal::Group, at)),
        _ => End::NoProduction,
    }
}

/// The place behind attributes, flags and attachments.
fn attribute(alloc: Global, name: &str, toks: &[Terminal], at: u32) -> End
    requires few { length toks.now < 2 ^ 32 }
{
    match name {
        "cc" => behind(Ok(cc(toks, at))),
        "comdat" => behind(Ok(comdat(toks, at))),
        "attach" => behind(Ok(attach(toks, at))),
        "attachments" => behind_all(attachments(alloc, toks, at)),
        "fattr" => behind(fattr(alloc, toks, at)),
        "rattr*" => behind_all(rattrs(alloc, toks, at)),
        "gattr*" => behind_all(gattrs(alloc, toks, at)),
        "word*" => behind_all(words(alloc, toks, at)),
        "iflag*" => behind_all(iflags(alloc, toks, at)),
        "gepflag*" => behind_all(gepflags(alloc, toks, at)),
        _ => leaf(alloc, name, toks, at),
    }
}

/// The place behind the production of this name from this token on.
pub fn part(alloc: Global, name: &str, toks: &[Terminal], at: u32) -> End
    requires few { length toks.now < 2 ^ 32 }
{
    match name {
        "type" => behind(ty(alloc, toks, at)),
        "ftype" => behind(ftype(alloc, toks, at)),
        "const" => behind(constant(alloc, toks, at)),
        "tconst" => behind(tconst(alloc, toks, at)),
        "value" => behind(value(alloc, toks, at)),
        "tvalue" => behind(tvalue(alloc, toks, at)),
        _ => attribute(alloc, name, toks, at),
    }
}
