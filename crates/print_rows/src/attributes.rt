//! Attributes, each by its name; `align` and `dereferenceable` have their number behind them, and `memory` the three
//! numbers of accesses that it permits: by default, through arguments, and inaccessible.
use crate::words::{id, number};
use ir_module::{FuncAttrs, MemoryAttr, ParamAttrs};
use std::str::SplitWhitespace;

pub(crate) const NO_FUNC_ATTRS: FuncAttrs = FuncAttrs {
    nounwind: false,
    noreturn: false,
    nofree: false,
    norecurse: false,
    nocallback: false,
    memory: None,
};

pub(crate) const NO_ATTRS: ParamAttrs = ParamAttrs {
    nonnull: false,
    nocapture: false,
    captures: false,
    readnone: false,
    readonly: false,
    writeonly: false,
    returned: false,
    sret: false,
    writable: false,
    align: 0,
    dereferenceable: 0,
    bad: false,
};

fn accesses(words: &mut SplitWhitespace<'_>) -> u8 {
    (number(words) & 3) as u8
}

fn memory(words: &mut SplitWhitespace<'_>) -> MemoryAttr {
    MemoryAttr {
        other: accesses(words),
        argmem: accesses(words),
        inaccessible: accesses(words),
    }
}

/// Sets the attribute of a body or a call with this name.
pub(crate) fn set_func(attrs: &mut FuncAttrs, name: &str, words: &mut SplitWhitespace<'_>) {
    match name {
        "nounwind" => attrs.nounwind = true,
        "noreturn" => attrs.noreturn = true,
        "nofree" => attrs.nofree = true,
        "norecurse" => attrs.norecurse = true,
        _ => attrs.memory = Some(memory(words)),
    }
}

fn set_access(attrs: &mut ParamAttrs, name: &str) {
    match name {
        "readnone" => attrs.readnone = true,
        "readonly" => attrs.readonly = true,
        "writeonly" => attrs.writeonly = true,
        "returned" => attrs.returned = true,
        "sret" => attrs.sret = true,
        _ => attrs.writable = true,
    }
}

/// Sets the attribute of a parameter, an argument or a return with this name.
pub(crate) fn set_param(attrs: &mut ParamAttrs, name: &str, words: &mut SplitWhitespace<'_>) {
    match name {
        "nonnull" => attrs.nonnull = true,
        "nocapture" => attrs.nocapture = true,
        "captures" => attrs.captures = true,
        "align" => attrs.align = number(words),
        "dereferenceable" => attrs.dereferenceable = number(words),
        _ => set_access(attrs, name),
    }
}

/// The attributes of a parameter, up to the end of the line.
pub(crate) fn param_attrs(words: &mut SplitWhitespace<'_>) -> ParamAttrs {
    let mut attrs = NO_ATTRS;
    for _ in 0..u64::MAX {
        match words.next() {
            Some(name) => set_param(&mut attrs, name, words),
            None => break,
        }
    }
    attrs
}

/// The attributes of a header: its own, up to the word `ret`.
pub(crate) fn func_attrs(words: &mut SplitWhitespace<'_>) -> FuncAttrs {
    let mut attrs = NO_FUNC_ATTRS;
    for _ in 0..u64::MAX {
        match words.next() {
            Some("ret") | None => break,
            Some(name) => set_func(&mut attrs, name, words),
        }
    }
    attrs
}

/// The part of a call whose attributes come next.
#[derive(Clone, Copy)]
pub(crate) enum Part {
    Whole,
    Return,
    Argument(u32),
}

/// The part that a word begins, if it begins one.
pub(crate) fn begun_part(name: &str, words: &mut SplitWhitespace<'_>) -> Option<Part> {
    match name {
        "fn" => Some(Part::Whole),
        "ret" => Some(Part::Return),
        "arg" => Some(Part::Argument(id(words))),
        _ => None,
    }
}
