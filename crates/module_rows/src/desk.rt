//! The module that the lines put together.
use crate::calls::{NO_ATTRS, NO_FUNC_ATTRS};
use crate::instrs::add_instr;
use crate::line::Line;
use crate::operands::{operand, operand_if};
use crate::types::add_type;
use crate::words::{id, number, ty, word};
use attr_ids::{BlockId, FuncId, NoMemory, Offsets, SegId, Sequence, Span, Text, TypeId, ValueId};
use ir_module::{
    Block, Blocks, Def, Func, FuncPlaces, Funcs, GlobalVar, Globals, Instrs, Linkage, Module,
    Operands, Param, Params, Seg, Segs, Spot, ValueInfo, Values,
};
use ir_types::TypeTable;
use std::alloc::Global;
use std::mem;
use std::str::SplitWhitespace;

/// A module, what waits for the function and the segment that it belongs to, and the number of the line at hand, at which
/// its entry counts as written.
#[derive(Drop)]
pub(crate) struct Desk {
    pub module: Module,
    pub line: u32,
    params: Params,
    extra: Operands,
    instrs: Instrs,
}

fn empty_module(alloc: Global) -> Module {
    Module {
        types: TypeTable::new(alloc),
        globals: Globals::new(alloc),
        funcs: Funcs::new(alloc),
        blocks: Blocks::new(alloc),
        segs: Segs::new(alloc),
        values: Values::new(alloc),
        parts: Operands::new(alloc),
        type_at: Offsets::new(alloc),
    }
}

fn linkage(word: &str) -> Linkage {
    match word {
        "private" => Linkage::Private,
        "internal" => Linkage::Internal,
        "available_externally" => Linkage::AvailableExternally,
        "linkonce" => Linkage::Linkonce,
        "weak" => Linkage::Weak,
        "common" => Linkage::Common,
        "appending" => Linkage::Appending,
        "extern_weak" => Linkage::ExternWeak,
        "linkonce_odr" => Linkage::LinkonceOdr,
        "weak_odr" => Linkage::WeakOdr,
        "external" => Linkage::External,
        _ => Linkage::Plain,
    }
}

fn spot(words: &mut SplitWhitespace<'_>) -> Spot {
    Spot {
        seg: SegId(id(words)),
        at: id(words),
    }
}

fn def(words: &mut SplitWhitespace<'_>) -> Def {
    match word(words) {
        "param" => Def::Param(id(words)),
        _ => Def::Instr(spot(words)),
    }
}

fn value(words: &mut SplitWhitespace<'_>) -> ValueInfo {
    ValueInfo {
        func: FuncId(id(words)),
        ty: ty(words),
        def: def(words),
    }
}

/// Puts another entry in the place of one, if there is one.
fn put<T: Drop>(table: &mut Sequence<T>, at: u32, entry: T) {
    if (at as usize) < table.len() {
        table.set(at as usize, entry);
    }
}

fn block(alloc: Global, words: &mut SplitWhitespace<'_>) -> Block {
    Block {
        func: FuncId(id(words)),
        name: Text::new(alloc),
        first_seg: id(words),
        seg_count: id(words),
    }
}

fn global(alloc: Global, at: u32, words: &mut SplitWhitespace<'_>) -> GlobalVar {
    GlobalVar {
        name: Text::new(alloc),
        linkage: Linkage::Plain,
        ty: ty(words),
        init: operand_if(words),
        align: None,
        at,
    }
}

/// A global with its linkage and its alignment in front.
fn linked(alloc: Global, at: u32, words: &mut SplitWhitespace<'_>) -> GlobalVar {
    let linkage = linkage(word(words));
    let align = number(words);
    let mut global = global(alloc, at, words);
    global.linkage = linkage;
    global.align = Some(align);
    global
}

impl Desk {
    pub(crate) fn new(alloc: Global) -> Result<Box<Desk>, NoMemory> {
        let desk = Desk {
            module: empty_module(alloc),
            line: 0,
            params: Params::new(alloc),
            extra: Operands::new(alloc),
            instrs: Instrs::new(alloc),
        };
        Ok(Box::new(alloc, desk)?)
    }

    fn add_param(&mut self, words: &mut SplitWhitespace<'_>) -> Result<(), NoMemory> {
        self.params.push(Param {
            value: ValueId(id(words)),
            ty: ty(words),
            attrs: NO_ATTRS,
            place: 0,
        })
    }

    /// The function that a line ends: its name, its linkage, its return type and its blocks.
    fn func(&mut self, alloc: Global, name: Text, words: &mut SplitWhitespace<'_>) -> Func {
        Func {
            name,
            linkage: linkage(word(words)),
            ret: ty(words),
            ret_attrs: NO_ATTRS,
            params: mem::replace(&mut self.params, Params::new(alloc)),
            variadic: false,
            attrs: NO_FUNC_ATTRS,
            places: FuncPlaces { ret: 0, after: 0 },
            personality: !self.extra.is_empty(),
            extra: mem::replace(&mut self.extra, Operands::new(alloc)),
            token: Span { from: 0, to: 0 },
            at: self.line,
            first_block: id(words),
            block_count: id(words),
        }
    }

    fn add_func(&mut self, alloc: Global, words: &mut SplitWhitespace<'_>) -> Result<(), NoMemory> {
        let name = Text::from_slice(alloc, word(words).as_bytes())?;
        let func = self.func(alloc, name, words);
        self.module.funcs.push(func)
    }

    /// The segment of a block with the instructions that wait.
    fn seg(&mut self, alloc: Global, block: u32) -> Seg {
        Seg {
            block: BlockId(block),
            instrs: mem::replace(&mut self.instrs, Instrs::new(alloc)),
        }
    }

    /// Puts another entry in the place of one.
    fn put(&mut self, alloc: Global, words: &mut SplitWhitespace<'_>) {
        let table = word(words);
        let at = id(words);
        match table {
            "block" => put(&mut self.module.blocks, at, block(alloc, words)),
            "seg" => {
                let seg = self.seg(alloc, id(words));
                put(&mut self.module.segs, at, seg);
            }
            "value" => put(&mut self.module.values, at, value(words)),
            _ => self.module.type_at = Offsets::new(alloc),
        }
    }

    /// Adds an entry to a table of the module, or puts another one in its place; answers whether the line says so.
    fn enter(
        &mut self,
        alloc: Global,
        entry: &str,
        words: &mut SplitWhitespace<'_>,
        line: &mut Line,
    ) -> bool {
        let at = self.line;
        match entry {
            "global" => line.keep(self.module.globals.push(global(alloc, at, words))),
            "linked" => line.keep(self.module.globals.push(linked(alloc, at, words))),
            "block" => line.keep(self.module.blocks.push(block(alloc, words))),
            "seg" => {
                let seg = self.seg(alloc, id(words));
                line.keep(self.module.segs.push(seg));
            }
            "value" => line.keep(self.module.values.push(value(words))),
            "put" => self.put(alloc, words),
            _ => return false,
        }
        true
    }

    /// Does what a line says that adds an entry; answers whether it is such a line.
    pub(crate) fn add(
        &mut self,
        alloc: Global,
        entry: &str,
        words: &mut SplitWhitespace<'_>,
        line: &mut Line,
    ) -> bool {
        self.line = self.line.saturating_add(1);
        match entry {
            "type" => line.keep(add_type(alloc, self.line, &mut self.module, words)),
            "do" => line.keep(add_instr(alloc, self.line, &mut self.instrs, words)),
            "param" => line.keep(self.add_param(words)),
            "extra" => line.keep(self.extra.push(operand(words))),
            "part" => line.keep(self.module.parts.push(operand(words))),
            "func" => line.keep(self.add_func(alloc, words)),
            _ => return self.enter(alloc, entry, words, line),
        }
        true
    }
}
