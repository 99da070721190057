//! The module that the lines put together.
use crate::attributes::{func_attrs, param_attrs};
use crate::calls::call;
use crate::words::{id, ty, word};
use attr_ids::{BlockId, FuncId, NoMemory, Offsets, SegId, Span, Text, TypeId, ValueId};
use ir_module::{
    Block, Blocks, Def, Func, FuncPlaces, Funcs, Globals, Instr, Instrs, Linkage, Module, Op,
    Operand, Operands, Param, Params, Seg, Segs, Spot, ValueInfo, Values, Written,
};
use ir_types::{IrType, TypeTable};
use std::alloc::Global;
use std::mem;
use std::str::SplitWhitespace;

/// A module, and what waits for the function and the segment that it belongs to.
#[derive(Drop)]
pub(crate) struct Desk {
    pub module: Module,
    params: Params,
    instrs: Instrs,
}

fn empty_module(alloc: Global) -> Module {
    Module {
        types: TypeTable::new(alloc),
        globals: Globals::new(alloc),
        funcs: Funcs::new(alloc),
        blocks: Blocks::new(alloc),
        segs: Segs::new(alloc),
        values: Values::new(alloc),
        parts: Operands::new(alloc),
        type_at: Offsets::new(alloc),
    }
}

/// Adds the types 0 to 3: `void`, `ptr`, `i32` and `i64`.
fn add_types(alloc: Global, m: &mut Module) -> Result<(), NoMemory> {
    m.types = TypeTable::new(alloc);
    m.types.add(alloc, IrType::Void)?;
    m.types.add(alloc, IrType::Ptr)?;
    m.types.add(alloc, IrType::Int { width: 32 })?;
    m.types.add(alloc, IrType::Int { width: 64 })?;
    m.type_at = Offsets::from_vec(vec![in alloc; 0u32; 4]?);
    Ok(())
}

fn linkage(word: &str) -> Linkage {
    match word {
        "weak" => Linkage::Weak,
        "external" => Linkage::External,
        _ => Linkage::Internal,
    }
}

fn block(alloc: Global, words: &mut SplitWhitespace<'_>) -> Block {
    Block {
        func: FuncId(id(words)),
        name: Text::new(alloc),
        first_seg: id(words),
        seg_count: id(words),
    }
}

/// A value: a parameter by its number, or made at a place.
fn value(words: &mut SplitWhitespace<'_>) -> ValueInfo {
    ValueInfo {
        func: FuncId(id(words)),
        ty: ty(words),
        def: match word(words) {
            "param" => Def::Param(id(words)),
            _ => Def::Instr(Spot {
                seg: SegId(id(words)),
                at: id(words),
            }),
        },
    }
}

/// What a body returns: nothing, or zero of a type.
fn ret(words: &mut SplitWhitespace<'_>) -> Op {
    match words.next() {
        Some("zero") => Op::Ret {
            val: Some(Written {
                val: Operand::Zero,
                ty: ty(words),
                at: 0,
            }),
        },
        _ => Op::Ret { val: None },
    }
}

fn instr(op: Op, value: Option<ValueId>, ty: TypeId) -> Instr {
    Instr {
        result: value,
        named: value.is_some(),
        ty,
        op,
        span: Span { from: 0, to: 0 },
    }
}

impl Desk {
    pub(crate) fn new(alloc: Global) -> Result<Desk, NoMemory> {
        let mut module = empty_module(alloc);
        add_types(alloc, &mut module)?;
        Ok(Desk {
            module,
            params: Params::new(alloc),
            instrs: Instrs::new(alloc),
        })
    }

    fn add_param(&mut self, words: &mut SplitWhitespace<'_>) -> Result<(), NoMemory> {
        let value = id(words);
        self.params.push(Param {
            value: ValueId(value),
            ty: ty(words),
            attrs: param_attrs(words),
            place: value,
        })
    }

    /// The function that a line ends: its linkage, its return type, its blocks and its attributes.
    fn add_func(&mut self, alloc: Global, words: &mut SplitWhitespace<'_>) -> Result<(), NoMemory> {
        let linkage = linkage(word(words));
        let ret = ty(words);
        let first_block = id(words);
        let block_count = id(words);
        let attrs = func_attrs(words);
        self.module.funcs.push(Func {
            name: Text::new(alloc),
            linkage,
            ret,
            ret_attrs: param_attrs(words),
            params: mem::replace(&mut self.params, Params::new(alloc)),
            variadic: false,
            attrs,
            places: FuncPlaces { ret: 0, after: 0 },
            personality: false,
            extra: Operands::new(alloc),
            token: Span { from: 0, to: 0 },
            at: 0,
            first_block,
            block_count,
        })
    }

    /// A call, and behind `=` the number of its result.
    fn add_call(&mut self, alloc: Global, words: &mut SplitWhitespace<'_>) -> Result<(), NoMemory> {
        let value = match word(words) {
            "=" => Some(ValueId(id(words))),
            _ => None,
        };
        let ty = ty(words);
        let call = call(alloc, words)?;
        self.instrs.push(instr(Op::Call(call), value, ty))
    }

    /// The segment of a block with the instructions that wait.
    fn add_seg(&mut self, alloc: Global, block: u32) -> Result<(), NoMemory> {
        self.module.segs.push(Seg {
            block: BlockId(block),
            instrs: mem::replace(&mut self.instrs, Instrs::new(alloc)),
        })
    }

    /// Does what a line says that adds an entry; answers whether it is such a line.
    pub(crate) fn add(
        &mut self,
        alloc: Global,
        entry: &str,
        words: &mut SplitWhitespace<'_>,
    ) -> Result<bool, NoMemory> {
        match entry {
            "param" => self.add_param(words)?,
            "func" => self.add_func(alloc, words)?,
            "block" => self.module.blocks.push(block(alloc, words))?,
            "ret" => self.instrs.push(instr(ret(words), None, TypeId(0)))?,
            "call" => self.add_call(alloc, words)?,
            "seg" => self.add_seg(alloc, id(words))?,
            "value" => self.module.values.push(value(words))?,
            _ => return Ok(false),
        }
        Ok(true)
    }
}
