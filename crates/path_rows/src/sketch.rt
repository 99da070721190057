//! A module of one body, made word by word.
use crate::words::{at, number, numbers};
use attr_ids::{BlockId, FuncId, NoMemory, Offsets, SegId, Span, Text, TypeId, ValueId};
use ir_module::{
    Arm, Arms, Block, Blocks, Call, CallAttrs, CallPlaces, Case, Cases, Def, Func, FuncAttrs,
    FuncPlaces, FuncType, Funcs, Globals, Instr, Instrs, Linkage, Module, Op, Operand, Operands,
    ParamAttrs, ParamAttrsList, Params, Seg, Segs, Spot, ValueInfo, Values, Written,
};
use ir_types::{IrType, TypeList, TypeTable};
use std::alloc::Global;
use std::mem;

const TYPE: TypeId = TypeId(0);

const NO_ATTRS: FuncAttrs = FuncAttrs {
    nounwind: false,
    noreturn: false,
    nofree: false,
    norecurse: false,
    nocallback: false,
    memory: None,
};

const NO_PARAM_ATTRS: ParamAttrs = ParamAttrs {
    nonnull: false,
    nocapture: false,
    captures: false,
    readnone: false,
    readonly: false,
    writeonly: false,
    returned: false,
    sret: false,
    writable: false,
    align: 0,
    dereferenceable: 0,
    bad: false,
};

/// The module so far, and the instructions of the segment that is not ended.
#[derive(Drop)]
pub(crate) struct Sketch {
    pub module: Module,
    instrs: Instrs,
    first_seg: u32,
    uses: u32,
}

/// A length as a number of a thing.
fn count(length: usize) -> u32 {
    u32::try_from(length).unwrap_or(u32::MAX)
}

fn empty_module(alloc: Global) -> Module {
    Module {
        types: TypeTable::new(alloc),
        globals: Globals::new(alloc),
        funcs: Funcs::new(alloc),
        blocks: Blocks::new(alloc),
        segs: Segs::new(alloc),
        values: Values::new(alloc),
        parts: Operands::new(alloc),
        type_at: Offsets::new(alloc),
    }
}

/// A function with all of the blocks.
fn func(alloc: Global, block_count: u32) -> Func {
    Func {
        name: Text::new(alloc),
        linkage: Linkage::Plain,
        ret: TYPE,
        ret_attrs: NO_PARAM_ATTRS,
        params: Params::new(alloc),
        variadic: false,
        attrs: NO_ATTRS,
        places: FuncPlaces { ret: 0, after: 0 },
        personality: false,
        extra: Operands::new(alloc),
        token: Span { from: 0, to: 0 },
        at: 0,
        first_block: 0,
        block_count,
    }
}

/// A call without arguments.
fn bare_call(alloc: Global) -> Call {
    Call {
        func_ty: FuncType {
            ret: TYPE,
            params: TypeList::new(alloc),
            variadic: false,
        },
        callee: Written {
            val: Operand::Null,
            ty: TYPE,
            at: 0,
        },
        args: Operands::new(alloc),
        attrs: CallAttrs {
            func: NO_ATTRS,
            ret: NO_PARAM_ATTRS,
            args: ParamAttrsList::new(alloc),
        },
        places: CallPlaces {
            ret: 0,
            after: 0,
            args: Offsets::new(alloc),
        },
    }
}

fn add_arg(call: &mut Call, arg: Written) -> Result<(), NoMemory> {
    call.attrs.args.push(NO_PARAM_ATTRS)?;
    call.places.args.push(0)?;
    call.args.push(arg)
}

fn call_of(alloc: Global, arg: Written) -> Result<Call, NoMemory> {
    let mut call = bare_call(alloc);
    add_arg(&mut call, arg)?;
    Ok(call)
}

impl Sketch {
    pub(crate) fn new(alloc: Global) -> Result<Box<Sketch>, NoMemory> {
        let sketch = Sketch {
            module: empty_module(alloc),
            instrs: Instrs::new(alloc),
            first_seg: 0,
            uses: 0,
        };
        Ok(Box::new(alloc, sketch)?)
    }

    /// A use of a result, by its number.
    fn operand(&mut self, value: u32) -> Written {
        let at = self.uses;
        self.uses = at.saturating_add(1);
        Written {
            val: Operand::Value(ValueId(value)),
            ty: TYPE,
            at,
        }
    }

    /// Puts an instruction without a result at the end.
    fn push(&mut self, op: Op) -> Result<(), NoMemory> {
        self.put(op, None)
    }

    fn put(&mut self, op: Op, made: Option<ValueId>) -> Result<(), NoMemory> {
        self.instrs.push(Instr {
            result: made,
            named: false,
            ty: TYPE,
            op,
            span: Span { from: 0, to: 0 },
        })
    }

    /// Puts an instruction with a result at the end.
    fn make(&mut self, op: Op) -> Result<(), NoMemory> {
        let value = count(self.module.values.len());
        let spot = Spot {
            seg: SegId(count(self.module.segs.len())),
            at: count(self.instrs.len()),
        };
        self.put(op, Some(ValueId(value)))?;
        self.module.values.push(ValueInfo {
            func: FuncId(0),
            ty: TYPE,
            def: Def::Instr(spot),
        })
    }

    fn end_seg(&mut self, alloc: Global) -> Result<(), NoMemory> {
        let instrs = mem::replace(&mut self.instrs, Instrs::new(alloc));
        let block = BlockId(count(self.module.blocks.len()));
        self.module.segs.push(Seg { block, instrs })
    }

    fn end_block(&mut self, alloc: Global) -> Result<(), NoMemory> {
        self.end_seg(alloc)?;
        let first_seg = self.first_seg;
        let end = count(self.module.segs.len());
        self.first_seg = end;
        self.module.blocks.push(Block {
            func: FuncId(0),
            name: Text::new(alloc),
            first_seg,
            seg_count: end.saturating_sub(first_seg),
        })
    }

    /// The arms of a phi.
    fn arms(&mut self, alloc: Global, text: &str) -> Result<Arms, NoMemory> {
        let mut arms = Arms::new(alloc);
        for part in text.split(',') {
            if let Some((value, from)) = part.split_once('@') {
                let val = self.operand(number(value));
                let from = BlockId(number(from));
                arms.push(Arm { val, from })?;
            }
        }
        Ok(arms)
    }

    /// The cases of a switch, by all its blocks, of which the first is the default.
    fn cases(&self, alloc: Global, all: &[u32]) -> Result<Cases, NoMemory> {
        let mut cases = Cases::new(alloc);
        for k in 1..all.len() {
            let val = Written::default();
            let to = BlockId(at(all, k));
            cases.push(Case { val, to })?;
        }
        Ok(cases)
    }

    fn add_switch(&mut self, alloc: Global, text: &str) -> Result<(), NoMemory> {
        let all = numbers(alloc, text)?;
        let cases = self.cases(alloc, &all)?;
        let on = Written::default();
        let other = BlockId(at(&all, 0));
        self.push(Op::Switch { on, other, cases })
    }

    fn add_branch(&mut self, alloc: Global, text: &str) -> Result<(), NoMemory> {
        let all = numbers(alloc, text)?;
        let op = Op::Branch {
            c: Written::default(),
            yes: BlockId(at(&all, 0)),
            no: BlockId(at(&all, 1)),
        };
        self.push(op)
    }

    fn add_invoke(&mut self, alloc: Global, text: &str) -> Result<(), NoMemory> {
        let all = numbers(alloc, text)?;
        let (normal, unwind) = (BlockId(at(&all, 0)), BlockId(at(&all, 1)));
        let call = if all.len() > 2 {
            let arg = self.operand(at(&all, 2));
            call_of(alloc, arg)?
        } else {
            bare_call(alloc)
        };
        self.make(Op::Invoke {
            call,
            normal,
            unwind,
        })
    }

    /// Puts a terminator at the end, if the word is one.
    fn add_terminator(&mut self, alloc: Global, kind: char, rest: &str) -> Result<bool, NoMemory> {
        match kind {
            'r' => self.push(Op::Unreachable)?,
            'j' => {
                let to = BlockId(number(rest));
                self.push(Op::Jump { to })?;
            }
            'b' => self.add_branch(alloc, rest)?,
            's' => self.add_switch(alloc, rest)?,
            'i' => self.add_invoke(alloc, rest)?,
            _ => return Ok(false),
        }
        self.end_block(alloc)?;
        Ok(true)
    }

    fn add_call(&mut self, alloc: Global) -> Result<(), NoMemory> {
        self.make(Op::Call(bare_call(alloc)))?;
        self.end_seg(alloc)
    }

    fn add_phi(&mut self, alloc: Global, rest: &str) -> Result<(), NoMemory> {
        let arms = self.arms(alloc, rest)?;
        self.make(Op::Phi { arms })
    }

    fn add_use(&mut self, rest: &str) -> Result<(), NoMemory> {
        let a = self.operand(number(rest));
        self.push(Op::Freeze { a })
    }

    fn add_result(&mut self) -> Result<(), NoMemory> {
        let op = Op::Alloca {
            ty: TYPE,
            count: None,
            align: None,
        };
        self.make(op)
    }

    /// Puts the instruction of a word at the end.
    fn add(&mut self, alloc: Global, word: &str) -> Result<(), NoMemory> {
        let mut chars = word.chars();
        let kind = chars.next().unwrap_or(' ');
        let rest = chars.as_str();
        if self.add_terminator(alloc, kind, rest)? {
            return Ok(());
        }
        match kind {
            'd' => self.add_result(),
            'c' => self.add_call(alloc),
            'p' => self.add_phi(alloc, rest),
            _ => self.add_use(rest),
        }
    }

    /// Puts the function of all that was put at the end.
    fn finish(&mut self, alloc: Global) -> Result<(), NoMemory> {
        if self.module.types.len() == 0 {
            self.module.types.add(alloc, IrType::Ptr)?;
            self.module.type_at.push(0)?;
        }
        let block_count = count(self.module.blocks.len());
        self.module.funcs.push(func(alloc, block_count))
    }

    /// Puts the instructions of all words of a text.
    pub(crate) fn add_all(&mut self, alloc: Global, text: &str) -> Result<(), NoMemory> {
        for word in text.split_whitespace() {
            self.add(alloc, word)?;
        }
        self.finish(alloc)
    }
}
