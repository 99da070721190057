//! A module that is being built.
ghost use Rattle.std.specs.Prelude.{◌≡◌, [], IfOk};
ghost use Rattle.ir_scopes.specs.declared.faults.NameFault.{NameFault as TheFault};
ghost use Rattle.ir_resolve.specs.Building.{before, found as the_found, IsReady, IsMark};
ghost use Rattle.ir_resolve.specs.Entities.{nothing};
ghost use Rattle.ir_resolve.specs.Functions.{Before, counts as the_counts};

use attr_ids::{FuncId, NoMemory};
use ir_bodies::Builder;
use ir_module::{Func, GlobalVar, ValueInfo};
use ir_scopes::{Counts, NameFault};
use std::alloc::Global;

/// The things of the entities that were read, and the first fault that was found.
#[derive(Drop)]
pub struct Resolving {
    pub globals: Vec<GlobalVar>,
    pub funcs: Vec<Func>,
    pub values: Vec<ValueInfo>,
    /// Segments, blocks and parts of constants; how many values there are; and the first fault.
    pub builder: Builder,
}

/// The numbers of the next function, block, segment and value.
#[derive(Clone, Copy)]
pub struct Mark {
    pub func: FuncId,
    pub block: u32,
    pub seg: u32,
    pub value: u32,
}

/// The number of the next of so many things. No text has so many that their number does not fit.
pub(crate) fn number(len: usize) -> Result<u32, NoMemory>
    ensures { IfOk result (λ n. n ≡ len) }
{
    u32::try_from(len).map_err(|_| NoMemory)
}

/// The things of a module before any entity, but for its named types.
pub(crate) const START: Counts = Counts {
    values: 0,
    blocks: 0,
    globals: 0,
    funcs: 0,
    types: 2,
    groups: 0,
    counter: 0,
};

/// The numbers of the first value and block of a function, and the counter.
pub(crate) fn counts_at(mark: Mark) -> Counts
    ensures { (b : Before) → IsMark b mark → result ≡ the_counts b }
{
    Counts {
        values: mark.value,
        blocks: mark.block,
        ..START
    }
}

impl Resolving {
    /// Nothing.
    pub(crate) fn new(alloc: Global, found: Option<NameFault>) -> Resolving
        ensures globals { result.globals.items ≡ [] }
        ensures values { result.values.items ≡ [] }
        ensures funcs { result.funcs.items ≡ [] }
        ensures blocks { result.builder.blocks.items ≡ [] }
        ensures segs { result.builder.cutter.segs.items ≡ [] }
        ensures before { before result ≡ nothing }
        ensures found { the_found result ≡ found }
        ensures ready { IsReady result }
    {
        Resolving {
            globals: Vec::new(alloc),
            funcs: Vec::new(alloc),
            values: Vec::new(alloc),
            builder: Builder::new(alloc, found),
        }
    }

    /// How far it is built.
    pub(crate) fn mark(&self) -> Result<Mark, NoMemory>
        ensures { IfOk result (λ m. IsMark (before self.now) m) }
    {
        let func = FuncId(number(self.funcs.len())?);
        let block = number(self.builder.blocks.len())?;
        let seg = number(self.builder.cutter.segs.len())?;
        Ok(Mark {
            func,
            block,
            seg,
            value: self.builder.values,
        })
    }
}
