//! Instructions in segments: a call ends the segment in which it stands.
ghost use Rattle.std.specs.Prelude.{◌≡◌, [], ◌∷◌, ◌++◌, List, OnOk, map};
ghost use Rattle.ir_module.specs.declared.module.Seg.{Seg as TheSeg};
ghost use Rattle.ir_module.specs.declared.op.Instr.{Instr as TheInstr};
ghost use Rattle.ir_segments.specs.Segments as spec;
ghost use Rattle.ir_segments.specs.Segments.{IsCut};

use attr_ids::{BlockId, NoMemory, Sequence};
use ir_module::{Instr, Op, Seg};
use std::alloc::Global;
use std::mem;

/// The segments that are done, and the instructions of the one that is open.
#[derive(Drop)]
pub struct Cutter {
    pub segs: Vec<Seg>,
    pub run: Vec<Instr>,
}

/// Whether an instruction is a call, which ends a segment.
fn ends(op: &Op) -> bool
    ensures { result ≡ spec.ends_op op.now }
{
    op.call().is_some()
}

impl Cutter {
    /// No segments.
    pub fn new(alloc: Global) -> Cutter
        ensures segs { result.segs.items ≡ [] }
        ensures run { result.run.items ≡ [] }
    {
        Cutter {
            segs: Vec::new(alloc),
            run: Vec::new(alloc),
        }
    }

    /// Ends the segment that is open.
    fn end(&mut self, alloc: Global, block: BlockId) -> Result<(), NoMemory>
        ensures segs { OnOk result (self.new.segs.items ≡ self.old.segs.items ++ spec.seg block self.old.run.items ∷ []) }
        ensures run { OnOk result (self.new.run.items ≡ []) }
    {
        let run = mem::replace(&mut self.run, Vec::new(alloc));
        let instrs = Sequence::from_vec(run);
        self.segs.push(Seg { block, instrs })?;
        Ok(())
    }

    /// Takes the next instruction of a block in.
    pub fn push(&mut self, alloc: Global, block: BlockId, instr: Instr) -> Result<(), NoMemory>
        ensures { OnOk result ((old : List TheSeg) (taken : List TheInstr) → IsCut block old taken self.old.segs.items self.old.run.items →
            IsCut block old (taken ++ instr ∷ []) self.new.segs.items self.new.run.items) }
    {
        let is_last = ends(&instr.op);
        self.run.push(instr)?;
        if !is_last {
            return Ok(());
        }
        self.end(alloc, block)?;
        Ok(())
    }

    /// Ends the block.
    pub fn finish(&mut self, alloc: Global, block: BlockId) -> Result<(), NoMemory>
        ensures segs { OnOk result ((old : List TheSeg) (taken : List TheInstr) → IsCut block old taken self.old.segs.items self.old.run.items →
            self.new.segs.items ≡ old ++ map (spec.seg block) (spec.cut spec.ends taken)) }
        ensures run { OnOk result (self.new.run.items ≡ []) }
    {
        if self.run.is_empty() {
            return Ok(());
        }
        self.end(alloc, block)?;
        Ok(())
    }
}
