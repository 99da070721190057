//! Landing pads that catch all.
ghost use Rattle.std.specs.Prelude.{◌≡◌, ◌||◌, false, slice_get, IfOk};
ghost use Rattle.std.specs.List.{list_any};
ghost use Rattle.std.specs.Option.{option_map_or};
ghost use Rattle.ir_module.specs.Places.{first_seg_of};
ghost use Rattle.ir_module.specs.Edges.{is_catch_all};
ghost use Rattle.aa_control.specs.Asked as spec;

use attr_ids::{BlockId, NoMemory};
use ir_module::{Instr, Module, Op};
use std::alloc::Global;

/// Whether the instruction is a landing pad that catches all.
fn is_pad(op: &Op) -> bool
    ensures { result ≡ is_catch_all op.now }
{
    match op {
        Op::LandingPad { catch_all, .. } => *catch_all,
        _ => false,
    }
}

fn or(a: bool, b: bool) -> bool
    ensures { result ≡ (a || b) }
{
    a || b
}

/// Whether a landing pad that catches all stands among these instructions.
fn has_pad(instrs: &[Instr]) -> bool
    ensures { result ≡ list_any (λ i. is_catch_all i.op) instrs.now }
{
    let mut found = false;
    for instr in instrs {
        found = or(found, is_pad(&instr.op));
    }
    found
}

/// Of each segment, whether a landing pad that catches all stands in it. They are looked for once, since many
/// `invoke`s may lead to one.
pub(crate) fn pads(alloc: Global, m: &Module) -> Result<Vec<bool>, NoMemory>
    ensures { IfOk result (λ pads. pads.items ≡ spec.pads_of m.now) }
{
    let mut pads = Vec::new(alloc);
    for seg in m.segs.as_slice() {
        pads.push(has_pad(seg.instrs.as_slice()))?;
    }
    Ok(pads)
}

/// The number of the segment in which a block begins.
fn start(m: &Module, block: BlockId) -> u32
    ensures { result ≡ first_seg_of m.now block.0 }
{
    match m.blocks.get(block.0 as usize) {
        Some(block) => block.first_seg,
        None => 0,
    }
}

/// The flag of a segment, if there is one of this number.
fn flag(pads: &[bool], at: u32) -> bool
    ensures { result ≡ option_map_or (λ b. b) (slice_get pads.now at) false }
{
    match pads.get(at as usize) {
        Some(pad) => *pad,
        None => false,
    }
}

/// Whether the instruction is an `invoke` whose unwind edge leads to a landing pad that catches all.
pub(crate) fn is_caught(m: &Module, pads: &[bool], op: &Op) -> bool
    requires { pads.now ≡ spec.pads_of m.now }
    ensures { result ≡ spec.is_caught m.now op.now }
{
    let Op::Invoke { unwind, .. } = op else {
        return false;
    };
    flag(pads, start(m, *unwind))
}
