//! How much there is of a module.
ghost use Rattle.std.specs.Prelude.{◌≡◌, ◌<◌, ◌≤◌, ◌*◌, ◌^◌, length};
ghost use Rattle.ir_module.specs.WellFormed.{HasFew};
ghost use Rattle.facts.specs.Bodies.{param_count};
ghost use Rattle.accept.specs.Counting as spec;
ghost use Rattle.accept.specs.Limits.{instruction_count};

use attr_ids::{FuncId, SegId};
use ir_module::{Module, Spot, instr_at};

pub(crate) fn greater(a: u64, b: u64) -> u64
    ensures { result ≡ spec.greater a b }
{
    if a < b { b } else { a }
}

/// How many parameters a function has.
fn params_of(m: &Module, f: u32) -> u64
    requires { f < length m.now.funcs }
    ensures { result ≡ param_count m.now f }
{
    m.func(FuncId(f)).params.len() as u64
}

/// The greatest number of parameters of one function.
pub(crate) fn greatest_params(m: &Module) -> u64
    requires { HasFew m.now }
    ensures { result ≡ spec.greatest_params m.now }
{
    let mut most = 0;
    for f in 0..m.funcs.len() as u32 {
        most = greater(most, params_of(m, f));
    }
    most
}

/// How many arguments the instruction at a place has, if it is a call.
fn args_at(m: &Module, seg: u32, at: u32) -> u64
    ensures { result ≡ spec.args_at m.now seg at }
{
    let here = Spot {
        seg: SegId(seg),
        at,
    };
    match instr_at(m, here) {
        Some(instr) => match instr.op.call() {
            Some(call) => call.args.len() as u64,
            None => 0,
        },
        None => 0,
    }
}

/// How many instructions a segment has.
fn seg_length(m: &Module, seg: u32) -> u32
    requires few { HasFew m.now }
    requires there { seg < length m.now.segs }
    ensures length { result ≡ spec.seg_length m.now seg }
    ensures few { result < 2 ^ 31 }
{
    m.seg(SegId(seg)).instrs.len() as u32
}

/// The greatest number of arguments of one call of a segment.
fn args_in_seg(m: &Module, seg: u32) -> u64
    requires few { HasFew m.now }
    requires there { seg < length m.now.segs }
    ensures { result ≡ spec.args_in_seg m.now seg }
{
    let mut most = 0;
    for at in 0..seg_length(m, seg) {
        most = greater(most, args_at(m, seg, at));
    }
    most
}

/// The greatest number of arguments of one call.
pub(crate) fn greatest_args(m: &Module) -> u64
    requires { HasFew m.now }
    ensures { result ≡ spec.greatest_args m.now }
{
    let mut most = 0;
    for seg in 0..m.segs.len() as u32 {
        most = greater(most, args_in_seg(m, seg));
    }
    most
}

/// How many instructions there are.
pub(crate) fn instructions(m: &Module) -> u64
    requires { HasFew m.now }
    ensures { result ≡ instruction_count m.now }
{
    let mut count = 0;
    for seg in 0..m.segs.len() as u32 {
        count += seg_length(m, seg) as u64;
    }
    count
}
