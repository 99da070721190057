//! Which bits are asked of an operand, and the arguments of calls.
ghost use Rattle.std.specs.Prelude.{◌≡◌, ◌↔◌, ◌<◌, ◌≤◌, ◌^◌, ℕ, true, IfOk, Some};
ghost use Rattle.ir_module.specs.declared.module.Module.{Module as TheModule};
ghost use Rattle.ir_module.specs.declared.op.Written.{Written as TheWritten};
ghost use Rattle.facts.specs.Masks.{is_bit};
ghost use Rattle.facts.specs.Known.{arg_at};
ghost use Rattle.positions.specs.Numbering.{IsListed};
ghost use Rattle.rule_says.specs.Reading.{IsNumbering};
ghost use Rattle.rule_says.specs.Saying.{IsSet, Says};
ghost use Rattle.operand_says.specs.Asked.{AsksArgument, SpeaksArgument, AsksBit, SpeaksBit, AsksGiven, SpeaksGiven, IsReadable};

use crate::reading::operand;
use attr_ids::NoMemory;
use facts::Pos;
use ir_module::{Module, Op, Written};
use positions::Positions;
use rule_says::{bits, spread};
use rule_terms::NewTerm;
use std::alloc::Global;

/// Those of these bits that are in the position's mask.
pub fn asked(ps: &Positions, p: Pos, bits: u64) -> u64
    requires { IsListed ps.now p }
    ensures set { (m : TheModule) → IsNumbering m ps.now → (bit : ℕ) → IsSet result bit ↔ (IsSet bits bit × (is_bit m p bit ≡ true)) }
    ensures less { result ≤ bits }
{
    ps.mask(ps.number(p)) & bits
}

/// The term that gives those of these bits that are known of argument `at` of a call.
pub fn argument(m: &Module, ps: &Positions, op: &Op, at: usize, asked: u64) -> NewTerm
    requires numbering { IsNumbering m.now ps.now }
    requires readable { (w : TheWritten) → arg_at op.now at ≡ Some w → IsReadable ps.now w.val }
    requires low { asked < 2 ^ 43 }
    ensures { Says m.now ps.now asked result (AsksArgument m.now op.now at) (SpeaksArgument op.now at asked) }
{
    let Some(call) = op.call() else {
        return bits(0);
    };
    match call.args.get(at) {
        Some(w) => operand(m, ps, w, asked),
        None => bits(0),
    }
}

/// A word of one bit.
fn one(bit: u32) -> u64
    requires { bit < 43 }
    ensures is { result ≡ 2 ^ bit }
    ensures low { result < 2 ^ 43 }
{
    1 << bit
}

/// The term that gives the bits `to` where this bit is known of an operand.
pub fn operand_bit(
    alloc: Global,
    m: &Module,
    ps: &Positions,
    w: &Written,
    bit: u32,
    to: u64,
) -> Result<NewTerm, NoMemory>
    requires numbering { IsNumbering m.now ps.now }
    requires readable { IsReadable ps.now w.now.val }
    requires bit { bit < 43 }
    ensures { IfOk result (λ t. Says m.now ps.now to t (AsksBit m.now w.now bit) (SpeaksBit w.now bit)) }
{
    let term = operand(m, ps, w, one(bit));
    spread(alloc, bit, to, term)
}

/// The same of argument `at` of a call.
pub fn argument_bit(
    alloc: Global,
    m: &Module,
    ps: &Positions,
    op: &Op,
    at: usize,
    bit: u32,
    to: u64,
) -> Result<NewTerm, NoMemory>
    requires numbering { IsNumbering m.now ps.now }
    requires readable { (w : TheWritten) → arg_at op.now at ≡ Some w → IsReadable ps.now w.val }
    requires bit { bit < 43 }
    ensures { IfOk result (λ t. Says m.now ps.now to t (AsksGiven m.now op.now at bit) (SpeaksGiven op.now at bit)) }
{
    let term = argument(m, ps, op, at, one(bit));
    spread(alloc, bit, to, term)
}
