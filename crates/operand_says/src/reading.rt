//! Operands as terms.
ghost use Rattle.std.specs.Prelude.{◌≡◌, ◌<◌, ◌+◌, ◌^◌, if◌then◌else◌};
ghost use Rattle.lattice_words.specs.Words.{word_of};
ghost use Rattle.facts.specs.Bodies as bodies;
ghost use Rattle.facts.specs.Known.{written_has};
ghost use Rattle.rule_says.specs.Reading.{IsNumbering};
ghost use Rattle.rule_says.specs.Saying.{Says};
ghost use Rattle.operand_says.specs.Asked.{nothing, AsksOperand, SpeaksOperand, IsReadable};

use crate::constants::{null_has, poison_has, undef_has};
use crate::kinds::says;
use crate::moving::{offset_has, symbol_bit};
use attr_ids::TypeId;
use facts::Pos;
use ir_module::{Module, Operand, Symbol, Written};
use ir_types::IrType;
use positions::Positions;
use rule_says::{bits, word};
use rule_terms::NewTerm;

/// How many bits say something of a pointer, but of its uses.
const BITS: u32 = 43;

/// The type is `ptr`.
pub fn is_pointer(m: &Module, t: TypeId) -> bool
    ensures { result ≡ bodies.is_pointer m.now t }
{
    matches!(m.types.as_slice().get(t.0 as usize), Some(IrType::Ptr))
}

/// The bit is known of a constant operand.
fn knows(m: &Module, w: &Written, bit: u32) -> bool
    ensures { result ≡ written_has m.now nothing w.now bit }
{
    match w.val {
        Operand::Zero => is_pointer(m, w.ty) && null_has(says(bit)),
        Operand::Null => null_has(says(bit)),
        Operand::Undef => undef_has(says(bit)),
        Operand::Poison => poison_has(says(bit)),
        Operand::Global(g) => symbol_bit(m, Symbol::Global(g), bit),
        Operand::Func(f) => symbol_bit(m, Symbol::Func(f), bit),
        Operand::Offset {
            base,
            bytes,
            inbounds,
            wrap,
        } => offset_has(m, base, bytes, inbounds, wrap, bit),
        _ => false,
    }
}

/// The word with one bit more, if the test is true.
pub fn with(word: u64, bit: u32, test: bool) -> u64
    requires bit { bit < 43 }
    requires word { word < 2 ^ bit }
    ensures { result ≡ (if test then 2 ^ bit else 0) + word }
{
    if test { (1 << bit) + word } else { word }
}

/// What is known of a constant operand: none of its bits is one of a use.
pub fn known(m: &Module, w: &Written) -> u64
    ensures { result ≡ word_of (written_has m.now nothing w.now) 43 }
{
    let mut word = 0;
    for bit in 0..BITS {
        word = with(word, bit, knows(m, w, bit));
    }
    word
}

/// The term that gives those of these bits that are known of an operand.
pub fn operand(m: &Module, ps: &Positions, w: &Written, asked: u64) -> NewTerm
    requires numbering { IsNumbering m.now ps.now }
    requires readable { IsReadable ps.now w.now.val }
    requires low { asked < 2 ^ 43 }
    ensures { Says m.now ps.now asked result (AsksOperand m.now w.now) (SpeaksOperand w.now asked) }
{
    match w.val {
        Operand::Value(v) => word(ps, Pos::Value(v), asked),
        _ => bits(known(m, w)),
    }
}
