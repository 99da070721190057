//! The facts that words hold of the positions of a module.
ghost use Rattle.std.specs.Prelude.{◌≡◌, ◌<◌, ℕ, true, false};
ghost use Rattle.lattice_words.specs.Words as words;
ghost use Rattle.facts.specs.Facts.{fact, is_effect, of_value, unreached};
ghost use Rattle.facts.specs.Bodies.{is_body};
ghost use Rattle.positions.specs.Listed.{IsPosition};
ghost use Rattle.manifest.specs.Ready.{IsReady, set_of};

use attr_ids::{FuncId, ValueId};
use facts::Pos;
use ir_module::Module;
use lattice_words::reach::BODIES;
use positions::{Positions, is_value_of_body};

/// A module, its positions, and a word of facts for each.
#[derive(Clone, Copy)]
pub struct Held<'a> {
    pub m: &'a Module,
    pub positions: &'a Positions,
    pub words: &'a [u64],
}

/// Whether the bit is set.
pub(crate) fn has(word: u64, bit: u32) -> bool
    requires { bit < 64 }
    ensures { result ≡ words.has_bit word bit }
{
    word >> bit & 1 == 1
}

impl Held<'_> {
    /// The word of a position: the facts that are held of it. Effects are no facts.
    pub(crate) fn word(&self, p: Pos) -> u64
        requires ready { IsReady self.now }
        requires there { IsPosition self.now.m.now p }
        requires no_effect { is_effect p ≡ false }
        ensures { (bit : ℕ) → words.has_bit result bit ≡ set_of self.now (fact p bit) }
    {
        self.words[self.positions.number(p).0 as usize]
    }

    /// The bits that are held of a value: of one that is in no body none is.
    pub(crate) fn value_word(&self, v: ValueId) -> u64
        requires { IsReady self.now }
        ensures { (bit : ℕ) → words.has_bit result bit ≡ set_of self.now (of_value v.0 bit) }
    {
        if is_value_of_body(self.m, v.0) {
            return self.word(Pos::Value(v));
        }
        0
    }

    /// Whether the fact is held.
    pub(crate) fn holds(&self, p: Pos, bit: u32) -> bool
        requires ready { IsReady self.now }
        requires there { IsPosition self.now.m.now p }
        requires no_effect { is_effect p ≡ false }
        requires bit { bit < 64 }
        ensures { result ≡ set_of self.now (fact p bit) }
    {
        has(self.word(p), bit)
    }

    /// Whether a body does not reach itself.
    pub(crate) fn is_apart(&self, f: FuncId) -> bool
        requires ready { IsReady self.now }
        requires body { is_body self.now.m.now f.0 ≡ true }
        ensures { result ≡ set_of self.now (unreached self.now.m.now f.0 f.0) }
    {
        let rank = self.positions.number(Pos::Function(f)).0 - self.m.segs.len() as u32;
        self.holds(Pos::Reach(rank, rank / BODIES), rank % BODIES)
    }
}
