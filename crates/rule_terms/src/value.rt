ghost use Rattle.std.specs.Prelude.{◌≡◌, ◌<◌, ℕ};
ghost use Rattle.rule_terms.specs.Looked.{input_word, input_count, HasWords};
ghost use Rattle.rule_terms.specs.Slots.{AreOrdered, IsReadable, nth, numbered_meaning, slot_terms};

use crate::term::{Term, TermId};
use attr_ids::PosId;
use lattice_words::{keep_align, shift};

/// Where the words of a position's inputs come from: one word for each input, or the words of all
/// positions.
#[derive(Clone, Copy)]
pub(crate) enum Looked<'a> {
    Each(&'a [u64]),
    Through {
        inputs: &'a [PosId],
        words: &'a [u64],
    },
}

impl Looked<'_> {
    fn word(&self, number: u32) -> u64
        requires words { HasWords self.now }
        requires input { number < input_count self.now }
        ensures { result ≡ input_word self.now number }
    {
        match self {
            Looked::Each(words) => words[number as usize],
            Looked::Through { inputs, words } => words[inputs[number as usize].0 as usize],
        }
    }
}

/// What the term at this place gives.
pub(crate) fn value(slots: &[Term], looked: &Looked<'_>, place: TermId) -> u64
    requires ordered { AreOrdered slots.now }
    requires words { HasWords looked.now }
    requires readable { IsReadable slots.now (input_count looked.now) place.0 }
    ensures { result ≡ numbered_meaning (input_word looked.now) (nth (slot_terms slots.now) place.0) }
{
    match slots[place.0 as usize] {
        Term::Const(bits) => bits,
        Term::Word(input) => looked.word(input),
        Term::And(left, right) => value(slots, looked, left) & value(slots, looked, right),
        Term::Or(left, right) => value(slots, looked, left) | value(slots, looked, right),
        Term::Unless { input, bit, then } => {
            if looked.word(input) >> bit & 1 == 1 {
                u64::MAX
            } else {
                value(slots, looked, then)
            }
        }
        Term::Shift { bytes, of } => shift(bytes, value(slots, looked, of)),
        Term::KeepAlign { step, of } => keep_align(step, value(slots, looked, of)),
        Term::Spread { bit, to, of } => {
            if value(slots, looked, of) >> bit & 1 == 1 {
                to
            } else {
                0
            }
        }
    }
}
