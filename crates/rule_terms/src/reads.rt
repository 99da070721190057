ghost use Rattle.std.specs.Prelude.{◌≡◌, ◌<◌, ◌==◌, if◌then◌else◌, ℕ, length, slice_index, bit_or};
ghost use Rattle.rule_terms.specs.Reads.{with_byte_bits};
ghost use Rattle.rule_terms.specs.SlotReads.{ReadsToo};
ghost use Rattle.rule_terms.specs.Slots.{AreOrdered, IsReadable};

use crate::term::{Term, TermId};
use lattice_words::value::ALL_BYTES;

// The bits that are wanted before an offset, where these are wanted after it.
fn before_offset(wanted: u64) -> u64
    ensures { result ≡ with_byte_bits wanted }
{
    if wanted & ALL_BYTES == 0 {
        wanted
    } else {
        wanted | ALL_BYTES
    }
}

// These bits of the input of this number are read too.
fn note(reads: &mut [u64], input: u32, bits: u64)
    requires { input < length reads.old }
    ensures long { length reads.new ≡ length reads.old }
    ensures noted { (i : ℕ) → slice_index reads.new i ≡ bit_or (slice_index reads.old i) (if input == i then bits else 0) }
{
    reads[input as usize] |= bits;
}

/// Notes beside each input what the term at this place reads of it, where the bits `wanted` are wanted of the term.
pub(crate) fn note_reads(slots: &[Term], reads: &mut [u64], wanted: u64, place: TermId)
    requires ordered { AreOrdered slots.now }
    requires readable { IsReadable slots.now (length reads.old) place.0 }
    ensures long { length reads.new ≡ length reads.old }
    ensures noted { ReadsToo slots.now wanted place.0 reads.old reads.new }
{
    match slots[place.0 as usize] {
        Term::Const(_) => {}
        Term::Word(input) => note(reads, input, wanted),
        Term::And(left, right) => {
            note_reads(slots, reads, wanted, left);
            note_reads(slots, reads, wanted, right);
        }
        Term::Or(left, right) => {
            note_reads(slots, reads, wanted, left);
            note_reads(slots, reads, wanted, right);
        }
        Term::Unless { input, bit, then } => {
            note(reads, input, 1 << bit);
            note_reads(slots, reads, wanted, then);
        }
        Term::Shift { of, .. } => note_reads(slots, reads, before_offset(wanted), of),
        Term::KeepAlign { of, .. } => note_reads(slots, reads, wanted, of),
        Term::Spread { bit, of, .. } => note_reads(slots, reads, 1 << bit, of),
    }
}
