ghost use Rattle.std.specs.Prelude.{◌≡◌, ◌≢◌, ℕ, ◌+◌, ◌<◌, ◌≤◌, slice_index};
ghost use Rattle.std.specs.Int.{bit_at};
ghost use Rattle.lattice_words.specs.Words.{bit_of, has_bit};
ghost use Rattle.lattice_words.specs.Ladders.{byte_rungs, align_rungs, shift_of, keep_align_of};

use crate::value::{ALIGN_2, ALIGN_RUNGS, ALL_BYTES, BYTE_RUNGS, BYTES_1};

// The table of a ladder, from its rungs.
macro_rules! ladder {
    ($($rung:literal)*) => {
        [$($rung),*]
    };
}

static BYTE_LADDER: [u64; 16] = ladder!(1 2 4 8 12 16 20 24 32 40 48 64 96 128 256 1024);

static ALIGN_LADDER: [u64; 6] = ladder!(2 4 8 16 32 64);

/// How many bytes the rung number `k` of the ladder of bytes promises; its bit is `BYTES_1 + k`.
pub fn byte_rung(k: u32) -> u64
    requires { k < BYTE_RUNGS }
    ensures { result ≡ slice_index byte_rungs k }
{
    BYTE_LADDER[k as usize]
}

/// The alignment, in bytes, of the rung number `k` of its ladder; its bit is `ALIGN_2 + k`.
pub fn align_rung(k: u32) -> u64
    requires { k < ALIGN_RUNGS }
    ensures { result ≡ slice_index align_rungs k }
{
    ALIGN_LADDER[k as usize]
}

// The lowest rung of at least `needed` bytes, or BYTE_RUNGS, where all rungs before `from` are lower.
fn rung_from(from: u32, needed: u64) -> u32
    requires within { from ≤ BYTE_RUNGS }
    requires below { (k : ℕ) → k < from → slice_index byte_rungs k < needed }
    ensures within { result ≤ BYTE_RUNGS }
    ensures below { (k : ℕ) → k < result → slice_index byte_rungs k < needed }
    ensures enough { result < BYTE_RUNGS → needed ≤ slice_index byte_rungs result }
{
    for rung in from..BYTE_RUNGS {
        if byte_rung(rung) >= needed {
            return rung;
        }
    }
    BYTE_RUNGS
}

fn has(word: u64, bit: u32) -> bool
    requires { bit < 64 }
    ensures { result ≡ has_bit word bit }
{
    word >> bit & 1 == 1
}

// The word with this bit set or cleared.
fn put(word: u64, bit: u32, set: bool) -> u64
    requires { bit < 64 }
    ensures here { bit_at result bit ≡ bit_of set }
    ensures others { (i : ℕ) → i < 64 → i ≢ bit → bit_at result i ≡ bit_at word i }
{
    if set {
        word | 1 << bit
    } else {
        word & !(1 << bit)
    }
}

/// What is known of a pointer `bytes` bytes above one of which `word` is known: a rung of n bytes
/// stays where the lowest rung of at least n + `bytes` stood. All other bits stay as they are.
pub fn shift(bytes: u64, word: u64) -> u64
    ensures { result ≡ shift_of bytes word }
{
    if word & ALL_BYTES == 0 {
        return word;
    }
    let mut shifted = word;
    let mut lowest = 0;
    for rung in 0..BYTE_RUNGS {
        lowest = rung_from(lowest, byte_rung(rung).saturating_add(bytes));
        let stays = lowest < BYTE_RUNGS && has(word, BYTES_1 + lowest);
        shifted = put(shifted, BYTES_1 + rung, stays);
    }
    shifted
}

/// What is known of a pointer any number of steps of `step` bytes away from one of which `word` is
/// known: a rung of alignment stays where it divides the step. All other bits stay as they are.
pub fn keep_align(step: u64, word: u64) -> u64
    ensures { result ≡ keep_align_of step word }
{
    let mut kept = word;
    for rung in 0..ALIGN_RUNGS {
        let stays = step % align_rung(rung) == 0 && has(word, ALIGN_2 + rung);
        kept = put(kept, ALIGN_2 + rung, stays);
    }
    kept
}
