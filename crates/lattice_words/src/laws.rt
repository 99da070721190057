ghost use Rattle.std.specs.Prelude.{◌≡◌, ℕ, ◌<◌};
ghost use Rattle.std.specs.Int.{bit_at};
ghost use Rattle.lattice_words.specs.Words.{IsWithin};
ghost use Rattle.lattice_words.specs.Ladders.{shift_of, keep_align_of, IsShifted, IsKept, SameRungs};

/// An offset moves each rung of bytes, and changes nothing else.
pub fn shift_moves_rungs()
    ensures { (offset w : ℕ) → IsShifted offset w (shift_of offset w) }
{}

/// What is known of a pointer with more facts is known of it with fewer, after an offset too.
pub fn shift_is_monotone()
    ensures { (offset w v : ℕ) → IsWithin w v → IsWithin (shift_of offset w) (shift_of offset v) }
{}

/// The rungs of bytes after an offset depend on the rungs of bytes alone.
pub fn shift_reads_its_ladder()
    ensures { (offset w v : ℕ) → SameRungs w v → SameRungs (shift_of offset w) (shift_of offset v) }
{}

/// A step keeps the rungs of alignment that divide it, and changes nothing else.
pub fn keep_align_keeps_divisors()
    ensures { (step w : ℕ) → IsKept step w (keep_align_of step w) }
{}

/// What is known of a pointer with more facts is known of it with fewer, after a step too.
pub fn keep_align_is_monotone()
    ensures { (step w v : ℕ) → IsWithin w v → IsWithin (keep_align_of step w) (keep_align_of step v) }
{}

/// Each bit after a step depends on that bit alone.
pub fn keep_align_reads_the_same_bit()
    ensures { (step w v i : ℕ) → i < 64 → bit_at w i ≡ bit_at v i → bit_at (keep_align_of step w) i ≡ bit_at (keep_align_of step v) i }
{}
