ghost use Rattle.std.specs.Prelude.{◌≡◌, ◌<◌, ◌≤◌, ◌^◌, ℕ, All, true, false, length, sum, slice_index};
ghost use Rattle.rule_terms.specs.System.{value_in, IsSystem};
ghost use Rattle.rule_terms.specs.Greatest.{AreWithin, IsAbove, IsCut, Supports};
ghost use Rattle.lattice_words.specs.Words.{IsWithin};

use attr_ids::{PosId, WordList};
use rule_terms::System;

/// Cuts the word of a position to what its term leaves it, and says whether it lost something.
fn cut(s: &System, words: &mut WordList, p: PosId) -> bool
    requires place { p.0 < length s.now.masks }
    requires long { length words.old ≡ length s.now.masks }
    ensures cut { IsCut s.now words.old words.new }
    ensures fits { slice_index words.new p.0 < 2 ^ 64 }
    ensures others { (q : ℕ) → slice_index words.old q < 2 ^ 64 → slice_index words.new q < 2 ^ 64 }
    ensures smaller { result ≡ true → sum words.new < sum words.old }
    ensures same { result ≡ false → words.new ≡ words.old }
    ensures kept { result ≡ false → IsWithin (slice_index words.old p.0) (value_in s.now p.0 words.old) }
{
    let old = words.as_slice()[p.0 as usize];
    let new = old & s.eval_in(p, words);
    words.set(p.0 as usize, new);
    new != old
}

/// Cuts each word once, and says whether one lost something.
fn sweep(s: &System, words: &mut WordList) -> bool
    requires { length words.old ≡ length s.now.masks }
    ensures system { IsSystem s.now }
    ensures long { length words.new ≡ length s.now.masks }
    ensures above { IsAbove s.now words.old → IsAbove s.now words.new }
    ensures less { AreWithin words.new words.old }
    ensures fits { All (λ word. word < 2 ^ 64) words.new }
    ensures smaller { result ≡ true → sum words.new < sum words.old }
    ensures done { result ≡ false → Supports s.now words.new }
{
    let mut fell = false;
    for p in 0..s.count() {
        if cut(s, words, PosId(p)) {
            fell = true;
        }
    }
    fell
}

/// Sweeps until a sweep changes nothing.
pub(crate) fn settle(s: &System, words: &mut WordList)
    requires { length words.old ≡ length s.now.masks }
    ensures long { length words.new ≡ length s.now.masks }
    ensures above { IsAbove s.now words.old → IsAbove s.now words.new }
    ensures less { AreWithin words.new words.old }
    ensures fits { All (λ word. word < 2 ^ 64) words.new }
    ensures supports { Supports s.now words.new }
{
    'settling: while sweep(s, words) {}
}
