ghost use Rattle.std.specs.Prelude.{◌≡◌, ◌<◌, ◌^◌, ◌↔◌, ℕ, IsTrue, MatchOption, length, IfOk};
ghost use Rattle.rule_terms.specs.System.{IsSystem};
ghost use Rattle.why_check.specs.Removal.{IsRemovable, IsRemoval, after_entry, words_left};
ghost use Rattle.why_check.specs.Judged.{IsFirstBreach, IsGiven, IsLeastShort};

use crate::entry::Entry;
use attr_ids::{NoMemory, PosId, WordList};
use rule_terms::System;
use std::alloc::Global;

/// The masks of all positions.
pub fn masks(alloc: Global, s: &System) -> Result<WordList, NoMemory>
    ensures masks { IfOk result (λ words. words ≡ s.now.masks) }
    ensures system { IsSystem s.now }
{
    let mut words = WordList::new(alloc);
    for p in 0..s.count() {
        words.push(s.mask(PosId(p)))?;
    }
    Ok(words)
}

/// Whether an entry may be removed over the words.
fn is_removable(s: &System, words: &WordList, entry: Entry) -> bool
    requires { length words.now ≡ length s.now.masks }
    ensures { IsTrue result ↔ IsRemovable s.now words.now entry }
{
    if entry.p.0 >= s.count() {
        return false;
    }
    if entry.bits == 0 {
        return false;
    }
    let word = words.as_slice()[entry.p.0 as usize];
    if word & entry.bits != entry.bits {
        return false;
    }
    s.eval_in(entry.p, words) & entry.bits == 0
}

/// Takes the facts of an entry away from its position's word.
fn take_away(words: &mut WordList, entry: Entry)
    requires { entry.p.0 < length words.old }
    ensures { words.new ≡ after_entry words.old entry }
{
    let word = words.as_slice()[entry.p.0 as usize];
    words.set(entry.p.0 as usize, word ^ entry.bits);
}

/// Takes the facts of each entry away from the masks, as far as the first entry that may not be removed,
/// and answers its number.
pub fn first_breach(s: &System, entries: &[Entry], words: &mut WordList) -> Option<u32>
    requires masks { words.old ≡ s.now.masks }
    requires counted { length entries.now < 2 ^ 32 }
    ensures { MatchOption result (IsRemoval s.now entries.now × (words.new ≡ words_left s.now entries.now)) (λ at. IsFirstBreach s.now entries.now at) }
{
    for (at, entry) in entries.iter().enumerate() {
        if !is_removable(s, words, *entry) {
            return Some(at as u32);
        }
        take_away(words, *entry);
    }
    None
}

/// The least position with a fact that the words do not give.
pub fn least_short(s: &System, words: &WordList) -> Option<PosId>
    requires { length words.now ≡ length s.now.masks }
    ensures system { IsSystem s.now }
    ensures least { MatchOption result ((p : ℕ) → p < length s.now.masks → IsGiven s.now words.now p) (λ p. IsLeastShort s.now words.now p.0) }
{
    for p in 0..s.count() {
        let word = words.as_slice()[p as usize];
        if word & s.eval_in(PosId(p), words) != word {
            return Some(PosId(p));
        }
    }
    None
}
