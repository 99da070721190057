ghost use Rattle.std.specs.Prelude.{◌≡◌, ◌≢◌, ◌+◌, ◌<◌, ◌≤◌, ◌^◌, ℕ, true, false, Err, length, slice_index, OnOk, IfOk};
ghost use Rattle.why_make.specs.Going.{IsSettled, Overflows, SweepsOverflow, Went};
ghost use Rattle.why_make.specs.Sweeps.{lost_of, opening, visited};

use crate::refusal::{MAX_ENTRIES, WhyRefusal};
use attr_ids::{PosId, WordList};
use rule_terms::System;
use why_check::{Entry, EntryList};

/// How far a list of entries has come: the words present, and the entries that led to them.
#[derive(Drop)]
pub struct Course {
    pub words: WordList,
    pub entries: EntryList,
}

/// Visits a position: all facts that it loses over the words present become one entry, and are taken away.
/// It says whether there were some.
pub(crate) fn visit(s: &System, course: &mut Course, p: PosId) -> Result<bool, WhyRefusal>
    requires place { p.0 < length s.now.masks }
    requires long { length course.old.words ≡ length s.now.masks }
    ensures visited { OnOk result (course.new ≡ visited s.now course.old p.0) }
    ensures fell { IfOk result (λ fell. fell ≡ true → lost_of s.now course.old.words p.0 ≢ 0) }
    ensures rest { IfOk result (λ fell. fell ≡ false → lost_of s.now course.old.words p.0 ≡ 0) }
    ensures fits { slice_index course.old.words p.0 < 2 ^ 64 }
    ensures short { OnOk result (length course.old.entries ≤ MAX_ENTRIES → length course.new.entries ≤ MAX_ENTRIES) }
    ensures too_many { (count : ℕ) → result ≡ Err (WhyRefusal.TooMany count) →
        (count ≡ MAX_ENTRIES + 1) × (MAX_ENTRIES ≤ length course.old.entries) × (lost_of s.now course.old.words p.0 ≢ 0) }
{
    let word = course.words.as_slice()[p.0 as usize];
    let bits = word ^ (word & s.eval_in(p, &course.words));
    if bits == 0 {
        return Ok(false);
    }
    if course.entries.len() as u64 >= MAX_ENTRIES {
        return Err(WhyRefusal::TooMany {
            count: MAX_ENTRIES + 1,
        });
    }
    course.entries.push(Entry { p, bits })?;
    course.words.set(p.0 as usize, word ^ bits);
    Ok(true)
}

/// Visits each position once, and says whether one lost facts.
fn sweep(s: &System, course: &mut Course) -> Result<bool, WhyRefusal>
    requires { length course.old.words ≡ length s.now.masks }
    ensures went { IfOk result (λ fell. Went s.now course.old course.new 0 (length s.now.masks) fell) }
    ensures too_many { (count : ℕ) → result ≡ Err (WhyRefusal.TooMany count) → Overflows s.now course.old 0 (length s.now.masks) count }
{
    let mut fell = false;
    for p in 0..s.count() {
        if visit(s, course, PosId(p))? {
            fell = true;
        }
    }
    Ok(fell)
}

/// Sweeps until a sweep finds nothing.
pub(crate) fn settle(s: &System, course: &mut Course) -> Result<(), WhyRefusal>
    requires { course.old ≡ opening s.now }
    ensures settled { OnOk result (IsSettled s.now course.new) }
    ensures short { OnOk result (length course.new.entries ≤ MAX_ENTRIES) }
    ensures too_many { (count : ℕ) → result ≡ Err (WhyRefusal.TooMany count) → SweepsOverflow s.now count }
{
    'settling: while sweep(s, course)? {}
    Ok(())
}
