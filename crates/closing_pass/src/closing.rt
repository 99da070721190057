ghost use Rattle.std.specs.Prelude.{◌≡◌, ◌↔◌, ◌^◌, ◌<◌, ℕ, IsTrue, All, length};
ghost use Rattle.rule_terms.specs.Greatest.{AreWithin, IsAbove, IsGreatest};
ghost use Rattle.closing_pass.specs.Closed.{AreDone, AreClosedBy};

use crate::sweep::settle;
use attr_ids::{EndList, WordList, WorkerEnd};
use rule_terms::System;

/// Whether every worker came to its end.
fn are_done(ends: &[WorkerEnd]) -> bool
    ensures { IsTrue result ↔ AreDone ends.now }
{
    for end in ends {
        if let WorkerEnd::Spent = end {
            return false;
        }
    }
    true
}

/// The greatest list of words of the system, from words within its masks that contain it. Where every
/// worker came to its end the words are that list already, and are answered as they came; else positions
/// are swept, each word cut to what its term leaves it, until a sweep changes nothing (the greatest fixpoint
/// of a monotone function, by Kleene's iteration from above).
pub fn close(s: &System, words: WordList, ends: &EndList) -> WordList
    requires { length words ≡ length s.now.masks }
    ensures greatest { AreWithin words s.now.masks → IsAbove s.now words → AreClosedBy s.now ends.now words → IsGreatest s.now result }
    ensures untouched { AreDone ends.now → result ≡ words }
    ensures cut { AreWithin result words }
    ensures long { length result ≡ length s.now.masks }
{
    let mut words = words;
    if !are_done(ends.as_slice()) {
        settle(s, &mut words);
    }
    words
}
