//! The certificate of a system, made and checked.
ghost use Rattle.std.specs.Prelude.{◌≡◌, ◌+◌, ◌<◌, ◌≤◌, ℕ, List, Err, length, IfOk};
ghost use Rattle.why_check.specs.declared.entry.Entry.{Entry as Removed};
ghost use Rattle.why_make.specs.declared.refusal.TheConstants.{MAX_ENTRIES};
ghost use Rattle.why_make.specs.Sweeps.{IsListOfSweeps};
ghost use Rattle.why_text.specs.Certificate.{IsCertificate, NamePositions};

use rule_terms::System;
use std::alloc::Global;
use why_check::{EntryList, Verdict, check};
use why_make::{WhyRefusal, explain};

/// The entries that sweeps over the positions of a system make, which the checker accepts.
///
/// # Errors
/// `TooMany` exactly where there are more than `MAX_ENTRIES` of them; `NoMemory` where no memory is left.
pub fn certificate(alloc: Global, s: &System) -> Result<EntryList, WhyRefusal>
    ensures certificate { IfOk result (IsCertificate s.now) }
    ensures positions { IfOk result (NamePositions s.now.masks) }
    ensures short { IfOk result (λ entries. length entries ≤ MAX_ENTRIES) }
    ensures too_many { (count : ℕ) → result ≡ Err (WhyRefusal.TooMany count) →
        (count ≡ MAX_ENTRIES + 1) × ((entries : List Removed) → IsListOfSweeps s.now entries → MAX_ENTRIES < length entries) }
{
    let entries = explain(alloc, s)?;
    match check(alloc, s, &entries)? {
        Verdict::Yes { words: _ } => Ok(entries),
        Verdict::No { at: _ } | Verdict::Short { p: _ } => unreachable!(),
    }
}
