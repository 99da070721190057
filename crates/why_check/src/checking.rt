ghost use Rattle.std.specs.Prelude.{◌<◌, ◌^◌, length, IfOk};
ghost use Rattle.why_check.specs.Judged.{IsVerdict, Shows};

use crate::entry::{EntryList, Verdict};
use crate::removing::{first_breach, least_short, masks};
use attr_ids::NoMemory;
use rule_terms::System;
use std::alloc::Global;

/// Whether the entries are a complete removal for the system: one pass over the entries, each over the words
/// that those before it leave, and one over the positions. What is answered holds of the list and of no other
/// verdict, and a Yes shows that the words left are the greatest.
pub fn check(alloc: Global, s: &System, entries: &EntryList) -> Result<Verdict, NoMemory>
    requires { length entries.now < 2 ^ 32 }
    ensures verdict { IfOk result (λ verdict. IsVerdict s.now entries.now verdict) }
    ensures shows { IfOk result (λ verdict. Shows s.now entries.now verdict) }
{
    let mut words = masks(alloc, s)?;
    if let Some(at) = first_breach(s, entries.as_slice(), &mut words) {
        return Ok(Verdict::No { at });
    }
    if let Some(p) = least_short(s, &words) {
        return Ok(Verdict::Short { p });
    }
    Ok(Verdict::Yes { words })
}
