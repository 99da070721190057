ghost use Rattle.std.specs.Prelude.{◌≡◌, ◌+◌, ◌<◌, ◌≤◌, ℕ, List, Err, length, IfOk};
ghost use Rattle.why_check.specs.Judged.{IsComplete};
ghost use Rattle.why_check.specs.Removal.{IsRemoval};
ghost use Rattle.why_check.specs.declared.entry.Entry.{Entry as Removed};
ghost use Rattle.why_make.specs.Sweeps.{IsListOfSweeps};

use crate::course::{Course, settle};
use crate::looking::settle_marked;
use crate::refusal::{MAX_ENTRIES, WhyRefusal};
use dep_graph::{GraphRefusal, dependents};
use rule_terms::System;
use std::alloc::Global;
use why_check::{EntryList, masks};

/// The list of entries that sweeps over the positions make, from the masks until a sweep finds nothing. It is a
/// complete removal. A sweep looks only at positions one of whose inputs fell since they were last looked at, as
/// the others lose nothing; in a system with too many inputs for a graph of them it looks at all positions.
///
/// # Errors
/// `TooMany` exactly where the list has more than `MAX_ENTRIES` entries; `NoMemory` where no memory is left.
pub fn explain(alloc: Global, s: &System) -> Result<EntryList, WhyRefusal>
    ensures list { IfOk result (λ entries. IsListOfSweeps s.now entries) }
    ensures short { IfOk result (λ entries. length entries ≤ MAX_ENTRIES) }
    ensures removal { IfOk result (λ entries. IsRemoval s.now entries) }
    ensures complete { IfOk result (λ entries. IsComplete s.now entries) }
    ensures too_many { (count : ℕ) → result ≡ Err (WhyRefusal.TooMany count) →
        (count ≡ MAX_ENTRIES + 1) × ((entries : List Removed) → IsListOfSweeps s.now entries → MAX_ENTRIES < length entries) }
{
    let mut course = Course {
        words: masks(alloc, s)?,
        entries: EntryList::new(alloc),
    };
    match dependents(alloc, s) {
        Ok(graph) => settle_marked(alloc, s, &graph, &mut course)?,
        Err(GraphRefusal::TooMany { edges: _ }) => settle(s, &mut course)?,
        Err(GraphRefusal::NoMemory) => return Err(WhyRefusal::NoMemory),
    }
    let Course { words: _, entries } = course;
    Ok(entries)
}
