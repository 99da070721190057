//! Lists of entries that are damaged at one place.
use attr_ids::NoMemory;
use std::alloc::Global;
use why_check::{Entry, EntryList};

/// The list without one entry.
pub(crate) fn dropped(alloc: Global, entries: &[Entry], at: usize) -> Result<EntryList, NoMemory> {
    let mut out = EntryList::new(alloc);
    for (i, entry) in entries.iter().enumerate() {
        if i != at {
            out.push(*entry)?;
        }
    }
    Ok(out)
}

/// The list with one entry twice.
pub(crate) fn doubled(alloc: Global, entries: &[Entry], at: usize) -> Result<EntryList, NoMemory> {
    let mut out = EntryList::new(alloc);
    for (i, entry) in entries.iter().enumerate() {
        out.push(*entry)?;
        if i == at {
            out.push(*entry)?;
        }
    }
    Ok(out)
}

/// The list with one entry behind the next one.
pub(crate) fn exchanged(
    alloc: Global,
    entries: &[Entry],
    at: usize,
) -> Result<EntryList, NoMemory> {
    let mut out = EntryList::new(alloc);
    for (i, entry) in entries.iter().enumerate() {
        if i == at {
            if let Some(next) = entries.get(i + 1) {
                out.push(*next)?;
            }
            out.push(*entry)?;
        } else if i == 0 || i - 1 != at {
            out.push(*entry)?;
        }
    }
    Ok(out)
}
