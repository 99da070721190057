//! The numbers of a call.
use attr_ids::{NoMemory, PosId};
use std::alloc::Global;
use std::str::SplitWhitespace;

/// The numbers that these words are in base 10; one that is none is the largest.
pub(crate) fn parsed(alloc: Global, words: SplitWhitespace<'_>) -> Result<Vec<u64>, NoMemory> {
    let mut n = Vec::new(alloc);
    for word in words {
        n.push(u64::from_str_radix(word, 10).unwrap_or(u64::MAX))?;
    }
    Ok(n)
}

/// The number of this place, or 0.
pub(crate) fn at(n: &[u64], i: usize) -> u64 {
    n.get(i).copied().unwrap_or(0)
}

/// The same, if it fits 32 bits, else the largest number that does.
pub(crate) fn small(n: &[u64], i: usize) -> u32 {
    u32::try_from(at(n, i)).unwrap_or(u32::MAX)
}

/// The position of this number.
pub(crate) fn place(n: &[u64], i: usize) -> PosId {
    PosId(small(n, i))
}
