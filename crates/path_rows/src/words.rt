//! The words of a body.
use attr_ids::NoMemory;
use std::alloc::Global;

/// A number; a text that is none reads as the greatest.
pub(crate) fn number(text: &str) -> u32 {
    text.parse::<u32>().unwrap_or(u32::MAX)
}

/// The numbers of a text, between commas.
pub(crate) fn numbers(alloc: Global, text: &str) -> Result<Vec<u32>, NoMemory> {
    let mut all = Vec::new(alloc);
    for part in text.split(',') {
        all.push(number(part))?;
    }
    Ok(all)
}

/// The number at a place, or 0.
pub(crate) fn at(all: &[u32], place: usize) -> u32 {
    if place < all.len() { all[place] } else { 0 }
}
