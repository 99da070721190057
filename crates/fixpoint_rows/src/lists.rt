//! Lists that contracts see as lists.
use crate::line::Line;
use crate::numbers::{at, rest};
use attr_ids::{Text, WordList};
use std::alloc::Global;

/// Answers the list entry by entry until there is none.
fn put_entries(line: &mut Line, words: &WordList) {
    for i in 0..words.len().saturating_add(1) {
        match words.get(i) {
            Some(word) => line.push(*word),
            None => line.push(u64::MAX),
        }
    }
}

/// Makes a list of all numbers but the first, writes the first one over its first entry, and answers whether it was
/// empty at first and is now, and then its entries.
fn listed(alloc: Global, n: &[u64], line: &mut Line) {
    let mut words = WordList::new(alloc);
    line.push(u64::from(words.is_empty()));
    for word in rest(n, 1) {
        line.keep(words.push(*word));
    }
    if !words.is_empty() {
        words.set(0, at(n, 0));
    }
    line.push(u64::from(words.is_empty()));
    put_entries(line, &WordList::from_vec(words.into_vec()))
}

/// Copies a text, and answers its bytes.
fn copied(alloc: Global, line: &mut Line) {
    let Ok(text) = Text::from_slice(alloc, b"ab") else {
        return line.lose();
    };
    for byte in text.as_slice() {
        line.push(u64::from(*byte));
    }
}

/// Answers a call of lists, if it is one.
pub(crate) fn answer(alloc: Global, call: &str, n: &[u64], line: &mut Line) -> bool {
    match call {
        "list" => listed(alloc, n, line),
        "text_ab" => copied(alloc, line),
        _ => return false,
    }
    true
}
