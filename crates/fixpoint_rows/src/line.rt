//! The line that is printed.
use attr_ids::{NoMemory, PosId};
use std::alloc::Global;

/// What a call answers, number by number in base 16. Where memory was refused the line is lost.
#[derive(Drop)]
pub(crate) struct Line {
    alloc: Global,
    text: String,
    pub is_lost: bool,
}

impl Line {
    pub(crate) fn new(alloc: Global) -> Line {
        Line {
            alloc,
            text: String::new(alloc),
            is_lost: false,
        }
    }

    pub(crate) fn as_str(&self) -> &str {
        self.text.as_str()
    }

    /// The line of a call that got no memory.
    pub(crate) fn lose(&mut self) {
        self.is_lost = true;
    }

    /// The line of a call that ended so.
    pub(crate) fn keep(&mut self, end: Result<(), NoMemory>) {
        if end.is_err() {
            self.is_lost = true;
        }
    }

    pub(crate) fn put(&mut self, piece: &str) {
        if self.text.push_str(piece).is_err() {
            self.is_lost = true;
        }
    }

    pub(crate) fn push(&mut self, number: u64) {
        match format!(in self.alloc; " {number:x}") {
            Ok(text) => self.put(text.as_str()),
            Err(_) => self.is_lost = true,
        }
    }

    /// Answers each of these numbers.
    pub(crate) fn put_all(&mut self, words: &[u64]) {
        for word in words {
            self.push(*word);
        }
    }

    /// Answers the number of each of these positions.
    pub(crate) fn put_places(&mut self, places: &[PosId]) {
        for p in places {
            self.push(u64::from(p.0));
        }
    }
}
