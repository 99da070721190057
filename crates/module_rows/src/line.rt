//! The line that is printed.
use attr_ids::NoMemory;
use std::alloc::Global;

/// What is answered to a question, word by word. Where memory was refused the line is lost.
#[derive(Drop)]
pub(crate) struct Line {
    alloc: Global,
    text: String,
    pub is_lost: bool,
}

impl Line {
    pub(crate) fn new(alloc: Global) -> Line {
        Line {
            alloc,
            text: String::new(alloc),
            is_lost: false,
        }
    }

    pub(crate) fn as_str(&self) -> &str {
        self.text.as_str()
    }

    /// The line of a question that got no memory.
    pub(crate) fn lose(&mut self) {
        self.is_lost = true;
    }

    /// The line of one that ended so.
    pub(crate) fn keep(&mut self, end: Result<(), NoMemory>) {
        if end.is_err() {
            self.is_lost = true;
        }
    }

    fn put(&mut self, piece: &str) {
        if self.text.push_str(piece).is_err() {
            self.is_lost = true;
        }
    }

    pub(crate) fn word(&mut self, word: &str) {
        self.put(" ");
        self.put(word);
    }

    pub(crate) fn number(&mut self, n: u64) {
        match format!(in self.alloc; " {n}") {
            Ok(text) => self.put(text.as_str()),
            Err(_) => self.is_lost = true,
        }
    }

    pub(crate) fn hex(&mut self, n: u64) {
        match format!(in self.alloc; " {n:x}") {
            Ok(text) => self.put(text.as_str()),
            Err(_) => self.is_lost = true,
        }
    }

    pub(crate) fn truth(&mut self, is_so: bool) {
        self.word(if is_so { "yes" } else { "no" });
    }
}
