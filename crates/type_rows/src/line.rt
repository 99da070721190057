//! A line that is being written.
use std::alloc::Global;

/// A line of the output. Where no memory is left, it keeps that it is not whole.
#[derive(Drop)]
pub struct Line {
    alloc: Global,
    pub text: String,
    pub is_whole: bool,
}

impl Line {
    pub fn new(alloc: Global) -> Line {
        Line {
            alloc,
            text: String::new(alloc),
            is_whole: true,
        }
    }

    pub fn put(&mut self, text: &str) {
        if self.text.push_str(text).is_err() {
            self.is_whole = false;
        }
    }

    pub fn number(&mut self, number: u64) {
        match format!(in self.alloc; "{number}") {
            Ok(text) => self.put(text.as_str()),
            Err(_) => self.is_whole = false,
        }
    }

    /// A word and a number behind it.
    pub fn counted(&mut self, word: &str, number: u64) {
        self.put(word);
        self.number(number);
    }
}
