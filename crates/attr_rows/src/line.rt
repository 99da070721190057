//! A line that is being written.
use std::alloc::Global;

/// A line of the output. Where no memory is left, it keeps that it is not whole.
#[derive(Drop)]
pub struct Line {
    alloc: Global,
    pub text: String,
    pub is_whole: bool,
}

impl Line {
    pub fn new(alloc: Global) -> Line {
        Line {
            alloc,
            text: String::new(alloc),
            is_whole: true,
        }
    }

    /// The line of a row that got no memory.
    pub fn lose(&mut self) {
        self.is_whole = false;
    }

    pub fn put(&mut self, text: &str) {
        if self.text.push_str(text).is_err() {
            self.is_whole = false;
        }
    }

    pub fn number(&mut self, number: u64) {
        match format!(in self.alloc; "{number}") {
            Ok(text) => self.put(text.as_str()),
            Err(_) => self.is_whole = false,
        }
    }

    pub fn number_or(&mut self, number: Option<u64>, other: &str) {
        match number {
            Some(number) => self.number(number),
            None => self.put(other),
        }
    }

    /// A word behind a blank, where it is to be told.
    pub fn flag(&mut self, is_told: bool, word: &str) {
        if is_told {
            self.put(" ");
            self.put(word);
        }
    }

    /// A name and a number behind a blank.
    pub fn named(&mut self, name: &str, number: u64) {
        self.put(" ");
        self.put(name);
        self.put(" ");
        self.number(number);
    }
}
