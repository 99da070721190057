//! The line that is printed.
use std::alloc::Global;

/// What is answered for a row, piece by piece. Where memory was refused the line is lost.
#[derive(Drop)]
pub struct Line {
    alloc: Global,
    text: String,
    pub is_lost: bool,
}

impl Line {
    pub fn new(alloc: Global) -> Line {
        Line {
            alloc,
            text: String::new(alloc),
            is_lost: false,
        }
    }

    pub fn as_str(&self) -> &str {
        self.text.as_str()
    }

    /// The line of a row that got no memory.
    pub fn lose(&mut self) {
        self.is_lost = true;
    }

    pub fn put(&mut self, piece: &str) {
        if self.text.push_str(piece).is_err() {
            self.is_lost = true;
        }
    }

    pub fn number(&mut self, n: u64) {
        match format!(in self.alloc; "{n}") {
            Ok(text) => self.put(text.as_str()),
            Err(_) => self.is_lost = true,
        }
    }

    /// A number, and what is counted.
    pub fn count(&mut self, n: usize, what: &str) {
        self.number(n as u64);
        self.put(what);
    }

    /// What is said, and the number of a token.
    pub fn token(&mut self, what: &str, token: u32) {
        self.put(what);
        self.number(u64::from(token));
    }

    /// A blank, where something stands before it.
    pub fn blank(&mut self) {
        if !self.text.is_empty() {
            self.put(" ");
        }
    }
}
