//! The line that is printed.
use std::alloc::Global;

/// What is answered to a row, word by word. Where no memory was left for a word, the line says so.
#[derive(Drop)]
pub struct Line {
    alloc: Global,
    text: String,
    is_whole: bool,
}

impl Line {
    /// The line as it was asked.
    pub fn new(alloc: Global, asked: &str) -> Line {
        let mut line = Line {
            alloc,
            text: String::new(alloc),
            is_whole: true,
        };
        line.part(asked);
        line
    }

    pub fn as_str(&self) -> &str {
        if self.is_whole {
            self.text.as_str()
        } else {
            "out of memory"
        }
    }

    /// Adds a text.
    pub fn part(&mut self, part: &str) {
        if self.text.push_str(part).is_err() {
            self.is_whole = false;
        }
    }

    /// Adds a word, with a blank before it.
    pub fn word(&mut self, word: &str) {
        self.part(" ");
        self.part(word);
    }

    /// Adds bytes; what is no text stands as a question mark.
    pub fn bytes(&mut self, bytes: &[u8]) {
        match str::from_utf8(bytes) {
            Ok(text) => self.part(text),
            Err(_) => self.part("?"),
        }
    }

    /// Adds a number, directly behind what is there.
    pub fn number(&mut self, n: u32) {
        match format!(in self.alloc; "{n}") {
            Ok(text) => self.part(text.as_str()),
            Err(_) => self.is_whole = false,
        }
    }
}
