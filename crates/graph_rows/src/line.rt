//! The line that is printed.
use std::alloc::Global;

/// What is answered, piece by piece. Where memory was refused the line is lost.
#[derive(Drop)]
pub(crate) struct Line {
    alloc: Global,
    text: String,
    pub is_lost: bool,
}

impl Line {
    pub(crate) fn new(alloc: Global) -> Line {
        Line {
            alloc,
            text: String::new(alloc),
            is_lost: false,
        }
    }

    pub(crate) fn as_str(&self) -> &str {
        self.text.as_str()
    }

    pub(crate) fn lose(&mut self) {
        self.is_lost = true;
    }

    pub(crate) fn put(&mut self, piece: &str) {
        if self.text.push_str(piece).is_err() {
            self.is_lost = true;
        }
    }

    pub(crate) fn numbers(&mut self, all: &[u32]) {
        for n in all {
            self.number(*n);
        }
    }

    fn number(&mut self, n: u32) {
        match format!(in self.alloc; " {n}") {
            Ok(text) => self.put(text.as_str()),
            Err(_) => self.is_lost = true,
        }
    }
}
