//! The line that is printed.
use attr_ids::NoMemory;
use std::alloc::Global;

/// What is answered to a question, word by word. Where memory was refused the line is lost.
#[derive(Drop)]
pub(crate) struct Line {
    alloc: Global,
    text: String,
    pub is_lost: bool,
}

impl Line {
    /// The line as it was asked.
    pub(crate) fn new(alloc: Global, asked: &str) -> Result<Line, NoMemory> {
        let text = String::from_str(alloc, asked)?;
        Ok(Line {
            alloc,
            text,
            is_lost: false,
        })
    }

    pub(crate) fn as_str(&self) -> &str {
        self.text.as_str()
    }

    fn piece(&mut self, piece: &str) {
        if self.text.push_str(piece).is_err() {
            self.is_lost = true;
        }
    }

    pub(crate) fn word(&mut self, word: &str) {
        self.piece(" ");
        self.piece(word);
    }

    pub(crate) fn number(&mut self, n: u32) {
        match format!(in self.alloc; "{n}") {
            Ok(text) => self.word(text.as_str()),
            Err(_) => self.is_lost = true,
        }
    }

    /// A text, as it is.
    pub(crate) fn text(&mut self, bytes: &[u8]) {
        match str::from_utf8(bytes) {
            Ok(text) => self.word(text),
            Err(_) => self.word("no text"),
        }
    }
}
