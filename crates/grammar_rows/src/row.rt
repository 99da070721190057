//! The text of a line of the input, and where its production begins.
use std::alloc::Global;

/// A text that is being written out, and the part of it that is to be repeated. Where memory was refused it is lost.
#[derive(Drop)]
struct Text {
    bytes: Vec<u8>,
    /// Where the part begins.
    from: usize,
    copies: u32,
    is_lost: bool,
}

impl Text {
    fn push(&mut self, piece: &[u8]) {
        if self.bytes.extend_from_slice(piece).is_err() {
            self.is_lost = true;
        }
    }

    /// Puts the part there so often in all as was said before it.
    fn repeat(&mut self, alloc: Global) {
        let Ok(part) = Vec::from_slice(alloc, self.bytes.get(self.from..).unwrap_or(&[])) else {
            self.is_lost = true;
            return;
        };
        for _ in 1..self.copies {
            self.push(part.as_slice());
        }
    }

    /// Begins the part that is there as often as is written before the colon.
    fn begin(&mut self, counted: &str) {
        let Some((number, rest)) = counted.split_once(':') else {
            return;
        };
        self.from = self.bytes.len();
        self.copies = number.parse::<u32>().unwrap_or(1);
        self.push(rest.as_bytes());
    }

    /// What stands behind a backslash: `n` for a line's end, `(N:` before a part that is there N times,
    /// and `)` behind it.
    fn escaped(&mut self, alloc: Global, piece: &str) {
        if let Some(rest) = piece.strip_prefix('n') {
            self.push(b"\n");
            self.push(rest.as_bytes());
        } else if let Some(rest) = piece.strip_prefix(')') {
            self.repeat(alloc);
            self.push(rest.as_bytes());
        } else if let Some(counted) = piece.strip_prefix('(') {
            self.begin(counted);
        }
    }

    /// Puts what is written so: `\n` is a line's end, `\\` a backslash, and `\(3:ab\)` is `ababab`.
    fn write(&mut self, alloc: Global, written: &str) {
        let mut is_plain = true;
        for piece in written.split('\\') {
            if is_plain {
                self.push(piece.as_bytes());
                is_plain = false;
            } else if piece.is_empty() {
                self.push(b"\\");
                is_plain = true;
            } else {
                self.escaped(alloc, piece);
            }
        }
    }
}

/// The text that is written so, unless memory was refused.
pub fn text_of(alloc: Global, written: &str) -> Option<Vec<u8>> {
    let mut text = Text {
        bytes: Vec::new(alloc),
        from: 0,
        copies: 1,
        is_lost: false,
    };
    text.write(alloc, written);
    let Text { bytes, is_lost, .. } = text;
    if is_lost { None } else { Some(bytes) }
}

/// A production, and the token from which it is read: `type` or `type@2`.
pub fn place(word: &str) -> (&str, u32) {
    match word.split_once('@') {
        Some((name, number)) => (name, number.parse::<u32>().unwrap_or(0)),
        None => (word, 0),
    }
}
