use attr_ids::{Numbers, Text};
use std::alloc::{AllocError, Global};

/// The fields of a row that were not taken yet.
#[derive(Clone, Copy)]
pub struct Fields<'a> {
    rest: &'a str,
}

impl<'a> Fields<'a> {
    pub fn new(row: &'a str) -> Fields<'a> {
        Fields { rest: row }
    }

    /// The next field; where there is none, an empty one.
    pub fn next_field(&mut self) -> &'a str {
        match self.rest.split_once('|') {
            Some((field, rest)) => {
                self.rest = rest;
                field
            }
            None => {
                let field = self.rest;
                self.rest = "";
                field
            }
        }
    }

    pub fn number(&mut self) -> usize {
        number(self.next_field())
    }

    pub fn text(&mut self, alloc: Global) -> Result<Text, AllocError> {
        Ok(Text::from_vec(bytes(alloc, self.next_field())?))
    }

    /// Numbers with blanks between them.
    pub fn numbers(&mut self, alloc: Global) -> Result<Numbers, AllocError> {
        let mut numbers = Vec::new(alloc);
        for word in self.next_field().split_whitespace() {
            numbers.push(word.parse().unwrap_or(0))?;
        }
        Ok(Numbers::from_vec(numbers))
    }
}

/// A number; where the field is none, 0.
pub fn number(field: &str) -> usize {
    field.parse().unwrap_or(0)
}

/// The bytes that a field stands for: `N*B` is the byte B so many times, and a backslash a line feed.
pub fn bytes(alloc: Global, field: &str) -> Result<Vec<u8>, AllocError> {
    if let Some((count, byte)) = field.split_once('*')
        && let [byte] = byte.as_bytes()
    {
        return vec![in alloc; *byte; number(count)];
    }
    let mut bytes = Vec::new(alloc);
    for byte in field.as_bytes() {
        bytes.push(if *byte == b'\\' { b'\n' } else { *byte })?;
    }
    Ok(bytes)
}

/// How many bytes are printed as they are.
const SHOWN: usize = 4096;

/// Bytes as a field has them.
pub fn shown(alloc: Global, bytes: &[u8]) -> Result<String, AllocError> {
    if bytes.len() > SHOWN {
        return format!(in alloc; "{}*{}", bytes.len(), char::from(bytes[0]));
    }
    let mut text = String::new(alloc);
    for byte in bytes {
        text.push(if *byte == b'\n' {
            '\\'
        } else {
            char::from(*byte)
        })?;
    }
    Ok(text)
}
