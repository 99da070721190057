use std::io;
use std::io::{ErrorKind, Read, Write};

/// A stream that gives and takes a byte at a time up to its fifth call, is interrupted at its second
/// call and broken at a later one.
#[derive(Drop)]
pub struct BrokenStream {
    calls: usize,
    broken_at: usize,
}

impl BrokenStream {
    pub fn new(broken_at: usize) -> BrokenStream {
        BrokenStream {
            calls: 0,
            broken_at,
        }
    }

    fn next_byte(&mut self) -> io::Result<u8> {
        self.calls = self.calls.saturating_add(1);
        if self.calls == 2 {
            return Err(io::Error::new(ErrorKind::Interrupted, "a signal came"));
        }
        if self.calls == self.broken_at {
            return Err(io::Error::new(ErrorKind::Other, "the line is broken"));
        }
        Ok(b'a')
    }
}

impl Read for BrokenStream {
    fn read(&mut self, buf: &mut [u8]) -> io::Result<usize> {
        let byte = self.next_byte()?;
        match buf.first_mut() {
            Some(first) if self.calls <= 5 => {
                *first = byte;
                Ok(1)
            }
            _ => Ok(0),
        }
    }
}

impl Write for BrokenStream {
    fn write(&mut self, buf: &[u8]) -> io::Result<usize> {
        let _byte = self.next_byte()?;
        Ok(if self.calls <= 5 { buf.len().min(1) } else { 0 })
    }

    fn flush(&mut self) -> io::Result<()> {
        Ok(())
    }
}
