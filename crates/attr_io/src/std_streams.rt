ghost use Rattle.std.specs.Prelude.{◌≡◌};

use crate::outside::{ReadGot, Sink, Source, WriteGot};
use std::io::{ErrorKind, Read, Write};

/// A source over a reader of `std`, such as the standard input. Each read of the source is a read of
/// the reader into the same buffer. It tells the bytes that the reader tells, so none over a file, a
/// pipe or a terminal. Each error of the reader counts as a fault; a read that was interrupted is
/// counted and tried again. Once the count stands at its greatest value, no more is read.
#[derive(Debug, Drop)]
pub struct StdSource<R> {
    reader: R,
    faults: u64,
}

impl<R: Read> StdSource<R> {
    pub fn new(reader: R) -> StdSource<R>
        ensures { ⟦<StdSource<R> as Source>⟧.stream result ≡ record { bytes = R.remaining reader; faults = 0 } }
    {
        StdSource { reader, faults: 0 }
    }
}

impl<R: Read> Source for StdSource<R> {
    ghost stream = { λ s. record { bytes = R.remaining s.reader; faults = s.faults } };

    fn read(&mut self, buf: &mut [u8]) -> ReadGot {
        while self.faults < u64::MAX {
            match self.reader.read(buf) {
                Ok(0) => return ReadGot::End,
                Ok(count) => return ReadGot::Took(count),
                Err(error) => {
                    self.faults += 1;
                    if error.kind() != ErrorKind::Interrupted {
                        return ReadGot::Failed;
                    }
                }
            }
        }
        ReadGot::Failed
    }
}

/// A sink over a writer of `std`, such as the standard output. Each write of the sink is a write of
/// the writer with the same piece, and nothing is kept back, so the writer should keep no buffer of
/// its own. It tells the bytes that the writer tells, so none over a file, a pipe or a terminal. Each
/// error of the writer counts as a fault, and so does a write that takes no byte; a write that was
/// interrupted is counted and tried again. Once the count stands at its greatest value, no more is
/// written.
#[derive(Debug, Drop)]
pub struct StdSink<W> {
    writer: W,
    faults: u64,
}

impl<W: Write> StdSink<W> {
    pub fn new(writer: W) -> StdSink<W>
        ensures { ⟦<StdSink<W> as Sink>⟧.stream result ≡ record { bytes = W.contents writer; faults = 0 } }
    {
        StdSink { writer, faults: 0 }
    }
}

impl<W: Write> Sink for StdSink<W> {
    ghost stream = { λ s. record { bytes = W.contents s.writer; faults = s.faults } };

    fn write(&mut self, bytes: &[u8]) -> WriteGot {
        while self.faults < u64::MAX {
            match self.writer.write(bytes) {
                Ok(0) => {
                    self.faults += 1;
                    return WriteGot::Failed;
                }
                Ok(count) => return WriteGot::Took(count),
                Err(error) => {
                    self.faults += 1;
                    if error.kind() != ErrorKind::Interrupted {
                        return WriteGot::Failed;
                    }
                }
            }
        }
        WriteGot::Failed
    }
}
