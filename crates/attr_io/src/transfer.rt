ghost use Rattle.std.specs.Prelude.{◌≡◌, ◌+◌, ◌<◌, ◌≤◌, ◌⊎◌, IsOk, IsErrOf, IfOk, length, vec_len};
ghost use Rattle.attr_io.specs.Outside.{HasRead, NeverFell, Rose, Wrote, taken};
ghost use Rattle.attr_io.specs.Transfer.{AreAtMost, AreMoreThan, GaveAtMost, GaveExactly, IsWhole, WrotePart};

use crate::outside::{ReadGot, Sink, Source, WriteGot};
use std::alloc::{AllocError, Global};

/// Why a source was not read to its end.
#[derive(Clone, Copy, Debug, PartialEq, Eq)]
pub enum ReadStop {
    /// A read failed.
    Failed,
    /// The source gave more bytes than were allowed.
    TooLarge,
    /// No memory was left.
    NoMemory,
}

impl From<AllocError> for ReadStop {
    ghost use Rattle.std.specs.Prelude.{◌≡◌};
    ghost use Rattle.attr_io.specs.declared.transfer.ReadStop.TheVariants.{NoMemory};

    ghost from_gives = { λ _ stop. stop ≡ NoMemory };

    fn from(_error: AllocError) -> ReadStop {
        ReadStop::NoMemory
    }
}

/// How the writing of a whole text ended.
#[derive(Clone, Copy, Debug, PartialEq, Eq)]
pub enum WriteEnd {
    Done,
    Failed,
}

// The most bytes that are asked of a source at once.
const CHUNK: usize = 65_536;

// A function of its own, so that proofs see the buffer's length and not its bytes.
fn make_buffer(alloc: Global) -> Result<Vec<u8>, AllocError>
    ensures { IfOk result (λ buffer. vec_len buffer ≡ CHUNK) }
{
    vec![in alloc; 0u8; CHUNK]
}

// One read of at most `room` bytes, to the front of the buffer.
fn read_front<S: Source>(source: &mut S, buffer: &mut [u8], room: usize) -> ReadGot
    requires some { 0 < room }
    requires fits { room ≤ length buffer.old }
    ensures got { HasRead (S.stream source.old) (S.stream source.new) result buffer.new }
    ensures within { taken result ≤ room }
    ensures count { NeverFell (S.stream source.old) (S.stream source.new) }
    ensures failed { result ≡ ReadGot.Failed → Rose (S.stream source.old) (S.stream source.new) }
{
    source.read(&mut buffer[..room])
}

/// Reads a source to its end, of at most `limit` bytes. Reading goes through a buffer of 65,536 bytes.
/// It stops at the first failed read, and as soon as one byte more than `limit` was taken.
pub fn read_all<S: Source>(alloc: Global, source: &mut S, limit: usize) -> Result<Vec<u8>, ReadStop>
    ensures whole { IfOk result (λ bytes. IsWhole (S.stream source.old) (S.stream source.new) bytes.items) }
    ensures within { IfOk result (λ bytes. vec_len bytes ≤ limit) }
    ensures failed { IsErrOf result ReadStop.Failed → Rose (S.stream source.old) (S.stream source.new)
        × GaveAtMost (S.stream source.old) (S.stream source.new) limit }
    ensures too_large { IsErrOf result ReadStop.TooLarge
        → GaveExactly (S.stream source.old) (S.stream source.new) (limit + 1) }
    ensures at_most { GaveAtMost (S.stream source.old) (S.stream source.new) (limit + 1) }
    ensures count { NeverFell (S.stream source.old) (S.stream source.new) }

    // Which answer comes without a fault, if memory is left.
    ensures fits { AreAtMost (S.stream source.old).bytes limit → ¬ Rose (S.stream source.old) (S.stream source.new)
        → IsOk result ⊎ IsErrOf result ReadStop.NoMemory }
    ensures exceeds { AreMoreThan (S.stream source.old).bytes limit → ¬ Rose (S.stream source.old) (S.stream source.new)
        → IsErrOf result ReadStop.TooLarge ⊎ IsErrOf result ReadStop.NoMemory }
{
    let mut storage = make_buffer(alloc)?;
    let buffer = storage.as_mut_slice();
    let mut bytes = Vec::new(alloc);
    while bytes.len() <= limit {
        let room = (limit - bytes.len()).min(CHUNK - 1) + 1;
        match read_front(source, buffer, room) {
            ReadGot::Took(count) => bytes.extend_from_slice(&buffer[..count])?,
            ReadGot::End => return Ok(bytes),
            ReadGot::Failed => return Err(ReadStop::Failed),
        }
    }
    Err(ReadStop::TooLarge)
}

/// Writes a whole text to a sink, and stops at the first failed write.
pub fn write_all<O: Sink>(sink: &mut O, bytes: &[u8]) -> WriteEnd
    ensures done { result ≡ WriteEnd.Done → Wrote (O.stream sink.old) (O.stream sink.new) bytes.now }
    ensures failed { result ≡ WriteEnd.Failed → Rose (O.stream sink.old) (O.stream sink.new)
        × WrotePart (O.stream sink.old) (O.stream sink.new) bytes.now }
    ensures count { NeverFell (O.stream sink.old) (O.stream sink.new) }
    ensures complete { ¬ Rose (O.stream sink.old) (O.stream sink.new) → result ≡ WriteEnd.Done }
{
    let mut at = 0;
    while at < bytes.len() {
        match sink.write(&bytes[at..]) {
            WriteGot::Took(count) => at += count,
            WriteGot::Failed => return WriteEnd::Failed,
        }
    }
    WriteEnd::Done
}
