ghost use Rattle.std.specs.Prelude.{◌≡◌, ◌<◌, length};

/// What a read answers.
#[derive(Clone, Copy, Debug, PartialEq, Eq)]
pub enum ReadGot {
    /// So many bytes, at least one, stand at the front of the buffer.
    Took(usize),
    /// No byte is left.
    End,
    /// A fault, and no byte was taken.
    Failed,
}

/// What a write answers.
#[derive(Clone, Copy, Debug, PartialEq, Eq)]
pub enum WriteGot {
    /// So many bytes, at least one, of the front of the piece were taken.
    Took(usize),
    /// A fault, and no byte was taken.
    Failed,
}

/// Where bytes come from.
pub trait Source {
    ghost use Rattle.attr_io.specs.Outside.{HasRead, NeverFell, Rose, Stream};

    // The bytes that are left, where the source tells them, and how many faults there were.
    ghost stream: { Self → Stream };

    /// Reads at least one byte into the buffer, as many as the source gives at once. What the buffer
    /// holds behind the bytes read may be anything.
    fn read(&mut self, buf: &mut [u8]) -> ReadGot
        requires { 0 < length buf.old }
        ensures got { HasRead (stream self.old) (stream self.new) result buf.new }
        ensures count { NeverFell (stream self.old) (stream self.new) }
        ensures failed { result ≡ ReadGot.Failed → Rose (stream self.old) (stream self.new) };
}

/// Where bytes go.
pub trait Sink {
    ghost use Rattle.attr_io.specs.Outside.{HasWritten, NeverFell, Rose, Stream};

    // The bytes that the sink holds, where it tells them, and how many faults there were.
    ghost stream: { Self → Stream };

    /// Writes at least one byte of the front of the piece, as many as the sink takes at once.
    fn write(&mut self, bytes: &[u8]) -> WriteGot
        requires { 0 < length bytes.now }
        ensures got { HasWritten (stream self.old) (stream self.new) result bytes.now }
        ensures count { NeverFell (stream self.old) (stream self.new) }
        ensures failed { result ≡ WriteGot.Failed → Rose (stream self.old) (stream self.new) };
}

/// Where each worker passes once in each of its turns, with its number and the number of the turn,
/// counted from 1. Nothing rests on what happens there: a test can hold a worker back by it.
pub trait Gate {
    fn at_turn(&self, worker: u8, turn: u64);
}
