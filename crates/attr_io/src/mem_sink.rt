ghost use Rattle.std.specs.Prelude.{◌≡◌, ℕ, ◌-◌, ◌<◌, ◌≤◌, ◌⊎◌, ◌↔◌, List, Some, [], length, take, min};
ghost use Rattle.attr_io.specs.Outside.{HasWritten, NeverFell, Rose, written};
ghost use Rattle.attr_io.specs.Memory.{IsFull, SinkState, WriteIsToFail, after_write, sink_stream as stream_of};

use crate::copy::copy_front;
use crate::outside::{Sink, WriteGot};
use crate::script::Script;
use attr_ids::{Numbers, Text};
use std::marker::Model;

/// A sink that keeps its bytes in memory, in room of a fixed length. Its calls fail as listed, and
/// where no room is left.
#[derive(Debug, Drop)]
pub struct MemSink {
    room: Vec<u8>,
    len: usize,
    script: Script,
}

impl Model for MemSink {
    ghost Value = { SinkState };

    ghost view = { λ s. record {
      content = take s.len s.room.items;
      room_limit = length s.room.items;
      failing = s.script.failing;
      calls = s.script.calls;
      fault_count = s.script.faults;
    } };

    ghost invariant = { λ s. s.len ≤ length s.room.items };
}

impl MemSink {
    /// An empty sink that can hold as many bytes as `room` is long. The calls whose numbers, counted
    /// from 1, are in `fail_at` fail.
    pub fn new(room: Text, fail_at: Numbers) -> MemSink
        ensures { result ≡ record {
          content = [];
          room_limit = length room;
          failing = fail_at;
          calls = 0;
          fault_count = 0;
        } }
    {
        MemSink {
            room: room.into_vec(),
            len: 0,
            script: Script::new(fail_at),
        }
    }

    /// The bytes that the sink holds.
    pub fn held(&self) -> &[u8]
        ensures { result.now ≡ self.now.content }
    {
        &self.room[..self.len]
    }
}

impl Sink for MemSink {
    ghost stream = { stream_of };

    fn write(&mut self, bytes: &[u8]) -> WriteGot
        requires { 0 < length bytes.now }
        ensures got { HasWritten (stream_of self.old) (stream_of self.new) result bytes.now }
        ensures count { NeverFell (stream_of self.old) (stream_of self.new) }
        ensures failed { result ≡ WriteGot.Failed → Rose (stream_of self.old) (stream_of self.new) }

        // Which answer comes, with how many bytes, and what the sink is then.
        ensures refused { (result ≡ WriteGot.Failed) ↔ (WriteIsToFail self.old ⊎ IsFull self.old) }
        ensures amount { ¬ WriteIsToFail self.old → written result
            ≡ min (length bytes.now) (self.old.room_limit - length self.old.content) }
        ensures state { self.new ≡ after_write self.old bytes.now result }
    {
        if self.script.begin_call() {
            self.script.count_fault();
            return WriteGot::Failed;
        }
        let count = copy_front(bytes, bytes.len(), &mut self.room[self.len..]);
        if count == 0 {
            self.script.count_fault();
            return WriteGot::Failed;
        }
        self.len += count;
        WriteGot::Took(count)
    }
}
