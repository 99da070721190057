ghost use Rattle.std.specs.Prelude.{◌≡◌, ℕ, ◌<◌, ◌≤◌, ◌↔◌, List, Some, [], length, drop, min};
ghost use Rattle.attr_io.specs.Outside.{HasRead, NeverFell, Rose, taken};
ghost use Rattle.attr_io.specs.Memory.{ReadIsToFail, SourceState, after_read, source_stream as stream_of};

use crate::copy::copy_front;
use crate::outside::{ReadGot, Source};
use crate::script::Script;
use attr_ids::{Numbers, Text};
use std::marker::Model;

/// A source over bytes in memory. It gives at most a piece in one call, and its calls fail as listed.
#[derive(Debug, Drop)]
pub struct MemSource {
    bytes: Text,
    at: usize,
    piece: usize,
    script: Script,
}

impl Model for MemSource {
    ghost Value = { SourceState };

    ghost view = { λ s. record {
      remaining = drop s.at s.bytes;
      piece_limit = s.piece;
      failing = s.script.failing;
      calls = s.script.calls;
      fault_count = s.script.faults;
    } };

    ghost invariant = { λ s. (s.at ≤ length s.bytes) × (1 ≤ s.piece) };
}

impl MemSource {
    /// A source of these bytes, of which each call gives at most `piece`. The calls whose numbers,
    /// counted from 1, are in `fail_at` fail.
    pub fn new(bytes: Text, piece: usize, fail_at: Numbers) -> MemSource
        requires { 1 ≤ piece }
        ensures { result ≡ record {
          remaining = bytes;
          piece_limit = piece;
          failing = fail_at;
          calls = 0;
          fault_count = 0;
        } }
    {
        MemSource {
            bytes,
            at: 0,
            piece,
            script: Script::new(fail_at),
        }
    }
}

impl Source for MemSource {
    ghost stream = { stream_of };

    fn read(&mut self, buf: &mut [u8]) -> ReadGot
        requires { 0 < length buf.old }
        ensures got { HasRead (stream_of self.old) (stream_of self.new) result buf.new }
        ensures count { NeverFell (stream_of self.old) (stream_of self.new) }
        ensures failed { result ≡ ReadGot.Failed → Rose (stream_of self.old) (stream_of self.new) }

        // Which answer comes, with how many bytes, and what the source is then.
        ensures listed { (result ≡ ReadGot.Failed) ↔ ReadIsToFail self.old }
        ensures end { (result ≡ ReadGot.End) ↔ ((¬ ReadIsToFail self.old) × (self.old.remaining ≡ [])) }
        ensures amount { ¬ ReadIsToFail self.old → taken result
            ≡ min self.old.piece_limit (min (length self.old.remaining) (length buf.old)) }
        ensures state { self.new ≡ after_read self.old result }
    {
        if self.script.begin_call() {
            self.script.count_fault();
            return ReadGot::Failed;
        }
        let count = copy_front(&self.bytes.as_slice()[self.at..], self.piece, buf);
        if count == 0 {
            return ReadGot::End;
        }
        self.at += count;
        ReadGot::Took(count)
    }
}
