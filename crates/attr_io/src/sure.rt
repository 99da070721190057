ghost use Rattle.std.specs.Prelude.{◌≡◌, ◌≢◌, ℕ, ◌<◌, ◌≤◌, ◌↔◌, List, [], length, drop, min};
ghost use Rattle.attr_io.specs.Outside.{HasRead, HasWritten, NeverFell, Rose, taken};
ghost use Rattle.attr_io.specs.Memory.{told, untold};

use crate::copy::copy_front;
use crate::outside::{ReadGot, Sink, Source, WriteGot};
use attr_ids::Text;
use std::marker::Model;

/// A source over bytes in memory that never fails.
#[derive(Debug, Drop)]
pub struct SureSource {
    bytes: Text,
    at: usize,
}

// Contracts see the bytes that are left.
impl Model for SureSource {
    ghost Value = { List ℕ };

    ghost view = { λ s. drop s.at s.bytes };

    ghost invariant = { λ s. s.at ≤ length s.bytes };
}

impl SureSource {
    pub fn new(bytes: Text) -> SureSource
        ensures { result ≡ bytes }
    {
        SureSource { bytes, at: 0 }
    }
}

impl Source for SureSource {
    ghost stream = { told };

    fn read(&mut self, buf: &mut [u8]) -> ReadGot
        requires { 0 < length buf.old }
        ensures got { HasRead (told self.old) (told self.new) result buf.new }
        ensures count { NeverFell (told self.old) (told self.new) }
        ensures failed { result ≡ ReadGot.Failed → Rose (told self.old) (told self.new) }

        ensures sure { result ≢ ReadGot.Failed }
        ensures end { (result ≡ ReadGot.End) ↔ (self.old ≡ []) }
        ensures amount { taken result ≡ min (length self.old) (length buf.old) }
        ensures rest { self.new ≡ drop (taken result) self.old }
    {
        let count = copy_front(&self.bytes.as_slice()[self.at..], buf.len(), buf);
        if count == 0 {
            return ReadGot::End;
        }
        self.at += count;
        ReadGot::Took(count)
    }
}

/// A sink that takes each piece whole, keeps nothing and never fails.
#[derive(Clone, Copy, Debug, Default)]
pub struct SureSink;

impl SureSink {
    pub fn new() -> SureSink
        ensures { ⟦<SureSink as Sink>⟧.stream result ≡ untold }
    {
        SureSink
    }
}

impl Sink for SureSink {
    ghost stream = { λ _. untold };

    fn write(&mut self, bytes: &[u8]) -> WriteGot
        requires { 0 < length bytes.now }
        ensures got { HasWritten untold untold result bytes.now }
        ensures count { NeverFell untold untold }
        ensures failed { result ≡ WriteGot.Failed → Rose untold untold }

        ensures whole { result ≡ WriteGot.Took (length bytes.now) }
    {
        WriteGot::Took(bytes.len())
    }
}
