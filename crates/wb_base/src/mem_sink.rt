//! A sink in memory, with a room of its own.
use crate::calls::Calls;
use crate::{Failed, OutOfMemory, Sink};
use std::alloc::Global;
use std::marker::Model;

/// A sink in memory, for tests: its puts can be made to fail, and to take little at a time.
#[derive(Drop)]
pub struct MemSink {
    bytes: Vec<u8>,
    used: usize,
    most: usize,
    calls: Calls,
}

impl Model for MemSink {
    ghost use Rattle.std.specs.Prelude.{◌≤◌, take, length};
    ghost use Rattle.wb_base.specs.MemSink.{SinkState};

    ghost Value = { SinkState };

    ghost view = { λ s. record {
      taken = take s.used s.bytes.items;
      room = length s.bytes.items;
      most = s.most;
      calls = s.calls;
    } };

    ghost invariant = { λ s. (s.used ≤ length s.bytes.items) × (1 ≤ s.most) };
}

impl MemSink {
    ghost use Rattle.std.specs.Prelude.{◌≡◌, ◌≤◌, ◌∷◌, [], ◌++◌, IfOk, OnOk, OnErr};
    ghost use Rattle.wb_base.specs.Calls.{no_calls};
    ghost use Rattle.wb_base.specs.MemSink.{SinkState};

    /// A sink with room for that many bytes, which has taken none and takes all that fits at once.
    pub fn with_room(alloc: Global, bytes: usize) -> Result<Self, OutOfMemory>
        ensures { IfOk result (λ s. s ≡ record { taken = []; room = bytes; most = usize.MAX; calls = no_calls }) }
    {
        Ok(MemSink {
            bytes: vec![in alloc; 0u8; bytes]?,
            used: 0,
            most: usize::MAX,
            calls: Calls::new(alloc),
        })
    }

    /// Makes the put of that number fail, counted from 1 over all puts on this sink.
    pub fn fail_call(&mut self, call: u64) -> Result<(), OutOfMemory>
        ensures ok { OnOk result (self.new ≡ record self.old { calls = record self.old.calls { failing = self.old.calls.failing ++ call ∷ [] } }) }
        ensures err { OnErr result (self.new ≡ self.old) }
    {
        self.calls.fail(call)
    }

    /// Bounds what one put takes.
    pub fn at_most(&mut self, bytes: usize)
        requires { 1 ≤ bytes }
        ensures { self.new ≡ record self.old { most = bytes } }
    {
        self.most = bytes;
    }

    /// The bytes taken, in the order in which they came.
    pub fn taken(&self) -> &[u8]
        ensures { result.now ≡ self.now.taken }
    {
        &self.bytes[..self.used]
    }
}

impl Sink for MemSink {
    ghost use Rattle.std.specs.Prelude.{◌≡◌, ◌≤◌, Some};
    ghost use Rattle.std.specs.Result.{result_ok};
    ghost use Rattle.wb_base.specs.Calls.{after_call};
    ghost use Rattle.wb_base.specs.Sink.{IsPut};
    ghost use Rattle.wb_base.specs.MemSink.{amount_taken, taken_after, put_fails};

    ghost taken = { λ s. Some s.taken };

    ghost faults = { λ s. s.calls.faults };

    fn put(&mut self, piece: &[u8]) -> Result<usize, Failed>
        ensures state { self.new ≡ record self.old { taken = taken_after self.old piece.now; calls = after_call (put_fails self.old piece.now) self.old.calls } }
        ensures amount { result_ok result ≡ amount_taken self.old piece.now }
        ensures later { self.old.calls.faults ≤ self.new.calls.faults }
        ensures put { IsPut (Some self.old.taken) (Some self.new.taken) self.old.calls.faults self.new.calls.faults piece.now result }
    {
        let count = piece.len().min(self.most).min(self.bytes.len() - self.used);
        let fails = self.calls.next_fails() || count == 0 && !piece.is_empty();
        self.calls.count(fails);
        if fails {
            return Err(Failed);
        }
        let end = self.used + count;
        self.bytes[self.used..end].copy_from_slice(&piece[..count]);
        self.used = end;
        Ok(count)
    }
}
