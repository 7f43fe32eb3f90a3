ghost use Rattle.std.specs.Prelude.{◌≡◌, ◌-◌, [], length, min, IfOk, is_err, if◌then◌else◌};
ghost use Rattle.mh_io.specs.Sink.{Puts};
ghost use Rattle.mh_io.specs.Memory.{sink_seen, uncalled, put_fails, with_call, with_fault};

use crate::calls::Calls;
use crate::sink::Sink;
use crate::source::Failed;
use std::alloc::{AllocError, Global};
use std::marker::Model;

/// A sink over memory, for tests: it takes bytes in pieces into the room that it was made with,
/// and fails at the calls that it was told to fail at.
///
/// It tells what it holds.
#[derive(Drop)]
pub struct MemSink {
    held: Vec<u8>,
    room: usize,
    most: usize,
    calls: Calls,
}

impl Model for MemSink {
    ghost use Rattle.std.specs.Prelude.{◌≤◌};
    ghost use Rattle.std.specs.Vec.{vec_len, vec_capacity};
    ghost use Rattle.mh_io.specs.Faults.{IsCount};
    ghost use Rattle.mh_io.specs.Memory.{MemorySink};

    ghost Value = { MemorySink };

    ghost view = { λ s.
        record { holds = s.held.items; room = s.room; most = s.most; calls = s.calls } };

    ghost invariant = { λ s. (vec_len s.held ≤ s.room) × (s.room ≤ vec_capacity s.held)
        × IsCount s.calls.faults };
}

impl MemSink {
    /// An empty sink with room for so many bytes, that takes at most `most` of them at one call.
    /// `failing` holds the numbers of the calls that are to fail; the first call is number 1. The
    /// only error is want of memory.
    pub fn new(
        alloc: Global,
        room: usize,
        most: usize,
        failing: Vec<u64>,
    ) -> Result<Self, AllocError>
        ensures { IfOk result (λ sink. sink
            ≡ record { holds = []; room = room; most = most; calls = uncalled failing.items }) }
    {
        Ok(MemSink {
            held: Vec::with_capacity(alloc, room)?,
            room,
            most,
            calls: Calls::new(failing),
        })
    }

    /// Lends the bytes that it holds.
    pub fn bytes(&self) -> &[u8]
        ensures { result.now ≡ self.now.holds }
    {
        self.held.as_slice()
    }
}

impl Sink for MemSink {
    ghost use Rattle.mh_io.specs.Memory.{sink_seen};

    ghost seen = { sink_seen };

    /// It fails exactly at the calls that are to fail, and where it takes nothing of a piece that
    /// isn't empty. It takes as many bytes as come, as `most` allows and as the room holds.
    fn put(&mut self, bytes: &[u8]) -> Result<usize, Failed>
        ensures puts { Puts (sink_seen self.old) (sink_seen self.new) bytes.now result }
        ensures due { is_err result ≡ put_fails self.old (length bytes.now) }
        ensures most { IfOk result (λ n. n
            ≡ min (min (length bytes.now) self.old.most) (self.old.room - length self.old.holds)) }
        ensures same_room { self.new.room ≡ self.old.room }
        ensures same_most { self.new.most ≡ self.old.most }
        ensures calls { self.new.calls ≡ (if is_err result
            then with_fault (with_call self.old.calls) else with_call self.old.calls) }
    {
        if self.calls.next_fails() {
            return Err(Failed);
        }
        let free = self.room - self.held.len();
        let taken = bytes.len().min(self.most).min(free);
        if taken == 0 && !bytes.is_empty() {
            self.calls.count_fault();
            return Err(Failed);
        }
        self.held.extend_from_slice(&bytes[..taken]).unwrap();
        Ok(taken)
    }
}
