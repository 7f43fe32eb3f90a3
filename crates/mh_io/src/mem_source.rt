ghost use Rattle.std.specs.Prelude.{◌≡◌, ◌<◌, [], length, min, IfOk, is_err, if◌then◌else◌};
ghost use Rattle.mh_io.specs.Source.{TakesNext};
ghost use Rattle.mh_io.specs.Memory.{source_seen, uncalled, is_due, with_call, with_fault};

use crate::calls::Calls;
use crate::source::{Failed, Source};
use mh_units::{Bytes, Text};
use std::alloc::Global;
use std::marker::Model;

/// A source over memory, for tests: it gives its bytes in pieces, and fails at the calls that it
/// was told to fail at.
///
/// It tells its name, what it gave and what is left.
#[derive(Drop)]
pub struct MemSource {
    name: Text,
    bytes: Bytes,
    given: usize,
    most: usize,
    calls: Calls,
}

impl Model for MemSource {
    ghost use Rattle.std.specs.Prelude.{ℕ, ◌<◌, ◌≤◌, length, take, drop};
    ghost use Rattle.mh_io.specs.Faults.{IsCount};
    ghost use Rattle.mh_io.specs.Memory.{MemorySource};

    ghost Value = { MemorySource };

    ghost view = { λ s. record {
      name = s.name;
      gave = take s.given s.bytes;
      left = drop s.given s.bytes;
      most = s.most;
      calls = s.calls;
    } };

    ghost invariant = { λ s. (s.given ≤ length s.bytes) × (0 < s.most) × IsCount s.calls.faults };
}

impl MemSource {
    /// A source of these bytes, with no name, that gives at most `most` of them at one call.
    /// `failing` holds the numbers of the calls that are to fail; the first call is number 1.
    pub fn new(alloc: Global, bytes: Bytes, most: usize, failing: Vec<u64>) -> Self
        requires { 0 < most }
        ensures { result ≡ record {
          name = [];
          gave = [];
          left = bytes;
          most = most;
          calls = uncalled failing.items;
        } }
    {
        MemSource::named(Text::new(alloc), bytes, most, failing)
    }

    /// The same with a name.
    pub(crate) fn named(name: Text, bytes: Bytes, most: usize, failing: Vec<u64>) -> Self
        requires { 0 < most }
        ensures { result ≡ record {
          name = name;
          gave = [];
          left = bytes;
          most = most;
          calls = uncalled failing.items;
        } }
    {
        MemSource {
            name,
            bytes,
            given: 0,
            most,
            calls: Calls::new(failing),
        }
    }

    /// How many faults it met.
    pub fn faults(&self) -> u64
        ensures { result ≡ self.now.calls.faults }
    {
        self.calls.faults()
    }
}

impl Source for MemSource {
    ghost use Rattle.mh_io.specs.Memory.{source_seen};

    ghost seen = { source_seen };

    /// It fails exactly at the calls that are to fail, and gives as many bytes as are left, as
    /// `most` allows and as `buf` holds.
    fn take(&mut self, buf: &mut [u8]) -> Result<usize, Failed>
        requires { 0 < length buf.old }
        ensures takes { TakesNext (source_seen self.old)
            (source_seen self.new) buf.old buf.new result }
        ensures due { is_err result ≡ is_due self.old.calls }
        ensures most { IfOk result (λ n.
            n ≡ min (min (length self.old.left) self.old.most) (length buf.old)) }
        ensures same_most { self.new.most ≡ self.old.most }
        ensures calls { self.new.calls ≡ (if is_err result
            then with_fault (with_call self.old.calls) else with_call self.old.calls) }
    {
        if self.calls.next_fails() {
            return Err(Failed);
        }
        let left = &self.bytes.as_slice()[self.given..];
        let taken = left.len().min(self.most).min(buf.len());
        buf[..taken].copy_from_slice(&left[..taken]);
        self.given += taken;
        Ok(taken)
    }
}
