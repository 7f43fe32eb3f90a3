ghost use Rattle.std.specs.Prelude.{◌≡◌, ℕ, ◌+◌, ◌-◌, ◌<◌, ◌≤◌, List, [], ◌++◌};
ghost use Rattle.std.specs.Prelude.{take, drop, length, vec_len, IfOk, OnErr};
ghost use Rattle.std.specs.Io.KnownBytes.{IsAtEnd};
ghost use Rattle.mh_io.specs.Faults.{Rises};
ghost use Rattle.mh_io.specs.Source.{Takes};
ghost use Rattle.mh_io.specs.Limits.{line_bytes};

use crate::source::{Failed, Source};
use std::alloc::{AllocError, Global};
use std::marker::Model;

/// Among how many bytes a line's LF stands at the latest.
pub const LINE_BYTES: usize = 65_536;

/// Bytes that were taken and wait to be given: the next ones of a source, as many as a line has
/// at most.
#[derive(Drop)]
pub(crate) struct Window {
    bytes: Vec<u8>,
    start: usize,
    end: usize,
}

impl Model for Window {
    ghost use Rattle.std.specs.Prelude.{◌≡◌, List, ℕ, ◌-◌, ◌≤◌, take, drop, vec_len};
    ghost use Rattle.mh_io.specs.Limits.{line_bytes};

    ghost Value = { List ℕ };

    ghost view = { λ w. take (w.end - w.start) (drop w.start w.bytes.items) };

    ghost invariant = { λ w. (w.start ≤ w.end) × (w.end ≤ vec_len w.bytes)
        × (vec_len w.bytes ≡ line_bytes) };
}

/// Moves these bytes to the front.
fn move_to_front(bytes: &mut Vec<u8>, start: usize, end: usize)
    requires order { start ≤ end }
    requires bounds { end ≤ vec_len bytes.old }
    ensures len { vec_len bytes.new ≡ vec_len bytes.old }
    ensures front { take (end - start) bytes.new.items
        ≡ take (end - start) (drop start bytes.old.items) }
{
    if start > 0 {
        bytes.copy_within(start..end, 0);
    }
}

impl Window {
    /// An empty window. The only error is want of memory.
    pub(crate) fn new(alloc: Global) -> Result<Window, AllocError>
        ensures { IfOk result (λ window. window ≡ []) }
    {
        let bytes = vec![in alloc; 0u8; LINE_BYTES]?;
        Ok(Window {
            bytes,
            start: 0,
            end: 0,
        })
    }

    /// Lends the bytes.
    pub(crate) fn bytes(&self) -> &[u8]
        ensures value { result.now ≡ self.now }
        ensures few { length self.now ≤ line_bytes }
    {
        &self.bytes[self.start..self.end]
    }

    /// Leaves the first bytes off.
    pub(crate) fn skip(&mut self, count: usize)
        requires { count ≤ length self.old }
        ensures { self.new ≡ drop count self.old }
    {
        self.start += count;
    }

    /// Takes the next bytes of a source, at most so many, and adds them. The bytes that wait are
    /// moved to the front first; none is moved twice where each whole line is left off before more
    /// is taken.
    pub(crate) fn fill<S: Source>(&mut self, source: &mut S, most: usize) -> Result<usize, Failed>
        requires some { 0 < most }
        requires room { length self.old < line_bytes }
        ensures count { (S.seen source.old).faults ≤ (S.seen source.new).faults }
        ensures name { (S.seen source.new).name ≡ (S.seen source.old).name }

        ensures within { IfOk result (λ n. n ≤ most) }
        ensures takes { IfOk result (λ n. (more : List ℕ)
            × Takes (S.seen source.old) (S.seen source.new) more
            × (self.new ≡ self.old ++ more) × (length more ≡ n)) }
        ensures end { IfOk result (λ n. n ≡ 0 → IsAtEnd (S.seen source.new).left) }

        ensures failed { OnErr result
            (Rises (S.seen source.old).faults (S.seen source.new).faults) }
        ensures gave_stands { OnErr result ((S.seen source.new).gave ≡ (S.seen source.old).gave) }
        ensures left_stands { OnErr result ((S.seen source.new).left ≡ (S.seen source.old).left) }
        ensures stands { OnErr result (self.new ≡ self.old) }
    {
        let held = self.end - self.start;
        move_to_front(&mut self.bytes, self.start, self.end);
        self.start = 0;
        self.end = held;
        let room = most.min(LINE_BYTES - held);
        let taken = source.take(&mut self.bytes[held..held + room])?;
        self.end = held + taken;
        Ok(taken)
    }
}
