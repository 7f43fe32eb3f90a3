ghost use Rattle.std.specs.Prelude.{◌≡◌, ℕ, ◌+◌, ◌-◌, ◌<◌, ◌≤◌, [], ◌++◌};
ghost use Rattle.std.specs.Prelude.{take, drop, length, position, Ok, IfOk, IfErr, OnOk, OnErr};
ghost use Rattle.mh_io.specs.Lines.{Stop, is_lf, without_cr};
ghost use Rattle.mh_io.specs.Lined.{Lined, Gave, IsStopped, ComesWhere, IsLineOnly};
ghost use Rattle.mh_io.specs.Lined.{lines_given, answer_at};
ghost use Rattle.mh_io.specs.LinesSteps.{HasNoLf, BeginsLine, IsPart, Shows, Reached, TookMore};
ghost use Rattle.mh_io.specs.LinesSteps.{turns_left, past};
ghost use Rattle.mh_io.specs.Limits.{most_bytes, line_bytes};

use crate::lines_answer::{Front, LineFault, LineStep, MemoryBack, Supply};
use crate::lines_window::{LINE_BYTES, Window};
use crate::reading::MOST_BYTES;
use crate::source::Source;
use mh_units::Bytes;
use std::alloc::{AllocError, Global};
use std::marker::Model;

/// The lines of a source, one after another, over a window of 65,536 bytes.
///
/// A line ends before LF, and a CR before that LF is left off. The last bytes before the end of
/// input are a line too, as they are. Contracts see the source, the bytes that were taken and not
/// yet given, how many bytes and lines were given, and whether more can be taken.
#[derive(Drop)]
pub struct Lines<S: Source> {
    source: S,
    window: Window,
    passed: usize,
    given: u32,
    supply: Supply,
}

impl<S: Source> Model for Lines<S> {
    ghost use Rattle.std.specs.Prelude.{ℕ, ◌+◌, ◌≤◌, length};
    ghost use Rattle.mh_io.specs.Limits.{most_bytes};
    ghost use Rattle.mh_io.specs.Lined.{Lined};

    ghost Value = { Lined S };

    ghost view = { λ l. record {
      source = l.source;
      pending = l.window;
      passed = l.passed;
      given = l.given;
      supply = l.supply;
    } };

    ghost invariant = { λ l. (l.passed ≤ most_bytes)
        × (l.passed + length l.window ≤ most_bytes + 1) × (l.given ≤ l.passed) };
}

/// The lines of a source, of which nothing was taken here yet. For want of memory the source
/// comes back.
pub fn lines_of<S: Source>(alloc: Global, source: S) -> Result<Lines<S>, MemoryBack<S>>
    ensures ok { IfOk result (λ lines. lines
        ≡ record { source = source; pending = []; passed = 0; given = 0; supply = Supply.Open }) }
    ensures memory { IfErr result (λ memory. memory.back ≡ source) }
{
    let Ok(window) = Window::new(alloc) else {
        return Err(MemoryBack { back: source });
    };
    Ok(Lines {
        source,
        window,
        passed: 0,
        given: 0,
        supply: Supply::Open,
    })
}

/// The place of the first LF.
fn find_lf(bytes: &[u8]) -> Option<usize>
    ensures { result ≡ position is_lf bytes.now }
{
    bytes.iter().position(|byte| *byte == b'\n')
}

/// Leaves a CR at the end off.
fn without_cr(text: &[u8]) -> &[u8]
    ensures { result.now ≡ without_cr text.now }
{
    match text {
        [front @ .., b'\r'] => front,
        _ => text,
    }
}

impl<S: Source> Lines<S> {
    /// Tells what stands at the front, where no LF is among the first `looked` bytes, or `None`
    /// where more is wanted.
    fn look(&self, looked: usize) -> Result<Option<Front>, LineFault>
        requires there { looked ≤ length self.now.pending }
        requires near { looked ≤ most_bytes - self.now.passed }
        requires text { HasNoLf (take looked self.now.pending) }
        ensures shows { Shows self.now result }
        ensures bounded { self.now.passed + length self.now.pending ≤ most_bytes + 1 }
    {
        let bytes = self.window.bytes();
        let near = bytes.len().min(MOST_BYTES - self.passed);
        if let Some(place) = find_lf(&bytes[looked..near]) {
            return Ok(Some(Front::Line {
                count: looked + place,
            }));
        }
        if near == LINE_BYTES {
            return Err(LineFault::LineLong);
        }
        if near < bytes.len() {
            return Err(LineFault::TooLong {
                taken: (MOST_BYTES + 1) as u64,
            });
        }
        match self.supply {
            Supply::Open => Ok(None),
            Supply::Ended => Ok(Some(Front::Last)),
            Supply::Failed => Err(LineFault::ReadFault),
        }
    }

    /// Takes more bytes.
    fn refill(&mut self)
        requires part { IsPart self.old.passed self.old.pending }
        requires supply { self.old.supply ≡ Supply.Open }
        ensures took { TookMore S.seen self.old self.new }
        ensures turns { turns_left self.new < turns_left self.old }
    {
        let most = MOST_BYTES + 1 - self.passed - self.window.bytes().len();
        match self.window.fill(&mut self.source, most) {
            Ok(0) => self.supply = Supply::Ended,
            Ok(_) => {}
            Err(_) => self.supply = Supply::Failed,
        }
    }

    /// Takes bytes until it can be told what stands at the front.
    fn reach(&mut self) -> Result<Front, LineFault>
        ensures took { TookMore S.seen self.old self.new }
        ensures reached { Reached self.new result }
        ensures again { (stop : Stop) → IsStopped self.old stop → self.new ≡ self.old }
        ensures bounded { self.new.passed + length self.new.pending ≤ most_bytes + 1 }
    {
        let mut looked = 0;
        loop {
            if let Some(front) = self.look(looked)? {
                return Ok(front);
            }
            looked = self.window.bytes().len();
            self.refill();
        }
    }

    /// Leaves the bytes of a line off, which was given.
    fn pass(&mut self, count: usize)
        requires some { 0 < count }
        requires there { count ≤ length self.old.pending }
        requires near { self.old.passed + count ≤ most_bytes }
        ensures past { self.new ≡ past self.old count }
        ensures few { self.new.given ≤ most_bytes }
        ensures bounded { self.new.passed + length self.new.pending ≤ most_bytes + 1 }
    {
        self.window.skip(count);
        self.passed += count;
        self.given += 1;
    }

    /// Adds the line at the front that an LF ends.
    fn give_line(&mut self, bytes: &mut Bytes, count: usize) -> Result<(), AllocError>
        requires begins { BeginsLine self.old.passed self.old.pending count }
        ensures ok { OnOk result ((self.new ≡ past self.old (count + 1))
            × (bytes.new ≡ bytes.old ++ without_cr (take count self.old.pending))) }
        ensures few { OnOk result (self.new.given ≤ most_bytes) }
        ensures bounded { OnOk result (self.new.passed + length self.new.pending ≤ most_bytes + 1) }
        ensures err { OnErr result ((self.new ≡ self.old) × (bytes.new ≡ bytes.old)) }
    {
        bytes.extend(without_cr(&self.window.bytes()[..count]))?;
        self.pass(count + 1);
        Ok(())
    }

    /// Adds the last bytes as a line, of which there are some.
    fn give_last(&mut self, bytes: &mut Bytes) -> Result<(), AllocError>
        requires part { IsPart self.old.passed self.old.pending }
        requires some { 0 < length self.old.pending }
        ensures ok { OnOk result ((self.new ≡ past self.old (length self.old.pending))
            × (bytes.new ≡ bytes.old ++ self.old.pending)) }
        ensures few { OnOk result (self.new.given ≤ most_bytes) }
        ensures bounded { OnOk result (self.new.passed + length self.new.pending ≤ most_bytes + 1) }
        ensures err { OnErr result ((self.new ≡ self.old) × (bytes.new ≡ bytes.old)) }
    {
        let rest = self.window.bytes();
        let count = rest.len();
        bytes.extend(rest)?;
        self.pass(count);
        Ok(())
    }

    /// Gives the next line, without its LF and a CR before it, into `line`; at every other answer
    /// `line` is empty.
    ///
    /// `End` comes where the source gave its end of input and every line was given.
    ///
    /// # Errors
    ///
    /// `ReadFault` only where the source's count of faults rose since these lines were made, after
    /// every line that was taken with its LF. `LineLong` exactly where the next line has no LF
    /// among its first 65,536 bytes. `TooLong` exactly where the source gave one byte more than
    /// `MOST_BYTES` and every line with its LF before that byte was given. After these three
    /// nothing changes, and each further call answers the same. `Memory` for want of memory; the
    /// next call answers the same line.
    pub fn next_line(&mut self, line: &mut Bytes) -> Result<LineStep, LineFault>
        ensures gave { Gave S.seen self.old self.new (lines_given result line.new) }
        ensures comes { ComesWhere result self.new }
        ensures line_only { IsLineOnly result line.new }
        ensures few { result ≡ Ok LineStep.Line → self.new.given ≤ most_bytes }
        // No more bytes were taken in all.
        ensures bounded { self.new.passed + length self.new.pending ≤ most_bytes + 1 }
        // Where no line is left, and the bytes stop for good, the answer is the one of the way in
        // which they stop.
        ensures again { (stop : Stop) → IsStopped self.old stop
            → (self.new ≡ self.old) × (result ≡ answer_at stop) }
    {
        line.clear();
        self.append_line(line)
    }

    /// Adds the next line, without its LF and a CR before it, at the end of `bytes`; at every
    /// other answer `bytes` stays as it was.
    ///
    /// `End` comes where it does at `next_line`.
    ///
    /// # Errors
    ///
    /// Those of `next_line`, each where it has it. After `Memory` the next call answers the
    /// same line.
    pub fn append_line(&mut self, bytes: &mut Bytes) -> Result<LineStep, LineFault>
        // The line is what was added.
        ensures gave { Gave S.seen self.old self.new
            (lines_given result (drop (length bytes.old) bytes.new)) }
        ensures added { bytes.new ≡ bytes.old ++ drop (length bytes.old) bytes.new }
        ensures comes { ComesWhere result self.new }
        ensures line_only { IsLineOnly result (drop (length bytes.old) bytes.new) }
        ensures few { result ≡ Ok LineStep.Line → self.new.given ≤ most_bytes }
        // No more bytes were taken in all.
        ensures bounded { self.new.passed + length self.new.pending ≤ most_bytes + 1 }
        // Where no line is left, and the bytes stop for good, the answer is the one of the way in
        // which they stop.
        ensures again { (stop : Stop) → IsStopped self.old stop
            → (self.new ≡ self.old) × (result ≡ answer_at stop) }
    {
        match self.reach()? {
            Front::Line { count } => self.give_line(bytes, count)?,
            Front::Last if self.window.bytes().is_empty() => return Ok(LineStep::End),
            Front::Last => self.give_last(bytes)?,
        }
        Ok(LineStep::Line)
    }

    /// How many lines were given. It takes no memory.
    pub fn given(&self) -> u32
        ensures value { result ≡ self.now.given }
        ensures few { result ≤ most_bytes }
    {
        self.given
    }

    /// How many bytes were taken and belong to no line that was given: never more than the window
    /// of 65,536 holds. It takes no memory.
    pub fn ahead(&self) -> u32
        ensures value { result ≡ length self.now.pending }
        ensures few { result ≤ line_bytes }
    {
        self.window.bytes().len() as u32
    }

    /// Hands the source back. It takes no memory.
    pub fn give_back(self) -> S
        ensures { result ≡ self.source }
    {
        self.source
    }
}
