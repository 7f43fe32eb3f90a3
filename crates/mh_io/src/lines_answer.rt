use std::alloc::AllocError;

/// What a call for the next line answers.
#[derive(Clone, Copy, PartialEq, Eq)]
pub enum LineStep {
    /// The line is there.
    Line,
    /// The input ended, and every line was given.
    End,
}

/// Why no line was given.
#[derive(Clone, Copy, PartialEq, Eq)]
pub enum LineFault {
    /// The source failed, and every line that was taken with its LF was given.
    ReadFault,
    /// 65,536 bytes were taken with no LF among them.
    LineLong,
    /// The source gave this many bytes, one more than `MOST_BYTES`, and every line with its LF
    /// before the last of them was given.
    TooLong { taken: u64 },
    /// Memory ran out.
    Memory,
}

impl From<AllocError> for LineFault {
    ghost use Rattle.std.specs.Prelude.{◌≡◌};
    ghost use Rattle.mh_io.specs.declared.lines_answer.LineFault.TheVariants.{Memory};

    ghost from_gives = { λ _ fault. fault ≡ Memory };

    fn from(_error: AllocError) -> LineFault {
        LineFault::Memory
    }
}

/// Whether more bytes can be taken of a source.
#[derive(Clone, Copy)]
pub enum Supply {
    /// More may come.
    Open,
    /// The source gave its end of input.
    Ended,
    /// The source failed, and isn't asked again.
    Failed,
}

/// There was no memory; what was handed in comes back.
#[derive(Drop)]
pub struct MemoryBack<T> {
    /// What was handed in.
    pub back: T,
}

/// What stands at the front of the bytes that wait.
#[derive(Clone, Copy)]
pub(crate) enum Front {
    /// A line of this many bytes, and its LF.
    Line { count: usize },
    /// The last bytes of all, which may be none.
    Last,
}
