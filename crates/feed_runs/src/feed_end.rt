/// How a feed ended. Lines are counted from 1.
#[derive(Clone, Copy, PartialEq, Eq)]
pub enum FeedEnd {
    /// All of it was read.
    End,
    /// It ended inside the block that begins at this line.
    Cut { line: u32 },
    /// This line is too long.
    LineLong { line: u32 },
    /// It has more bytes than are read; so many were taken.
    TooLong { taken: u64 },
    /// It couldn't be read to its end.
    ReadFault,
    /// Memory ran out in the message that begins in this line, or at this line, which would have
    /// been given next.
    Memory { line: u32 },
}
