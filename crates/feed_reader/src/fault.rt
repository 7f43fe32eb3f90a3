ghost use Rattle.std.specs.Prelude.{◌≡◌};
ghost use Rattle.feed_reader.specs.Fault.{feed_fault_number};

/// Why a call for the next message gave none.
#[derive(Clone, Copy)]
pub enum FeedFault {
    /// This line outside a block is no message. The next call reads on with the next line.
    BadLine { line: u32 },
    /// The input ended inside the block that this line began. The next call answers that no
    /// message is left.
    Cut { line: u32 },
    /// This line has no LF among its first 65,536 bytes.
    LineLong { line: u32 },
    /// The source gave this many bytes, one more than `mh_io::MOST_BYTES`.
    TooLong { taken: u64 },
    /// The source failed, and its count of faults rose.
    ReadFault,
    /// There is no memory for the message that begins in this line, or for this line where no
    /// message had begun.
    Memory { line: u32 },
}

impl FeedFault {
    /// The fault's own number among the faults of a feed; want of memory has none.
    pub fn number(self) -> Option<u8>
        ensures { result ≡ feed_fault_number self }
    {
        match self {
            FeedFault::BadLine { .. } => Some(1),
            FeedFault::Cut { .. } => Some(2),
            FeedFault::LineLong { .. } => Some(3),
            FeedFault::TooLong { .. } => Some(4),
            FeedFault::ReadFault => Some(5),
            FeedFault::Memory { .. } => None,
        }
    }
}
