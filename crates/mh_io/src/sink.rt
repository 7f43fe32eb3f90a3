ghost use Rattle.mh_io.specs.Sink.{SinkSeen, Puts};

use crate::source::Failed;

/// Where bytes go out, in pieces.
///
/// A sink counts its faults, at most to 2^64 - 1. The count never falls, and stays at that value
/// once it is there. A sink may tell what it holds.
pub trait Sink {
    ghost seen: { Self → SinkSeen };

    /// Takes a front of `bytes`, and answers how many bytes that is: at least one, where there
    /// is one.
    ///
    /// # Errors
    ///
    /// `Failed` only where the count of faults rose in this call; then nothing went out.
    fn put(&mut self, bytes: &[u8]) -> Result<usize, Failed>
        ensures { Puts (seen self.old) (seen self.new) bytes.now result };
}
