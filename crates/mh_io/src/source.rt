ghost use Rattle.std.specs.Prelude.{◌<◌, length};
ghost use Rattle.mh_io.specs.Source.{SourceSeen, TakesNext};

/// A source or a sink failed at this call, and its count of faults rose.
#[derive(Clone, Copy)]
pub struct Failed;

/// Bytes that come in, in pieces.
///
/// A source counts its faults, at most to 2^64 - 1. The count never falls, and stays at that value
/// once it is there. A source may tell its name, what it gave so far and what is left; each of
/// these stands at every answer that doesn't say otherwise, and the name never changes.
pub trait Source: Drop {
    ghost seen: { Self → SourceSeen };

    /// Takes the next bytes into the front of `buf`, and answers how many they are. 0 is the end
    /// of input.
    ///
    /// # Errors
    ///
    /// `Failed` only where the count of faults rose in this call; then nothing was taken.
    fn take(&mut self, buf: &mut [u8]) -> Result<usize, Failed>
        requires { 0 < length buf.old }
        ensures { TakesNext (seen self.old) (seen self.new) buf.old buf.new result };
}
