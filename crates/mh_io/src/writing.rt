ghost use Rattle.mh_io.specs.Sink.{PutsAll};

use crate::sink::Sink;

/// A sink failed after it took this many bytes.
#[derive(Clone, Copy, PartialEq, Eq)]
pub struct PutFault {
    /// How many bytes it took.
    pub put: usize,
}

/// Puts all the bytes into a sink. It takes no memory.
///
/// # Errors
///
/// `PutFault` only where the sink's count of faults rose: then a front of `put` bytes went out,
/// and not all.
pub fn put_all<K: Sink>(sink: &mut K, bytes: &[u8]) -> Result<(), PutFault>
    ensures { PutsAll (K.seen sink.old) (K.seen sink.new) bytes.now result }
{
    let mut put = 0;
    while put < bytes.len() {
        match sink.put(&bytes[put..]) {
            Ok(taken) => put += taken,
            Err(_) => return Err(PutFault { put }),
        }
    }
    Ok(())
}
