ghost use Rattle.std.specs.Prelude.{◌≡◌, ℕ, ◌+◌, ◌-◌, ◌<◌, ◌≤◌, List};
ghost use Rattle.std.specs.Prelude.{◌++◌, take, length, IfOk, IfErr, OnOk};
ghost use Rattle.std.specs.Io.KnownBytes.{IsAtEnd};
ghost use Rattle.mh_io.specs.Faults.{Rises};
ghost use Rattle.mh_io.specs.Source.{Takes, StopsAt};
ghost use Rattle.mh_io.specs.Limits.{most_bytes};

use crate::source::{Failed, Source};
use mh_units::Bytes;
use std::alloc::{AllocError, Global};

/// The most bytes that are read of one source: 32 MiB.
pub const MOST_BYTES: usize = 33_554_432;

/// The most bytes that are taken at one call.
const CHUNK_BYTES: usize = 65_536;

/// Why a source wasn't read to its end.
#[derive(Clone, Copy, PartialEq, Eq)]
pub enum ReadAllFault {
    /// The source failed, and its count of faults rose.
    ReadFault,
    /// The source gave this many bytes, one more than `MOST_BYTES`.
    TooLong { taken: u64 },
    /// Memory ran out.
    Memory,
}

impl From<AllocError> for ReadAllFault {
    ghost use Rattle.std.specs.Prelude.{◌≡◌};
    ghost use Rattle.mh_io.specs.declared.reading.ReadAllFault.TheVariants.{Memory};

    ghost from_gives = { λ _ fault. fault ≡ Memory };

    fn from(_error: AllocError) -> ReadAllFault {
        ReadAllFault::Memory
    }
}

impl From<Failed> for ReadAllFault {
    ghost use Rattle.std.specs.Prelude.{◌≡◌};
    ghost use Rattle.mh_io.specs.declared.reading.ReadAllFault.TheVariants.{ReadFault};

    ghost from_gives = { λ _ fault. fault ≡ ReadFault };

    fn from(_failed: Failed) -> ReadAllFault {
        ReadAllFault::ReadFault
    }
}

/// Reads a source to its end of input: all the bytes that were left, at most `MOST_BYTES`.
///
/// # Errors
///
/// `ReadFault` only where the source's count of faults rose. `TooLong` exactly where it gave one
/// byte more than `MOST_BYTES`. `Memory` for want of memory. What was taken before is taken.
pub fn read_all<S: Source>(alloc: Global, source: &mut S) -> Result<Bytes, ReadAllFault>
    ensures count { (S.seen source.old).faults ≤ (S.seen source.new).faults }
    ensures name { (S.seen source.new).name ≡ (S.seen source.old).name }

    ensures takes { IfOk result (λ bytes. Takes (S.seen source.old) (S.seen source.new) bytes) }
    ensures whole { IfOk result (λ _. IsAtEnd (S.seen source.new).left) }
    ensures few { IfOk result (λ bytes. length bytes ≤ most_bytes) }

    // At a fault some bytes were taken, so many as the fault tells.
    ensures stops { IfErr result (λ fault. (taken : List ℕ)
        × Takes (S.seen source.old) (S.seen source.new) taken × StopsAt fault (length taken)) }
    ensures failed { result ≡ Err ReadAllFault.ReadFault
        → Rises (S.seen source.old).faults (S.seen source.new).faults }
{
    let mut chunk = vec![in alloc; 0u8; CHUNK_BYTES]?;
    let mut bytes = Bytes::new(alloc);
    loop {
        let room = CHUNK_BYTES.min(MOST_BYTES + 1 - bytes.as_slice().len());
        if take_chunk(source, &mut chunk[..room], &mut bytes)? == 0 {
            return Ok(bytes);
        }
    }
}

/// Takes what comes next, by way of a buffer that has room for one byte too many at most, and adds
/// it to `bytes`.
fn take_chunk<S: Source>(
    source: &mut S,
    chunk: &mut [u8],
    bytes: &mut Bytes,
) -> Result<usize, ReadAllFault>
    requires buffer { 0 < length chunk.old }
    requires few { length bytes.old ≤ most_bytes }
    requires room { length bytes.old + length chunk.old ≤ most_bytes + 1 }
    ensures count { (S.seen source.old).faults ≤ (S.seen source.new).faults }
    ensures name { (S.seen source.new).name ≡ (S.seen source.old).name }

    ensures takes { IfOk result (λ n.
        Takes (S.seen source.old) (S.seen source.new) (take n chunk.new)) }
    ensures added { IfOk result (λ n. bytes.new ≡ bytes.old ++ take n chunk.new) }
    ensures grown { IfOk result (λ n. length bytes.new ≡ length bytes.old + n) }
    ensures still_few { OnOk result (length bytes.new ≤ most_bytes) }
    ensures end { IfOk result (λ n. n ≡ 0 → IsAtEnd (S.seen source.new).left) }

    ensures stops { IfErr result (λ fault.
        (taken : List ℕ) × Takes (S.seen source.old) (S.seen source.new) taken
        × StopsAt fault (length bytes.old + length taken)) }
    ensures failed { result ≡ Err ReadAllFault.ReadFault
        → Rises (S.seen source.old).faults (S.seen source.new).faults }
{
    let taken = source.take(chunk)?;
    let most = MOST_BYTES - bytes.as_slice().len();
    if taken > most {
        return Err(ReadAllFault::TooLong {
            taken: (MOST_BYTES + 1) as u64,
        });
    }
    bytes.extend(&chunk[..taken])?;
    Ok(taken)
}
